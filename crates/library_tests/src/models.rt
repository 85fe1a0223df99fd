//! Laws of models. That models are read and refused is shown by rows.
use btor2::laws;

#[test]
fn laws_are_called() {
    laws::exactly_one_trace();
    laws::words_fit();
    laws::worked_traces();
    laws::worked_words();
    laws::words_of_states();
    laws::worked_free_states();
    laws::worked_given_words();
    laws::worked_refusals();
}

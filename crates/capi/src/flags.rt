//! What flags and positions of calls say.
ghost use Rattle.std.specs.Prelude.{◌≡◌, option_map};
ghost use Rattle.capi.specs.Flags.{about, choice_of, form_asked, given_of, guard_of, proof_form, shown_of, word_asked};

use aigertext::Form;
use certificates::ProofForm;
use invocation::{Certificate, Certified, Given};
use itoa::Buffer;
use vcd::Shown;

/// The form of a circuit that is asked for.
pub(crate) fn form_of(binary: bool) -> Form
    ensures { result ≡ form_asked binary }
{
    if binary { Form::Binary } else { Form::Ascii }
}

/// The form of a proof that is said to be in LRAT, or is not.
pub(crate) fn proof_form(lrat: bool) -> ProofForm
    ensures { result ≡ proof_form lrat }
{
    if lrat {
        ProofForm::Hinted
    } else {
        ProofForm::Plain
    }
}

/// Which nodes a dump shows.
pub(crate) fn shown_of(all: bool) -> Shown
    ensures { result ≡ shown_of all }
{
    if all { Shown::All } else { Shown::Named }
}

/// The bad property that is chosen, where one is.
pub(crate) fn choice_of(chosen: bool, bad: usize) -> Option<usize>
    ensures { result ≡ choice_of chosen bad }
{
    if chosen { Some(bad) } else { None }
}

/// The word that asks for it, as the program is asked.
pub(crate) fn word_asked(buffer: &mut Buffer, chosen: bool, bad: usize) -> Option<&str>
    ensures { option_map (λ word. word.now) result ≡ word_asked chosen bad }
{
    if chosen {
        Some(buffer.format(bad as u64))
    } else {
        None
    }
}

/// What a text gives that is said to be in AIGER, or is not.
fn given_of(aiger: bool) -> Given
    ensures { result ≡ given_of aiger }
{
    if aiger { Given::Circuit } else { Given::Model }
}

/// A witness circuit of an engine form, or of the circuit.
pub(crate) fn guard_of(over_form: bool) -> Certificate
    ensures { result ≡ guard_of over_form }
{
    if over_form {
        Certificate::CircuitOfForm
    } else {
        Certificate::Circuit
    }
}

/// What a certificate of a kind is about: the bad property at a position, of a text that is said to be in AIGER, or is not.
pub(crate) fn about(aiger: bool, kind: Certificate, bad: usize) -> Certified
    ensures { result ≡ about aiger kind bad }
{
    Certified {
        given: given_of(aiger),
        by: kind,
        choice: Some(bad),
    }
}

//! The two forms of a circuit's text.
ghost use Rattle.std.specs.Prelude.{◌≡◌, ◌∷◌, []};
ghost use Rattle.aigertext.specs.Ascii.{form_word};

/// The two forms of a circuit's text.
#[derive(Clone, Copy, PartialEq, Eq)]
pub enum Form {
    /// The first word is `aag`; each input, latch, property and gate has a line of decimals.
    Ascii,
    /// The first word is `aig`; inputs have no lines, a latch's line lacks its own literal, and a gate is two
    /// deltas, a byte for each seven bits.
    Binary,
}

impl Form {
    /// The letter in the middle of the form's word.
    pub(crate) fn letter(self) -> u8
        ensures { form_word self ≡ 97 ∷ result ∷ 103 ∷ [] }
    {
        match self {
            Form::Ascii => b'a',
            Form::Binary => b'i',
        }
    }
}

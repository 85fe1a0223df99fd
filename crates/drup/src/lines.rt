//! Lines of words, of which the text of a proof is made.
ghost use Rattle.std.specs.Prelude.{◌≡◌, nat_lt};
ghost use Rattle.drup.specs.Proofs.{is_proof_blank, most_proof_lines};

/// The most lines of a proof, and the most steps in the binary form, 2^62.
const MOST_LINES: u64 = 4611686018427387904;

/// Where the next byte stands.
#[derive(Clone, Copy)]
pub enum Place {
    /// It is the first of a line.
    Begins,
    /// It is in a line of words.
    Within,
    /// It is in a comment.
    Comment,
}

/// Whether a byte is a space, a tab or a carriage return.
pub fn is_blank(byte: u8) -> bool
    ensures { result ≡ is_proof_blank byte }
{
    byte == b' ' || byte == b'\t' || byte == b'\r'
}

/// Whether a line, or a step, is one too many.
pub fn is_too_many(line: u64) -> bool
    ensures { result ≡ nat_lt most_proof_lines line }
{
    line > MOST_LINES
}

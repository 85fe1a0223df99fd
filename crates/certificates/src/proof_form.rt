//! In which form the proof of a certificate is.

/// In which form a proof is, and so by what its steps are judged. Either form is a text or binary, which the first bytes of the
/// proof tell.
#[derive(Clone, Copy, PartialEq, Eq)]
pub enum ProofForm {
    /// Steps without hints (DRAT): each is judged by unit propagation over all clauses that stand.
    Plain,
    /// Steps with hints (LRAT): each is judged by its hints alone.
    Hinted,
}

//! What is told of a witness.

ghost use Rattle.std.specs.Prelude.{◌≡◌};
ghost use Rattle.verbs.specs.Asked.{is_claim_noted, is_noted, outcome};

use rises::FirstRises;
use witness::Judgement;

/// What is told of a witness: how it is judged; or that it is accepted, and does not claim the bad property at this position,
/// which is asked for.
#[derive(Clone, Copy)]
pub enum Outcome {
    /// How it is judged.
    Judged(Judgement),
    /// It is accepted without that claim.
    Unclaimed(usize),
}

/// Whether a first frame is noted of the bad property that is asked for, where one is.
fn is_claim_noted(firsts: &FirstRises, claim: Option<usize>) -> bool
    ensures { result ≡ is_claim_noted claim firsts.now }
{
    match claim {
        Some(position) => firsts.frame(position).is_some(),
        None => true,
    }
}

/// What is told of a witness that is judged so, by the first frames of what it claims and by what is asked for.
pub(crate) fn outcome_of(
    judgement: &Judgement,
    firsts: &FirstRises,
    claim: Option<usize>,
) -> Outcome
    ensures { result ≡ outcome claim (is_claim_noted claim firsts.now) judgement.now }
{
    let claimed = is_claim_noted(firsts, claim);
    match (judgement, claim) {
        (Judgement::Accepted { .. }, Some(position)) if !claimed => Outcome::Unclaimed(position),
        _ => Outcome::Judged(*judgement),
    }
}

//! What a run of a model says in one frame, what was found in frames, and the line behind the last whole one.
ghost use Rattle.std.specs.Prelude.{◌≡◌, ℕ, ◌<◌, Bool, List, IfSome, length, false, true, slice_get, nat_le};
ghost use Rattle.std.specs.Option.{option_or};
ghost use Rattle.btor2.specs.Items.{is_state, is_bad, init_word};
ghost use Rattle.btor2.specs.Check.{IsWellFormed};
ghost use Rattle.btor2.specs.Lists.{places, of_kind};
ghost use Rattle.btor2.specs.Trace.{Frame};
ghost use Rattle.runs.specs.Run.{IsNow};
ghost use Rattle.btor2.specs.Reachability.{nodes_of};
ghost use Rattle.witness.specs.Judgements.{differs, first_different, violated_at, first_of};
ghost use Rattle.witness.specs.Fits.{first_violated, first_unreached, RisesIn, RisesAmong, NoneIsSet, AreClaimed};
ghost use Rattle.witness.specs.Texts.{most_lines};
ghost use Rattle.witness.specs.Readings.{last_refusal};

use crate::judgement::Judgement;
use crate::why::Why;
use btor2::Model;
use runs::WordRun;

/// The most lines of a witness.
const MOST_LINES: u64 = 1 << 62;

/// Whether so many lines are the most, so that none may follow.
pub(crate) fn are_most(lines: u64) -> bool
    ensures { result ≡ nat_le most_lines lines }
{
    lines >= MOST_LINES
}

/// Why the line is refused that follows so many whole lines and does not end, if it is.
pub(crate) fn last_refusal(ended: bool, admitted: u64, empty: bool) -> Option<Why>
    ensures { result ≡ last_refusal ended admitted empty }
{
    if ended && empty {
        return None;
    }
    if are_most(admitted) && !empty {
        return Some(Why::TooLong);
    }
    if ended {
        return Some(Why::Trailing);
    }
    Some(Why::Truncated)
}

/// A frame and a constraint that does not hold in it, both counted from 0.
#[derive(Clone, Copy, PartialEq, Eq)]
pub struct Breach {
    pub(crate) frame: u64,
    pub(crate) constraint: u64,
}

impl std::marker::Model for Breach {
    ghost use Rattle.witness.specs.Judgements.{Violation};

    ghost Value = { Violation };

    ghost view = { λ b. record { frame = b.frame; constraint = b.constraint } };

    ghost inverse = { λ v. record { frame = v.frame; constraint = v.constraint } };
}

/// What is judged of a whole witness of so many frames: by the first initial value that differs, else the first breach, else
/// the first claim that is not reached.
pub fn judgement_of(
    differs: Option<u64>,
    breach: Option<Breach>,
    unreached: Option<u64>,
    frames: u64,
) -> Judgement
    ensures { result ≡ first_of differs breach unreached frames }
{
    if let Some(index) = differs {
        return Judgement::InitDiffers { index };
    }
    if let Some(breach) = breach {
        return Judgement::Violated {
            frame: breach.frame,
            constraint: breach.constraint,
        };
    }
    if let Some(claim) = unreached {
        return Judgement::NotReached { claim };
    }
    Judgement::Accepted { frames }
}

/// Whether a word is another than a constant, where there is one.
fn differs(constant: Option<u64>, word: u64) -> bool
    ensures { result ≡ differs constant word }
{
    match constant {
        Some(constant) => constant != word,
        None => false,
    }
}

/// Whether a state has an init line and another word than that. `k` counts the states.
fn differs_from_init(model: &Model, run: &WordRun<'_>, k: usize) -> bool
    requires same { run.now.items ≡ model.now }
    requires well_formed { IsWellFormed model.now }
    requires settled { run.now.settled ≡ true }
    requires there { k < length (places is_state 0 model.now) }
    ensures { (f : Frame) → IsNow run.now f → IfSome (slice_get (of_kind is_state model.now) k)
        (λ x. result ≡ differs (init_word model.now x.id) (f x.id)) }
{
    match model.init_of(k) {
        Some(place) => differs(model.constant(place), run.value(model.states()[k])),
        None => false,
    }
}

/// The first state whose word is not that of its init line.
pub(crate) fn first_different(model: &Model, run: &WordRun<'_>) -> Option<u64>
    requires same { run.now.items ≡ model.now }
    requires well_formed { IsWellFormed model.now }
    requires settled { run.now.settled ≡ true }
    ensures { (f : Frame) → IsNow run.now f → result ≡ first_different model.now f }
{
    for k in 0..model.states().len() {
        if differs_from_init(model, run, k) {
            return Some(k as u64);
        }
    }
    None
}

/// The first constraint that does not hold.
pub(crate) fn first_violated(model: &Model, run: &WordRun<'_>) -> Option<u64>
    requires same { run.now.items ≡ model.now }
    requires settled { run.now.settled ≡ true }
    ensures { (f : Frame) → IsNow run.now f → result ≡ first_violated model.now f }
{
    for i in 0..model.constraints().len() {
        if !run.constraint(i) {
            return Some(i as u64);
        }
    }
    None
}

/// Sets the flags of the bad properties that rise.
pub(crate) fn note_rises(run: &WordRun<'_>, rose: &mut [bool])
    requires many { length rose.old ≡ length (places is_bad 0 run.now.items) }
    requires settled { run.now.settled ≡ true }
    ensures { (f : Frame) → IsNow run.now f
        → RisesIn (nodes_of is_bad run.now.items) f rose.old rose.new }
{
    for i in 0..rose.len() {
        rose[i] |= run.bad(i);
    }
}

/// Notes the constraint that does not hold in a frame, where there is one and no breach was found before.
pub fn note_breach(found: &mut Option<Breach>, frame: u64, violated: Option<u64>)
    ensures { found.new ≡ option_or found.old (violated_at frame violated None) }
{
    if found.is_some() {
        return;
    }
    if let Some(constraint) = violated {
        *found = Some(Breach { frame, constraint });
    }
}

/// The first bad property that is claimed and does not rise, by two flags for each.
pub(crate) fn first_unreached(claimed: &[bool], rose: &[bool]) -> Option<u64>
    requires many { length claimed.now ≡ length rose.now }
    ensures { (claims nodes : List ℕ) (fs : List Frame) (none : List Bool)
        → AreClaimed claimed.now claims → length nodes ≡ length rose.now → NoneIsSet none
        → RisesAmong nodes fs none rose.now → result ≡ first_unreached claims fs 0 nodes }
{
    for i in 0..rose.len() {
        if claimed[i] & !rose[i] {
            return Some(i as u64);
        }
    }
    None
}

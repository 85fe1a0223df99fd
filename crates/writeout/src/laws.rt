//! Worked rows of what is written how and what it needs, as functions with no code.
ghost use Rattle.std.specs.Prelude.{◌≡◌, [], ◌∷◌, negsuc};
ghost use Rattle.btor2.specs.declared.item.Body.TheVariants as body;
ghost use Rattle.full.specs.Worked.{memory, filled};
ghost use Rattle.writeout.specs.declared.fault.WriteFault.TheVariants as fault;
ghost use Rattle.writeout.specs.declared.way.Way.TheVariants as way;
ghost use Rattle.writeout.specs.Ways.{way_of};
ghost use Rattle.writeout.specs.Needs.{needed, row_of, IsLineOrder, IsCircle};
ghost use Rattle.writeout.specs.Faults.{NoneIsLive, IsLiveFault};
ghost use Rattle.writeout.specs.Worked.{begun, begun_state, circular, held, fair_before};

/// Worked rows: the array of the memory has no init line, and its state of words begins with an input. A state of words begins with a
/// constant as it is, one of arrays with zeros or ones, however these are said; with another word in each cell it is written by its
/// first word, and with an operand with a minus.
#[tactic(auto, unfolding(crate::specs::Ways::way_of))]
pub fn worked_ways()
    ensures open { way_of memory 6 ≡ way.Open }
    ensures input { way_of memory 9 ≡ way.First }
    ensures minus { way_of filled 5 ≡ way.First }
    ensures words { way_of (held 2 1 (body.Zero 1)) 4 ≡ way.Constant }
    ensures zeros { way_of (held 2 2 (body.Zero 1)) 4 ≡ way.Zeros }
    ensures ones { way_of (held 2 2 (body.Ones 1)) 4 ≡ way.Ones }
    ensures one { way_of (held 2 2 (body.One 1)) 4 ≡ way.First }
    ensures bit { way_of (held 1 2 (body.One 1)) 4 ≡ way.Ones }
    ensures said_zeros { way_of (held 2 2 (body.Const 1 2 0)) 4 ≡ way.Zeros }
    ensures said_ones { way_of (held 2 2 (body.Consth 1 1 3)) 4 ≡ way.Ones }
    ensures negative { way_of (held 2 2 (body.Constd 1 (negsuc 0))) 4 ≡ way.Ones }
    ensures other { way_of (held 2 2 (body.Const 1 2 2)) 4 ≡ way.First }
{}

/// Worked rows: a state needs the input that it begins with, which stands at place 2, and so stands behind it.
#[tactic(auto, unfolding(crate::specs::Ways::way_of))]
pub fn worked_needs()
    ensures state { needed begun begun_state ≡ 3 ∷ [] }
    ensures row { row_of begun begun_state ≡ 2 ∷ [] }
    ensures order { IsLineOrder begun (0 ∷ 2 ∷ 1 ∷ 3 ∷ []) }
    ensures before { ¬ IsLineOrder begun (0 ∷ 1 ∷ 2 ∷ 3 ∷ []) }
    ensures missing { ¬ IsLineOrder begun (0 ∷ 2 ∷ 1 ∷ []) }
{}

/// Worked rows: a state that begins with its own negation lies on a circle, and so does the negation. One that begins with an input lies
/// on none.
pub fn worked_circles()
    ensures state { IsCircle circular 2 }
    ensures negation { IsCircle circular 3 }
    ensures none { ¬ IsCircle begun 2 }
{}

/// Worked rows: a line of fairness is told by its id, and neither as one of justice nor as a circle.
pub fn worked_faults()
    ensures none { NoneIsLive begun }
    ensures some { ¬ NoneIsLive (fair_before begun) }
    ensures fair { IsLiveFault (fair_before begun) (fault.Fair 1) }
    ensures circle { ¬ IsLiveFault (fair_before begun) (fault.Circle 1) }
{}

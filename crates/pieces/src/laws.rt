//! Laws of words by nodes, as functions with no code.
ghost use Rattle.std.specs.Prelude.{◌≡◌, ℕ, List, [], ◌∷◌, map, true, false};
ghost use Rattle.btor2.specs.declared.item.Item.{Item};
ghost use Rattle.btor2.specs.Trace.{Frame};
ghost use Rattle.fit.specs.Gives.{Gives};
ghost use Rattle.pieces.specs.declared.node.Node.{Node};
ghost use Rattle.pieces.specs.Nodes.{MakesWord};
ghost use Rattle.base.specs.Operator.{concat_value};
ghost use Rattle.pieces.specs.declared.moves.Move.TheVariants as move;
ghost use Rattle.pieces.specs.Moves.{moved_value, low_bits, low_value, high_value};
ghost use Rattle.pieces.specs.Constants.{digits_value};
ghost use Rattle.btor2.specs.declared.item.Body.TheVariants as body;
ghost use Rattle.pieces.specs.Lines.{is_plain};

/// A law: nodes that make a word give it as pieces, by their ids.
pub fn nodes_give()
    ensures { (items : List Item) (bits : ℕ) (value : Frame → ℕ) (rs : List Node)
        → MakesWord items bits value rs → Gives items bits value (map (λ p. p.id) rs) }
{}

/// A law: numbers by digits of 64 bits, the lowest first.
pub fn worked_digits()
    ensures none { digits_value [] ≡ 0 }
    ensures two { digits_value (5 ∷ 1 ∷ []) ≡ 18446744073709551621 }
{}

/// A law: the word 1011 moved by one place, in two parts: turned to the left it is 0111, and to the right with its sign 1101.
pub fn worked_moves()
    ensures turned { concat_value (high_value move.TurnLeft 4 11 1) (low_bits move.TurnLeft 4 1)
        (low_value move.TurnLeft 4 11 1) ≡ 7 }
    ensures turned_whole { moved_value move.TurnLeft 4 11 1 ≡ 7 }
    ensures signed { concat_value (high_value move.Signed 4 11 1) (low_bits move.Signed 4 1)
        (low_value move.Signed 4 11 1) ≡ 13 }
    ensures signed_whole { moved_value move.Signed 4 11 1 ≡ 13 }
{}

/// A law: an operator is a plain line, a next line is none.
pub fn worked_lines()
    ensures plain { is_plain (body.Uext 1 2 3) ≡ true }
    ensures other { is_plain (body.Next 1 2 3) ≡ false }
{}

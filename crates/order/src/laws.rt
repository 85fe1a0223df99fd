//! Laws of orders and circles, as functions with no code.
ghost use Rattle.std.specs.Prelude.{◌≡◌, ℕ, ◌<◌, List, [], ◌∷◌, Some, length, slice_get, Contains};
ghost use Rattle.order.specs.Orders.{AreNumbers, IsOrder, IsInCircle};

/// Laws of orders: each number with a row stands in it, no other does, at one place alone, and there are as many places as rows.
pub fn places_in_orders()
    ensures stands { (needs : List (List ℕ)) (list : List ℕ) (k : ℕ) → IsOrder needs list
        → k < length needs → Contains list k }
    ensures within { (needs : List (List ℕ)) (list : List ℕ) (i k : ℕ) → IsOrder needs list
        → slice_get list i ≡ Some k → k < length needs }
    ensures apart { (needs : List (List ℕ)) (list : List ℕ) (i j k : ℕ) → IsOrder needs list
        → slice_get list i ≡ Some k → slice_get list j ≡ Some k → i ≡ j }
    ensures length { (needs : List (List ℕ)) (list : List ℕ) → IsOrder needs list
        → length list ≡ length needs }
{}

/// Laws of circles: where there is an order, no number lies on one; and a number that does has a row.
pub fn circles()
    ensures none { (needs : List (List ℕ)) (list : List ℕ) (k : ℕ) → IsOrder needs list
        → IsInCircle needs k → ⊥ }
    ensures within { (needs : List (List ℕ)) (k : ℕ) → IsInCircle needs k → k < length needs }
{}

/// Worked rows of needs: each number that is needed has a row, and one has none.
pub fn worked_needs()
    ensures all { AreNumbers ((2 ∷ 1 ∷ []) ∷ [] ∷ (1 ∷ []) ∷ []) }
    ensures none { AreNumbers ((2 ∷ 1 ∷ []) ∷ [] ∷ []) → ⊥ }
{}

/// Worked rows of orders: 0 needs 2 and 1, and 2 needs 1. A list in which 2 stands before 1 is no order, nor is one without 0 or
/// with 1 twice.
pub fn worked_orders()
    ensures order { IsOrder ((2 ∷ 1 ∷ []) ∷ [] ∷ (1 ∷ []) ∷ []) (1 ∷ 2 ∷ 0 ∷ []) }
    ensures before { IsOrder ((2 ∷ 1 ∷ []) ∷ [] ∷ (1 ∷ []) ∷ []) (2 ∷ 1 ∷ 0 ∷ []) → ⊥ }
    ensures missing { IsOrder ((2 ∷ 1 ∷ []) ∷ [] ∷ (1 ∷ []) ∷ []) (1 ∷ 2 ∷ []) → ⊥ }
    ensures twice { IsOrder ((2 ∷ 1 ∷ []) ∷ [] ∷ (1 ∷ []) ∷ []) (1 ∷ 2 ∷ 1 ∷ 0 ∷ []) → ⊥ }
{}

/// Worked rows of circles: 0 needs 1, 1 needs 2 and 2 needs 1. There 1 and 2 lie on a circle, and 0 on none. A number that needs
/// itself lies on one.
pub fn worked_circles()
    ensures one { IsInCircle ((1 ∷ []) ∷ (2 ∷ []) ∷ (1 ∷ []) ∷ []) 1 }
    ensures two { IsInCircle ((1 ∷ []) ∷ (2 ∷ []) ∷ (1 ∷ []) ∷ []) 2 }
    ensures none { IsInCircle ((1 ∷ []) ∷ (2 ∷ []) ∷ (1 ∷ []) ∷ []) 0 → ⊥ }
    ensures itself { IsInCircle ((0 ∷ []) ∷ []) 0 }
{}

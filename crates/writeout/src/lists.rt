//! What is known of each list that grows.
ghost use Rattle.std.specs.Prelude.{◌≡◌, ℕ, ◌≤◌, List, Option, None, Some, length, is_some, unwrap_or, true, false, ◌++◌, ◌∷◌, []};
ghost use Rattle.std.specs.List.{list_all};
ghost use Rattle.btor2.specs.declared.item.Item.{Item};
ghost use Rattle.btor2.specs.declared.item.Body.{Body};
ghost use Rattle.btor2.specs.declared.item.Body.TheVariants as body;
ghost use Rattle.btor2.specs.Items.{find_item, node_sort, operands, node_width, sort_width, names_state, constant_of, init_value, next_value};
ghost use Rattle.btor2.specs.Trace.{bits_of};
ghost use Rattle.btor2.specs.Check.{widths_agree, slice_is_out_of_range};
ghost use Rattle.wide.specs.WideModels.{greatest_width, IsWideModel, constant_fits_within};
ghost use Rattle.cells.specs.Kept.{IsSound};
ghost use Rattle.cells.specs.Lines.{IsNumbered};

use cells::ListMaker;
use cells::laws::{ids_are_places, lines_are_sound};

/// A list is a model of words, its ids are its places from 1 on, and which lines no row refuses.
pub(crate) fn know_list(maker: &ListMaker)
    ensures model { IsWideModel greatest_width maker.now }
    ensures numbered { IsNumbered maker.now }
    ensures within { (items : List Item) (id : ℕ) → IsNumbered items → is_some (find_item items id) ≡ true
        → (1 ≤ id) × (id ≤ length items) }
    ensures node { (items : List Item) (b : Body) (s n : ℕ) → node_sort b ≡ Some s → sort_width items s ≡ Some n
        → list_all (λ a. is_some (node_width items a)) (operands b) ≡ true
        → slice_is_out_of_range items b ≡ false
        → widths_agree (λ k. unwrap_or (sort_width items k) 0) (bits_of items) b ≡ true
        → constant_fits_within greatest_width n b ≡ true → IsSound items b }
    ensures input { (items : List Item) (s n : ℕ) → sort_width items s ≡ Some n → IsSound items (body.Input s) }
    ensures state { (items : List Item) (s n : ℕ) → sort_width items s ≡ Some n → IsSound items (body.State s) }
    ensures init { (items : List Item) (s t v n w : ℕ) → names_state items t ≡ true
        → constant_of items v ≡ Some w → init_value items t ≡ None → sort_width items s ≡ Some n
        → node_width items t ≡ Some n → node_width items v ≡ Some n → IsSound items (body.Init s t v) }
    ensures next { (items : List Item) (s t v n : ℕ) → names_state items t ≡ true
        → next_value items t ≡ None → sort_width items s ≡ Some n
        → node_width items t ≡ Some n → node_width items v ≡ Some n → IsSound items (body.Next s t v) }
{
    let _lines = maker.model().lines();
    ids_are_places();
    lines_are_sound();
}

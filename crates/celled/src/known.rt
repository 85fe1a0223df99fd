//! What is known of each list that grows.
ghost use Rattle.std.specs.Prelude.{◌≡◌, ℕ, ◌≤◌, List, Some, None, length, is_some, unwrap_or, true, false};
ghost use Rattle.std.specs.List.{list_all};
ghost use Rattle.btor2.specs.declared.item.Item.{Item};
ghost use Rattle.btor2.specs.declared.item.Body.{Body};
ghost use Rattle.btor2.specs.declared.item.Body.TheVariants as body;
ghost use Rattle.btor2.specs.Items.{find_item, node_sort, operands, node_width, sort_width, names_state, constant_of, init_value, next_value};
ghost use Rattle.btor2.specs.Trace.{Frame, bits_of};
ghost use Rattle.btor2.specs.Check.{widths_agree, slice_is_out_of_range};
ghost use Rattle.wide.specs.WideModels.{greatest_width, IsWideModel, constant_fits_within};
ghost use Rattle.full.specs.Gives.{GivesWord};
ghost use Rattle.cells.specs.Kept.{IsSound};
ghost use Rattle.cells.specs.Lines.{IsNumbered};

use cells::ListMaker;
use cells::laws::{ids_are_places, lines_are_sound};
use full::laws::nodes_give;

/// A list is a model of words, its ids are its places from 1 on; which lines no row refuses; and that a node gives its own word.
pub(crate) fn know_list(maker: &ListMaker)
    ensures model { IsWideModel greatest_width maker.now }
    ensures numbered { IsNumbered maker.now }
    ensures within { (items : List Item) (id : ℕ) → IsNumbered items → is_some (find_item items id) ≡ true
        → (1 ≤ id) × (id ≤ length items) }
    ensures input { (items : List Item) (s n : ℕ) → sort_width items s ≡ Some n → IsSound items (body.Input s) }
    ensures state { (items : List Item) (s n : ℕ) → sort_width items s ≡ Some n → IsSound items (body.State s) }
    ensures itself { (items : List Item) (bits w : ℕ) → node_width items w ≡ Some bits
        → GivesWord items bits (λ (g : Frame). g w) w }
{
    let _lines = maker.model().lines();
    ids_are_places();
    lines_are_sound();
    nodes_give();
}

//! Whole models, written out.
ghost use Rattle.std.specs.Prelude.{◌≡◌, [], map, IfOk, IfErr};
ghost use Rattle.btor2.specs.Items.{is_state};
ghost use Rattle.full.specs.Lines.{full_ids};
ghost use Rattle.full.specs.WrittenOut.{Places, IsWrittenOut};
ghost use Rattle.writeout.specs.Needs.{IsLineOrder};
ghost use Rattle.writeout.specs.Faults.{NoneIsLiveItem, NoneIsLive, IsUnwritten};

use crate::fault::WriteFault;
use crate::known::know;
use crate::late::put_late;
use crate::leaves::put_leaves;
use crate::lists::know_list;
use crate::live::first_live;
use crate::ordered::ordered;
use crate::putting::put_nodes;
use crate::states::{States, of_states};
use cells::{ListMaker, Shortage};
use fullmodel::FullModel;
use std::alloc::Global;
use wide::WideModel;

/// A model written out, and where the list has the words of the model's states. Of each state there are two ids, in file order.
#[derive(Drop)]
pub struct Written {
    /// The list.
    pub wide: WideModel,
    /// The nodes that have the words of the states.
    pub nodes: Vec<u32>,
    /// The states of the list that are those of the states.
    pub leaves: Vec<u32>,
}

/// Writes a model out by the order of its nodes, and answers where the list has the words of its states.
fn put_all(
    alloc: Global,
    full: &FullModel,
    maker: &mut ListMaker,
    list: &[u32],
) -> Result<States, Shortage>
    requires empty { maker.old ≡ [] }
    requires order { IsLineOrder full.now list.now }
    ensures written { IfOk result (λ s. (p : Places) × IsWrittenOut full.now p maker.new
        × ((s.nodes.items ≡ map p.node (full_ids is_state full.now))
        × (s.leaves.items ≡ map p.leaf (full_ids is_state full.now)))) }
    ensures forms { IfOk result (λ s. NoneIsLiveItem maker.new) }
{
    let mut tables = put_leaves(alloc, full, maker)?;
    put_nodes(alloc, full, &mut tables, maker, list)?;
    put_late(alloc, full, &tables, maker)?;
    know(full);
    know_list(maker);
    let nodes = of_states(alloc, full, tables.nodes.as_slice())?;
    let leaves = of_states(alloc, full, tables.leaves.as_slice())?;
    Ok(States { nodes, leaves })
}

/// Writes a model out as `write_out` does, and answers of each state of the model where the list has its word: the node of its
/// word, and its own state.
///
/// Errors: those of `write_out`.
#[tactic(auto, using(crate::proofs::LiveLemmas::live_unwritten, crate::proofs::LiveLemmas::order_unwritten, crate::proofs::LiveLemmas::wanting_unwritten))]
pub fn write_out_with_nodes(alloc: Global, full: &FullModel) -> Result<Written, WriteFault>
    ensures written { IfOk result (λ w. (p : Places) × IsWrittenOut full.now p w.wide
        × ((w.nodes.items ≡ map p.node (full_ids is_state full.now))
        × (w.leaves.items ≡ map p.leaf (full_ids is_state full.now)))) }
    ensures forms { IfOk result (λ w. NoneIsLiveItem w.wide) }
    ensures none { IfOk result (λ w. NoneIsLive full.now) }
    ensures refused { IfErr result (IsUnwritten full.now) }
{
    first_live(full.lines())?;
    let list = ordered(alloc, full)?;
    let mut maker = ListMaker::new(alloc);
    let states = put_all(alloc, full, &mut maker, list.as_slice())?;
    Ok(Written {
        wide: maker.finish(),
        nodes: states.nodes,
        leaves: states.leaves,
    })
}

/// Writes a model of the whole safety language out as a list of wide items: with words alone, without operands with a minus, and with inits by constants.
/// An array becomes the word of its cells; a state whose init is no constant a choice, by a state that is 1 in the first frame alone, of the init's value and
/// of its state.
///
/// Errors: the first line of justice or of fairness is told by its id, with `Justice` or `Fair`; `Circle` tells a node whose word in the first frame depends on itself;
/// `TooManyItems` says that the list has no room; `NoMemory`.
pub fn write_out(alloc: Global, full: &FullModel) -> Result<WideModel, WriteFault>
    ensures written { IfOk result (λ wide. (p : Places) × IsWrittenOut full.now p wide) }
    ensures forms { IfOk result (λ wide. NoneIsLiveItem wide) }
    ensures none { IfOk result (λ wide. NoneIsLive full.now) }
    ensures refused { IfErr result (IsUnwritten full.now) }
{
    let written = write_out_with_nodes(alloc, full)?;
    Ok(written.wide)
}

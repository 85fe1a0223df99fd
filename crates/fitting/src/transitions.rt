//! Init lines and next lines of states of more than one node, and outputs.
ghost use Rattle.std.specs.Prelude.{◌≡◌, true, is_some, None, OnOk, IfErr};
ghost use Rattle.std.specs.List.{AllByRecursion};
ghost use Rattle.btor2.specs.Items.{names_state, init_value, next_value};
ghost use Rattle.pieces.specs.Kept.{IsShort};
ghost use Rattle.pieces.specs.Nodes.{bits_in};
ghost use Rattle.pieces.specs.Cuts.{widths, IsWord};
ghost use Rattle.pieces.specs.Constants.{AreConstants};
ghost use Rattle.fitting.specs.Names.{names_from, word_names};
ghost use Rattle.fitting.specs.Steps.{AddsInits, AddsNexts, AddsOutputs, AreApart, IsLonger};

use crate::names::piece_symbol;
use btor2::Symbol;
use pieces::{Maker, Node, Shortage};
use std::alloc::Global;

/// The words that the nodes of a state begin with: those of constant nodes.
pub(crate) fn begin(maker: &mut Maker, state: &[Node], value: &[Node]) -> Result<(), Shortage>
    requires state { IsWord maker.old state.now }
    requires value { IsWord maker.old value.now }
    requires same { bits_in state.now ≡ bits_in value.now }
    requires states { AllByRecursion (λ p. names_state maker.old p.id ≡ true) state.now }
    requires constants { AreConstants maker.old value.now }
    requires first { AllByRecursion (λ p. init_value maker.old p.id ≡ None) state.now }
    requires distinct { AreApart state.now }
    ensures adds { OnOk result (AddsInits maker.old maker.new state.now value.now) }
    ensures grows { IfErr result (λ e. IsLonger maker.old maker.new) }
    ensures short { IfErr result (IsShort maker.new) }
{
    for k in 0..state.len() {
        maker.init(state[k], value[k])?;
    }
    Ok(())
}

/// The nodes whose words those of a state take in the next frame.
pub(crate) fn follow(maker: &mut Maker, state: &[Node], value: &[Node]) -> Result<(), Shortage>
    requires state { IsWord maker.old state.now }
    requires value { IsWord maker.old value.now }
    requires same { bits_in state.now ≡ bits_in value.now }
    requires states { AllByRecursion (λ p. names_state maker.old p.id ≡ true) state.now }
    requires first { AllByRecursion (λ p. next_value maker.old p.id ≡ None) state.now }
    requires distinct { AreApart state.now }
    ensures adds { OnOk result (AddsNexts maker.old maker.new state.now value.now) }
    ensures grows { IfErr result (λ e. IsLonger maker.old maker.new) }
    ensures short { IfErr result (IsShort maker.new) }
{
    for k in 0..state.len() {
        maker.next(state[k], value[k])?;
    }
    Ok(())
}

/// Outputs that show the nodes of a word of several. They have the name with the bits that they are.
fn show_pieces(
    alloc: Global,
    maker: &mut Maker,
    symbol: &Option<Symbol>,
    word: &[Node],
) -> Result<(), Shortage>
    requires word { IsWord maker.old word.now }
    ensures adds { OnOk result (AddsOutputs maker.old maker.new word.now
        (names_from symbol.now 0 (widths word.now))) }
    ensures grows { IfErr result (λ e. IsLonger maker.old maker.new) }
    ensures short { IfErr result (IsShort maker.new) }
{
    let mut lower = 0;
    for k in 0..word.len() {
        let name = piece_symbol(alloc, symbol, lower, word[k].width)?;
        maker.output(name, word[k])?;
        lower += word[k].width;
    }
    Ok(())
}

/// Outputs that show the nodes of a word. One node has the name, and several have that with the bits that they are.
pub(crate) fn show(
    alloc: Global,
    maker: &mut Maker,
    symbol: Option<Symbol>,
    word: &[Node],
) -> Result<(), Shortage>
    requires word { IsWord maker.old word.now }
    ensures adds { OnOk result (AddsOutputs maker.old maker.new word.now
        (word_names symbol (widths word.now))) }
    ensures grows { IfErr result (λ e. IsLonger maker.old maker.new) }
    ensures short { IfErr result (IsShort maker.new) }
{
    if word.len() != 1 {
        return show_pieces(alloc, maker, &symbol, word);
    }
    maker.output(symbol, word[0])?;
    Ok(())
}

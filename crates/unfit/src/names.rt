//! The names of a model's states and inputs.
ghost use Rattle.std.specs.Prelude.{◌≡◌, [], ◌∷◌, ◌++◌, IfOk, OnOk};
ghost use Rattle.wide.specs.Lines.{item_of};
ghost use Rattle.unfit.specs.Naming.{named_by, named_with, names_of};

use btor2::{Body, Symbol};
use std::alloc::{AllocError, Global};
use std::marker::Model;
use wide::{Line, WideModel};

/// The symbols of the states and of the inputs of a model, in file order: none where one has no symbol, or is not told.
///
/// Clauses see both lists.
#[derive(Drop)]
pub struct Names {
    /// Those of the states.
    pub states: Vec<Option<Symbol>>,
    /// Those of the inputs.
    pub inputs: Vec<Option<Symbol>>,
}

impl Model for Names {
    ghost use Rattle.unfit.specs.Joined.{Names as NamesValue};

    ghost Value = { NamesValue };

    ghost view = { λ n. record { states = n.states.items; inputs = n.inputs.items } };
}

/// A symbol, in memory of its own.
fn copied(alloc: Global, symbol: &Option<Symbol>) -> Result<Option<Symbol>, AllocError>
    ensures { IfOk result (λ copy. copy ≡ symbol.now) }
{
    match symbol {
        None => Ok(None),
        Some(symbol) => match Symbol::new(alloc, symbol.bytes()) {
            Ok(copy) => Ok(Some(copy)),
            Err(_) => Err(AllocError),
        },
    }
}

/// Adds a symbol, or that there is none, to a list.
fn put(list: &mut Vec<Option<Symbol>>, symbol: Option<Symbol>) -> Result<(), AllocError>
    ensures { OnOk result (list.new.items ≡ list.old.items ++ symbol ∷ []) }
{
    match list.push(symbol) {
        Ok(()) => Ok(()),
        Err(_) => Err(AllocError),
    }
}

impl Names {
    /// Adds the symbol of what has this form, or that it has none, where that is a state or an input.
    ///
    /// Error: a growth was refused.
    pub fn add(
        &mut self,
        alloc: Global,
        body: &Body,
        symbol: &Option<Symbol>,
    ) -> Result<(), AllocError>
        ensures { OnOk result (self.new ≡ named_by self.old body.now symbol.now) }
    {
        match body {
            Body::Input { .. } => {
                let name = copied(alloc, symbol)?;
                put(&mut self.inputs, name)
            }
            Body::State { .. } => {
                let name = copied(alloc, symbol)?;
                put(&mut self.states, name)
            }
            _ => Ok(()),
        }
    }

    /// Adds the name of a line.
    fn add_line(&mut self, alloc: Global, line: &Line) -> Result<(), AllocError>
        ensures { OnOk result (self.new ≡ named_with self.old (item_of line.now)) }
    {
        match line {
            Line::Item(item) => self.add(alloc, &item.body, &item.symbol),
            Line::Constant(_) => Ok(()),
        }
    }

    /// Those of a model.
    ///
    /// Error: a growth was refused.
    pub fn new(alloc: Global, model: &WideModel) -> Result<Names, AllocError>
        ensures { IfOk result (λ names. names ≡ names_of model.now) }
    {
        let mut names = Names {
            states: Vec::new(alloc),
            inputs: Vec::new(alloc),
        };
        let lines = model.lines();
        for line in lines {
            names.add_line(alloc, line)?;
        }
        Ok(names)
    }
}

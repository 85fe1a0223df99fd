//! What a witness needs to know of a model with words of any width.
ghost use Rattle.std.specs.Prelude.{◌≡◌, ◌+◌, ◌<◌, ◌^◌, [], ◌∷◌, ◌++◌, IfOk, OnOk};
ghost use Rattle.btor2.specs.Items.{is_free};
ghost use Rattle.btor2.specs.Lists.{first_init_without_next};
ghost use Rattle.btor2.specs.Trace.{bits_of};
ghost use Rattle.wide.specs.Lines.{item_of};
ghost use Rattle.witness.specs.Texts.{shape_of};
ghost use Rattle.rejoin.specs.Shapes.{lacking, with_item};

use btor2::{Body, Item};
use std::alloc::{AllocError, Global};
use wide::{Line, WideModel};

/// What a witness needs to know of a model with words of any width: how many bad properties it has, the widths of its states and
/// of its inputs in bits, and which of the states are free, in file order.
///
/// Clauses see the record of these.
#[derive(Drop)]
pub struct Shape {
    bads: u64,
    states: Vec<u64>,
    free: Vec<bool>,
    inputs: Vec<u64>,
}

impl std::marker::Model for Shape {
    ghost use Rattle.witness.specs.Texts.{Shape as ShapeValue};

    ghost Value = { ShapeValue };

    ghost view = { λ s. record { bads = s.bads; states = s.states.items; free = s.free.items; inputs = s.inputs.items } };
}

/// Adds a value to a list.
fn put<T: Copy>(list: &mut Vec<T>, value: T) -> Result<(), AllocError>
    ensures { OnOk result (list.new.items ≡ list.old.items ++ value ∷ []) }
{
    match list.push(value) {
        Ok(()) => Ok(()),
        Err(_) => Err(AllocError),
    }
}

/// The width of a node, and 0 where there is none.
fn width(model: &WideModel, id: u64) -> u64
    ensures { result ≡ bits_of model.now id }
{
    model.node_width(id).unwrap_or(0)
}

/// Whether a state is free: it has neither an init line nor a next line.
fn is_free(model: &WideModel, state: u64) -> bool
    ensures { result ≡ is_free model.now state }
{
    !model.has_init(state) && !model.has_next(state)
}

/// Whether a line is of a state that has an init line and no next line.
fn lacks_next(model: &WideModel, line: &Line) -> Option<u64>
    ensures { result ≡ lacking model.now (item_of line.now) }
{
    match line {
        Line::Item(item) => match item.body {
            Body::State { .. } => {
                if model.has_init(item.id) && !model.has_next(item.id) {
                    Some(item.id)
                } else {
                    None
                }
            }
            _ => None,
        },
        Line::Constant(_) => None,
    }
}

/// The id of the first state in file order that has an init line and no next line, if there is one: nothing says what it takes
/// after the first frame.
pub fn first_init_without_next(model: &WideModel) -> Option<u64>
    ensures { result ≡ first_init_without_next model.now model.now }
{
    let lines = model.lines();
    for line in lines {
        if let Some(id) = lacks_next(model, line) {
            return Some(id);
        }
    }
    None
}

impl Shape {
    /// Adds an item of a model.
    fn add(&mut self, model: &WideModel, item: &Item) -> Result<(), AllocError>
        requires few { self.old.bads + 1 < 2 ^ 64 }
        ensures { OnOk result (self.new ≡ with_item model.now self.old item.now) }
    {
        match item.body {
            Body::Input { .. } => put(&mut self.inputs, width(model, item.id)),
            Body::State { .. } => {
                put(&mut self.free, is_free(model, item.id))?;
                put(&mut self.states, width(model, item.id))
            }
            Body::Bad { .. } => {
                self.bads += 1;
                Ok(())
            }
            _ => Ok(()),
        }
    }

    /// Adds a line of a model.
    fn add_line(&mut self, model: &WideModel, line: &Line) -> Result<(), AllocError>
        requires few { self.old.bads + 1 < 2 ^ 64 }
        ensures { OnOk result (self.new ≡ with_item model.now self.old (item_of line.now)) }
    {
        match line {
            Line::Item(item) => self.add(model, item),
            Line::Constant(_) => Ok(()),
        }
    }

    /// That of a model.
    ///
    /// Error: a growth was refused.
    pub fn new(alloc: Global, model: &WideModel) -> Result<Shape, AllocError>
        ensures { IfOk result (λ shape. shape ≡ shape_of model.now) }
    {
        let mut shape = Shape {
            bads: 0,
            states: Vec::new(alloc),
            free: Vec::new(alloc),
            inputs: Vec::new(alloc),
        };
        let lines = model.lines();
        for line in lines {
            shape.add_line(model, line)?;
        }
        Ok(shape)
    }

    /// How many bad properties there are.
    pub fn bads(&self) -> u64
        ensures { result ≡ self.now.bads }
    {
        self.bads
    }

    /// The widths of the states.
    pub fn states(&self) -> &[u64]
        ensures { result.now ≡ self.now.states }
    {
        self.states.as_slice()
    }

    /// For each state whether it is free.
    pub fn free(&self) -> &[bool]
        ensures { result.now ≡ self.now.free }
    {
        self.free.as_slice()
    }

    /// The widths of the inputs.
    pub fn inputs(&self) -> &[u64]
        ensures { result.now ≡ self.now.inputs }
    {
        self.inputs.as_slice()
    }
}

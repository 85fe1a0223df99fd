//! What a judgement is about, and the lines of a model by their numbers.

ghost use Rattle.std.specs.Prelude.{◌≡◌, Bool, option_copied, option_map, slice_get};
ghost use Rattle.btor2.specs.declared.item.Body.{Body};
ghost use Rattle.btor2.specs.Lists.{places};
ghost use Rattle.fullmodel.specs.Lines.{line_of};
ghost use Rattle.verbs.specs.Subjects.{counts_of, item_name, line_name, lines_told, name_of, numbered_item};

use crate::whole_model::{Kind, WholeModel};
use aiger::Circuit;
use btor2::{Item, Model, Symbol};
use fullmodel::Line;

/// A model whose lines judgements tell by their numbers.
#[derive(Clone, Copy)]
pub enum Lines<'a> {
    /// One of the profile.
    Profile(&'a Model),
    /// One of the whole language.
    Whole(&'a WholeModel),
}

/// What names a line of a model.
#[derive(Clone, Copy)]
pub struct Named<'a> {
    /// Its id.
    pub id: u64,
    /// Its symbol, where it has one.
    pub symbol: &'a Option<Symbol>,
}

/// How many lines a model has, and how many of some kinds.
#[derive(Clone, Copy)]
pub struct Counts {
    /// All lines.
    pub lines: usize,
    /// The inputs.
    pub inputs: usize,
    /// The states.
    pub states: usize,
    /// The bad properties.
    pub bads: usize,
    /// The constraints.
    pub constraints: usize,
}

/// What a judgement is about.
#[derive(Clone, Copy)]
pub enum Subject<'a> {
    /// A model.
    Model(Lines<'a>),
    /// A circuit.
    Circuit(&'a Circuit),
    /// A model, by the circuit that lowers it.
    Lowered(Lines<'a>, &'a Circuit),
}

/// The place with a number among some.
pub(crate) fn place_at(list: &[usize], number: u64) -> Option<usize>
    ensures { result ≡ slice_get list.now number }
{
    list.get(number as usize).copied()
}

/// What stands at a place.
pub(crate) fn entry_at<T>(list: &[T], place: usize) -> Option<&T>
    ensures { option_copied result ≡ slice_get list.now place }
{
    list.get(place)
}

/// The item with a number among those of a model that stand at these places; none where there are not so many.
fn item_of<'a>(model: &'a Model, list: &[usize], number: u64) -> Option<&'a Item>
    ensures { (test : Body → Bool) → list.now ≡ places test 0 model.now
        → option_copied result ≡ numbered_item test model.now number }
{
    match place_at(list, number) {
        Some(place) => entry_at(model.items(), place),
        None => None,
    }
}

/// What names an item, where it is there.
fn named_item(item: Option<&Item>) -> Option<Named<'_>>
    ensures { option_map name_of result ≡ option_map item_name (option_copied item.entry) }
{
    match item {
        Some(item) => Some(Named {
            id: item.id,
            symbol: &item.symbol,
        }),
        None => None,
    }
}

/// What names a line of a model of the whole language, where it is there.
fn named_line(line: Option<&Line>) -> Option<Named<'_>>
    ensures { option_map name_of result ≡ option_map line_name (option_map line_of (option_copied line.entry)) }
{
    match line {
        Some(line) => Some(Named {
            id: line.id,
            symbol: &line.symbol,
        }),
        None => None,
    }
}

impl<'a> Lines<'a> {
    /// How many lines there are, and how many of some kinds.
    pub fn counts(self) -> Counts
        ensures { result ≡ counts_of self.entry }
    {
        match self {
            Lines::Profile(model) => Counts {
                lines: model.items().len(),
                inputs: model.inputs().len(),
                states: model.states().len(),
                bads: model.bads().len(),
                constraints: model.constraints().len(),
            },
            Lines::Whole(model) => Counts {
                lines: model.model().lines().len(),
                inputs: model.count(Kind::Input),
                states: model.count(Kind::State),
                bads: model.count(Kind::Bad),
                constraints: model.count(Kind::Constraint),
            },
        }
    }

    /// What names the bad property with a number; none where there are not so many.
    pub fn bad(self, number: u64) -> Option<Named<'a>>
        ensures { option_map name_of result ≡ (lines_told self.entry).bad number }
    {
        match self {
            Lines::Profile(model) => named_item(item_of(model, model.bads(), number)),
            Lines::Whole(model) => named_line(model.line(Kind::Bad, number)),
        }
    }

    /// What names the constraint with a number.
    pub fn constraint(self, number: u64) -> Option<Named<'a>>
        ensures { option_map name_of result ≡ (lines_told self.entry).constraint number }
    {
        match self {
            Lines::Profile(model) => named_item(item_of(model, model.constraints(), number)),
            Lines::Whole(model) => named_line(model.line(Kind::Constraint, number)),
        }
    }

    /// What names the state with a number.
    pub fn state(self, number: u64) -> Option<Named<'a>>
        ensures { option_map name_of result ≡ (lines_told self.entry).state number }
    {
        match self {
            Lines::Profile(model) => named_item(item_of(model, model.states(), number)),
            Lines::Whole(model) => named_line(model.line(Kind::State, number)),
        }
    }
}

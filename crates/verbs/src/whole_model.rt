//! A model of the whole language, with the lines that judgements tell by their numbers.

ghost use Rattle.std.specs.Prelude.{◌≡◌, ◌++◌, ◌∷◌, [], if◌then◌else◌, IfOk, OnOk, length, option_copied, option_map};
ghost use Rattle.fullmodel.specs.Lines.{line_of};
ghost use Rattle.full.specs.Lines.{is_form, lines_of};
ghost use Rattle.verbs.specs.Places.{ArePlaces};
ghost use Rattle.verbs.specs.Subjects.{numbered_line, test_of};

use crate::subjects::{entry_at, place_at};
use btor2::Body;
use fullmodel::{FullModel, Line, Says};
use std::alloc::{AllocError, Global};
use std::marker;

/// The lines that judgements tell by their numbers.
#[derive(Clone, Copy)]
pub(crate) enum Kind {
    /// The bad properties.
    Bad,
    /// The constraints.
    Constraint,
    /// The states.
    State,
    /// The inputs.
    Input,
}

/// Whether a form is of a kind.
fn is_form_of(kind: Kind, body: &Body) -> bool
    ensures { result ≡ test_of kind body.now }
{
    match (kind, body) {
        (Kind::Bad, Body::Bad { .. })
        | (Kind::Constraint, Body::Constraint { .. })
        | (Kind::State, Body::State { .. })
        | (Kind::Input, Body::Input { .. }) => true,
        _ => false,
    }
}

/// Whether a line is.
fn is_of(kind: Kind, line: &Line) -> bool
    ensures { result ≡ is_form (test_of kind) (line_of line.now).says }
{
    match &line.says {
        Says::Form { body, .. } => is_form_of(kind, body),
        _ => false,
    }
}

/// Puts the place of a line behind others, where the line is of a kind.
fn put_place(
    places: &mut Vec<usize>,
    kind: Kind,
    line: &Line,
    place: usize,
) -> Result<(), AllocError>
    ensures { OnOk result (places.new.items ≡ (if is_form (test_of kind) (line_of line.now).says
        then places.old.items ++ place ∷ [] else places.old.items)) }
{
    if is_of(kind, line) {
        places.push(place)?;
    }
    Ok(())
}

/// The places of the lines of a kind.
fn places_of(alloc: Global, model: &FullModel, kind: Kind) -> Result<Vec<usize>, AllocError>
    ensures { IfOk result (λ places. ArePlaces (test_of kind) model.now places.items) }
{
    let mut places = Vec::new(alloc);
    for (place, line) in model.lines().iter().enumerate() {
        put_place(&mut places, kind, line, place)?;
    }
    Ok(places)
}

/// A model of the whole language, and where the lines stand that judgements tell by their numbers.
///
/// Clauses see the list of its lines.
#[derive(Drop)]
pub struct WholeModel {
    model: FullModel,
    bads: Vec<usize>,
    constraints: Vec<usize>,
    states: Vec<usize>,
    inputs: Vec<usize>,
}

impl marker::Model for WholeModel {
    ghost use Rattle.std.specs.Prelude.{List};
    ghost use Rattle.btor2.specs.Items.{is_bad, is_constraint, is_input, is_state};
    ghost use Rattle.full.specs.Lines.{FullLine};
    ghost use Rattle.verbs.specs.Places.{ArePlaces};

    ghost Value = { List FullLine };

    ghost view = { λ w. w.model };

    ghost invariant = { λ w. ArePlaces is_bad w.model w.bads.items × ArePlaces is_constraint w.model w.constraints.items × ArePlaces is_state w.model w.states.items × ArePlaces is_input w.model w.inputs.items };
}

impl WholeModel {
    /// Finds the lines of a model that judgements tell by their numbers.
    ///
    /// Error: a growth was refused.
    pub fn new(alloc: Global, model: FullModel) -> Result<WholeModel, AllocError>
        ensures { IfOk result (λ w. w ≡ model) }
    {
        let bads = places_of(alloc, &model, Kind::Bad)?;
        let constraints = places_of(alloc, &model, Kind::Constraint)?;
        let states = places_of(alloc, &model, Kind::State)?;
        let inputs = places_of(alloc, &model, Kind::Input)?;
        Ok(WholeModel {
            model,
            bads,
            constraints,
            states,
            inputs,
        })
    }

    /// The model.
    pub fn model(&self) -> &FullModel
        ensures { result.now ≡ self.now }
    {
        &self.model
    }

    /// The places of the lines of a kind.
    fn places(&self, kind: Kind) -> &[usize]
        ensures { ArePlaces (test_of kind) self.now result.now }
    {
        match kind {
            Kind::Bad => self.bads.as_slice(),
            Kind::Constraint => self.constraints.as_slice(),
            Kind::State => self.states.as_slice(),
            Kind::Input => self.inputs.as_slice(),
        }
    }

    /// How many lines of a kind there are.
    pub(crate) fn count(&self, kind: Kind) -> usize
        ensures { result ≡ length (lines_of (test_of kind) self.now) }
    {
        self.places(kind).len()
    }

    /// The line with a number among those of a kind; none where there are not so many.
    pub(crate) fn line(&self, kind: Kind, number: u64) -> Option<&Line>
        ensures { option_map line_of (option_copied result) ≡ numbered_line (test_of kind) self.now number }
    {
        match place_at(self.places(kind), number) {
            Some(place) => entry_at(self.model.lines(), place),
            None => None,
        }
    }
}

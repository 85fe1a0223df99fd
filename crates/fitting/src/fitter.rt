//! Models with words of any width, fitted line by line.
use crate::constants::constant_word;
use crate::forms::operator_word;
use crate::leaves::leaves;
use crate::transitions::{begin, follow, show};
use crate::unfitted::{Unfitted, form_fault};
use crate::words::Words;
use btor2::{Body, Item, Model, Symbol};
use indexmap::IndexMap;
use pieces::{Maker, Node, Shortage, constant};
use std::alloc::Global;

/// A model with words of any width that is fitted into a model of the profile, as its lines come: what is held is the model of
/// the profile, and of the lines so far the widths of the sorts and the nodes of the words.
#[derive(Drop)]
pub struct Fitter {
    maker: Maker,
    // by the ids of sorts their widths
    sorts: IndexMap<u64, u64>,
    words: Words,
}

impl Fitter {
    ghost use Rattle.std.specs.Prelude.{◌≡◌, ◌<◌, ℕ, true, false, nat_eq, Bool, List, [], ◌∷◌, ◌++◌, length, Option, Some, None, unwrap_or, option_copied, IfOk, OnOk, IfErr, ◌+◌, ◌*◌, ◌≤◌};
    ghost use Rattle.std.specs.HashMap.{get};
    ghost use Rattle.btor2.specs.declared.item.Item.{Item};
    ghost use Rattle.btor2.specs.declared.item.Body.TheVariants as body;
    ghost use Rattle.btor2.specs.Items.{node_sort, sort_width, constant_word};
    ghost use Rattle.pieces.specs.Kept.{IsShort};
    ghost use Rattle.pieces.specs.Constants.{digits_value};
    ghost use Rattle.pieces.specs.Lines.{named};
    ghost use Rattle.fitting.specs.Forms.{is_operator, is_constant_line, form_fault, IsRefused};
    ghost use Rattle.fitting.specs.Fitted.{IsSoundLine, IsFitted};
    ghost use Rattle.fitting.specs.Steps.{leaf_body, IsLonger, Place, ConstantPlace};
    ghost use Rattle.fitting.specs.Models.{IsFit};
    ghost use Rattle.fitting.specs.Tables.{table_of, layout_of};

    /// A model of no lines.
    pub fn new(alloc: Global) -> Fitter
        ensures { IsFitted [] (table_of result) result.maker }
    {
        Fitter {
            maker: Maker::new(alloc, 1),
            sorts: IndexMap::new(alloc),
            words: Words::new(alloc),
        }
    }

    /// The model of the profile into which the lines are fitted. A node of more than 64 bits gives its name to its pieces, each
    /// with the bits that it is.
    pub fn finish(self) -> Model
        ghost wide: { List Item }
        requires fitted { IsFitted wide (table_of self) self.maker }
        ensures fit { (fit : IsFit wide result) × (fit.layout ≡ layout_of self) }
        ensures model { result ≡ self.maker }
    {
        let _items = self.maker.model().items();
        self.maker.finish()
    }

    /// The model of the profile so far.
    pub(crate) fn model(&self) -> &Model
        ensures { result.now ≡ self.now.maker }
    {
        self.maker.model()
    }

    /// The nodes of a word by its id, the lowest first. There are none where there is no such word.
    pub(crate) fn word(&self, id: u32) -> &[Node]
        ensures { result.now ≡ (table_of self.now).words id }
    {
        self.words.get(id)
    }

    /// The width of a sort.
    pub(crate) fn width(&self, sort: u32) -> u64
        ensures { result ≡ unwrap_or (get nat_eq self.now.sorts sort) 0 }
    {
        match self.sorts.get(&u64::from(sort)) {
            Some(width) => *width,
            None => 0,
        }
    }

    /// Adds the line of a sort.
    fn add_sort(&mut self, id: u64, width: u64) -> Result<(), Shortage>
        ghost at: { Place }
        requires fitted { IsFitted at.wide (table_of self.old) self.old.maker }
        requires sound { IsSoundLine at.wide (named id at.symbol (body.Sort width)) }
        ensures fitted { OnOk result (IsFitted (at.wide ++ named id at.symbol (body.Sort width) ∷ [])
            (table_of self.new) self.new.maker) }
        ensures grows { IfErr result (λ e. IsLonger self.old.maker self.new.maker) }
        ensures short { IfErr result (IsShort self.new.maker) }
    {
        match self.sorts.insert(id, width) {
            Ok(_) => Ok(()),
            Err(_) => Err(Shortage::NoMemory),
        }
    }

    /// Adds the line of an input, or else of a state.
    fn add_leaf(
        &mut self,
        alloc: Global,
        is_input: bool,
        id: u64,
        symbol: Option<Symbol>,
        sort: u32,
    ) -> Result<(), Shortage>
        ghost at: { Place }
        requires fitted { IsFitted at.wide (table_of self.old) self.old.maker }
        requires sound { IsSoundLine at.wide (named id at.symbol (leaf_body is_input sort)) }
        requires name { at.symbol ≡ symbol }
        ensures fitted { OnOk result (IsFitted (at.wide ++ named id at.symbol (leaf_body is_input sort) ∷ [])
            (table_of self.new) self.new.maker) }
        ensures grows { IfErr result (λ e. IsLonger self.old.maker self.new.maker) }
        ensures short { IfErr result (IsShort self.new.maker) }
    {
        let _items = self.maker.model().items();
        let width = self.width(sort);
        let nodes = leaves(alloc, &mut self.maker, is_input, symbol, width)?;
        self.words.put(id, nodes.as_slice())
    }

    /// Adds the line of an operator.
    fn add_operator(&mut self, alloc: Global, id: u64, body: &Body) -> Result<(), Shortage>
        ghost at: { Place }
        requires fitted { IsFitted at.wide (table_of self.old) self.old.maker }
        requires sound { IsSoundLine at.wide (named id at.symbol body.now) }
        requires form { is_operator body.now ≡ true }
        ensures fitted { OnOk result (IsFitted (at.wide ++ named id at.symbol body.now ∷ [])
            (table_of self.new) self.new.maker) }
        ensures grows { IfErr result (λ e. IsLonger self.old.maker self.new.maker) }
        ensures short { IfErr result (IsShort self.new.maker) }
    {
        let nodes = operator_word(alloc, &mut self.maker, &self.words, body)?;
        self.words.put(id, nodes.as_slice())
    }

    /// Adds the line of a constant.
    fn add_constant(
        &mut self,
        alloc: Global,
        id: u64,
        sort: u32,
        body: &Body,
    ) -> Result<(), Shortage>
        ghost at: { Place }
        requires fitted { IsFitted at.wide (table_of self.old) self.old.maker }
        requires sound { IsSoundLine at.wide (named id at.symbol body.now) }
        requires form { is_constant_line body.now ≡ true }
        requires sort { node_sort body.now ≡ Some sort }
        ensures fitted { OnOk result (IsFitted (at.wide ++ named id at.symbol body.now ∷ [])
            (table_of self.new) self.new.maker) }
        ensures grows { IfErr result (λ e. IsLonger self.old.maker self.new.maker) }
        ensures short { IfErr result (IsShort self.new.maker) }
    {
        let width = self.width(sort);
        let nodes = constant_word(alloc, &mut self.maker, width, body)?;
        let _items = self.maker.model().items();
        self.words.put(id, nodes.as_slice())
    }

    /// Adds the line of a constant by the digits of its word, of 64 bits each, the lowest first: of one that an item cannot hold.
    /// Where it is refused the fitter is of no more use.
    ///
    /// Conditions: as of `add`; the word of the constant, of `width` bits, is the number of these digits, which are as many as it
    /// takes.
    pub fn add_digits(
        &mut self,
        alloc: Global,
        id: u64,
        sort: u32,
        width: u64,
        digits: &[u64],
    ) -> Result<(), Shortage>
        ghost at: { ConstantPlace }
        requires fitted { IsFitted at.wide (table_of self.old) self.old.maker }
        requires sound { IsSoundLine at.wide (named id at.symbol at.body) }
        requires form { is_constant_line at.body ≡ true }
        requires sort { node_sort at.body ≡ Some sort }
        requires width { sort_width at.wide sort ≡ Some width }
        requires word { constant_word width at.body ≡ Some (digits_value digits.now) }
        requires enough { width ≤ 64 * length digits.now }
        requires few { 64 * length digits.now < width + 64 }
        ensures fitted { OnOk result (IsFitted (at.wide ++ named id at.symbol at.body ∷ [])
            (table_of self.new) self.new.maker) }
        ensures grows { IfErr result (λ e. IsLonger self.old.maker self.new.maker) }
        ensures short { IfErr result (IsShort self.new.maker) }
    {
        let nodes = constant(alloc, &mut self.maker, digits, width)?;
        let _items = self.maker.model().items();
        self.words.put(id, nodes.as_slice())
    }

    /// Adds an init line.
    fn add_init(&mut self, sort: u32, state: u32, value: u32) -> Result<(), Shortage>
        ghost at: { Place }
        requires fitted { IsFitted at.wide (table_of self.old) self.old.maker }
        requires sound { IsSoundLine at.wide (named at.id at.symbol (body.Init sort state value)) }
        ensures fitted { OnOk result
            (IsFitted (at.wide ++ named at.id at.symbol (body.Init sort state value) ∷ [])
            (table_of self.new) self.new.maker) }
        ensures grows { IfErr result (λ e. IsLonger self.old.maker self.new.maker) }
        ensures short { IfErr result (IsShort self.new.maker) }
    {
        let _items = self.maker.model().items();
        begin(
            &mut self.maker,
            self.words.get(state),
            self.words.get(value),
        )
    }

    /// Adds a next line.
    fn add_next(&mut self, sort: u32, state: u32, value: u32) -> Result<(), Shortage>
        ghost at: { Place }
        requires fitted { IsFitted at.wide (table_of self.old) self.old.maker }
        requires sound { IsSoundLine at.wide (named at.id at.symbol (body.Next sort state value)) }
        ensures fitted { OnOk result
            (IsFitted (at.wide ++ named at.id at.symbol (body.Next sort state value) ∷ [])
            (table_of self.new) self.new.maker) }
        ensures grows { IfErr result (λ e. IsLonger self.old.maker self.new.maker) }
        ensures short { IfErr result (IsShort self.new.maker) }
    {
        let _items = self.maker.model().items();
        follow(
            &mut self.maker,
            self.words.get(state),
            self.words.get(value),
        )
    }

    /// Adds the line of a bad property.
    fn add_bad(&mut self, symbol: Option<Symbol>, operand: u32) -> Result<(), Shortage>
        ghost at: { Place }
        requires fitted { IsFitted at.wide (table_of self.old) self.old.maker }
        requires sound { IsSoundLine at.wide (named at.id at.symbol (body.Bad operand)) }
        requires name { at.symbol ≡ symbol }
        ensures fitted { OnOk result (IsFitted (at.wide ++ named at.id at.symbol (body.Bad operand) ∷ [])
            (table_of self.new) self.new.maker) }
        ensures grows { IfErr result (λ e. IsLonger self.old.maker self.new.maker) }
        ensures short { IfErr result (IsShort self.new.maker) }
    {
        let node = self.words.get(operand)[0];
        self.maker.bad(symbol, node)?;
        Ok(())
    }

    /// Adds the line of a constraint.
    fn add_constraint(&mut self, symbol: Option<Symbol>, operand: u32) -> Result<(), Shortage>
        ghost at: { Place }
        requires fitted { IsFitted at.wide (table_of self.old) self.old.maker }
        requires sound { IsSoundLine at.wide (named at.id at.symbol (body.Constraint operand)) }
        requires name { at.symbol ≡ symbol }
        ensures fitted { OnOk result
            (IsFitted (at.wide ++ named at.id at.symbol (body.Constraint operand) ∷ [])
            (table_of self.new) self.new.maker) }
        ensures grows { IfErr result (λ e. IsLonger self.old.maker self.new.maker) }
        ensures short { IfErr result (IsShort self.new.maker) }
    {
        let node = self.words.get(operand)[0];
        self.maker.constraint(symbol, node)?;
        Ok(())
    }

    /// Adds the line of an output.
    fn add_output(
        &mut self,
        alloc: Global,
        symbol: Option<Symbol>,
        operand: u32,
    ) -> Result<(), Shortage>
        ghost at: { Place }
        requires fitted { IsFitted at.wide (table_of self.old) self.old.maker }
        requires sound { IsSoundLine at.wide (named at.id at.symbol (body.Output operand)) }
        requires name { at.symbol ≡ symbol }
        ensures fitted { OnOk result (IsFitted (at.wide ++ named at.id at.symbol (body.Output operand) ∷ [])
            (table_of self.new) self.new.maker) }
        ensures grows { IfErr result (λ e. IsLonger self.old.maker self.new.maker) }
        ensures short { IfErr result (IsShort self.new.maker) }
    {
        show(alloc, &mut self.maker, symbol, self.words.get(operand))
    }

    /// Adds a line of a form that is fitted.
    fn take(
        &mut self,
        alloc: Global,
        id: u64,
        symbol: Option<Symbol>,
        body: &Body,
    ) -> Result<(), Shortage>
        ghost at: { Place }
        requires fitted { IsFitted at.wide (table_of self.old) self.old.maker }
        requires sound { IsSoundLine at.wide (named at.id at.symbol body.now) }
        requires right { form_fault body.now ≡ None }
        requires name { at.symbol ≡ symbol }
        requires place { at.id ≡ id }
        ensures fitted { OnOk result (IsFitted (at.wide ++ named at.id at.symbol body.now ∷ [])
            (table_of self.new) self.new.maker) }
        ensures grows { IfErr result (λ e. IsLonger self.old.maker self.new.maker) }
        ensures short { IfErr result (IsShort self.new.maker) }
    {
        match body {
            Body::Sort { width } => self.add_sort(id, *width),
            Body::Input { sort } => self.add_leaf(alloc, true, id, symbol, *sort),
            Body::State { sort } => self.add_leaf(alloc, false, id, symbol, *sort),
            Body::Zero { sort } => self.add_constant(alloc, id, *sort, body),
            Body::One { sort } => self.add_constant(alloc, id, *sort, body),
            Body::Ones { sort } => self.add_constant(alloc, id, *sort, body),
            Body::Const { sort, .. } => self.add_constant(alloc, id, *sort, body),
            Body::Constd { sort, .. } => self.add_constant(alloc, id, *sort, body),
            Body::Consth { sort, .. } => self.add_constant(alloc, id, *sort, body),
            Body::Uext { .. } => self.add_operator(alloc, id, body),
            Body::Sext { .. } => self.add_operator(alloc, id, body),
            Body::Slice { .. } => self.add_operator(alloc, id, body),
            Body::Unary { .. } => self.add_operator(alloc, id, body),
            Body::Binary { .. } => self.add_operator(alloc, id, body),
            Body::Concat { .. } => self.add_operator(alloc, id, body),
            Body::Ite { .. } => self.add_operator(alloc, id, body),
            Body::Init { sort, state, value } => self.add_init(*sort, *state, *value),
            Body::Next { sort, state, value } => self.add_next(*sort, *state, *value),
            Body::Bad { operand } => self.add_bad(symbol, *operand),
            Body::Constraint { operand } => self.add_constraint(symbol, *operand),
            Body::Output { operand } => self.add_output(alloc, symbol, *operand),
            Body::Fair { .. } | Body::Justice { .. } => unreachable!(),
        }
    }

    /// Adds the line that follows the lines so far. Where it is refused the fitter is of no more use.
    ///
    /// Conditions: the lines so far were fitted, and no row of the profile refuses the line for what it says, but for the greatest
    /// width of a sort.
    ///
    /// Errors: `Fair` and `Justice` for such lines, else `Short`.
    pub fn add(&mut self, alloc: Global, item: Item) -> Result<(), Unfitted>
        ghost wide: { List Item }
        requires fitted { IsFitted wide (table_of self.old) self.old.maker }
        requires sound { IsSoundLine wide item }
        ensures fitted { OnOk result (IsFitted (wide ++ item ∷ []) (table_of self.new) self.new.maker) }
        ensures form { OnOk result (form_fault item.body ≡ None) }
        ensures grows { IfErr result (λ e. IsLonger self.old.maker self.new.maker) }
        ensures refused { IfErr result (IsRefused item.body self.new.maker) }
    {
        let Item { id, symbol, body } = item;
        if let Some(fault) = form_fault(&body) {
            return Err(fault);
        }
        match self.take(alloc, id, symbol, &body) {
            Ok(()) => Ok(()),
            Err(shortage) => Err(Unfitted::Short(shortage)),
        }
    }
}

//! A model that grows by lines under new ids.
ghost use Rattle.std.specs.Prelude.{◌≡◌, ◌+◌, ◌-◌, ◌/◌, ◌%◌, ◌^◌, ◌<◌, ◌≤◌, true, false, is_some, [], ◌∷◌, ◌++◌, Some, None, IfOk, IfErr};
ghost use Rattle.base.specs.Widths.{unary_width, binary_width, is_of_bits};
ghost use Rattle.base.specs.Operator.{unary_value, binary_value, ite_value, sext_value, concat_value};
ghost use Rattle.btor2.specs.declared.fault.PushFault.TheVariants as fault;
ghost use Rattle.pieces.specs.declared.shortage.Shortage.TheVariants as shortage;
ghost use Rattle.btor2.specs.declared.item.Body.TheVariants as body;
ghost use Rattle.btor2.specs.Items.{find_item, sort_width, names_state, constant_of, init_value, next_value};
ghost use Rattle.btor2.specs.Worked.{line};
ghost use Rattle.pieces.specs.Kept.{IsSound, IsShort};
ghost use Rattle.pieces.specs.Lines.{is_plain, named, AddsSorted};
ghost use Rattle.pieces.specs.Nodes.{AreNodes, Extends, HaveBits, IsNode, Makes};

use crate::node::Node;
use crate::shortage::Shortage;
use base::{Binary, Unary};
use btor2::{Body, Item, Model, PushFault, Symbol};
use std::alloc::Global;

/// The greatest number of items of a model.
const MOST_ITEMS: usize = 1_048_576;

/// What is wanting where a line is refused that no row refuses.
fn wanting(refused: PushFault) -> Shortage
    requires { refused ≡ fault.NoMemory }
    ensures { result ≡ shortage.NoMemory }
{
    match refused {
        PushFault::NoMemory => Shortage::NoMemory,
        _ => unreachable!(),
    }
}

/// A model that grows by lines without names, under ids that follow each other.
#[derive(Drop)]
pub struct Maker {
    model: Model,
    // the id of the next line: it and those above it are free
    next: u64,
    // by widths the ids of sorts, 0 where there is none yet
    sorts: [u32; 65],
}

impl std::marker::Model for Maker {
    ghost use Rattle.std.specs.Prelude.{List};
    ghost use Rattle.btor2.specs.declared.item.Item.{Item};

    ghost Value = { List Item };

    ghost view = { λ m. m.model };

    ghost use Rattle.pieces.specs.Kept.{IsKept};

    ghost invariant = { λ m. IsKept m.model m.next m.sorts };
}

impl Maker {
    /// A model of no items, whose lines get the ids from `first` on.
    ///
    /// Condition: `first` is 1 to 4,293,918,720, so that there are as many ids as a model has items at most.
    pub fn new(alloc: Global, first: u32) -> Maker
        requires least { 1 ≤ first }
        requires greatest { first ≤ 4293918720 }
        ensures { result ≡ [] }
    {
        Maker {
            model: Model::new(alloc),
            next: u64::from(first),
            sorts: [0; 65],
        }
    }

    /// The model as it stands.
    pub fn model(&self) -> &Model
        ensures { result.now ≡ self.now }
    {
        &self.model
    }

    /// The model.
    pub fn finish(self) -> Model
        ensures { result ≡ self }
    {
        self.model
    }

    /// Adds a line that no row but the number of items may refuse, with a name or without. Answers its id.
    fn tell(&mut self, symbol: Option<Symbol>, body: Body) -> Result<u32, Shortage>
        requires sound { IsSound self.old body }
        ensures line { IfOk result (λ id. (self.new ≡ self.old ++ named id symbol body ∷ [])
            × (find_item self.old id ≡ None)) }
        ensures stands { IfErr result (λ e. self.new ≡ self.old) }
        ensures short { IfErr result (IsShort self.new) }
    {
        if self.model.items().len() >= MOST_ITEMS {
            return Err(Shortage::TooManyItems);
        }
        let id = self.next as u32;
        let item = Item {
            id: self.next,
            symbol,
            body,
        };
        match self.model.push(item) {
            Ok(()) => {
                self.next += 1;
                Ok(id)
            }
            Err(fault) => Err(wanting(fault)),
        }
    }

    /// Adds a sort, a constant or an operator. Answers its id.
    fn put(&mut self, body: Body) -> Result<u32, Shortage>
        requires sound { IsSound self.old body }
        requires plain { is_plain body ≡ true }
        ensures line { IfOk result (λ id. (self.new ≡ self.old ++ line id body ∷ [])
            × (find_item self.old id ≡ None)) }
        ensures extends { Extends self.old self.new }
        ensures short { IfErr result (IsShort self.new) }
    {
        self.tell(None, body)
    }

    /// The id of a sort of so many bits, which is made where there is none yet.
    fn sort(&mut self, width: u64) -> Result<u32, Shortage>
        requires least { 1 ≤ width }
        requires most { width ≤ 64 }
        ensures sort { IfOk result (λ id. sort_width self.new id ≡ Some width) }
        ensures extends { Extends self.old self.new }
        ensures short { IfErr result (IsShort self.new) }
    {
        let kept = self.sorts[width as usize];
        if kept > 0 {
            return Ok(kept);
        }
        let id = self.put(Body::Sort { width })?;
        self.sorts[width as usize] = id;
        Ok(id)
    }

    /// What the model keeps is known of a node: it has 1 to 64 bits.
    pub(crate) fn know(&self, node: Node)
        requires { IsNode self.now node }
        ensures least { 1 ≤ node.width }
        ensures most { node.width ≤ 64 }
    {
        let _items = self.model.items();
    }

    /// The same of nodes.
    pub(crate) fn know_all(&self, nodes: &[Node])
        requires { AreNodes self.now nodes.now }
        ensures { HaveBits nodes.now }
    {
        let _items = self.model.items();
    }

    /// The node of an operator of one operand.
    pub fn unary(&mut self, operator: Unary, a: Node) -> Result<Node, Shortage>
        requires a { IsNode self.old a }
        ensures node { IfOk result (Makes self.new (unary_width operator a.width)
            (λ g. unary_value operator a.width (g a.id))) }
        ensures extends { Extends self.old self.new }
        ensures short { IfErr result (IsShort self.new) }
    {
        self.know(a);
        let width = operator.width(a.width);
        let sort = self.sort(width)?;
        let operand = a.id;
        let id = self.put(Body::Unary {
            operator,
            sort,
            operand,
        })?;
        Ok(Node { id, width })
    }

    /// The node of an operator of two operands of one width.
    ///
    /// Condition: operands of an operator of bits have one bit.
    pub fn binary(&mut self, operator: Binary, a: Node, b: Node) -> Result<Node, Shortage>
        requires a { IsNode self.old a }
        requires b { IsNode self.old b }
        requires same { a.width ≡ b.width }
        requires bits { is_of_bits operator ≡ false }
        ensures node { IfOk result (Makes self.new (binary_width operator a.width)
            (λ g. binary_value operator a.width (g a.id) (g b.id))) }
        ensures extends { Extends self.old self.new }
        ensures short { IfErr result (IsShort self.new) }
    {
        self.know(a);
        let width = operator.width(a.width);
        let sort = self.sort(width)?;
        let id = self.put(Body::Binary {
            operator,
            sort,
            left: a.id,
            right: b.id,
        })?;
        Ok(Node { id, width })
    }

    /// The node of a word before another, whose bits are its high ones.
    pub fn concat(&mut self, high: Node, low: Node) -> Result<Node, Shortage>
        requires high { IsNode self.old high }
        requires low { IsNode self.old low }
        requires most { high.width + low.width ≤ 64 }
        ensures node { IfOk result (Makes self.new (high.width + low.width)
            (λ g. concat_value (g high.id) low.width (g low.id))) }
        ensures extends { Extends self.old self.new }
        ensures short { IfErr result (IsShort self.new) }
    {
        self.know(high);
        let width = high.width + low.width;
        let sort = self.sort(width)?;
        let id = self.put(Body::Concat {
            sort,
            high: high.id,
            low: low.id,
        })?;
        Ok(Node { id, width })
    }

    /// The node of `width` bits of a node, from the bit `low` on.
    pub fn slice(&mut self, a: Node, low: u64, width: u64) -> Result<Node, Shortage>
        requires a { IsNode self.old a }
        requires some { 1 ≤ width }
        requires within { low + width ≤ a.width }
        ensures node { IfOk result (Makes self.new width (λ g. g a.id / 2 ^ low % 2 ^ width)) }
        ensures extends { Extends self.old self.new }
        ensures short { IfErr result (IsShort self.new) }
    {
        self.know(a);
        let sort = self.sort(width)?;
        let id = self.put(Body::Slice {
            sort,
            operand: a.id,
            upper: (low + width - 1) as u32,
            lower: low as u32,
        })?;
        Ok(Node { id, width })
    }

    /// The node of a node before which zeros stand, so that it has `width` bits.
    pub fn uext(&mut self, a: Node, width: u64) -> Result<Node, Shortage>
        requires a { IsNode self.old a }
        requires least { a.width ≤ width }
        requires most { width ≤ 64 }
        ensures node { IfOk result (Makes self.new width (λ g. g a.id)) }
        ensures extends { Extends self.old self.new }
        ensures short { IfErr result (IsShort self.new) }
    {
        self.know(a);
        let sort = self.sort(width)?;
        let id = self.put(Body::Uext {
            sort,
            operand: a.id,
            by: width - a.width,
        })?;
        Ok(Node { id, width })
    }

    /// The node of a node before which its highest bit stands, so that it has `width` bits.
    pub fn sext(&mut self, a: Node, width: u64) -> Result<Node, Shortage>
        requires a { IsNode self.old a }
        requires least { a.width ≤ width }
        requires most { width ≤ 64 }
        ensures node { IfOk result (Makes self.new width
            (λ g. sext_value a.width (g a.id) (width - a.width))) }
        ensures extends { Extends self.old self.new }
        ensures short { IfErr result (IsShort self.new) }
    {
        self.know(a);
        let by = width - a.width;
        let sort = self.sort(width)?;
        let id = self.put(Body::Sext {
            sort,
            operand: a.id,
            by,
        })?;
        Ok(Node { id, width })
    }

    /// The node of the first operand where the condition, of one bit, is 1, else of the second.
    pub fn ite(&mut self, condition: Node, first: Node, second: Node) -> Result<Node, Shortage>
        requires condition { IsNode self.old condition }
        requires first { IsNode self.old first }
        requires second { IsNode self.old second }
        requires bit { condition.width ≡ 1 }
        requires same { first.width ≡ second.width }
        ensures node { IfOk result (Makes self.new first.width
            (λ g. ite_value (g condition.id) (g first.id) (g second.id))) }
        ensures extends { Extends self.old self.new }
        ensures short { IfErr result (IsShort self.new) }
    {
        self.know(first);
        let width = first.width;
        let sort = self.sort(width)?;
        let id = self.put(Body::Ite {
            sort,
            condition: condition.id,
            first: first.id,
            second: second.id,
        })?;
        Ok(Node { id, width })
    }

    /// The node of zeros.
    pub fn zero(&mut self, width: u64) -> Result<Node, Shortage>
        requires least { 1 ≤ width }
        requires most { width ≤ 64 }
        ensures node { IfOk result (Makes self.new width (λ g. 0)) }
        ensures extends { Extends self.old self.new }
        ensures short { IfErr result (IsShort self.new) }
    {
        let sort = self.sort(width)?;
        let id = self.put(Body::Zero { sort })?;
        Ok(Node { id, width })
    }

    /// The node of the word 1.
    pub fn one(&mut self, width: u64) -> Result<Node, Shortage>
        requires least { 1 ≤ width }
        requires most { width ≤ 64 }
        ensures node { IfOk result (Makes self.new width (λ g. 1)) }
        ensures extends { Extends self.old self.new }
        ensures short { IfErr result (IsShort self.new) }
    {
        let sort = self.sort(width)?;
        let id = self.put(Body::One { sort })?;
        Ok(Node { id, width })
    }

    /// The node of a word.
    ///
    /// Condition: it has at most `width` bits.
    pub fn constant(&mut self, width: u64, value: u64) -> Result<Node, Shortage>
        requires least { 1 ≤ width }
        requires most { width ≤ 64 }
        requires fits { value < 2 ^ width }
        ensures node { IfOk result (Makes self.new width (λ g. value)) }
        ensures constant { IfOk result (λ r. constant_of self.new r.id ≡ Some value) }
        ensures extends { Extends self.old self.new }
        ensures short { IfErr result (IsShort self.new) }
    {
        let sort = self.sort(width)?;
        let id = self.put(Body::Const {
            sort,
            digits: width as u32,
            value,
        })?;
        Ok(Node { id, width })
    }

    /// An input of so many bits, with a name or without.
    pub fn input(&mut self, symbol: Option<Symbol>, width: u64) -> Result<Node, Shortage>
        requires least { 1 ≤ width }
        requires most { width ≤ 64 }
        ensures node { IfOk result (λ r. IsNode self.new r × (r.width ≡ width)) }
        ensures line { IfOk result (λ r. AddsSorted self.old self.new r.id width symbol
            (λ s. body.Input s)) }
        ensures extends { IfErr result (λ e. Extends self.old self.new) }
        ensures short { IfErr result (IsShort self.new) }
    {
        let sort = self.sort(width)?;
        let id = self.tell(symbol, Body::Input { sort })?;
        Ok(Node { id, width })
    }

    /// A state of so many bits, with a name or without.
    pub fn state(&mut self, symbol: Option<Symbol>, width: u64) -> Result<Node, Shortage>
        requires least { 1 ≤ width }
        requires most { width ≤ 64 }
        ensures node { IfOk result (λ r. IsNode self.new r × (r.width ≡ width)) }
        ensures line { IfOk result (λ r. AddsSorted self.old self.new r.id width symbol
            (λ s. body.State s)) }
        ensures extends { IfErr result (λ e. Extends self.old self.new) }
        ensures short { IfErr result (IsShort self.new) }
    {
        let sort = self.sort(width)?;
        let id = self.tell(symbol, Body::State { sort })?;
        Ok(Node { id, width })
    }

    /// The word that a state begins with: that of a constant node.
    ///
    /// Condition: the state has none yet.
    pub fn init(&mut self, state: Node, value: Node) -> Result<u32, Shortage>
        requires state { IsNode self.old state }
        requires value { IsNode self.old value }
        requires same { state.width ≡ value.width }
        requires is_state { names_state self.old state.id ≡ true }
        requires constant { is_some (constant_of self.old value.id) ≡ true }
        requires first { init_value self.old state.id ≡ None }
        ensures line { IfOk result (λ id. AddsSorted self.old self.new id state.width None
            (λ s. body.Init s state.id value.id)) }
        ensures extends { IfErr result (λ e. Extends self.old self.new) }
        ensures short { IfErr result (IsShort self.new) }
    {
        self.know(state);
        let sort = self.sort(state.width)?;
        let id = self.tell(
            None,
            Body::Init {
                sort,
                state: state.id,
                value: value.id,
            },
        )?;
        Ok(id)
    }

    /// The word that a state has in the next frame: that which a node has in this one.
    ///
    /// Condition: the state has none yet.
    pub fn next(&mut self, state: Node, value: Node) -> Result<u32, Shortage>
        requires state { IsNode self.old state }
        requires value { IsNode self.old value }
        requires same { state.width ≡ value.width }
        requires is_state { names_state self.old state.id ≡ true }
        requires first { next_value self.old state.id ≡ None }
        ensures line { IfOk result (λ id. AddsSorted self.old self.new id state.width None
            (λ s. body.Next s state.id value.id)) }
        ensures extends { IfErr result (λ e. Extends self.old self.new) }
        ensures short { IfErr result (IsShort self.new) }
    {
        self.know(state);
        let sort = self.sort(state.width)?;
        let id = self.tell(
            None,
            Body::Next {
                sort,
                state: state.id,
                value: value.id,
            },
        )?;
        Ok(id)
    }

    /// A bad property, which rises where a node, of one bit, is 1.
    pub fn bad(&mut self, symbol: Option<Symbol>, a: Node) -> Result<u32, Shortage>
        requires a { IsNode self.old a }
        requires bit { a.width ≡ 1 }
        ensures line { IfOk result (λ id. self.new ≡ self.old ++ named id symbol (body.Bad a.id) ∷ []) }
        ensures stands { IfErr result (λ e. self.new ≡ self.old) }
        ensures short { IfErr result (IsShort self.new) }
    {
        self.tell(symbol, Body::Bad { operand: a.id })
    }

    /// A constraint, which holds where a node, of one bit, is 1.
    pub fn constraint(&mut self, symbol: Option<Symbol>, a: Node) -> Result<u32, Shortage>
        requires a { IsNode self.old a }
        requires bit { a.width ≡ 1 }
        ensures line { IfOk result (λ id. self.new ≡ self.old ++ named id symbol (body.Constraint a.id) ∷ []) }
        ensures stands { IfErr result (λ e. self.new ≡ self.old) }
        ensures short { IfErr result (IsShort self.new) }
    {
        self.tell(symbol, Body::Constraint { operand: a.id })
    }

    /// An output, which shows a node.
    pub fn output(&mut self, symbol: Option<Symbol>, a: Node) -> Result<u32, Shortage>
        requires a { IsNode self.old a }
        ensures line { IfOk result (λ id. self.new ≡ self.old ++ named id symbol (body.Output a.id) ∷ []) }
        ensures stands { IfErr result (λ e. self.new ≡ self.old) }
        ensures short { IfErr result (IsShort self.new) }
    {
        self.tell(symbol, Body::Output { operand: a.id })
    }
}

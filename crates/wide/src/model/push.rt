//! How a line that no row refuses is added.
ghost use Rattle.std.specs.Prelude.{◌≡◌, ℕ, ◌<◌, ◌==◌, [], ◌∷◌, ◌++◌, None, Some, OnOk, OnErr, IfErr, nat_eq, vec_len, vec_capacity, if◌then◌else◌};
ghost use Rattle.std.specs.HashMap.{get};
ghost use Rattle.std.specs.Option.{option_or};
ghost use Rattle.indexmap.specs.IndexMap.{spare};
ghost use Rattle.btor2.specs.Items.{init_for, next_for, sort_width};
ghost use Rattle.btor2.specs.Check.{AnswersRefusal};
ghost use Rattle.wide.specs.declared.entries.Entry.TheVariants as kind;
ghost use Rattle.wide.specs.Entries.{digits_sort, entry_by, entry_of};
ghost use Rattle.wide.specs.Lines.{constant_item};
ghost use Rattle.wide.specs.WideModels.{greatest_width, wide_refusal};

use crate::constant::{Constant, Line};
use crate::entries::{Entry, sort_of};
use crate::model::WideModel;
use btor2::{Body, Item, PushFault};
use indexmap::IndexMap;

/// What a state of a sort is, where the sort is there.
fn state_entry(width: Option<u64>) -> Entry
    ensures { result ≡ entry_by (λ n. kind.State n) width }
{
    match width {
        Some(width) => Entry::State(width),
        None => Entry::Line,
    }
}

/// What a constant of a sort is, where the sort is there.
fn constant_entry(width: Option<u64>) -> Entry
    ensures { result ≡ entry_by (λ n. kind.Constant n) width }
{
    match width {
        Some(width) => Entry::Constant(width),
        None => Entry::Line,
    }
}

/// What another node of a sort is, where the sort is there.
fn node_entry(width: Option<u64>) -> Entry
    ensures { result ≡ entry_by (λ n. kind.Node n) width }
{
    match width {
        Some(width) => Entry::Node(width),
        None => Entry::Line,
    }
}

/// Gives a state's id the id of a value.
fn add_value(map: &mut IndexMap<u64, u64>, state: u32, value: u32) -> Result<(), PushFault>
    ensures ok { OnOk result ((id : ℕ) → get nat_eq map.new id
        ≡ (if id == state then Some value else get nat_eq map.old id)) }
    ensures memory { IfErr result (λ fault. fault ≡ PushFault.NoMemory) }
    ensures same { OnErr result ((id : ℕ) → get nat_eq map.new id ≡ get nat_eq map.old id) }
{
    match map.insert(u64::from(state), u64::from(value)) {
        Ok(_) => Ok(()),
        Err(_) => Err(PushFault::NoMemory),
    }
}

/// Keeps what an init or a next line says of its state.
fn note(
    body: &Body,
    inits: &mut IndexMap<u64, u64>,
    nexts: &mut IndexMap<u64, u64>,
) -> Result<(), PushFault>
    ensures inits { OnOk result ((id : ℕ) → get nat_eq inits.new id
        ≡ option_or (init_for id body.now) (get nat_eq inits.old id)) }
    ensures nexts { OnOk result ((id : ℕ) → get nat_eq nexts.new id
        ≡ option_or (next_for id body.now) (get nat_eq nexts.old id)) }
    ensures memory { IfErr result (λ fault. fault ≡ PushFault.NoMemory) }
    ensures inits_same { OnErr result ((id : ℕ) → get nat_eq inits.new id ≡ get nat_eq inits.old id) }
    ensures nexts_same { OnErr result ((id : ℕ) → get nat_eq nexts.new id ≡ get nat_eq nexts.old id) }
{
    match body {
        Body::Init { state, value, .. } => add_value(inits, *state, *value),
        Body::Next { state, value, .. } => add_value(nexts, *state, *value),
        _ => Ok(()),
    }
}

/// Makes room for a line, and for what it is to those that name it.
fn make_room(lines: &mut Vec<Line>, entries: &mut IndexMap<u64, Entry>) -> Result<(), PushFault>
    ensures room { OnOk result (vec_len lines.new < vec_capacity lines.new) }
    ensures spare { OnOk result (0 < spare entries.new) }
    ensures memory { IfErr result (λ fault. fault ≡ PushFault.NoMemory) }
    ensures same { lines.new.items ≡ lines.old.items }
    ensures kept { (k : ℕ) → get nat_eq entries.new k ≡ get nat_eq entries.old k }
{
    if lines.reserve(1).is_err() {
        return Err(PushFault::NoMemory);
    }
    match entries.reserve(1) {
        Ok(()) => Ok(()),
        Err(_) => Err(PushFault::NoMemory),
    }
}

/// Adds a line where there is room.
fn add_line(lines: &mut Vec<Line>, line: Line)
    requires { vec_len lines.old < vec_capacity lines.old }
    ensures { lines.new.items ≡ lines.old.items ++ line ∷ [] }
{
    match lines.push(line) {
        Ok(()) => {}
        Err(_) => unreachable!(),
    }
}

/// Adds what an item is to those that will name it, where there is room.
fn add_entry(entries: &mut IndexMap<u64, Entry>, id: u64, entry: Entry)
    requires { 0 < spare entries.old }
    ensures { (k : ℕ) → get nat_eq entries.new k
        ≡ (if k == id then Some entry else get nat_eq entries.old k) }
{
    match entries.insert(id, entry) {
        Ok(_) => {}
        Err(_) => unreachable!(),
    }
}

impl WideModel {
    /// The width of a sort.
    fn sort(&self, id: u32) -> Option<u64>
        ensures { result ≡ sort_width self.now id }
    {
        sort_of(self.entries.get(&u64::from(id)).copied())
    }

    /// What an item with such a body is to those that will name it.
    fn entry_of(&self, body: &Body) -> Entry
        ensures { result ≡ entry_of self.now body.now }
    {
        match body {
            Body::Sort { width } => Entry::Sort(*width),
            Body::State { sort } => state_entry(self.sort(*sort)),
            Body::Zero { sort }
            | Body::One { sort }
            | Body::Ones { sort }
            | Body::Const { sort, .. }
            | Body::Constd { sort, .. }
            | Body::Consth { sort, .. } => constant_entry(self.sort(*sort)),
            Body::Input { sort }
            | Body::Uext { sort, .. }
            | Body::Sext { sort, .. }
            | Body::Slice { sort, .. }
            | Body::Unary { sort, .. }
            | Body::Binary { sort, .. }
            | Body::Concat { sort, .. }
            | Body::Ite { sort, .. } => node_entry(self.sort(*sort)),
            Body::Init { .. }
            | Body::Next { .. }
            | Body::Bad { .. }
            | Body::Constraint { .. }
            | Body::Fair { .. }
            | Body::Output { .. }
            | Body::Justice { .. } => Entry::Line,
        }
    }

    /// Adds an item that is no constant in digits, at the end.
    ///
    /// Errors: the first that applies of `TooManyItems`, `IdOutOfRange`, `IdTaken`, `NoSuchSort`, `NoSuchNode`,
    /// `NotAState`, `WidthOutOfRange`, `SliceOutOfRange`, `SortMismatch`, `InitNotConstant`, `SecondInit`, `SecondNext`
    /// and `JusticeEmpty`, as `btor2` says at each, but for the greatest width, which is 1,048,576; else `NoMemory`
    /// where a growth was refused. The model is unchanged then.
    pub fn push(&mut self, item: Item) -> Result<(), PushFault>
        requires { digits_sort item.body ≡ None }
        ensures answer { AnswersRefusal result (wide_refusal greatest_width self.old item) }
        ensures ok { OnOk result (self.new ≡ self.old ++ item ∷ []) }
        ensures err { OnErr result (self.new ≡ self.old) }
    {
        self.check(&item)?;
        let entry = self.entry_of(&item.body);
        make_room(&mut self.lines, &mut self.entries)?;
        note(&item.body, &mut self.inits, &mut self.nexts)?;
        add_entry(&mut self.entries, item.id, entry);
        add_line(&mut self.lines, Line::Item(item));
        Ok(())
    }

    /// Adds a constant in digits, at the end.
    ///
    /// Errors: the first that applies of `TooManyItems`, `IdOutOfRange`, `IdTaken`, `NoSuchSort` and
    /// `ConstantDoesNotFit`: not as many binary digits as the width, a decimal that is not from -2^(width - 1) to
    /// 2^width - 1, not 1 to 262,144 hexadecimal digits, or a value too great. Else `NoMemory` where a growth was
    /// refused. The model is unchanged then.
    pub fn push_constant(&mut self, constant: Constant) -> Result<(), PushFault>
        ensures answer { AnswersRefusal result
            (wide_refusal greatest_width self.old (constant_item constant)) }
        ensures ok { OnOk result (self.new ≡ self.old ++ constant_item constant ∷ []) }
        ensures err { OnErr result (self.new ≡ self.old) }
    {
        self.check_constant(&constant)?;
        let entry = constant_entry(self.sort(constant.sort));
        make_room(&mut self.lines, &mut self.entries)?;
        add_entry(&mut self.entries, constant.id, entry);
        add_line(&mut self.lines, Line::Constant(constant));
        Ok(())
    }
}

//! How a line that no row refuses is added.
ghost use Rattle.std.specs.Prelude.{◌≡◌, ℕ, ◌<◌, ◌==◌, [], ◌∷◌, ◌++◌, None, Some, OnOk, OnErr, IfErr, nat_eq, vec_len, vec_capacity, option_map, if◌then◌else◌};
ghost use Rattle.std.specs.HashMap.{get, keys};
ghost use Rattle.std.specs.Option.{option_or};
ghost use Rattle.indexmap.specs.IndexMap.{spare};
ghost use Rattle.btor2.specs.Items.{is_state};
ghost use Rattle.full.specs.Lines.{array_sort, second, is_form, line_sort, sort_of, init_by, next_by};
ghost use Rattle.fullmodel.specs.Lines.{line_of, says_of, operand_of, sort_value, HasNoDigits};
ghost use Rattle.fullmodel.specs.Entries.{entry_of};
ghost use Rattle.fullmodel.specs.FullModels.{line_refusal, AnswersLine};

use crate::bodies::node_sort;
use crate::entries::{Entry, entry_by};
use crate::fault::LineFault;
use crate::line::{Line, Operand, Says};
use crate::model::FullModel;
use crate::sorts::Sort;
use btor2::{Body, PushFault};
use indexmap::IndexMap;

/// The second of two operands: the value of an init or of a next.
fn second(value: u32, minuses: &[bool]) -> Operand
    ensures { operand_of result ≡ second value minuses.now }
{
    match minuses {
        [_, minus, ..] => Operand {
            id: value,
            minus: *minus,
        },
        [_] => Operand {
            id: value,
            minus: false,
        },
        [] => Operand {
            id: value,
            minus: false,
        },
    }
}

/// Gives a state's id a value.
fn add_value(map: &mut IndexMap<u64, Operand>, state: u32, value: Operand) -> Result<(), LineFault>
    ensures ok { OnOk result ((id : ℕ) → get nat_eq map.new id
        ≡ (if id == state then Some value else get nat_eq map.old id)) }
    ensures memory { IfErr result (λ fault. fault ≡ LineFault.Push PushFault.NoMemory) }
    ensures same { OnErr result ((id : ℕ) → get nat_eq map.new id ≡ get nat_eq map.old id) }
{
    match map.insert(u64::from(state), value) {
        Ok(_) => Ok(()),
        Err(_) => Err(LineFault::Push(PushFault::NoMemory)),
    }
}

/// Keeps what an init or a next line says of its state.
fn note(
    says: &Says,
    inits: &mut IndexMap<u64, Operand>,
    nexts: &mut IndexMap<u64, Operand>,
) -> Result<(), LineFault>
    ensures inits { OnOk result ((id : ℕ) → option_map operand_of (get nat_eq inits.new id)
        ≡ option_or (init_by id (says_of says.now)) (option_map operand_of (get nat_eq inits.old id))) }
    ensures nexts { OnOk result ((id : ℕ) → option_map operand_of (get nat_eq nexts.new id)
        ≡ option_or (next_by id (says_of says.now)) (option_map operand_of (get nat_eq nexts.old id))) }
    ensures memory { IfErr result (λ fault. fault ≡ LineFault.Push PushFault.NoMemory) }
    ensures inits_same { OnErr result ((id : ℕ) → get nat_eq inits.new id ≡ get nat_eq inits.old id) }
    ensures nexts_same { OnErr result ((id : ℕ) → get nat_eq nexts.new id ≡ get nat_eq nexts.old id) }
{
    match says {
        Says::Form {
            body: Body::Init { state, value, .. },
            minuses,
        } => add_value(inits, *state, second(*value, minuses.as_slice())),
        Says::Form {
            body: Body::Next { state, value, .. },
            minuses,
        } => add_value(nexts, *state, second(*value, minuses.as_slice())),
        _ => Ok(()),
    }
}

/// Makes room for a line, and for what it is to those that name it.
fn make_room(lines: &mut Vec<Line>, entries: &mut IndexMap<u64, Entry>) -> Result<(), LineFault>
    ensures room { OnOk result (vec_len lines.new < vec_capacity lines.new) }
    ensures spare { OnOk result (0 < spare entries.new) }
    ensures memory { IfErr result (λ fault. fault ≡ LineFault.Push PushFault.NoMemory) }
    ensures same { lines.new.items ≡ lines.old.items }
    ensures kept { (k : ℕ) → get nat_eq entries.new k ≡ get nat_eq entries.old k }
    ensures keys { keys entries.new ≡ keys entries.old }
{
    if lines.reserve(1).is_err() {
        return Err(LineFault::Push(PushFault::NoMemory));
    }
    match entries.reserve(1) {
        Ok(()) => Ok(()),
        Err(_) => Err(LineFault::Push(PushFault::NoMemory)),
    }
}

/// Adds a line where there is room.
fn add_line(lines: &mut Vec<Line>, line: Line)
    requires { vec_len lines.old < vec_capacity lines.old }
    ensures { lines.new.items ≡ lines.old.items ++ line ∷ [] }
{
    match lines.push(line) {
        Ok(()) => {}
        Err(_) => unreachable!(),
    }
}

/// Adds what a line is to those that will name it, where there is room, and no line has its id.
fn add_entry(entries: &mut IndexMap<u64, Entry>, id: u64, entry: Entry)
    requires room { 0 < spare entries.old }
    requires new { get nat_eq entries.old id ≡ None }
    ensures added { (k : ℕ) → get nat_eq entries.new k
        ≡ (if k == id then Some entry else get nat_eq entries.old k) }
    ensures last { keys entries.new ≡ keys entries.old ++ id ∷ [] }
{
    match entries.insert(id, entry) {
        Ok(_) => {}
        Err(_) => unreachable!(),
    }
}

/// Whether a line is one of a state.
fn is_state(says: &Says) -> bool
    ensures { result ≡ is_form is_state (says_of says.now) }
{
    match says {
        Says::Form { body, .. } => matches!(body, Body::State { .. }),
        _ => false,
    }
}

impl FullModel {
    /// The sort of arrays that is made of two sorts of words.
    fn arrays(&self, index: u32, element: u32) -> Option<Sort>
        ensures { option_map sort_value result ≡ line_sort self.now (array_sort index element) }
    {
        match (self.sort_at(index), self.sort_at(element)) {
            (Some(Sort::Words(index)), Some(Sort::Words(element))) => {
                Some(Sort::Arrays { index, element })
            }
            _ => None,
        }
    }

    /// The sort that a line makes.
    fn line_sort(&self, says: &Says) -> Option<Sort>
        ensures { option_map sort_value result ≡ line_sort self.now (says_of says.now) }
    {
        match says {
            Says::Form {
                body: Body::Sort { width },
                ..
            } => Some(Sort::Words(*width)),
            Says::ArraySort { index, element } => self.arrays(*index, *element),
            _ => None,
        }
    }

    /// The sort of the node of a line.
    fn sort_of(&self, says: &Says) -> Option<Sort>
        ensures { option_map sort_value result ≡ sort_of self.now (says_of says.now) }
    {
        match says {
            Says::Form { body, .. } => match node_sort(body) {
                Some(sort) => self.sort_at(sort),
                None => None,
            },
            Says::Constant { sort, .. } | Says::Read { sort, .. } | Says::Write { sort, .. } => {
                self.sort_at(*sort)
            }
            Says::ArraySort { .. } => None,
        }
    }

    /// What a line is to those that will name it.
    fn entry_of(&self, says: &Says) -> Entry
        ensures { result ≡ entry_of self.now (says_of says.now) }
    {
        entry_by(self.line_sort(says), self.sort_of(says), is_state(says))
    }

    /// Adds a line, at the end.
    ///
    /// Errors: the first that applies of
    /// - `TooManyItems`, `IdOutOfRange` and `IdTaken`, as `btor2` says at each;
    /// - `NoSuchSort`, where a sort is no earlier sort, and `NoSuchNode`, where an operand is no earlier node with a value;
    /// - `NotAState`, and `NegativeOperand`, where the state of an init or a next or an array stands with a minus;
    /// - `WidthOutOfRange`, where a sort's width is not 1 to 1,048,576, and `ArraySort`, where the index or the element of a
    ///   sort of arrays is no word, or an array would have more than 1,048,576 bits;
    /// - `SliceOutOfRange`, `SortMismatch` and `ConstantDoesNotFit`;
    /// - `SecondInit`, `SecondNext` and `JusticeEmpty`;
    ///
    /// else `NoMemory` where a growth was refused. The model is unchanged then.
    ///
    /// Condition: a form is no constant in digits.
    pub fn push(&mut self, line: Line) -> Result<(), LineFault>
        requires { HasNoDigits line.says }
        ensures answer { AnswersLine result (line_refusal self.old (line_of line)) }
        ensures ok { OnOk result (self.new ≡ self.old ++ line_of line ∷ []) }
        ensures err { OnErr result (self.new ≡ self.old) }
    {
        self.check(&line)?;
        let entry = self.entry_of(&line.says);
        make_room(&mut self.lines, &mut self.entries)?;
        note(&line.says, &mut self.inits, &mut self.nexts)?;
        add_entry(&mut self.entries, line.id, entry);
        add_line(&mut self.lines, line);
        Ok(())
    }
}

//! The gates of a text, put piece by piece onto a circuit, where each has the circuit's next variable, and operands below
//! it, the greater one first; or onto the lists of a file.
ghost use Rattle.std.specs.Prelude.{◌≡◌, ℕ, ◌+◌, ◌-◌, ◌≤◌, ◌∷◌, ◌++◌, List, [], Some, None, length, IfOk, IfSome, OnOk, IsErrOf};
ghost use Rattle.std.specs.Io.KnownBytes.{prepend_known};
ghost use Rattle.base.specs.Device.{HasRisen};
ghost use Rattle.aigerlists.specs.Loose.{with_gate_line};
ghost use Rattle.aigertext.specs.Ascii.{numbers_line};
ghost use Rattle.aigertext.specs.Binary.{gate_text};
ghost use Rattle.aigertext.specs.declared.forms.Form.{Form as FormValue};
ghost use Rattle.aigertext.specs.InOrder.{IsLineUpTo, ArePutGates, IsPutOnLists, PutsText, FollowEachOther};

use crate::forms::Form;
use crate::reading::binary_gates::{gate, near_gate};
use crate::reading::pieces::{PIECE, read_piece, remove_front};
use crate::reading::plain_numbers::three_numbers;
use aiger::{Circuit, Gate, Lit};
use aigerlists::Loose;
use base::{ReadAllFault, Source};

/// More bytes than a gate in order takes in either form.
const LONG_GATE: usize = 64;

/// The gate of the line at the front of an ascii text, where its own literal is the given one, and the text behind it.
#[inline(always)]
fn line_gate(text: &[u8], own: u32) -> Option<(Gate, &[u8])>
    ensures { IfSome result (λ x. text.now ≡ numbers_line (own ∷ x.0.rhs0 ∷ x.0.rhs1 ∷ [])
        ++ x.1.now) }
{
    let (number, first, second, behind) = three_numbers(text)?;
    if number != own {
        return None;
    }
    let (rhs0, rhs1) = (Lit::new(first), Lit::new(second));
    Some((Gate { rhs0, rhs1 }, behind))
}

/// The gate with this literal at the front of a text of a form, and the text behind it. Of nothing no more is said.
#[inline(always)]
fn gate_in(form: Form, text: &[u8], own: u32) -> Option<(Gate, &[u8])>
    ensures { IfSome result (λ x. text.now ≡ gate_text form own x.0 ++ x.1.now) }
{
    match form {
        Form::Ascii => line_gate(text, own),
        Form::Binary => {
            if let Some((found, taken)) = near_gate(text, own) {
                return Some((found, &text[taken..]));
            }
            match gate(text, own) {
                Ok(found) => Some(found),
                Err(_) => None,
            }
        }
    }
}

/// What takes the gates of a text one after the other.
pub(crate) trait TakesGates {
    /// What it is then, where the text of gates was put onto it in a form, up to a greatest literal.
    ghost puts: { FormValue → ℕ → Self → Self → List ℕ → Type 0 };

    /// How many gates it has.
    ghost count: { Self → ℕ };

    /// Gates may be put in pieces.
    fn in_pieces()
        ensures { (form : FormValue) (greatest : ℕ) → FollowEachOther (puts form greatest) };

    /// How many gates it has.
    fn gate_count(&self) -> usize
        ensures { result ≡ count self.now };

    /// Adds the gates at the front of a text, at most so many and as long as it takes them, with literals up to the top one,
    /// and answers the text behind them. It ends where memory is wanting, too.
    fn push_gates<'a>(&mut self, form: Form, top: u32, text: &'a [u8], most: usize) -> &'a [u8]
        ensures puts { PutsText (puts form top) self.old self.new
            (length text.now - length result.now) (Some text.now) (Some result.now) }
        ensures few { count self.new ≤ count self.old + most };
}

impl TakesGates for Circuit {
    ghost puts = { λ form greatest. ArePutGates form };

    ghost count = { λ c. length c.gates };

    fn in_pieces() {}

    fn gate_count(&self) -> usize {
        self.gates().len()
    }

    fn push_gates<'a>(&mut self, form: Form, _top: u32, text: &'a [u8], most: usize) -> &'a [u8] {
        let mut rest = text;
        let mut own = 2 * (self.variables() + 1);
        for _index in 0..most {
            let Some((gate, behind)) = gate_in(form, rest, own) else {
                return rest;
            };
            if self.push_gate(gate.rhs0, gate.rhs1).is_err() {
                return rest;
            }
            own += 2;
            rest = behind;
        }
        rest
    }
}

impl TakesGates for Loose {
    ghost puts = { λ form greatest. IsPutOnLists greatest };

    ghost count = { λ l. length l.gates };

    fn in_pieces() {}

    fn gate_count(&self) -> usize {
        self.gates().len()
    }

    fn push_gates<'a>(&mut self, _form: Form, top: u32, text: &'a [u8], most: usize) -> &'a [u8] {
        let mut rest = text;
        for _index in 0..most {
            let Some((own, first, second, behind)) = three_numbers(rest) else {
                return rest;
            };
            if push_line(self, top, own, first, second).is_none() {
                return rest;
            }
            rest = behind;
        }
        rest
    }
}

/// Adds a gate to the lists of a file, where its literals are at most the greatest, its own one defines a new variable and
/// there is memory; else there is nothing, and the lists are the same.
#[inline(always)]
pub fn push_line(lists: &mut Loose, greatest: u32, own: u32, first: u32, second: u32) -> Option<()>
    ensures added { result ≡ Some tt
        → (lists.new ≡ with_gate_line lists.old (record { lhs = own; rhs0 = first; rhs1 = second }))
        × IsLineUpTo greatest (record { lhs = own; rhs0 = first; rhs1 = second }) }
    ensures same { result ≡ None → lists.new ≡ lists.old }
{
    if own > greatest || first > greatest || second > greatest {
        return None;
    }
    let (own, first, second) = (Lit::new(own), Lit::new(first), Lit::new(second));
    lists.push_gate(own, first, second).ok()
}

/// Adds gates by what is held and what a source has to come, until there are so many or one is not taken, and holds what
/// stands behind them; answers how many bytes they took.
pub fn read_gates<T: TakesGates, S: Source>(
    form: Form,
    greatest: u32,
    target: &mut T,
    window: &mut Vec<u8>,
    count: usize,
    source: &mut S,
) -> Result<u64, ReadAllFault>
    ensures puts { IfOk result
        (λ passed. PutsText (T.puts form greatest) target.old target.new passed
        (prepend_known window.old.items (S.to_come source.old))
        (prepend_known window.new.items (S.to_come source.new))) }
    ensures few { OnOk result (T.count target.old ≤ count → T.count target.new ≤ count) }
    ensures counted { OnOk result (S.failures source.new ≡ S.failures source.old) }
    ensures device { IsErrOf result ReadAllFault.Device
        → HasRisen (S.failures source.old) (S.failures source.new) }
    ensures memory { IsErrOf result ReadAllFault.NoMemory → S.failures source.new
        ≡ S.failures source.old }
{
    T::in_pieces();
    let mut piece = [0u8; PIECE];
    let mut passed = 0u64;
    loop {
        let left = count.saturating_sub(target.gate_count());
        let behind = target.push_gates(form, greatest, window.as_slice(), left);
        let more = window.len() - behind.len();
        remove_front(window, more);
        let sum = passed.checked_add(more as u64);
        passed = sum.ok_or(ReadAllFault::NoMemory)?;
        if target.gate_count() >= count || window.len() >= LONG_GATE {
            return Ok(passed);
        }
        if !read_piece(window, &mut piece, source)? {
            return Ok(passed);
        }
    }
}

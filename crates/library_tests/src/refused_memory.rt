//! What stands after a refused growth, and that the same call then succeeds. The claims of a test hold whether or not one
//! allocation of its run is refused: each is tried twice, and where that on which the claims stand was refused in the one
//! trial, it was not in the other. `tests/refused_memory.py` refuses each allocation in turn.
ghost use Rattle.std.specs.Prelude.{◌≡◌, []};

use crate::circuits::{Call, IN_REVERSE, done, is_spelled, lists_of};
use crate::operator_tables::inputs;
use crate::samples::{BOUNDED, Comparing};
use aiger::{Circuit, CircuitFault, Lit, Reset, Section};
use aigerlists::{Loose, LooseFault};
use aigertext::Form;
use btor2::{Body, Item, Model, PushFault, Symbol};
use gates::{Divided, GateFault, Gates, HashGates, PlainGates, divide};
use std::alloc::Global;

/// Whether the claims of two trials hold, of which one at most had nothing to stand on.
fn hold(first: Option<bool>, second: Option<bool>) -> bool {
    match (first, second) {
        (Some(first), Some(second)) => first && second,
        (Some(only), None) | (None, Some(only)) => only,
        (None, None) => false,
    }
}

/// An equal line, of those forms that the bounded counter has.
fn equal_body(body: &Body) -> Option<Body> {
    match body {
        Body::Sort { width } => Some(Body::Sort { width: *width }),
        Body::State { sort } => Some(Body::State { sort: *sort }),
        Body::Zero { sort } => Some(Body::Zero { sort: *sort }),
        Body::Const {
            sort,
            digits,
            value,
        } => Some(Body::Const {
            sort: *sort,
            digits: *digits,
            value: *value,
        }),
        Body::Unary {
            operator,
            sort,
            operand,
        } => Some(Body::Unary {
            operator: *operator,
            sort: *sort,
            operand: *operand,
        }),
        Body::Binary {
            operator,
            sort,
            left,
            right,
        } => Some(Body::Binary {
            operator: *operator,
            sort: *sort,
            left: *left,
            right: *right,
        }),
        Body::Init { sort, state, value } => Some(Body::Init {
            sort: *sort,
            state: *state,
            value: *value,
        }),
        Body::Next { sort, state, value } => Some(Body::Next {
            sort: *sort,
            state: *state,
            value: *value,
        }),
        Body::Bad { operand } => Some(Body::Bad { operand: *operand }),
        Body::Constraint { operand } => Some(Body::Constraint { operand: *operand }),
        _ => None,
    }
}

/// An equal item.
fn equal_item(alloc: Global, item: &Item) -> Option<Item> {
    let body = equal_body(&item.body)?;
    let symbol = match &item.symbol {
        Some(symbol) => Some(Symbol::new(alloc, symbol.bytes()).ok()?),
        None => None,
    };
    let id = item.id;
    Some(Item { id, symbol, body })
}

/// Whether a model is the first so many items of the bounded counter.
fn is_front(model: &Model, count: usize) -> bool {
    let mut sink = Comparing::new(BOUNDED.as_bytes());
    let is_written = btor2text::write(model, &mut sink).is_ok();
    is_written && sink.is_beginning() && model.items().len() == count
}

/// What a push of an equal item answers; none where no memory is there to make it.
fn push_equal(alloc: Global, model: &mut Model, item: &Item) -> Option<Result<(), PushFault>> {
    match equal_item(alloc, item) {
        Some(equal) => Some(model.push(equal)),
        None => None,
    }
}

/// Whether an equal item is pushed behind the first so many, or refused, which leaves these, and then another one is.
fn is_pushed(alloc: Global, model: &mut Model, count: usize, item: &Item) -> Option<bool> {
    match push_equal(alloc, model, item)? {
        Ok(()) => Some(true),
        Err(PushFault::NoMemory) => {
            let stands = is_front(model, count);
            Some(stands && push_equal(alloc, model, item) == Some(Ok(())))
        }
        Err(_) => Some(false),
    }
}

/// Whether items equal to those of the bounded counter are pushed.
fn are_all_pushed(alloc: Global, model: &mut Model, items: &[Item]) -> Option<bool> {
    for (count, item) in items.iter().enumerate() {
        if !is_pushed(alloc, model, count, item)? {
            return Some(false);
        }
    }
    Some(is_front(model, 13))
}

/// The same, on a model of their own.
fn make_a_model(alloc: Global, items: &[Item]) -> Option<bool> {
    let mut model = Model::new(alloc);
    are_all_pushed(alloc, &mut model, items)
}

/// Whether each item of the bounded counter is pushed.
fn are_pushed(alloc: Global) -> Option<bool> {
    match btor2text::read(alloc, &mut BOUNDED.as_bytes()) {
        Ok(bounded) => make_a_model(alloc, bounded.items()),
        Err(_) => None,
    }
}

#[test]
fn items_are_pushed_one_by_one(rt: HostRuntime) {
    assert!(rt; hold(are_pushed(rt.alloc()), are_pushed(rt.alloc())));
}

/// Calls on a circuit of an input and a latch, one for each section and a name, and its text behind each.
const CALLS: [(Call, &str); 9] = [
    (Call::Gate(6, 4, 2), "aag 3 1 1 0 1\n2\n4 0\n6 4 2\n"),
    (
        Call::Latch(0, 7, Reset::Free),
        "aag 3 1 1 0 1\n2\n4 7 4\n6 4 2\n",
    ),
    (Call::Output(6), "aag 3 1 1 1 1\n2\n4 7 4\n6\n6 4 2\n"),
    (Call::Bad(7), "aag 3 1 1 1 1 1\n2\n4 7 4\n6\n7\n6 4 2\n"),
    (
        Call::Constraint(3),
        "aag 3 1 1 1 1 1 1\n2\n4 7 4\n6\n7\n3\n6 4 2\n",
    ),
    (
        Call::Justice(&[2, 5, 6]),
        "aag 3 1 1 1 1 1 1 1\n2\n4 7 4\n6\n7\n3\n3\n2\n5\n6\n6 4 2\n",
    ),
    (
        Call::Fair(1),
        "aag 3 1 1 1 1 1 1 1 1\n2\n4 7 4\n6\n7\n3\n3\n2\n5\n6\n1\n6 4 2\n",
    ),
    (
        Call::Name(Section::Justice, 0, b"again and again and again"),
        "aag 3 1 1 1 1 1 1 1 1\n2\n4 7 4\n6\n7\n3\n3\n2\n5\n6\n1\n6 4 2\nj0 again and again and again\n",
    ),
    (
        Call::Name(Section::Input, 0, b"x"),
        "aag 3 1 1 1 1 1 1 1 1\n2\n4 7 4\n6\n7\n3\n3\n2\n5\n6\n1\n6 4 2\ni0 x\nj0 again and again and again\n",
    ),
];

/// Whether a call on a circuit succeeds, or is refused, which leaves the circuit, and then succeeds.
fn is_done(alloc: Global, circuit: &mut Circuit, call: Call, before: &str, after: &str) -> bool {
    let succeeds = match done(alloc, circuit, call) {
        Ok(()) => true,
        Err(fault) => {
            fault == CircuitFault::NoMemory
                && is_spelled(circuit, Form::Ascii, before.as_bytes())
                && done(alloc, circuit, call).is_ok()
        }
    };
    succeeds && is_spelled(circuit, Form::Ascii, after.as_bytes())
}

/// Whether each call is done on a circuit of an input and a latch.
fn are_all_done(alloc: Global, circuit: &mut Circuit) -> bool {
    let mut before = "aag 2 1 1 0 0\n2\n4 0\n";
    for (call, after) in &CALLS {
        if !is_done(alloc, circuit, *call, before, after) {
            return false;
        }
        before = after;
    }
    true
}

/// Whether each call on a circuit is done.
fn are_done(alloc: Global) -> Option<bool> {
    match Circuit::new(alloc, 1, 1) {
        Ok(mut circuit) => Some(are_all_done(alloc, &mut circuit)),
        Err(_) => None,
    }
}

/// The circuit of the lists of a file whose gates stand in reverse order.
const IN_ORDER: &str = "aag 4 1 0 0 3 0 0 2\n2\n0\n1\n1\n4 3 2\n6 4 2\n8 6 2\n";

/// Whether lists are numbered; none where that was refused.
fn is_numbered(alloc: Global, lines: &Loose) -> Option<bool> {
    match lines.number(alloc) {
        Ok(circuit) => Some(is_spelled(&circuit, Form::Ascii, IN_ORDER.as_bytes())),
        Err(LooseFault::NoMemory) => None,
        Err(_) => Some(false),
    }
}

/// Whether the lists of a file are numbered, or that is refused, which leaves them, and then they are.
fn are_numbered(alloc: Global) -> Option<bool> {
    match lists_of(alloc, &IN_REVERSE) {
        Ok(lines) => Some(hold(is_numbered(alloc, &lines), is_numbered(alloc, &lines))),
        Err(_) => None,
    }
}

#[test]
fn calls_on_circuits_and_lists(rt: HostRuntime) {
    assert!(rt; hold(are_done(rt.alloc()), are_done(rt.alloc())));
    assert!(rt; hold(are_numbered(rt.alloc()), are_numbered(rt.alloc())));
}

/// What a maker has made where a gate and then a quotient were asked for, and whether it was refused.
#[derive(Drop)]
struct Made {
    circuit: Circuit,
    fault: Option<GateFault>,
}

/// Asks a maker over sixteen inputs for a gate, and then for the quotient and the remainder of two words of eight bits.
fn divided<G: Gates>(g: &mut G) -> Result<Divided, GateFault>
    requires fresh { G.made g.old ≡ record { inputs = 16; latches = 0; gates = [] } }
{
    g.and(Lit::new(4), Lit::new(2))?;
    divide(g, inputs(0, 8).as_slice(), inputs(8, 8).as_slice())
}

/// What a plain maker has made.
fn plain(alloc: Global) -> Option<Made> {
    let mut g = PlainGates::new(alloc, 16, 0).ok()?;
    let fault = divided(&mut g).err();
    let circuit = g.finish();
    Some(Made { circuit, fault })
}

/// What a sharing maker has made.
fn shared(alloc: Global) -> Option<Made> {
    let mut g = HashGates::new(alloc, 16, 0).ok()?;
    let fault = divided(&mut g).err();
    let circuit = g.finish();
    Some(Made { circuit, fault })
}

/// Whether what was made is a beginning of what was made without a refusal, and all of it where none was met either.
fn begins(part: &Made, whole: &Made) -> bool {
    let is_told = match part.fault {
        Some(fault) => fault == GateFault::NoMemory,
        None => part.circuit.gates().len() == whole.circuit.gates().len(),
    };
    is_told && whole.fault.is_none() && whole.circuit.gates().starts_with(part.circuit.gates())
}

/// Whether of two makers, of which one at most was refused, that one has made a beginning of what the other has.
fn are_beginnings(first: Option<Made>, second: Option<Made>) -> bool {
    match (first, second) {
        (Some(first), Some(second)) => begins(&first, &second) || begins(&second, &first),
        (Some(only), None) | (None, Some(only)) => only.fault.is_none(),
        (None, None) => false,
    }
}

#[test]
fn quotients_are_made(rt: HostRuntime) {
    assert!(rt; are_beginnings(plain(rt.alloc()), plain(rt.alloc())));
    assert!(rt; are_beginnings(shared(rt.alloc()), shared(rt.alloc())));
}

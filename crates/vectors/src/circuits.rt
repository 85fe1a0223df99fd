//! The circuits of single operators, and what they give.

ghost use Rattle.std.specs.Prelude.{◌≡◌, ◌≤◌, ◌+◌, ◌++◌, ◌∷◌, [], true, length, map, take, IfOk, OnOk};
ghost use Rattle.base.specs.Word.{word, bits};
ghost use Rattle.base.specs.Widths.{unary_width, binary_width};
ghost use Rattle.btor2.specs.declared.item.Body.TheVariants as body;
ghost use Rattle.base.specs.Literal.{Valuation, literal_value};
ghost use Rattle.blast.specs.Lowering.{Lowers};
ghost use Rattle.runs.specs.CircuitRun.{IsFrameNow};
ghost use Rattle.vectors.specs.Vectors.{IsVector, vector_value};
ghost use Rattle.vectors.specs.OperatorModels.{operator_line, items_of, operand_bits};
ghost use Rattle.vectors.specs.CircuitRuns.{IsRunOf};

use crate::lines::Vector;
use aiger::Circuit;
use base::{Binary, Unary, Width};
use blast::lower;
use btor2::{Body, Item, Model, PushFault};
use runs::BitRun;
use std::alloc::{AllocError, Global};

/// The ids of the two sorts, the operands' and the result's.
const OPERANDS: u32 = 1;

const RESULT: u32 = 2;

/// Adds a line without a name.
fn push(model: &mut Model, id: u64, body: Body) -> Result<(), PushFault>
    ensures { OnOk result (model.new ≡ model.old ++ operator_line id body ∷ []) }
{
    model.push(Item {
        id,
        symbol: None,
        body,
    })
}

/// Adds the sorts of the operands and of the result.
fn push_sorts(model: &mut Model, operands: u64, given: u64) -> Result<(), PushFault>
    requires { model.old ≡ [] }
    ensures { OnOk result (model.new ≡ operator_line 1 (body.Sort operands)
        ∷ operator_line 2 (body.Sort given) ∷ []) }
{
    push(model, u64::from(OPERANDS), Body::Sort { width: operands })?;
    push(model, u64::from(RESULT), Body::Sort { width: given })
}

/// Adds the lines of an input, of an operator on it, and of an output.
fn push_unary(model: &mut Model, operator: Unary, width: Width) -> Result<(), PushFault>
    requires { model.old ≡ [] }
    ensures { OnOk result (model.new ≡ operator_line 1 (body.Sort width)
        ∷ operator_line 2 (body.Sort (unary_width operator width)) ∷ operator_line 3 (body.Input 1)
        ∷ operator_line 4 (body.Unary operator 2 3) ∷ operator_line 5 (body.Output 4) ∷ []) }
{
    push_sorts(model, width.bits(), operator.width(width.bits()))?;
    push(model, 3, Body::Input { sort: OPERANDS })?;
    let body = Body::Unary {
        operator,
        sort: RESULT,
        operand: 3,
    };
    push(model, 4, body)?;
    push(model, 5, Body::Output { operand: 4 })
}

/// Adds the lines of two inputs, of an operator on them, and of an output.
fn push_binary(model: &mut Model, operator: Binary, width: Width) -> Result<(), PushFault>
    requires { model.old ≡ [] }
    ensures { OnOk result (model.new ≡ operator_line 1 (body.Sort width)
        ∷ operator_line 2 (body.Sort (binary_width operator width)) ∷ operator_line 3 (body.Input 1)
        ∷ operator_line 4 (body.Input 1) ∷ operator_line 5 (body.Binary operator 2 3 4)
        ∷ operator_line 6 (body.Output 5) ∷ []) }
{
    push_sorts(model, width.bits(), operator.width(width.bits()))?;
    push(model, 3, Body::Input { sort: OPERANDS })?;
    push(model, 4, Body::Input { sort: OPERANDS })?;
    let body = Body::Binary {
        operator,
        sort: RESULT,
        left: 3,
        right: 4,
    };
    push(model, 5, body)?;
    push(model, 6, Body::Output { operand: 5 })
}

/// Adds the lines of the model of a vector's operator.
fn push_operator(model: &mut Model, vector: Vector) -> Result<(), PushFault>
    requires { model.old ≡ [] }
    ensures { OnOk result (model.new ≡ items_of vector) }
{
    match vector {
        Vector::Unary {
            operator,
            width,
            ..
        } => push_unary(model, operator, width),
        Vector::Binary {
            operator,
            width,
            ..
        } => push_binary(model, operator, width),
    }
}

/// The circuit that a model is lowered to.
///
/// Error: there was no memory. Of the models that this is called with nothing else speaks against it.
fn lowered(alloc: Global, model: &Model) -> Result<Circuit, AllocError>
    ensures { IfOk result (λ circuit. Lowers model.now circuit) }
{
    match lower(alloc, model) {
        Ok(circuit) => Ok(circuit),
        Err(_) => Err(AllocError),
    }
}

/// The circuit of a vector's operator at its width: the bits of its operands are the inputs, those of its result the
/// outputs, the lowest first.
///
/// Error: there was no memory. Nothing else speaks against such a model.
pub(crate) fn operator_circuit(alloc: Global, vector: Vector) -> Result<Circuit, AllocError>
    ensures { IfOk result (λ circuit. Lowers (items_of vector) circuit) }
{
    let mut model = Model::new(alloc);
    match push_operator(&mut model, vector) {
        Ok(()) => lowered(alloc, &model),
        Err(_) => Err(AllocError),
    }
}

/// A run of the circuit of a vector's operator.
///
/// Error: there was no memory.
pub(crate) fn operator_run<'a>(
    alloc: Global,
    circuit: &'a Circuit,
    vector: Vector,
) -> Result<BitRun<'a>, AllocError>
    requires { Lowers (items_of vector) circuit.now }
    ensures { IfOk result (IsRunOf circuit.now) }
{
    match BitRun::new(alloc, circuit) {
        Ok(run) => Ok(run),
        Err(_) => Err(AllocError),
    }
}

/// Gives the inputs from a first one on the bits of a word of a width, the lowest first.
fn set_word(run: &mut BitRun<'_>, first: usize, width: Width, word: u64)
    requires run { IsRunOf run.old.circuit run.old }
    requires room { first + width ≤ run.old.circuit.inputs }
    requires first { first ≤ 64 }
    ensures same { run.new.circuit ≡ run.old.circuit }
    ensures run { IsRunOf run.new.circuit run.new }
    ensures inputs { take (first + width) run.new.inputs
        ≡ take first run.old.inputs ++ bits width word }
{
    let mut left = word;
    for k in 0..width.bits() as usize {
        run.set_input(first + k, left % 2 == 1);
        left /= 2;
    }
}

/// Gives the inputs the bits of a vector's operands.
fn set_operands(run: &mut BitRun<'_>, vector: Vector)
    requires fits { IsVector vector }
    requires run { IsRunOf run.old.circuit run.old }
    requires inputs { run.old.circuit.inputs ≡ length (operand_bits vector) }
    ensures same { run.new.circuit ≡ run.old.circuit }
    ensures run { IsRunOf run.new.circuit run.new }
    ensures inputs { run.new.inputs ≡ operand_bits vector }
{
    match vector {
        Vector::Unary { width, operand, .. } => set_word(run, 0, width, operand),
        Vector::Binary {
            width,
            left,
            right,
            ..
        } => {
            set_word(run, 0, width, left);
            set_word(run, width.bits() as usize, width, right);
        }
    }
}

/// The word that the outputs read as, the lowest bit first.
fn output_word(run: &BitRun<'_>, circuit: &Circuit) -> u64
    requires same { run.now.circuit ≡ circuit.now }
    requires settled { run.now.settled ≡ true }
    requires few { length circuit.now.outputs ≤ 64 }
    ensures { (v : Valuation) → IsFrameNow run.now v → result
        ≡ word (map (literal_value v) circuit.now.outputs) }
{
    let mut value: u64 = 0;
    let mut left = circuit.outputs().len();
    while left > 0 {
        left -= 1;
        value = 2 * value + u64::from(run.output(left));
    }
    value
}

/// The word that a run of the circuit of a vector's operator gives for the vector's operands.
pub(crate) fn circuit_word(run: &mut BitRun<'_>, circuit: &Circuit, vector: Vector) -> u64
    requires fits { IsVector vector }
    requires lowers { Lowers (items_of vector) circuit.now }
    requires run { IsRunOf circuit.now run.old }
    ensures same { IsRunOf circuit.now run.new }
    ensures word { result ≡ vector_value vector }
{
    set_operands(run, vector);
    run.settle();
    output_word(run, circuit)
}

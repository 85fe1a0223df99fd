//! Every operator over both makers, at all its operands of 1 to 5 bits, those of products and quotients of 1 to 4 bits,
//! and over the plain maker at a thousand operands of 64 bits, against the operators on words.
ghost use Rattle.std.specs.Prelude.{◌≡◌, ◌+◌, ◌*◌, ◌<◌, ◌≤◌, ◌^◌, [], length, All};

use aiger::{Circuit, Lit};
use base::{Binary, Tally, Unary, Width, binary, ite, ones, unary};
use gates::{
    Bits, Gates, HashGates, Op, PlainGates, binary_bits, equal, gate_bound, ite_bits, mux, rotate,
    shift, unary_bits, xor,
};
use std::alloc::{AllocError, Global};

/// The operators of the table.
const OPERATORS: [Op; 46] = [
    Op::Unary(Unary::Not),
    Op::Unary(Unary::Inc),
    Op::Unary(Unary::Dec),
    Op::Unary(Unary::Neg),
    Op::Unary(Unary::Redand),
    Op::Unary(Unary::Redor),
    Op::Unary(Unary::Redxor),
    Op::Binary(Binary::Iff),
    Op::Binary(Binary::Implies),
    Op::Binary(Binary::Eq),
    Op::Binary(Binary::Neq),
    Op::Binary(Binary::Ugt),
    Op::Binary(Binary::Ugte),
    Op::Binary(Binary::Ult),
    Op::Binary(Binary::Ulte),
    Op::Binary(Binary::Sgt),
    Op::Binary(Binary::Sgte),
    Op::Binary(Binary::Slt),
    Op::Binary(Binary::Slte),
    Op::Binary(Binary::And),
    Op::Binary(Binary::Nand),
    Op::Binary(Binary::Or),
    Op::Binary(Binary::Nor),
    Op::Binary(Binary::Xor),
    Op::Binary(Binary::Xnor),
    Op::Binary(Binary::Rol),
    Op::Binary(Binary::Ror),
    Op::Binary(Binary::Sll),
    Op::Binary(Binary::Srl),
    Op::Binary(Binary::Sra),
    Op::Binary(Binary::Add),
    Op::Binary(Binary::Sub),
    Op::Binary(Binary::Mul),
    Op::Binary(Binary::Udiv),
    Op::Binary(Binary::Sdiv),
    Op::Binary(Binary::Urem),
    Op::Binary(Binary::Srem),
    Op::Binary(Binary::Smod),
    Op::Binary(Binary::Uaddo),
    Op::Binary(Binary::Saddo),
    Op::Binary(Binary::Usubo),
    Op::Binary(Binary::Ssubo),
    Op::Binary(Binary::Umulo),
    Op::Binary(Binary::Smulo),
    Op::Binary(Binary::Sdivo),
    Op::Ite,
];

/// The greatest width at which all operands of an operator are tested: products and quotients take many gates, and two
/// operators are only of bits.
fn widest(op: Op) -> u32
    ensures { result ≤ 5 }
{
    match op {
        Op::Binary(Binary::Iff | Binary::Implies) => 1,
        Op::Binary(
            Binary::Mul
            | Binary::Udiv
            | Binary::Sdiv
            | Binary::Urem
            | Binary::Srem
            | Binary::Smod
            | Binary::Umulo
            | Binary::Smulo,
        ) => 4,
        _ => 5,
    }
}

/// Inputs for two operands of up to 64 bits and a condition, 64 for each.
const INPUTS: u32 = 192;

/// The literals of so many inputs behind the first ones.
pub(crate) fn inputs(before: u32, width: u32) -> Bits
    requires before { before ≤ 128 }
    requires width { width ≤ 128 }
    ensures wide { length result.items ≡ width }
    ensures defined { All (λ l. l < 2 * (before + width + 1)) result.items }
{
    let mut bits = Bits::new();
    for i in 0..width {
        bits.push(Lit::new(2 * (before + i + 1)));
    }
    bits
}

/// The bits that an operator's builder makes of inputs; none where it is refused, or the operator is not one of this width.
fn built<G: Gates>(g: &mut G, op: Op, width: u32) -> Option<Bits>
    requires some { 1 ≤ width }
    requires most { width ≤ 64 }
    requires fresh { G.made g.old ≡ record { inputs = 192; latches = 0; gates = [] } }
{
    let a = inputs(0, width);
    let b = inputs(64, width);
    match op {
        Op::Unary(op) => unary_bits(g, op, a.as_slice()).ok(),
        Op::Binary(Binary::Iff | Binary::Implies) if width > 1 => None,
        Op::Binary(op) => binary_bits(g, op, a.as_slice(), b.as_slice()).ok(),
        Op::Ite => ite_bits(g, inputs(128, 1).as_slice(), a.as_slice(), b.as_slice()).ok(),
    }
}

/// Two operands and a condition, in words of which the lowest bits count.
type Operands = [u64; 3];

/// The value of an input for up to 64 operands at once: the k-th bit is that for the k-th ones.
fn input_values(batch: &[Operands], input: usize) -> u64
    requires { input < 192 }
{
    let mut values: u64 = 0;
    for operands in batch.iter().rev() {
        values = (values << 1) | ((operands[input / 64] >> (input % 64)) & 1);
    }
    values
}

/// The value of a literal for up to 64 operands at once, by those of the variables.
fn literal_values(values: &[u64], lit: Lit) -> u64 {
    let positive = values.get(lit.var() as usize).copied().unwrap_or(0);
    if lit.number() % 2 == 1 {
        !positive
    } else {
        positive
    }
}

/// The values of all variables for up to 64 operands at once.
fn values(alloc: Global, circuit: &Circuit, batch: &[Operands]) -> Result<Vec<u64>, AllocError> {
    let mut values = Vec::new(alloc);
    values.push(0)?;
    for input in 0..INPUTS as usize {
        values.push(input_values(batch, input))?;
    }
    for gate in circuit.gates() {
        let value = literal_values(&values, gate.rhs0) & literal_values(&values, gate.rhs1);
        values.push(value)?;
    }
    Ok(values)
}

/// The word that literals read as for the k-th operands.
fn word(values: &[u64], bits: &Bits, k: usize) -> u64
    requires { k < 64 }
{
    let mut word: u64 = 0;
    for lit in bits.as_slice().iter().rev() {
        word = (word << 1) | ((literal_values(values, *lit) >> k) & 1);
    }
    word
}

/// The word that an operator gives for operands of a width.
fn expected(alloc: Global, op: Op, w: Width, operands: Operands) -> u64 {
    let a = operands[0] & ones(w);
    let b = operands[1] & ones(w);
    let c = operands[2] & 1;
    let mut tally = Tally::new(alloc);
    match op {
        Op::Unary(op) => unary(op, w, a, &mut tally),
        Op::Binary(op) => binary(op, w, a, b, &mut tally),
        Op::Ite => ite(w, c, a, b, &mut tally),
    }
}

/// Whether a circuit's literals read as what an operator gives, for operands in batches of up to 64.
fn agrees(
    alloc: Global,
    circuit: &Circuit,
    bits: &Bits,
    op: Op,
    w: Width,
    all: &[Operands],
) -> Result<bool, AllocError> {
    for batch in all.chunks(64) {
        let values = values(alloc, circuit, batch)?;
        for k in 0..batch.len() {
            if word(&values, bits, k) != expected(alloc, op, w, batch[k]) {
                return Ok(false);
            }
        }
    }
    Ok(true)
}

/// All operands of a width.
fn all_operands(alloc: Global, width: u32) -> Result<Vec<Operands>, AllocError>
    requires { width ≤ 5 }
{
    let mut all = Vec::new(alloc);
    for bits in 0..1_u64 << (2 * width + 1) {
        all.push([bits, bits >> width, bits >> (2 * width)])?;
    }
    Ok(all)
}

/// How many gates a circuit has whose literals read as what an operator gives for these operands; none where they do not.
fn gates_if_right(
    alloc: Global,
    circuit: &Circuit,
    bits: &Option<Bits>,
    op: Op,
    width: u32,
    all: &[Operands],
) -> Option<u64> {
    let w = Width::new(u64::from(width))?;
    match agrees(alloc, circuit, bits.as_ref()?, op, w, all) {
        Ok(true) => Some(circuit.gates().len() as u64),
        _ => None,
    }
}

/// How many gates an operator takes over the plain maker, where they are right at these operands.
fn plain_gates(alloc: Global, op: Op, width: u32, all: &[Operands]) -> Option<u64>
    requires some { 1 ≤ width }
    requires most { width ≤ 64 }
{
    match PlainGates::new(alloc, INPUTS, 0) {
        Ok(mut g) => {
            let bits = built(&mut g, op, width);
            gates_if_right(alloc, &g.finish(), &bits, op, width, all)
        }
        Err(_) => None,
    }
}

/// How many gates an operator takes over the sharing maker, likewise.
fn shared_gates(alloc: Global, op: Op, width: u32, all: &[Operands]) -> Option<u64>
    requires some { 1 ≤ width }
    requires most { width ≤ 64 }
{
    match HashGates::new(alloc, INPUTS, 0) {
        Ok(mut g) => {
            let bits = built(&mut g, op, width);
            gates_if_right(alloc, &g.finish(), &bits, op, width, all)
        }
        Err(_) => None,
    }
}

/// Whether an operator's circuits agree with the operator at all operands of a width, the plain one has few enough gates
/// and the shared one no more.
fn is_right(alloc: Global, op: Op, width: u32) -> bool
    requires some { 1 ≤ width }
    requires most { width ≤ 5 }
{
    let Ok(all) = all_operands(alloc, width) else {
        return false;
    };
    let plain = plain_gates(alloc, op, width, &all);
    let shared = shared_gates(alloc, op, width, &all);
    are_few(plain, shared, gate_bound(op, u64::from(width)))
}

/// Whether plain gates are within a bound and shared ones no more.
fn are_few(plain: Option<u64>, shared: Option<u64>, bound: u64) -> bool {
    match (plain, shared) {
        (Some(plain), Some(shared)) => (shared <= plain) & (plain <= bound),
        _ => false,
    }
}

#[test]
fn every_operand_of_every_operator(rt: HostRuntime) {
    for op in &OPERATORS {
        for width in 1..widest(*op) + 1 {
            assert!(rt; is_right(rt.alloc(), *op, width), "{op:?} at {width}");
        }
    }
}

/// A number's place in a list that looks like no order (Steele, Lea and Flood, "Fast splittable pseudorandom number
/// generators").
fn scrambled(number: u64) -> u64 {
    let first = number.wrapping_mul(0x9e37_79b9_7f4a_7c15);
    let second = (first ^ (first >> 30)).wrapping_mul(0xbf58_476d_1ce4_e5b9);
    let third = (second ^ (second >> 27)).wrapping_mul(0x94d0_49bb_1331_11eb);
    third ^ (third >> 31)
}

/// The operands at a place of the stored list: scrambled numbers of all lengths, and among them equal ones, divisors 0,
/// -1 and small ones, and the least signed number.
fn stored(place: u64) -> Operands
    requires { place < 1000 }
{
    let a = scrambled(2 * place + 1) >> (place % 7 * 8);
    let b = scrambled(2 * place + 2) >> (place % 64);
    match place % 16 {
        0 => [a, a, 0],
        1 => [a, 0, 1],
        2 => [a, u64::MAX, 0],
        3 => [1 << 63, b, 1],
        4 => [1 << 63, u64::MAX, 0],
        5 => [a, place % 128, 1],
        _ => [a, b, place],
    }
}

/// The stored list of a thousand operands of 64 bits.
fn stored_operands(alloc: Global) -> Result<Vec<Operands>, AllocError> {
    let mut all = Vec::new(alloc);
    for place in 0..1000 {
        all.push(stored(place))?;
    }
    Ok(all)
}

/// Whether an operator's circuit at width 64 agrees with the operator at the stored operands and has few enough gates, or
/// the operator is only of bits.
fn is_right_at_64(alloc: Global, op: Op) -> bool {
    let Ok(all) = stored_operands(alloc) else {
        return false;
    };
    match plain_gates(alloc, op, 64, &all) {
        Some(gates) => gates <= gate_bound(op, 64),
        None => widest(op) == 1,
    }
}

#[test]
fn a_thousand_operands_of_every_operator(rt: HostRuntime) {
    for op in &OPERATORS {
        assert!(rt; is_right_at_64(rt.alloc(), *op), "{op:?}");
    }
}

/// A builder, with the numbers of the literals that it is given, or else for two words of two bits.
#[derive(Clone, Copy)]
enum Asked {
    Xor(u32, u32),
    Mux(u32, u32, u32),
    Equal,
    Shift,
    Rotation,
}

/// Builders, and how many gates they take over the sharing maker.
const COUNTED: [(Asked, usize); 11] = [
    (Asked::Xor(2, 4), 3),
    (Asked::Xor(2, 2), 0),
    (Asked::Xor(2, 3), 0),
    (Asked::Xor(2, 1), 0),
    (Asked::Mux(2, 4, 6), 3),
    (Asked::Mux(2, 4, 4), 0),
    (Asked::Mux(1, 4, 6), 0),
    (Asked::Mux(2, 4, 0), 1),
    (Asked::Equal, 7),
    (Asked::Shift, 6),
    (Asked::Rotation, 6),
];

/// The literal of a number, which is one of the first three inputs or a constant.
fn literal(number: u32) -> Lit
    ensures { result < 386 }
{
    Lit::new(number.min(7))
}

/// Whether a builder answers.
fn is_made(g: &mut HashGates, asked: Asked) -> bool
    requires fresh { g.old ≡ record { inputs = 192; latches = 0; gates = [] } }
{
    let (a, b) = (inputs(0, 2), inputs(64, 2));
    match asked {
        Asked::Xor(x, y) => xor(g, literal(x), literal(y)).is_ok(),
        Asked::Mux(c, t, e) => mux(g, literal(c), literal(t), literal(e)).is_ok(),
        Asked::Equal => equal(g, a.as_slice(), b.as_slice()).is_ok(),
        Asked::Shift => shift(g, Binary::Sll, a.as_slice(), b.as_slice()).is_ok(),
        Asked::Rotation => rotate(g, Binary::Rol, a.as_slice(), b.as_slice()).is_ok(),
    }
}

/// Whether a builder takes so many gates.
fn takes(alloc: Global, asked: Asked, gates: usize) -> bool {
    match HashGates::new(alloc, INPUTS, 0) {
        Ok(mut g) => is_made(&mut g, asked) & (g.gate_count() == gates),
        Err(_) => false,
    }
}

#[test]
fn constants_and_equal_operands_take_no_gate(rt: HostRuntime) {
    for (asked, gates) in &COUNTED {
        assert!(rt; takes(rt.alloc(), *asked, *gates));
    }
}

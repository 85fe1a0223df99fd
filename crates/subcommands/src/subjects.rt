//! What judgements are about, by name.

ghost use Rattle.std.specs.Prelude.{◌≡◌, ◌++◌, false, OnOk, codes, decimal, option_copied, option_map};
ghost use Rattle.std.specs.Io.KnownBytes.{Appends};
ghost use Rattle.base.specs.Device.{CountsFaults};
ghost use Rattle.subcommands.specs.Asked.{outcome_said};
ghost use Rattle.subcommands.specs.Subjects.{bad_line_said, bad_name_said, bad_said, first_said, firsts_said, frame_said, lifted_said, line_judged, line_said, name_said, said_by_name, says, says_line, says_name, subject_said, symbol_said, where_named};
ghost use Rattle.verbs.specs.Subjects.{lines_told, name_of};

use aiger::{Circuit, Section};
use base::{DeviceFault, Sink, write_all};
use btor2::Symbol;
use itoa::Buffer;
use rises::FirstRises;
use verbs::{Lines, Named, Outcome, Subject};
use witness::Judgement;

/// Writes the number of a thing of a kind.
fn tell_number<E: Sink>(kind: &[u8], number: u64, err: &mut E) -> Result<(), DeviceFault>
    ensures written { OnOk result (Appends (E.written err.old) (E.written err.new)
        (kind.now ++ (decimal number ++ codes " is "))) }
    ensures counted { CountsFaults result (E.failures err.old) (E.failures err.new) }
{
    let mut buffer = Buffer::new();
    write_all(err, kind)?;
    write_all(err, buffer.format(number).as_bytes())?;
    write_all(err, b" is ")
}

/// Writes a symbol, where there is one.
fn tell_symbol<E: Sink>(symbol: &Option<Symbol>, err: &mut E) -> Result<(), DeviceFault>
    ensures written { OnOk result (Appends (E.written err.old) (E.written err.new)
        (symbol_said symbol.now)) }
    ensures counted { CountsFaults result (E.failures err.old) (E.failures err.new) }
{
    match symbol {
        Some(symbol) => {
            write_all(err, symbol.bytes())?;
            write_all(err, b", ")
        }
        None => Ok(()),
    }
}

/// Writes what names a line of a model.
fn tell_line<E: Sink>(line: Named<'_>, err: &mut E) -> Result<(), DeviceFault>
    ensures written { OnOk result (Appends (E.written err.old) (E.written err.new)
        (line_said (name_of line.entry) ++ codes "\n")) }
    ensures counted { CountsFaults result (E.failures err.old) (E.failures err.new) }
{
    let mut buffer = Buffer::new();
    tell_symbol(line.symbol, err)?;
    write_all(err, b"line ")?;
    write_all(err, buffer.format(line.id).as_bytes())?;
    write_all(err, b"\n")
}

/// Says which line of a model the thing of a kind with a number is; nothing where there are not so many.
fn tell_numbered<E: Sink>(
    kind: &[u8],
    number: u64,
    line: Option<Named<'_>>,
    err: &mut E,
) -> Result<(), DeviceFault>
    ensures written { OnOk result (Appends (E.written err.old) (E.written err.new)
        (says_line kind.now number (option_map name_of line.entry))) }
    ensures counted { CountsFaults result (E.failures err.old) (E.failures err.new) }
{
    match line {
        Some(line) => {
            tell_number(kind, number, err)?;
            tell_line(line, err)
        }
        None => Ok(()),
    }
}

/// Says which name the thing of a kind with a number has in a circuit; nothing where it has none.
fn tell_name<E: Sink>(
    kind: &[u8],
    number: u64,
    name: Option<&[u8]>,
    err: &mut E,
) -> Result<(), DeviceFault>
    ensures written { OnOk result (Appends (E.written err.old) (E.written err.new)
        (says_name kind.now number (option_copied name.entry))) }
    ensures counted { CountsFaults result (E.failures err.old) (E.failures err.new) }
{
    match name {
        Some(name) => {
            tell_number(kind, number, err)?;
            write_all(err, name)?;
            write_all(err, b"\n")
        }
        None => Ok(()),
    }
}

/// Says which line of a model a bad property is.
fn tell_bad_line<E: Sink>(lines: Lines<'_>, number: u64, err: &mut E) -> Result<(), DeviceFault>
    ensures written { OnOk result (Appends (E.written err.old) (E.written err.new)
        (bad_line_said (lines_told lines.entry) number)) }
    ensures counted { CountsFaults result (E.failures err.old) (E.failures err.new) }
{
    tell_numbered(b"b", number, lines.bad(number), err)
}

/// Says which name a bad property of a circuit has.
fn tell_bad_name<E: Sink>(circuit: &Circuit, number: u64, err: &mut E) -> Result<(), DeviceFault>
    ensures written { OnOk result (Appends (E.written err.old) (E.written err.new)
        (bad_name_said circuit.now number)) }
    ensures counted { CountsFaults result (E.failures err.old) (E.failures err.new) }
{
    let name = circuit.name(Section::Bad, number as usize);
    tell_name(b"b", number, name, err)
}

/// Says which line of a model a judgement is about.
fn tell_line_judged<E: Sink>(
    lines: Lines<'_>,
    judgement: &Judgement,
    err: &mut E,
) -> Result<(), DeviceFault>
    ensures written { OnOk result (Appends (E.written err.old) (E.written err.new)
        (line_judged (lines_told lines.entry) judgement.now)) }
    ensures counted { CountsFaults result (E.failures err.old) (E.failures err.new) }
{
    match judgement {
        Judgement::NotReached { claim } => tell_bad_line(lines, *claim, err),
        Judgement::Violated { constraint, .. } => {
            tell_numbered(
                b"constraint ",
                *constraint,
                lines.constraint(*constraint),
                err,
            )
        }
        Judgement::InitDiffers { index } => {
            tell_numbered(b"state ", *index, lines.state(*index), err)
        }
        _ => Ok(()),
    }
}

/// Says which name in a circuit a judgement is about.
fn tell_name_said<E: Sink>(
    circuit: &Circuit,
    judgement: &Judgement,
    err: &mut E,
) -> Result<(), DeviceFault>
    ensures written { OnOk result (Appends (E.written err.old) (E.written err.new)
        (name_said circuit.now judgement.now)) }
    ensures counted { CountsFaults result (E.failures err.old) (E.failures err.new) }
{
    match judgement {
        Judgement::NotReached { claim } => tell_bad_name(circuit, *claim, err),
        Judgement::Violated { constraint, .. } => tell_name(
            b"constraint ",
            *constraint,
            circuit.name(Section::Constraint, *constraint as usize),
            err,
        ),
        Judgement::InitDiffers { index } => {
            tell_name(
                b"latch ",
                *index,
                circuit.name(Section::Latch, *index as usize),
                err,
            )
        }
        _ => Ok(()),
    }
}

/// Says what a judgement over the circuit of a model is about.
fn tell_lifted_said<E: Sink>(
    lines: Lines<'_>,
    circuit: &Circuit,
    judgement: &Judgement,
    err: &mut E,
) -> Result<(), DeviceFault>
    ensures written { OnOk result (Appends (E.written err.old) (E.written err.new)
        (lifted_said (lines_told lines.entry) circuit.now judgement.now)) }
    ensures counted { CountsFaults result (E.failures err.old) (E.failures err.new) }
{
    match judgement {
        Judgement::InitDiffers { .. } => tell_name_said(circuit, judgement, err),
        _ => tell_line_judged(lines, judgement, err),
    }
}

/// Says what a judgement is about.
fn tell_said<E: Sink>(
    subject: Subject<'_>,
    judgement: &Judgement,
    err: &mut E,
) -> Result<(), DeviceFault>
    ensures written { OnOk result (Appends (E.written err.old) (E.written err.new)
        (subject_said subject.entry judgement.now)) }
    ensures counted { CountsFaults result (E.failures err.old) (E.failures err.new) }
{
    match subject {
        Subject::Model(lines) => tell_line_judged(lines, judgement, err),
        Subject::Circuit(circuit) => tell_name_said(circuit, judgement, err),
        Subject::Lowered(lines, circuit) => tell_lifted_said(lines, circuit, judgement, err),
    }
}

/// Says which bad property of a subject has a number.
fn tell_bad_said<E: Sink>(subject: Subject<'_>, number: u64, err: &mut E) -> Result<(), DeviceFault>
    ensures written { OnOk result (Appends (E.written err.old) (E.written err.new)
        (bad_said subject.entry number)) }
    ensures counted { CountsFaults result (E.failures err.old) (E.failures err.new) }
{
    match subject {
        Subject::Model(lines) | Subject::Lowered(lines, _) => tell_bad_line(lines, number, err),
        Subject::Circuit(circuit) => tell_bad_name(circuit, number, err),
    }
}

/// Writes in which frame something is reached.
fn tell_frame<E: Sink>(frame: u64, err: &mut E) -> Result<(), DeviceFault>
    ensures written { OnOk result (Appends (E.written err.old) (E.written err.new)
        (frame_said frame ++ codes "\n")) }
    ensures counted { CountsFaults result (E.failures err.old) (E.failures err.new) }
{
    let mut buffer = Buffer::new();
    write_all(err, b"reached in frame ")?;
    write_all(err, buffer.format(frame).as_bytes())?;
    write_all(err, b"\n")
}

/// Says of the bad property with a number in which frame it is reached.
fn tell_reached<E: Sink>(number: u64, frame: u64, err: &mut E) -> Result<(), DeviceFault>
    ensures written { OnOk result (Appends (E.written err.old) (E.written err.new)
        (says (codes "b") number (frame_said frame))) }
    ensures counted { CountsFaults result (E.failures err.old) (E.failures err.new) }
{
    tell_number(b"b", number, err)?;
    tell_frame(frame, err)
}

/// Says of a claim that is reached first in a frame that it is, and which bad property it is; nothing where there is no frame.
fn tell_first<E: Sink>(
    subject: Subject<'_>,
    number: u64,
    first: Option<u64>,
    err: &mut E,
) -> Result<(), DeviceFault>
    ensures written { OnOk result (Appends (E.written err.old) (E.written err.new)
        (first_said (bad_said subject.entry) number first)) }
    ensures counted { CountsFaults result (E.failures err.old) (E.failures err.new) }
{
    match first {
        Some(frame) => {
            tell_reached(number, frame, err)?;
            tell_bad_said(subject, number, err)
        }
        None => Ok(()),
    }
}

/// Says in which frames claims are reached first, and which bad properties they are.
fn tell_firsts<E: Sink>(
    subject: Subject<'_>,
    firsts: &FirstRises,
    err: &mut E,
) -> Result<(), DeviceFault>
    ensures written { OnOk result (Appends (E.written err.old) (E.written err.new)
        (firsts_said (bad_said subject.entry) 0 firsts.now)) }
    ensures counted { CountsFaults result (E.failures err.old) (E.failures err.new) }
{
    for position in 0..firsts.len() {
        tell_first(subject, position as u64, firsts.frame(position), err)?;
    }
    Ok(())
}

/// Says what a judgement is about, and of an acceptance in which frames the claims are reached first.
pub fn tell_by_name<E: Sink>(
    subject: Subject<'_>,
    judgement: &Judgement,
    firsts: &FirstRises,
    err: &mut E,
) -> Result<(), DeviceFault>
    ensures written { OnOk result (Appends (E.written err.old) (E.written err.new)
        (said_by_name (subject_said subject.entry) (bad_said subject.entry) firsts.now
        judgement.now)) }
    ensures counted { CountsFaults result (E.failures err.old) (E.failures err.new) }
{
    tell_said(subject, judgement, err)?;
    match judgement {
        Judgement::Accepted { .. } => tell_firsts(subject, firsts, err),
        _ => Ok(()),
    }
}

/// Says the same of a judgement, and of an accepted witness that does not claim what is asked for which bad property that is.
fn tell_outcome<E: Sink>(
    subject: Subject<'_>,
    outcome: &Outcome,
    firsts: &FirstRises,
    err: &mut E,
) -> Result<(), DeviceFault>
    ensures written { OnOk result (Appends (E.written err.old) (E.written err.new)
        (outcome_said (subject_said subject.entry) (bad_said subject.entry) firsts.now
        outcome.now)) }
    ensures counted { CountsFaults result (E.failures err.old) (E.failures err.new) }
{
    match outcome {
        Outcome::Judged(judgement) => tell_by_name(subject, judgement, firsts, err),
        Outcome::Unclaimed(position) => tell_bad_said(subject, *position as u64, err),
    }
}

/// Says the same, where names are asked for.
pub(crate) fn tell_outcome_where_named<E: Sink>(
    named: bool,
    subject: Subject<'_>,
    outcome: &Outcome,
    firsts: &FirstRises,
    err: &mut E,
) -> Result<(), DeviceFault>
    ensures written { OnOk result (Appends (E.written err.old) (E.written err.new)
        (where_named named (outcome_said (subject_said subject.entry) (bad_said subject.entry)
        firsts.now outcome.now))) }
    ensures quiet { named ≡ false → err.new ≡ err.old }
    ensures counted { CountsFaults result (E.failures err.old) (E.failures err.new) }
{
    if !named {
        return Ok(());
    }
    tell_outcome(subject, outcome, firsts, err)
}

/// Says what a judgement is about, and of an acceptance in which frames the claims are reached first, where names are asked
/// for.
pub fn tell_where_named<E: Sink>(
    named: bool,
    subject: Subject<'_>,
    judgement: &Judgement,
    firsts: &FirstRises,
    err: &mut E,
) -> Result<(), DeviceFault>
    ensures written { OnOk result (Appends (E.written err.old) (E.written err.new)
        (where_named named (said_by_name (subject_said subject.entry)
        (bad_said subject.entry) firsts.now judgement.now))) }
    ensures quiet { named ≡ false → err.new ≡ err.old }
    ensures counted { CountsFaults result (E.failures err.old) (E.failures err.new) }
{
    if !named {
        return Ok(());
    }
    tell_by_name(subject, judgement, firsts, err)
}

/// Says which bad property of a subject has a number, where names are asked for.
pub fn tell_bad<E: Sink>(
    named: bool,
    subject: Subject<'_>,
    number: usize,
    err: &mut E,
) -> Result<(), DeviceFault>
    ensures written { OnOk result (Appends (E.written err.old) (E.written err.new)
        (where_named named (bad_said subject.entry number))) }
    ensures quiet { named ≡ false → err.new ≡ err.old }
    ensures counted { CountsFaults result (E.failures err.old) (E.failures err.new) }
{
    if !named {
        return Ok(());
    }
    tell_bad_said(subject, number as u64, err)
}

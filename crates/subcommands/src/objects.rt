//! The objects of JSON that tell judgements and refusals.

ghost use Rattle.std.specs.Prelude.{◌≡◌, ◌||◌, false, OnOk, codes};
ghost use Rattle.std.specs.Io.KnownBytes.{Appends};
ghost use Rattle.base.specs.Device.{CountsFaults};
ghost use Rattle.subcommands.specs.Objects.{bad_members, certificate_object, claim_begin, claim_end, claim_object, claim_objects, claims_begin, claims_end, fault_members, fault_object, is_there, item_place, judgement_members, names, object, outcome_object, place_at, proof_members, proof_verdict, refusal_verdict, separator, verdict_name, why_member};

use crate::json::{
    begin_object, end_object, write_faulty, write_line, write_number, write_numbered, write_place,
    write_symbol, write_text,
};
use aiger::Section;
use base::{DeviceFault, Sink, write_all};
use blast::LowerFault;
use drup::Judgement as Verdict;
use itoa::Buffer;
use rises::FirstRises;
use verbs::{Fault, Outcome, Subject};
use witness::{JudgeFault, Judgement};

/// Writes what names a bad property.
fn write_bad<O: Sink>(subject: Subject<'_>, number: u64, out: &mut O) -> Result<(), DeviceFault>
    ensures written { OnOk result (Appends (O.written out.old) (O.written out.new)
        ((names subject.entry).bad number)) }
    ensures counted { CountsFaults result (O.failures out.old) (O.failures out.new) }
{
    match subject {
        Subject::Model(lines) | Subject::Lowered(lines, _) => write_line(lines.bad(number), out),
        Subject::Circuit(circuit) => {
            write_symbol(circuit.name(Section::Bad, number as usize), out)
        }
    }
}

/// Writes what names a constraint.
fn write_constraint<O: Sink>(
    subject: Subject<'_>,
    number: u64,
    out: &mut O,
) -> Result<(), DeviceFault>
    ensures written { OnOk result (Appends (O.written out.old) (O.written out.new)
        ((names subject.entry).constraint number)) }
    ensures counted { CountsFaults result (O.failures out.old) (O.failures out.new) }
{
    match subject {
        Subject::Model(lines) | Subject::Lowered(lines, _) => {
            write_line(lines.constraint(number), out)
        }
        Subject::Circuit(circuit) => {
            write_symbol(circuit.name(Section::Constraint, number as usize), out)
        }
    }
}

/// Writes a state or a latch.
fn write_leaf<O: Sink>(subject: Subject<'_>, number: u64, out: &mut O) -> Result<(), DeviceFault>
    ensures written { OnOk result (Appends (O.written out.old) (O.written out.new)
        ((names subject.entry).leaf number)) }
    ensures counted { CountsFaults result (O.failures out.old) (O.failures out.new) }
{
    match subject {
        Subject::Model(lines) => {
            write_number(b"state", number, out)?;
            write_line(lines.state(number), out)
        }
        Subject::Circuit(circuit) | Subject::Lowered(_, circuit) => {
            write_number(b"latch", number, out)?;
            write_symbol(circuit.name(Section::Latch, number as usize), out)
        }
    }
}

/// Writes a bad property by its number and by what names it.
fn write_numbered_bad<O: Sink>(
    subject: Subject<'_>,
    number: u64,
    out: &mut O,
) -> Result<(), DeviceFault>
    ensures written { OnOk result (Appends (O.written out.old) (O.written out.new)
        (bad_members (names subject.entry) number)) }
    ensures counted { CountsFaults result (O.failures out.old) (O.failures out.new) }
{
    write_number(b"bad", number, out)?;
    write_bad(subject, number, out)
}

/// What stands between two claims.
fn separator(is_behind: bool) -> &'static [u8]
    ensures { result.now ≡ separator is_behind }
{
    if is_behind { b", " } else { b"" }
}

/// Begins the object of a claim.
#[tactic(auto, unfolding(crate::specs::Objects::claim_begin))]
fn begin_claim<O: Sink>(number: u64, out: &mut O) -> Result<(), DeviceFault>
    ensures written { OnOk result (Appends (O.written out.old) (O.written out.new)
        (claim_begin number)) }
    ensures counted { CountsFaults result (O.failures out.old) (O.failures out.new) }
{
    let mut buffer = Buffer::new();
    write_all(out, b"{\"bad\": ")?;
    write_all(out, buffer.format(number).as_bytes())
}

/// Ends the object of a claim.
#[tactic(auto, unfolding(crate::specs::Objects::claim_end))]
fn end_claim<O: Sink>(out: &mut O) -> Result<(), DeviceFault>
    ensures written { OnOk result (Appends (O.written out.old) (O.written out.new) claim_end) }
    ensures counted { CountsFaults result (O.failures out.old) (O.failures out.new) }
{
    write_all(out, b"}")
}

/// Writes a claim that is reached first in a frame, behind another or not; nothing where there is no frame.
fn write_claim<O: Sink>(
    subject: Subject<'_>,
    is_behind: bool,
    number: u64,
    first: Option<u64>,
    out: &mut O,
) -> Result<(), DeviceFault>
    ensures written { OnOk result (Appends (O.written out.old) (O.written out.new)
        (claim_object (names subject.entry) is_behind number first)) }
    ensures counted { CountsFaults result (O.failures out.old) (O.failures out.new) }
{
    match first {
        Some(frame) => {
            write_all(out, separator(is_behind))?;
            begin_claim(number, out)?;
            write_number(b"frame", frame, out)?;
            write_bad(subject, number, out)?;
            end_claim(out)
        }
        None => Ok(()),
    }
}

/// Whether a claim stands before the next one: one before, or that of which there may be a frame.
fn stands_before(is_behind: bool, first: Option<u64>) -> bool
    ensures { result ≡ (is_behind || is_there first) }
{
    is_behind || first.is_some()
}

/// Writes the claims of an accepted witness with the frames in which they are reached first.
fn write_claims<O: Sink>(
    subject: Subject<'_>,
    firsts: &FirstRises,
    out: &mut O,
) -> Result<(), DeviceFault>
    ensures written { OnOk result (Appends (O.written out.old) (O.written out.new)
        (claim_objects (names subject.entry) false 0 firsts.now)) }
    ensures counted { CountsFaults result (O.failures out.old) (O.failures out.new) }
{
    let mut is_behind = false;
    for position in 0..firsts.len() {
        let first = firsts.frame(position);
        write_claim(subject, is_behind, position as u64, first, out)?;
        is_behind = stands_before(is_behind, first);
    }
    Ok(())
}

/// Begins the claims of an accepted witness.
#[tactic(auto, unfolding(crate::specs::Objects::claims_begin))]
fn begin_claims<O: Sink>(out: &mut O) -> Result<(), DeviceFault>
    ensures written { OnOk result (Appends (O.written out.old) (O.written out.new)
        claims_begin) }
    ensures counted { CountsFaults result (O.failures out.old) (O.failures out.new) }
{
    write_all(out, b", \"claims\": [")
}

/// Ends the claims of an accepted witness.
#[tactic(auto, unfolding(crate::specs::Objects::claims_end))]
fn end_claims<O: Sink>(out: &mut O) -> Result<(), DeviceFault>
    ensures written { OnOk result (Appends (O.written out.old) (O.written out.new) claims_end) }
    ensures counted { CountsFaults result (O.failures out.old) (O.failures out.new) }
{
    write_all(out, b"]")
}

/// The word of a verdict.
fn verdict_name(judgement: &Judgement) -> &'static [u8]
    ensures { result.now ≡ verdict_name judgement.now }
{
    match judgement {
        Judgement::Accepted { .. } => b"accepted",
        Judgement::NotReached { .. } => b"not reached",
        Judgement::Violated { .. } => b"violated",
        Judgement::InitDiffers { .. } => b"initial value differs",
        Judgement::Malformed { .. } => b"malformed",
        Judgement::NoClaim => b"no claim",
    }
}

/// Writes what a judgement tells beside its verdict.
fn write_judged<O: Sink>(
    subject: Subject<'_>,
    judgement: &Judgement,
    firsts: &FirstRises,
    out: &mut O,
) -> Result<(), DeviceFault>
    ensures written { OnOk result (Appends (O.written out.old) (O.written out.new)
        (judgement_members (names subject.entry) firsts.now judgement.now)) }
    ensures counted { CountsFaults result (O.failures out.old) (O.failures out.new) }
{
    match judgement {
        Judgement::Accepted { frames } => {
            write_number(b"frames", *frames, out)?;
            begin_claims(out)?;
            write_claims(subject, firsts, out)?;
            end_claims(out)
        }
        Judgement::NotReached { claim } => write_numbered_bad(subject, *claim, out),
        Judgement::Violated { frame, constraint } => {
            write_number(b"frame", *frame, out)?;
            write_number(b"constraint", *constraint, out)?;
            write_constraint(subject, *constraint, out)
        }
        Judgement::InitDiffers { index } => write_leaf(subject, *index, out),
        Judgement::Malformed { line, why } => {
            write_faulty(b"line", *line, why.number(), why.name(), out)
        }
        Judgement::NoClaim => Ok(()),
    }
}

/// Writes the object that tells how a witness is judged.
pub(crate) fn write_outcome<O: Sink>(
    subject: Subject<'_>,
    outcome: &Outcome,
    firsts: &FirstRises,
    out: &mut O,
) -> Result<(), DeviceFault>
    ensures written { OnOk result (Appends (O.written out.old) (O.written out.new)
        (outcome_object (names subject.entry) firsts.now outcome.now)) }
    ensures counted { CountsFaults result (O.failures out.old) (O.failures out.new) }
{
    match outcome {
        Outcome::Judged(judgement) => {
            begin_object(verdict_name(judgement), out)?;
            write_judged(subject, judgement, firsts, out)?;
            end_object(out)
        }
        Outcome::Unclaimed(position) => {
            begin_object(b"not claimed", out)?;
            write_numbered_bad(subject, *position as u64, out)?;
            end_object(out)
        }
    }
}

/// The word of a verdict on a certificate.
fn proof_verdict(judgement: &Verdict) -> &'static [u8]
    ensures { result.now ≡ proof_verdict judgement.now }
{
    match judgement {
        Verdict::Derived { .. } => b"holds",
        Verdict::NotImplied { .. } => b"not implied",
        Verdict::Malformed { .. } => b"malformed",
        Verdict::NotDerived => b"not derived",
    }
}

/// Writes where a proof goes wrong.
fn write_proof_place<O: Sink>(judgement: &Verdict, out: &mut O) -> Result<(), DeviceFault>
    ensures written { OnOk result (Appends (O.written out.old) (O.written out.new)
        (proof_members judgement.now)) }
    ensures counted { CountsFaults result (O.failures out.old) (O.failures out.new) }
{
    match judgement {
        Verdict::NotImplied { line } => write_place(b"line", *line, out),
        Verdict::Malformed { line, why } => {
            write_faulty(b"line", *line, why.number(), why.name(), out)
        }
        Verdict::Derived { .. } | Verdict::NotDerived => Ok(()),
    }
}

/// Writes the object that tells how a certificate of a bad property is judged.
pub(crate) fn write_certified<O: Sink>(
    subject: Subject<'_>,
    claim: usize,
    judgement: &Verdict,
    out: &mut O,
) -> Result<(), DeviceFault>
    ensures written { OnOk result (Appends (O.written out.old) (O.written out.new)
        (certificate_object ((names subject.entry).bad claim) claim judgement.now)) }
    ensures counted { CountsFaults result (O.failures out.old) (O.failures out.new) }
{
    begin_object(proof_verdict(judgement), out)?;
    write_number(b"bad", claim as u64, out)?;
    write_bad(subject, claim as u64, out)?;
    write_proof_place(judgement, out)?;
    end_object(out)
}

/// Writes the item that a lowering is refused for, where it is one.
fn write_item_place<O: Sink>(fault: LowerFault, out: &mut O) -> Result<(), DeviceFault>
    ensures written { OnOk result (Appends (O.written out.old) (O.written out.new)
        (item_place fault)) }
    ensures counted { CountsFaults result (O.failures out.old) (O.failures out.new) }
{
    match fault {
        LowerFault::Justice(id) | LowerFault::Fair(id) | LowerFault::NoNext(id) => {
            write_place(b"item", id, out)
        }
        LowerFault::TooBig | LowerFault::NoMemory => Ok(()),
    }
}

/// Writes an item, where there is one.
fn write_item_at<O: Sink>(item: Option<u64>, out: &mut O) -> Result<(), DeviceFault>
    ensures written { OnOk result (Appends (O.written out.old) (O.written out.new)
        (place_at item)) }
    ensures counted { CountsFaults result (O.failures out.old) (O.failures out.new) }
{
    match item {
        Some(id) => write_place(b"item", id, out),
        None => Ok(()),
    }
}

/// Writes what is wrong with a file.
fn write_fault<O: Sink>(fault: &Fault, out: &mut O) -> Result<(), DeviceFault>
    ensures written { OnOk result (Appends (O.written out.old) (O.written out.new)
        (fault_members fault.now)) }
    ensures counted { CountsFaults result (O.failures out.old) (O.failures out.new) }
{
    match fault {
        Fault::Model(fault) => {
            let why = fault.why;
            write_faulty(b"line", fault.line, why.printed_number(), why.name(), out)
        }
        Fault::Circuit(fault) => {
            let why = fault.why;
            write_faulty(b"byte", fault.place, why.number(), why.name(), out)
        }
        Fault::Lowering(fault) => {
            write_item_place(*fault, out)?;
            write_numbered(fault.number(), fault.name(), out)
        }
        Fault::Fitting(fault) => {
            write_item_at(fault.item(), out)?;
            write_numbered(fault.number(), fault.name(), out)
        }
        Fault::Writing(fault) => {
            write_item_at(fault.item(), out)?;
            write_numbered(fault.number(), fault.name(), out)
        }
        Fault::Outputs(fault) => write_numbered(fault.number(), fault.name(), out),
        Fault::Engine(fault) => write_numbered(fault.number(), fault.name(), out),
        Fault::Invariant(fault) => {
            let why = fault.why;
            write_faulty(b"line", fault.line, why.number(), why.name(), out)
        }
        Fault::Obligation(fault) => write_numbered(fault.number(), fault.name(), out),
        Fault::Test(fault) => write_numbered(fault.number(), fault.name(), out),
        Fault::NoNext(id) => {
            let fault = JudgeFault::NoNext(*id);
            write_faulty(b"item", *id, fault.number(), fault.name(), out)
        }
        Fault::Vector(line) => {
            write_place(b"line", *line, out)?;
            write_text(b"why", b"bad vector", out)
        }
        Fault::Unchosen(_) => write_text(b"why", b"--bad K says which bad property it is", out),
        Fault::SameName(one, other) => {
            write_number(b"bad", *one, out)?;
            write_number(b"other", *other, out)?;
            write_text(b"why", b"two bad properties have this name", out)
        }
    }
}

/// The word of a refusal.
fn refusal_verdict(fault: &Fault) -> &'static [u8]
    ensures { result.now ≡ refusal_verdict fault.now }
{
    match fault {
        Fault::Unchosen(_) | Fault::SameName(..) => b"left open",
        _ => b"refused",
    }
}

/// Writes the object that tells the fault of a file.
pub(crate) fn write_refused<O: Sink>(
    file: &str,
    fault: &Fault,
    out: &mut O,
) -> Result<(), DeviceFault>
    ensures written { OnOk result (Appends (O.written out.old) (O.written out.new)
        (fault_object file.now fault.now)) }
    ensures counted { CountsFaults result (O.failures out.old) (O.failures out.new) }
{
    begin_object(refusal_verdict(fault), out)?;
    write_text(b"file", file.as_bytes(), out)?;
    write_fault(fault, out)?;
    end_object(out)
}

/// Writes the object that tells why nothing is judged.
pub fn write_failed<O: Sink>(why: &[u8], out: &mut O) -> Result<(), DeviceFault>
    ensures written { OnOk result (Appends (O.written out.old) (O.written out.new)
        (object (codes "failed") (why_member why.now))) }
    ensures counted { CountsFaults result (O.failures out.old) (O.failures out.new) }
{
    begin_object(b"failed", out)?;
    write_text(b"why", why, out)?;
    end_object(out)
}

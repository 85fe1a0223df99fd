//! The lines that tell why a command is not done.

ghost use Rattle.std.specs.Prelude.{◌≡◌, IfOk};
ghost use Rattle.std.specs.String.{string_bytes};
ghost use Rattle.verbs.specs.declared.refusals.Fault.TheVariants as fault_is;
ghost use Rattle.subcommands.specs.Refusals.{about, fault_said, item_said, numbered_name, same_name_said, status_of_fault};

use blast::LowerFault;
use invocation::{REFUSED, WORDS_REFUSED};
use std::alloc::{AllocError, Global};
use verbs::{Claimed, Fault};
use witness::JudgeFault;

/// What is told behind the name of a file where words leave open which bad property a counterexample claims.
const UNCHOSEN_FOUND: &str =
    ": --bad K says which bad property rises: the K that the engine form was made for, or of a form of all, that of ABC's Output K of miter\n";

/// What is told where they leave open which one a witness circuit guards.
const UNCHOSEN_GUARDED: &str =
    ": --bad K says which bad property holds: the one that the witness circuit is a certificate of\n";

/// What is told where they leave open which one an invariant claims.
const UNCHOSEN_CERTIFIED: &str =
    ": --bad K says which bad property holds: the K that the engine form of the invariant was made for\n";

/// The exit status of a command that a fault refuses.
pub(crate) fn fault_status(fault: &Fault) -> u8
    ensures { result ≡ status_of_fault fault.now }
{
    match fault {
        Fault::Unchosen(_) | Fault::SameName(..) => WORDS_REFUSED,
        _ => REFUSED,
    }
}

/// The line that tells a fault of a file, by a name as it is.
pub(crate) fn fault_line(alloc: Global, fault: &Fault, file: &str) -> Result<String, AllocError>
    ensures { IfOk result (λ line. string_bytes line ≡ about file.now (fault_said fault.now)) }
{
    match fault {
        Fault::Model(fault) => {
            let line = fault.line;
            let number = fault.why.printed_number();
            let name = fault.why.name();
            format!(in alloc; "{file}: line {line}: {number} {name}\n")
        }
        Fault::Circuit(fault) => {
            let place = fault.place;
            let number = fault.why.number();
            let name = fault.why.name();
            format!(in alloc; "{file}: byte {place}: {number} {name}\n")
        }
        Fault::Lowering(fault) => lowering_line(alloc, file, *fault),
        Fault::Fitting(fault) => match fault.item() {
            Some(id) => item_line(alloc, file, id, fault.number(), fault.name()),
            None => plain_line(alloc, file, fault.number(), fault.name()),
        },
        Fault::Writing(fault) => match fault.item() {
            Some(id) => item_line(alloc, file, id, fault.number(), fault.name()),
            None => plain_line(alloc, file, fault.number(), fault.name()),
        },
        Fault::Outputs(fault) => plain_line(alloc, file, fault.number(), fault.name()),
        Fault::Engine(fault) => plain_line(alloc, file, fault.number(), fault.name()),
        Fault::Invariant(fault) => {
            let line = fault.line;
            let number = fault.why.number();
            let name = fault.why.name();
            format!(in alloc; "{file}: line {line}: {number} {name}\n")
        }
        Fault::Obligation(fault) => plain_line(alloc, file, fault.number(), fault.name()),
        Fault::Test(fault) => plain_line(alloc, file, fault.number(), fault.name()),
        Fault::NoNext(id) => {
            let fault = JudgeFault::NoNext(*id);
            item_line(alloc, file, *id, fault.number(), fault.name())
        }
        Fault::Vector(line) => {
            let line = *line;
            format!(in alloc; "{file}: line {line}: bad vector\n")
        }
        Fault::Unchosen(Claimed::Found) => format!(in alloc; "{file}{UNCHOSEN_FOUND}"),
        Fault::Unchosen(Claimed::Certified) => { format!(in alloc; "{file}{UNCHOSEN_CERTIFIED}") }
        Fault::Unchosen(Claimed::Guarded) => format!(in alloc; "{file}{UNCHOSEN_GUARDED}"),
        Fault::SameName(one, other) => same_name_line(alloc, file, *one, *other),
    }
}

/// The line that tells of a file the number and the name of what speaks against one of its items.
fn item_line(
    alloc: Global,
    file: &str,
    id: u64,
    number: u32,
    name: &str,
) -> Result<String, AllocError>
    ensures { IfOk result (λ line. string_bytes line
        ≡ about file.now (item_said id number name.now)) }
{
    format!(in alloc; "{file}: item {id}: {number} {name}\n")
}

/// The line that tells of a file that two bad properties have one name, and what to write in its place.
fn same_name_line(alloc: Global, file: &str, one: u64, other: u64) -> Result<String, AllocError>
    ensures { IfOk result (λ line. string_bytes line
        ≡ about file.now (same_name_said one other)) }
{
    format!(in alloc;
        "{file}: b{one} and b{other} have this name: write --bad {one} or --bad {other}\n"
    )
}

/// The line that tells of a file as a whole the number and the name of what speaks against it.
fn plain_line(alloc: Global, file: &str, number: u32, name: &str) -> Result<String, AllocError>
    ensures { IfOk result (λ line. string_bytes line
        ≡ about file.now (numbered_name number name.now)) }
{
    format!(in alloc; "{file}: {number} {name}\n")
}

/// The line that tells of a file why its model is not lowered.
fn lowering_line(alloc: Global, file: &str, fault: LowerFault) -> Result<String, AllocError>
    ensures { IfOk result (λ line. string_bytes line
        ≡ about file.now (fault_said (fault_is.Lowering fault))) }
{
    let number = fault.number();
    let name = fault.name();
    match fault {
        LowerFault::Justice(id) | LowerFault::Fair(id) | LowerFault::NoNext(id) => {
            item_line(alloc, file, id, number, name)
        }
        LowerFault::TooBig | LowerFault::NoMemory => plain_line(alloc, file, number, name),
    }
}

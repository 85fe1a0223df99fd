//! What is printed of the faults of devices, models, texts, circuits, gates, forms and tests.
use aiger::CircuitFault;
use aigerlists::LooseFault;
use base::{DeviceFault, ReadAllFault};
use btor2::{PushFault, SymbolFault};
use btor2text::{ReadFault, Why};
use engine_form::EngineFault;
use gates::GateFault;
use std::alloc::Global;
use std::fmt::Display;
use witness_circuits::TestFault;

/// Faults of devices, and what is printed of them.
const OF_DEVICES: [(DeviceFault, &str); 1] = [(DeviceFault::Failed, "device")];

/// Faults of reading all.
const OF_SOURCES: [(ReadAllFault, &str); 2] = [
    (ReadAllFault::Device, "device"),
    (ReadAllFault::NoMemory, "no memory"),
];

/// Faults of models.
const OF_MODELS: [(PushFault, &str); 15] = [
    (PushFault::IdTaken, "1 IdTaken"),
    (PushFault::IdOutOfRange, "2 IdOutOfRange"),
    (PushFault::NoSuchSort, "3 NoSuchSort"),
    (PushFault::NoSuchNode, "4 NoSuchNode"),
    (PushFault::WidthOutOfRange, "5 WidthOutOfRange"),
    (PushFault::SortMismatch, "6 SortMismatch"),
    (PushFault::SliceOutOfRange, "7 SliceOutOfRange"),
    (PushFault::NotAState, "8 NotAState"),
    (PushFault::SecondInit, "9 SecondInit"),
    (PushFault::SecondNext, "10 SecondNext"),
    (PushFault::InitNotConstant, "11 InitNotConstant"),
    (PushFault::TooManyItems, "12 TooManyItems"),
    (PushFault::JusticeEmpty, "13 JusticeEmpty"),
    (PushFault::NoMemory, "14 NoMemory"),
    (PushFault::ConstantDoesNotFit, "15 ConstantDoesNotFit"),
];

/// Faults of symbols.
const OF_SYMBOLS: [(SymbolFault, &str); 2] = [
    (SymbolFault::BadBytes, "16 BadBytes"),
    (SymbolFault::NoMemory, "17 NoMemory"),
];

/// Why the text of a model is none.
const OF_TEXTS: [(Why, &str); 3] = [
    (Why::Refused(PushFault::SecondInit), "9 SecondInit"),
    (Why::Device, "29 Device"),
    (Why::NoMemory, "30 NoMemory"),
];

/// The same with the line.
const OF_LINES: [(ReadFault, &str); 1] = [(
    ReadFault {
        line: 2,
        why: Why::Refused(PushFault::IdTaken),
    },
    "line 2: 1 IdTaken",
)];

/// Faults of calls on circuits.
const OF_CIRCUITS: [(CircuitFault, &str); 7] = [
    (CircuitFault::LiteralOutOfRange, "40 LiteralOutOfRange"),
    (CircuitFault::OrderBroken, "41 OrderBroken"),
    (CircuitFault::TooBig, "42 TooBig"),
    (CircuitFault::NoMemory, "43 NoMemory"),
    (CircuitFault::NoSuchPosition, "44 NoSuchPosition"),
    (CircuitFault::NameTaken, "45 NameTaken"),
    (CircuitFault::BadName, "46 BadName"),
];

/// Faults of numbering.
const OF_NUMBERING: [(LooseFault, &str); 3] = [
    (LooseFault::Undefined(3), "63 Undefined"),
    (LooseFault::Cycle(0), "62 Cycle"),
    (LooseFault::NoMemory, "43 NoMemory"),
];

/// Faults of gate makers.
const OF_GATES: [(GateFault, &str); 2] = [
    (GateFault::TooBig, "80 TooBig"),
    (GateFault::NoMemory, "81 NoMemory"),
];

/// Why there is no engine form.
const OF_FORMS: [(EngineFault, &str); 6] = [
    (EngineFault::Justice, "140 Justice"),
    (EngineFault::Fair, "141 Fair"),
    (EngineFault::NoBad, "145 NoBad"),
    (EngineFault::NoSuchBad, "142 NoSuchBad"),
    (EngineFault::TooBig, "143 TooBig"),
    (EngineFault::NoMemory, "144 NoMemory"),
];

/// Why a witness circuit has no test.
const OF_TESTS: [(TestFault, &str); 8] = [
    (TestFault::Justice, "210 Justice"),
    (TestFault::Fair, "211 Fair"),
    (TestFault::NoProperty, "212 NoProperty"),
    (TestFault::SeveralProperties, "213 SeveralProperties"),
    (TestFault::NoSuchLiteral, "214 NoSuchLiteral"),
    (TestFault::NoSuchBad, "215 NoSuchBad"),
    (TestFault::TooBig, "216 TooBig"),
    (TestFault::NoMemory, "217 NoMemory"),
];

/// The first text that is not printed of its fault.
fn wrong<T: Display>(alloc: Global, faults: &[(T, &'static str)]) -> Option<&'static str> {
    for (fault, text) in faults {
        match format!(in alloc; "{fault}") {
            Ok(printed) if printed.as_str() == *text => {}
            _ => return Some(*text),
        }
    }
    None
}

#[test]
fn faults_are_printed(rt: HostRuntime) {
    let wrong = wrong(rt.alloc(), &OF_DEVICES)
        .or(wrong(rt.alloc(), &OF_SOURCES))
        .or(wrong(rt.alloc(), &OF_MODELS))
        .or(wrong(rt.alloc(), &OF_SYMBOLS))
        .or(wrong(rt.alloc(), &OF_TEXTS))
        .or(wrong(rt.alloc(), &OF_LINES))
        .or(wrong(rt.alloc(), &OF_CIRCUITS))
        .or(wrong(rt.alloc(), &OF_NUMBERING))
        .or(wrong(rt.alloc(), &OF_GATES))
        .or(wrong(rt.alloc(), &OF_FORMS))
        .or(wrong(rt.alloc(), &OF_TESTS));
    assert!(rt; wrong.is_none(), "{wrong:?}");
}

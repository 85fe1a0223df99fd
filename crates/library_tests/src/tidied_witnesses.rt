//! Texts of witnesses as tools write them, with what is written of them: in pieces of many sizes, and with a device that
//! fails at each call.

use base::{Chop, FailAt, VecSink};
use std::alloc::Global;
use std::test::Fail;
use tidy::{TidyFault, tidy};

/// Which witness is wanted, a text, and what is written.
type Row = (u64, &'static str, &'static str);

/// Witnesses of words.
const WORDS: [Row; 10] = [
    (1, "sat\nb0 \n@0\n.\n", "sat\nb0\n@0\n.\n"),
    (1, "sat\nb0\n;x\n@0\n ; y\n.\n", "sat\nb0\n@0\n.\n"),
    (1, "sat\r\nb0\r\n@0\r\n.\r\n", "sat\nb0\n@0\n.\n"),
    (1, "sat\nb0\n@0\n.\n\n", "sat\nb0\n@0\n.\n"),
    (1, "sat\nb0\n#0\n0 x1\tx\n.\n", "sat\nb0\n#0\n0 01 x\n.\n"),
    (1, "u0\nu1\nsat\nb0\n@0\n.\n", "sat\nb0\n@0\n.\n"),
    (1, "sat\nb0\n@0\n.\nsat\nb1\n@0\n.\n", "sat\nb0\n@0\n.\n"),
    (2, "sat\nb0\n@0\n.\nsat\nb1\n@0\n.\n", "sat\nb1\n@0\n.\n"),
    (3, "sat\nb0\n@0\n.\nsat\nb1\n@0\n.\n", ""),
    (
        1,
        ";x  y \r\nsat\nb0 b1\n@0\n0 1 x\n.\n",
        ";x  y \r\nsat\nb0 b1\n@0\n0 1 x\n.\n",
    ),
];

/// Witnesses of bits.
const BITS: [Row; 9] = [
    (1, "1\nb0 \n0\n1\n.\n", "1\nb0\n0\n1\n.\n"),
    (1, "1\r\nb0\r\n\r\n1\r\n.\r\n", "1\nb0\n\n1\n.\n"),
    (1, "\n1\nb0\n\n1\n\n0\n.\n\n", "1\nb0\n\n1\n0\n.\n"),
    (1, "1\nb0\n0\n\n\n.\n\n", "1\nb0\n0\n\n\n.\n"),
    (1, "1\nb0\nx\n1x\n.\n", "1\nb0\n0\n10\n.\n"),
    (1, "u0\n1\nb0\n0\n1\n.\nc\nby hand\n", "1\nb0\n0\n1\n.\n"),
    (1, "1\nb0\n0\n1\n.\n1\nb1\n0\n1\n.\n", "1\nb0\n0\n1\n.\n"),
    (2, "0\nb0\n.\n1\nb1\n0\n1\n.\n", "1\nb1\n0\n1\n.\n"),
    (1, "1\nb0\n0\n1\n.\n", "1\nb0\n0\n1\n.\n"),
];

/// What claims nothing or is no witness, and a text that is cut.
const OTHERS: [Row; 5] = [
    (1, "unsat \nb0 \n\n", "unsat\nb0 \n\n"),
    (1, "", ""),
    (1, "hello", "hello"),
    (1, "u", "u"),
    (1, "sat\nb0\n@0\n. ", "sat\nb0\n@0\n."),
];

/// Whether a text that comes and goes in pieces of so many bytes is tidied as its row says.
fn is_tidied(alloc: Global, row: &Row, most: usize) -> bool {
    let mut source = Chop::new(row.1.as_bytes(), most.max(1));
    let mut sink = Chop::new(VecSink::new(alloc), most.max(1));
    tidy(row.0, &mut source, &mut sink).is_ok() && sink.inner().bytes() == row.2.as_bytes()
}

/// Whether a beginning is written and the fault told where a call of the source fails, and else all.
fn is_read_fault_told(alloc: Global, row: &Row, call: u64) -> bool {
    let mut source = FailAt::new(Chop::new(row.1.as_bytes(), 3), call);
    let mut sink = VecSink::new(alloc);
    match tidy(row.0, &mut source, &mut sink) {
        Ok(()) => sink.bytes() == row.2.as_bytes(),
        Err(fault) => fault == TidyFault::Read && row.2.as_bytes().starts_with(sink.bytes()),
    }
}

/// The same of the sink.
fn is_write_fault_told(alloc: Global, row: &Row, call: u64) -> bool {
    let mut source = row.1.as_bytes();
    let mut sink = FailAt::new(Chop::new(VecSink::new(alloc), 3), call);
    let outcome = tidy(row.0, &mut source, &mut sink);
    let bytes = sink.inner().inner().bytes();
    match outcome {
        Ok(()) => bytes == row.2.as_bytes(),
        Err(fault) => fault == TidyFault::Write && row.2.as_bytes().starts_with(bytes),
    }
}

/// Whether all of that holds of each row.
fn are_tidied(alloc: Global, rows: &[Row]) -> bool {
    for row in rows {
        for k in 0..24 {
            if !is_tidied(alloc, row, k)
                || !is_read_fault_told(alloc, row, k as u64)
                || !is_write_fault_told(alloc, row, k as u64)
            {
                return false;
            }
        }
    }
    true
}

#[test]
fn texts_are_tidied(rt: HostRuntime) {
    assert!(rt; are_tidied(rt.alloc(), &WORDS));
    assert!(rt; are_tidied(rt.alloc(), &BITS));
    assert!(rt; are_tidied(rt.alloc(), &OTHERS));
}

#[test]
fn faults_are_printed(rt: HostRuntime) -> Result<(), Fail> {
    let read = format!(in rt.alloc(); "{}", TidyFault::Read)?;
    let write = format!(in rt.alloc(); "{}", TidyFault::Write)?;
    assert!(rt; read.as_str() == "200 Read");
    assert!(rt; write.as_str() == "201 Write");
    Ok(())
}

//! The two devices for trials: one that fails once, and one that hands on few bytes a call.
use base::{Chop, DeviceFault, FailAt, Sink, Source, VecSink, read_all, write_all};
use std::test::Fail;

/// How many bytes a read into a buffer of four gives.
fn read_of_four<S: Source>(source: &mut S) -> Result<usize, DeviceFault> {
    source.read(&mut [0u8; 4])
}

/// What reads into a buffer of four give, one after the other.
fn four_reads<S: Source>(source: &mut S) -> [Result<usize, DeviceFault>; 4] {
    let first = read_of_four(source);
    let second = read_of_four(source);
    let third = read_of_four(source);
    [first, second, third, read_of_four(source)]
}

#[test]
fn few_bytes_a_read(rt: HostRuntime) -> Result<(), Fail> {
    let mut chopped = Chop::new(b"hello".as_slice(), 2);
    assert!(rt; four_reads(&mut chopped) == [Ok(2), Ok(2), Ok(1), Ok(0)]);
    let mut whole = Chop::new(b"hello".as_slice(), 2);
    let read = read_all(rt.alloc(), &mut whole)?;
    assert!(rt; read.as_slice() == b"hello".as_slice());
    Ok(())
}

#[test]
fn a_read_fails_and_the_next_go_on(rt: HostRuntime) {
    let mut failing = FailAt::new(b"hello".as_slice(), 1);
    let wanted = [Ok(4), Err(DeviceFault::Failed), Ok(1), Ok(0)];
    assert!(rt; four_reads(&mut failing) == wanted);
    assert!(rt; failing.into_inner().is_empty());
}

/// Whether a device of two bytes a call takes the first two of a write and then the rest.
fn takes_two_bytes(chopped: &mut Chop<VecSink>) -> bool {
    chopped.write(b"hello") == Ok(2)
        && write_all(chopped, b"llo") == Ok(())
        && chopped.inner().bytes() == b"hello".as_slice()
}

#[test]
fn few_bytes_a_write(rt: HostRuntime) {
    let mut chopped = Chop::new(VecSink::new(rt.alloc()), 2);
    let is_taken = takes_two_bytes(&mut chopped);
    assert!(rt; is_taken & (chopped.into_inner().bytes() == b"hello".as_slice()));
}

/// Whether a device fails at its first write, which is lost, and goes on at the next.
fn fails_once(failing: &mut FailAt<VecSink>) -> bool {
    write_all(failing, b"lost") == Err(DeviceFault::Failed)
        && failing.inner().bytes().is_empty()
        && write_all(failing, b"kept") == Ok(())
        && failing.inner().bytes() == b"kept".as_slice()
}

#[test]
fn a_write_fails_and_the_next_go_on(rt: HostRuntime) {
    let mut failing = FailAt::new(VecSink::new(rt.alloc()), 0);
    assert!(rt; fails_once(&mut failing));
}

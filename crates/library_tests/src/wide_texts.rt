//! Texts of models with words of any width: that memory is not told as wanting where none is.
use std::alloc::Global;
use std::test::Fail;
use widetext::read;

/// A text with constants of each spelling, in words of 128 bits.
const CONSTANTS: &str = "1 sort bitvec 128 ; wide
2 consth 1 fedcba9876543210FF0123456789abcd sym
3 constd 1 -170141183460469231731687303715884105728
4 constd 1 340282366920938463463374607431768211455
5 sort bitvec 65
6 const 5 10000000000000000000000000000000000000000000000000000000000000001
7 input 1 x
8 add 1 2 7
";

/// How many lines a text's model has; 0 where it stands for none.
fn lines(alloc: Global, text: &[u8]) -> usize {
    match read(alloc, text) {
        Ok(model) => model.lines().len(),
        Err(_) => 0,
    }
}

/// A line of a sort, and a constant of so many digits.
fn long_constant(alloc: Global, front: &str, digit: u8, count: usize) -> Result<Vec<u8>, Fail> {
    let mut text = Vec::from_slice(alloc, front.as_bytes())?;
    for _ in 0..count {
        text.push(digit)?;
    }
    text.push(b'\n')?;
    Ok(text)
}

#[test]
fn constants_of_any_width(rt: HostRuntime) -> Result<(), Fail> {
    assert_eq!(rt; lines(rt.alloc(), CONSTANTS.as_bytes()), 8);
    let hexadecimal = long_constant(
        rt.alloc(),
        "1 sort bitvec 1048576\n2 consth 1 ",
        b'f',
        262_144,
    )?;
    assert_eq!(rt; lines(rt.alloc(), hexadecimal.as_slice()), 2);
    let decimal = long_constant(rt.alloc(), "1 sort bitvec 16384\n2 constd 1 ", b'1', 4_932)?;
    assert_eq!(rt; lines(rt.alloc(), decimal.as_slice()), 2);
    Ok(())
}

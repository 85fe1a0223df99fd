//! The cubes that lines say.
ghost use Rattle.std.specs.Prelude.{◌≡◌, ◌⊎◌, ◌<◌, ◌++◌, All, Ok, Err, IfErr, OnOk, option_copied};
ghost use Rattle.std.specs.List.{list_all};
ghost use Rattle.certificates.specs.declared.why.InvariantWhy.TheVariants as why;
ghost use Rattle.certificates.specs.Reading.{line_words, is_part, part_of, cube_of, parts_of, plain_cube};

use crate::why::InvariantWhy;
use crate::words::{first_word, is_word, sole};

/// Whether all bytes are those of a cube.
fn are_parts(parts: &[u8]) -> bool
    ensures { result ≡ list_all is_part parts.now }
{
    parts
        .iter()
        .all(|byte| *byte == b'0' || *byte == b'1' || *byte == b'-')
}

/// The bytes of a cube, before a blank and `1`.
fn parts_of(line: &[u8]) -> Option<&[u8]>
    ensures { option_copied result ≡ parts_of (line_words line.now) }
{
    let (parts, behind) = first_word(line);
    match sole(behind) {
        None => None,
        Some(word) => {
            if is_word(word, b"1") {
                Some(parts)
            } else {
                None
            }
        }
    }
}

/// Adds what a byte says of a latch.
fn push_part(cube: &mut Vec<u32>, latch: u32, byte: u8) -> Result<(), InvariantWhy>
    requires { latch < 2147483647 }
    ensures ok { OnOk result (cube.new.items ≡ cube.old.items ++ part_of latch byte) }
    ensures err { IfErr result (λ e. e ≡ why.NoMemory) }
{
    if byte == b'-' {
        return Ok(());
    }
    let positive = 2 * (latch + 1);
    let literal = if byte == b'1' { positive } else { positive + 1 };
    match cube.push(literal) {
        Ok(()) => Ok(()),
        Err(_) => Err(InvariantWhy::NoMemory),
    }
}

/// Writes the literals of a cube, whose places are of these latches.
fn write_cube(named: &[u32], parts: &[u8], cube: &mut Vec<u32>) -> Result<(), InvariantWhy>
    requires { All (λ k. k < 2147483647) named.now }
    ensures ok { OnOk result (cube.new.items ≡ cube_of named.now parts.now) }
    ensures err { IfErr result (λ e. e ≡ why.NoMemory) }
{
    cube.clear();
    for place in 0..named.len().min(parts.len()) {
        push_part(cube, named[place], parts[place])?;
    }
    Ok(())
}

/// Writes the cube that a line says, whose places are of these latches, or tells what is wrong with the line.
pub(crate) fn read_cube(
    named: &[u32],
    width: u64,
    line: &[u8],
    cube: &mut Vec<u32>,
) -> Result<(), InvariantWhy>
    requires { All (λ k. k < 2147483647) named.now }
    ensures ok { OnOk result (plain_cube named.now width (parts_of (line_words line.now))
        ≡ Ok cube.new.items) }
    ensures err { IfErr result (λ e. (e ≡ why.NoMemory)
        ⊎ (plain_cube named.now width (parts_of (line_words line.now)) ≡ Err e)) }
{
    let parts = match parts_of(line) {
        None => return Err(InvariantWhy::BadCube),
        Some(parts) => parts,
    };
    if !are_parts(parts) {
        return Err(InvariantWhy::BadCube);
    }
    if parts.len() as u64 != width {
        return Err(InvariantWhy::WrongLength);
    }
    write_cube(named, parts, cube)
}

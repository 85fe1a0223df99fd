//! Rows that are kept in one list, with ample memory.
use base::Rows;
use std::alloc::{AllocError, Global};
use std::test::Fail;

/// Rows, two of them without values.
const WORDS: [&[u8]; 4] = [b"", b"ab", b"", b"cde"];

/// The same rows of other values.
const CAPITALS: [&[u8]; 4] = [b"", b"AB", b"", b"CDE"];

/// These rows, pushed one after the other.
fn pushed(alloc: Global, list: &[&[u8]]) -> Result<Rows<u8>, AllocError> {
    let mut rows = Rows::new(alloc);
    for row in list {
        rows.push(row)?;
    }
    Ok(rows)
}

/// Whether rows are these, read place by place, and all their values those.
fn are(rows: &Rows<u8>, list: &[&[u8]], values: &[u8]) -> bool {
    if rows.len() != list.len() || rows.values() != values {
        return false;
    }
    for place in 0..list.len() {
        if rows.row(place) != list[place] {
            return false;
        }
    }
    true
}

/// Rows as long as these, of other values; none where these are more or fewer.
fn exchanged(
    alloc: Global,
    rows: &Rows<u8>,
    values: Vec<u8>,
) -> Result<Option<Rows<u8>>, AllocError> {
    if values.len() != rows.values().len() {
        return Ok(None);
    }
    let rows = rows.with_values(alloc, values)?;
    Ok(Some(rows))
}

/// Whether rows of other values in their places are as they should be.
fn are_exchanged(alloc: Global, rows: &Rows<u8>) -> Result<bool, AllocError> {
    let capitals = Vec::from_array(alloc, *b"ABCDE")?;
    match exchanged(alloc, rows, capitals)? {
        Some(rows) => Ok(are(&rows, &CAPITALS, b"ABCDE")),
        None => Ok(false),
    }
}

#[test]
fn rows_are_kept_in_one_list(rt: HostRuntime) -> Result<(), Fail> {
    let rows = pushed(rt.alloc(), &WORDS)?;
    assert!(rt; are(&rows, &WORDS, b"abcde"));
    assert!(rt; are(&rows.copy(rt.alloc())?, &WORDS, b"abcde"));
    assert!(rt; are_exchanged(rt.alloc(), &rows)?);
    Ok(())
}

//! A test.

#[test]
fn nothing() {}

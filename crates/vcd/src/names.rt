//! Names in a dump.
ghost use Rattle.std.specs.Prelude.{◌≡◌, ◌∷◌, ◌++◌, [], ℕ, not, decimal, if◌then◌else◌};
ghost use Rattle.std.specs.List.{list_all};
ghost use Rattle.base.specs.Writing.{WritesText};
ghost use Rattle.vcd.specs.Names.{is_letter, is_name_byte, is_plain_name, ends_in_number, escaped, prefix, line_own_name, stem_by, plain_name, with_id, title_byte, title_bytes};

use crate::scope::Scope;
use base::{Pen, Sink};
use btor2::{Item, Symbol};

/// Whether a byte is a letter or `_`.
fn is_letter(byte: u8) -> bool
    ensures { result ≡ is_letter byte }
{
    byte.is_ascii_uppercase() || byte.is_ascii_lowercase() || byte == b'_'
}

/// Whether a byte may follow the first of a plain name.
fn is_name_byte(byte: u8) -> bool
    ensures { result ≡ is_name_byte byte }
{
    is_letter(byte) || byte.is_ascii_digit() || byte == b'.'
}

/// Whether all bytes may stand in a plain name.
fn all_name_bytes(name: &[u8]) -> bool
    ensures { result ≡ list_all is_name_byte name.now }
{
    name.iter().all(|b| is_name_byte(*b))
}

/// Whether a name is letters, digits and dots, of which the first is a letter.
fn is_plain_name(name: &[u8]) -> bool
    ensures { result ≡ is_plain_name name.now }
{
    match name {
        [] => false,
        [first, ..] => is_letter(*first) && all_name_bytes(name),
    }
}

/// What stands before the names of a scope.
fn prefix(scope: Scope) -> &'static [u8]
    ensures { result.now ≡ prefix scope }
{
    match scope {
        Scope::Bads => b"bad:",
        Scope::Constraints => b"constraint:",
        _ => b"",
    }
}

/// What stands before the number of a line of a scope that has no symbol, and that number: its own among the signals of
/// the scope, or its id.
pub(crate) fn own_name(scope: Scope, number: u64, id: u64) -> (&'static [u8], u64)
    ensures { result.0.now ++ decimal result.1 ≡ line_own_name scope number id }
{
    match scope {
        Scope::Bads | Scope::Constraints => (b"", number),
        _ => (b"n", id),
    }
}

/// Puts what names a line of a scope that has no symbol.
fn put_own_name<K: Sink>(pen: &mut Pen, sink: &mut K, scope: Scope, number: u64, id: u64)
    ensures { WritesText K.written K.failures sink.old sink.new pen.old pen.new
        (line_own_name scope number id) }
{
    let (front, own) = own_name(scope, number, id);
    pen.put(sink, front);
    pen.put_number(sink, own);
}

/// Puts what names the line that is a signal of this number of a scope: its symbol, where it has one.
fn put_stem<K: Sink>(pen: &mut Pen, sink: &mut K, scope: Scope, number: u64, item: &Item)
    ensures { WritesText K.written K.failures sink.old sink.new pen.old pen.new
        (stem_by scope number item.now.id item.now.symbol) }
{
    match &item.symbol {
        Some(symbol) => pen.put(sink, symbol.bytes()),
        None => put_own_name(pen, sink, scope, number, item.id),
    }
}

/// Puts what tells a signal apart, where it is: the id of its line.
fn put_id<K: Sink>(pen: &mut Pen, sink: &mut K, apart: bool, id: u64)
    ensures { WritesText K.written K.failures sink.old sink.new pen.old pen.new
        (if apart then 35 ∷ decimal id else []) }
{
    if apart {
        pen.put(sink, b"#");
        pen.put_number(sink, id);
    }
}

/// Whether the name of a signal of a scope is escaped: plain are symbols that are plain names, and identifier codes.
fn is_escaped(scope: Scope, id: u64, symbol: &Option<Symbol>, apart: bool) -> bool
    ensures { (number : ℕ) → result
        ≡ not (is_plain_name (with_id apart id
        (prefix scope ++ stem_by scope number id symbol.now))) }
{
    if apart || !prefix(scope).is_empty() {
        return true;
    }
    match symbol {
        Some(symbol) => !is_plain_name(symbol.bytes()),
        None => false,
    }
}

/// Puts the `\` of a name that is escaped.
fn put_escape<K: Sink>(pen: &mut Pen, sink: &mut K, escaped: bool)
    ensures { WritesText K.written K.failures sink.old sink.new pen.old pen.new
        (if escaped then 92 ∷ [] else []) }
{
    if escaped {
        pen.put(sink, b"\\");
    }
}

/// Puts the name of the line that is a signal of this number of a scope, which is told apart or is not.
pub(crate) fn put_name<K: Sink>(
    pen: &mut Pen,
    sink: &mut K,
    scope: Scope,
    number: u64,
    item: &Item,
    apart: bool,
)
    ensures { WritesText K.written K.failures sink.old sink.new pen.old pen.new
        (escaped (with_id apart item.now.id (plain_name scope number item.now))) }
{
    put_escape(pen, sink, is_escaped(scope, item.id, &item.symbol, apart));
    pen.put(sink, prefix(scope));
    put_stem(pen, sink, scope, number, item);
    put_id(pen, sink, apart, item.id);
}

/// Whether a name ends in `#` and digits, or in `#`.
pub(crate) fn ends_in_number(name: &[u8]) -> bool
    ensures { result ≡ ends_in_number name.now }
{
    let mut ends = false;
    for byte in name {
        ends = (*byte == b'#') | (ends & byte.is_ascii_digit());
    }
    ends
}

/// A byte of a title, or `_` in place of one that could end it.
fn title_byte(byte: u8) -> u8
    ensures { result ≡ title_byte byte }
{
    if is_name_byte(byte) || byte == b'/' || byte == b'-' || byte == b' ' {
        byte
    } else {
        b'_'
    }
}

/// Puts a title.
pub(crate) fn put_title<K: Sink>(pen: &mut Pen, sink: &mut K, title: &[u8])
    ensures { WritesText K.written K.failures sink.old sink.new pen.old pen.new
        (title_bytes title.now) }
{
    for byte in title {
        pen.put(sink, &[title_byte(*byte)]);
    }
}

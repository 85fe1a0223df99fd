//! The declarations of a dump.
ghost use Rattle.std.specs.Prelude.{◌≡◌, ◌+◌, ◌≤◌, ◌∷◌, ◌++◌, [], true, Some, codes, decimal, filter, length, slice_get, flat_map, map};
ghost use Rattle.base.specs.Lines.{text_of_lines};
ghost use Rattle.base.specs.Writing.{WritesText};
ghost use Rattle.btor2.specs.Check.{IsWellFormed};
ghost use Rattle.vcd.specs.Dumps.{range, var_line, scope_lines, declaration_lines};
ghost use Rattle.vcd.specs.Names.{code, escaped, plain_name, with_id};
ghost use Rattle.vcd.specs.Signals.{scopes, signals_before, signals_in, is_in};
ghost use Rattle.vcd.specs.Stands.{is_marked_signal, scope_marks, marks as all_marks};

use crate::names::{put_name, put_title};
use crate::scope::{Scope, Shown, is_in, scope_name, scopes};
use crate::signals::signal_of;
use base::{Pen, Sink};
use btor2::{Item, Model};

/// Puts the places of a word of several bits.
fn put_range<K: Sink>(pen: &mut Pen, sink: &mut K, width: u64)
    requires { 1 ≤ width }
    ensures { WritesText K.written K.failures sink.old sink.new pen.old pen.new (range width) }
{
    if width != 1 {
        pen.put(sink, b" [");
        pen.put_number(sink, width - 1);
        pen.put(sink, b":0]");
    }
}

/// Puts what stands before the name of a signal.
fn put_kind<K: Sink>(pen: &mut Pen, sink: &mut K, width: u64, id: u64)
    ensures { WritesText K.written K.failures sink.old sink.new pen.old pen.new
        (codes "$var wire " ++ (decimal width ++ 32 ∷ (code id ++ 32 ∷ []))) }
{
    pen.put(sink, b"$var wire ");
    pen.put_number(sink, width);
    pen.put(sink, b" n");
    pen.put_number(sink, id);
    pen.put(sink, b" ");
}

/// Puts the declaration of a signal of a width, which is the signal of this number of a scope.
fn put_var<K: Sink>(
    pen: &mut Pen,
    sink: &mut K,
    width: u64,
    scope: Scope,
    number: u64,
    item: &Item,
    apart: bool,
)
    requires { 1 ≤ width }
    ensures { WritesText K.written K.failures sink.old sink.new pen.old pen.new
        (codes "$var wire " ++ (decimal width ++ 32
        ∷ (code item.now.id ++ 32
        ∷ (escaped (with_id apart item.now.id (plain_name scope number item.now))
        ++ (range width ++ codes " $end\n"))))) }
{
    put_kind(pen, sink, width, item.id);
    put_name(pen, sink, scope, number, item, apart);
    put_range(pen, sink, width);
    pen.put(sink, b" $end\n");
}

/// Puts the declaration of the line at a place, where it is shown in a scope, behind so many signals of the scope; how many
/// they are then.
fn put_shown<K: Sink>(
    pen: &mut Pen,
    sink: &mut K,
    model: &Model,
    shown: Shown,
    scope: Scope,
    place: usize,
    item: &Item,
    number: u64,
    apart: bool,
) -> u64
    requires well_formed { IsWellFormed model.now }
    requires at { slice_get model.now place ≡ Some item.now }
    requires number { number ≡ length (signals_before shown model.now scope item.now) }
    requires few { number ≤ place }
    requires apart { apart ≡ is_marked_signal shown model.now scope item.now }
    ensures puts { WritesText K.written K.failures sink.old sink.new pen.old pen.new
        (text_of_lines (map (var_line shown model.now scope)
        (filter (is_in shown scope) (item.now ∷ [])))) }
    ensures number { result ≡ number + length (filter (is_in shown scope) (item.now ∷ [])) }
{
    if !is_in(model, shown, scope, place, item) {
        return number;
    }
    let signal = signal_of(model, shown, scope, place, item);
    put_var(pen, sink, signal.width, scope, number, item, apart);
    number + 1
}

/// Puts the declarations of the lines of a scope, of which those with a mark are told apart.
fn put_vars<K: Sink>(
    pen: &mut Pen,
    sink: &mut K,
    model: &Model,
    shown: Shown,
    scope: Scope,
    marks: &[bool],
)
    requires { marks.now ≡ scope_marks shown model.now scope }
    ensures { WritesText K.written K.failures sink.old sink.new pen.old pen.new
        (text_of_lines (map (var_line shown model.now scope) (signals_in shown model.now scope))) }
{
    let items = model.items();
    let mut number = 0;
    for (place, item) in items.iter().enumerate() {
        let apart = marks[place];
        number = put_shown(pen, sink, model, shown, scope, place, item, number, apart);
    }
}

/// Puts a scope, of whose lines those with a mark are told apart.
fn put_scope<K: Sink>(
    pen: &mut Pen,
    sink: &mut K,
    model: &Model,
    shown: Shown,
    scope: Scope,
    marks: &[bool],
)
    requires { marks.now ≡ scope_marks shown model.now scope }
    ensures { WritesText K.written K.failures sink.old sink.new pen.old pen.new
        (text_of_lines (scope_lines shown model.now scope)) }
{
    pen.put(sink, b"$scope module ");
    pen.put(sink, scope_name(scope));
    pen.put(sink, b" $end\n");
    put_vars(pen, sink, model, shown, scope, marks);
    pen.put(sink, b"$upscope $end\n");
}

/// Puts all scopes, each with its marks.
fn put_scopes<K: Sink>(pen: &mut Pen, sink: &mut K, model: &Model, shown: Shown, marks: &[bool])
    requires { marks.now ≡ all_marks shown model.now }
    ensures { WritesText K.written K.failures sink.old sink.new pen.old pen.new
        (text_of_lines (flat_map (scope_lines shown model.now) scopes)) }
{
    let lines = model.items().len();
    let scopes = scopes();
    let mut rest = marks;
    for scope in &scopes {
        let (own, behind) = rest.split_at(lines);
        put_scope(pen, sink, model, shown, *scope, own);
        rest = behind;
    }
}

/// Puts the declarations of a dump, in which signals with a mark are told apart.
pub(crate) fn put_declarations<K: Sink>(
    pen: &mut Pen,
    sink: &mut K,
    model: &Model,
    shown: Shown,
    marks: &[bool],
    title: &[u8],
)
    requires { marks.now ≡ all_marks shown model.now }
    ensures { WritesText K.written K.failures sink.old sink.new pen.old pen.new
        (text_of_lines (declaration_lines shown title.now model.now)) }
{
    pen.put(sink, b"$comment ");
    put_title(pen, sink, title);
    pen.put(sink, b" $end\n$timescale 1 ns $end\n");
    put_scopes(pen, sink, model, shown, marks);
    pen.put(sink, b"$enddefinitions $end\n");
}

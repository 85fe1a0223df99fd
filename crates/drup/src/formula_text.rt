//! Writing formulas.
ghost use Rattle.std.specs.Prelude.{◌≡◌, ◌++◌, ◌∷◌, [], OnOk, OnErr};
ghost use Rattle.std.specs.Io.KnownBytes.{Appends};
ghost use Rattle.base.specs.Device.{CountsFaults, AppendsBeginning};
ghost use Rattle.base.specs.Writing.{WritesText};
ghost use Rattle.drup.specs.FormulaTexts.{literal_text, literals_text, clause_line, clauses_text, header_line, formula_text};

use crate::formula::Formula;
use base::{DeviceFault, Line, Pen, Sink};

/// Writes the text of a formula in the form of DIMACS CNF: `p cnf <variables> <clauses>`, and each clause on a line, its
/// literals and `0` with a blank between. No memory is taken.
///
/// Errors: the sink's own; a beginning of the text was written then.
pub fn write_formula<K: Sink>(formula: &Formula, sink: &mut K) -> Result<(), DeviceFault>
    ensures ok { OnOk result (Appends (K.written sink.old) (K.written sink.new)
        (formula_text formula.now)) }
    ensures err { OnErr result (AppendsBeginning (K.written sink.old) (K.written sink.new)
        (formula_text formula.now)) }
    ensures failures { CountsFaults result (K.failures sink.old) (K.failures sink.new) }
{
    let mut pen = Pen::new();
    put_header(&mut pen, sink, formula);
    put_clauses(&mut pen, sink, formula);
    pen.finish(sink)
}

/// Puts the line before the clauses.
fn put_header<K: Sink>(pen: &mut Pen, sink: &mut K, formula: &Formula)
    ensures { WritesText K.written K.failures sink.old sink.new pen.old pen.new
        (header_line formula.now ++ 10 ∷ []) }
{
    pen.put(sink, b"p cnf ");
    pen.put_number(sink, u64::from(formula.variables()));
    pen.put(sink, b" ");
    pen.put_number(sink, formula.clause_count() as u64);
    pen.put(sink, b"\n");
}

/// Puts the lines of the clauses.
fn put_clauses<K: Sink>(pen: &mut Pen, sink: &mut K, formula: &Formula)
    ensures { WritesText K.written K.failures sink.old sink.new pen.old pen.new
        (clauses_text formula.now.clauses) }
{
    for k in 0..formula.clause_count() {
        put_clause(pen, sink, formula.clause(k));
    }
}

/// Puts the line of a clause.
fn put_clause<K: Sink>(pen: &mut Pen, sink: &mut K, clause: &[u32])
    ensures { WritesText K.written K.failures sink.old sink.new pen.old pen.new
        (clause_line clause.now ++ 10 ∷ []) }
{
    put_literals(pen, sink, clause);
    pen.put(sink, b"0\n");
}

/// Puts literals, each with a blank behind it.
fn put_literals<K: Sink>(pen: &mut Pen, sink: &mut K, literals: &[u32])
    ensures { WritesText K.written K.failures sink.old sink.new pen.old pen.new
        (literals_text literals.now) }
{
    for literal in literals {
        make_literal(&mut pen.line, *literal);
        pen.put_line(sink);
    }
}

/// Makes it the line of a literal with a blank behind it.
fn make_literal(line: &mut Line, literal: u32)
    ensures { line.new ≡ literal_text literal ++ 32 ∷ [] }
{
    line.clear();
    line.byte(b' ');
    line.number(u64::from(literal / 2));
    if literal % 2 != 0 {
        line.byte(b'-');
    }
}

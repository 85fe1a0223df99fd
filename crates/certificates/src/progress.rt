//! How far a reading of an invariant is, line by line.
ghost use Rattle.std.specs.Prelude.{◌≡◌, ◌⊎◌, ◌<◌, [], true, false, Ok, Err, IfOk, IfErr, OnOk};
ghost use Rattle.certificates.specs.declared.why.InvariantWhy.TheVariants as why;
ghost use Rattle.certificates.specs.declared.expected.Expected.TheVariants as expect;
ghost use Rattle.certificates.specs.Reading.{CubesReading, line_words, decimal_of, value_behind, parts_of, cube_or_why, with_cube, is_skipped, is_ended, with_line, admit_cube_line, at_start};
ghost use Rattle.certificates.specs.Reader.{Lines};

use crate::cubes::read_cube;
use crate::expected::Expected;
use crate::kept::Invariant;
use crate::names::read_names;
use crate::why::InvariantWhy;
use crate::words::{is_word, value_of};
use base::decimal;
use std::alloc::Global;
use std::marker::Model;

/// How far a reading is.
#[derive(Drop)]
pub(crate) struct Progress {
    expected: Expected,
    // how many latches are to be named, and how many cubes are left
    width: u64,
    left: u64,
    // the latches that are named, and room for the literals of a cube
    named: Vec<u32>,
    cube: Vec<u32>,
    kept: Invariant,
}

impl Model for Progress {
    ghost use Rattle.std.specs.Prelude.{◌<◌, All};
    ghost use Rattle.certificates.specs.Reader.{Lines};

    ghost Value = { Lines };

    ghost view = { λ p. record { latches = p.kept.latches; reading = record { expected = p.expected; width = p.width; left = p.left; named = p.named.items; cubes = p.kept.cubes } } };

    ghost invariant = { λ p. All (λ k. k < p.kept.latches) p.named.items };
}

/// The decimal behind a key.
fn decimal_of(line: &[u8], key: &[u8]) -> Option<u64>
    ensures { result ≡ decimal_of (value_behind key.now line.now) }
{
    match value_of(line, key) {
        None => None,
        Some(word) => decimal(word),
    }
}

/// Whether a line is passed over.
fn is_passed(line: &[u8]) -> bool
    ensures { result ≡ is_skipped line.now }
{
    match line {
        [] => true,
        [first, ..] => *first == b'#',
    }
}

impl Progress {
    /// Before the first line of a text over so many latches.
    pub(crate) fn new(alloc: Global, latches: u32) -> Progress
        requires { latches < 2147483647 }
        ensures { result ≡ record { latches = latches; reading = at_start } }
    {
        Progress {
            expected: Expected::Inputs,
            width: 0,
            left: 0,
            named: Vec::new(alloc),
            cube: Vec::new(alloc),
            kept: Invariant::new(alloc, latches),
        }
    }

    /// Takes a line.
    pub(crate) fn take(&mut self, alloc: Global, line: &[u8]) -> Result<(), InvariantWhy>
        ensures ok { OnOk result (admit_cube_line self.old.latches self.old.reading line.now
            ≡ Ok self.new.reading) }
        ensures latches { self.new.latches ≡ self.old.latches }
        ensures err { IfErr result (λ e. (e ≡ why.NoMemory)
            ⊎ (admit_cube_line self.old.latches self.old.reading line.now ≡ Err e)) }
    {
        if is_passed(line) {
            return Ok(());
        }
        match self.expected {
            Expected::Inputs => self.take_inputs(line),
            Expected::Outputs => self.take_outputs(line),
            Expected::Count => self.take_count(line),
            Expected::Names => self.take_names(alloc, line),
            Expected::Output => self.take_output(line),
            Expected::Cubes => self.take_cube(line),
            Expected::Nothing => Err(InvariantWhy::BehindEnd),
        }
    }

    /// Takes the line of the count of latches.
    fn take_inputs(&mut self, line: &[u8]) -> Result<(), InvariantWhy>
        ensures ok { OnOk result (with_line expect.Inputs self.old.latches self.old.reading line.now
            ≡ Ok self.new.reading) }
        ensures latches { self.new.latches ≡ self.old.latches }
        ensures err { IfErr result
            (λ e. with_line expect.Inputs self.old.latches self.old.reading line.now ≡ Err e) }
    {
        match decimal_of(line, b".i") {
            None => Err(InvariantWhy::BadInputs),
            Some(width) => {
                self.width = width;
                self.expected = Expected::Outputs;
                Ok(())
            }
        }
    }

    /// Takes the line of the outputs.
    fn take_outputs(&mut self, line: &[u8]) -> Result<(), InvariantWhy>
        ensures ok { OnOk result (with_line expect.Outputs self.old.latches self.old.reading
            line.now ≡ Ok self.new.reading) }
        ensures latches { self.new.latches ≡ self.old.latches }
        ensures err { IfErr result
            (λ e. with_line expect.Outputs self.old.latches self.old.reading line.now ≡ Err e) }
    {
        match value_of(line, b".o") {
            None => Err(InvariantWhy::BadOutputs),
            Some(word) => {
                if is_word(word, b"1") {
                    self.expected = Expected::Count;
                    Ok(())
                } else {
                    Err(InvariantWhy::BadOutputs)
                }
            }
        }
    }

    /// Takes the line of the count of cubes.
    fn take_count(&mut self, line: &[u8]) -> Result<(), InvariantWhy>
        ensures ok { OnOk result (with_line expect.Count self.old.latches self.old.reading line.now
            ≡ Ok self.new.reading) }
        ensures latches { self.new.latches ≡ self.old.latches }
        ensures err { IfErr result
            (λ e. with_line expect.Count self.old.latches self.old.reading line.now ≡ Err e) }
    {
        match decimal_of(line, b".p") {
            None => Err(InvariantWhy::BadCount),
            Some(count) => {
                self.left = count;
                self.expected = Expected::Names;
                Ok(())
            }
        }
    }

    /// Takes the line of the latches' names.
    fn take_names(&mut self, alloc: Global, line: &[u8]) -> Result<(), InvariantWhy>
        ensures ok { OnOk result (with_line expect.Names self.old.latches self.old.reading line.now
            ≡ Ok self.new.reading) }
        ensures latches { self.new.latches ≡ self.old.latches }
        ensures err { IfErr result (λ e. (e ≡ why.NoMemory)
            ⊎ (with_line expect.Names self.old.latches self.old.reading line.now ≡ Err e)) }
    {
        match read_names(alloc, self.kept.latches(), self.width, line) {
            Err(why) => Err(why),
            Ok(named) => {
                self.named = named;
                self.expected = Expected::Output;
                Ok(())
            }
        }
    }

    /// Takes the line of the output's name.
    fn take_output(&mut self, line: &[u8]) -> Result<(), InvariantWhy>
        ensures ok { OnOk result (with_line expect.Output self.old.latches self.old.reading line.now
            ≡ Ok self.new.reading) }
        ensures latches { self.new.latches ≡ self.old.latches }
        ensures err { IfErr result
            (λ e. with_line expect.Output self.old.latches self.old.reading line.now ≡ Err e) }
    {
        match value_of(line, b".ob") {
            None => Err(InvariantWhy::BadOutput),
            Some(_) => {
                self.expected = Expected::Cubes;
                Ok(())
            }
        }
    }

    /// Takes the line of a cube, or the end.
    fn take_cube(&mut self, line: &[u8]) -> Result<(), InvariantWhy>
        ensures ok { OnOk result (with_line expect.Cubes self.old.latches self.old.reading line.now
            ≡ Ok self.new.reading) }
        ensures latches { self.new.latches ≡ self.old.latches }
        ensures err { IfErr result (λ e. (e ≡ why.NoMemory)
            ⊎ (with_line expect.Cubes self.old.latches self.old.reading line.now ≡ Err e)) }
    {
        if is_word(line, b".e") {
            if self.left == 0 {
                self.expected = Expected::Nothing;
                return Ok(());
            }
            return Err(InvariantWhy::WrongCubes);
        }
        if self.left == 0 {
            return Err(InvariantWhy::WrongCubes);
        }
        self.push_cube(line)
    }

    /// Takes the line of a cube.
    fn push_cube(&mut self, line: &[u8]) -> Result<(), InvariantWhy>
        requires { 0 < self.old.reading.left }
        ensures ok { OnOk result (with_cube self.old.reading
            (cube_or_why self.old.reading.named self.old.reading.width
            (parts_of (line_words line.now))) ≡ Ok self.new.reading) }
        ensures latches { self.new.latches ≡ self.old.latches }
        ensures err { IfErr result (λ e. (e ≡ why.NoMemory)
            ⊎ (with_cube self.old.reading (cube_or_why self.old.reading.named self.old.reading.width
            (parts_of (line_words line.now))) ≡ Err e)) }
    {
        let _ = self.kept.latches();
        match read_cube(self.named.as_slice(), self.width, line, &mut self.cube) {
            Err(why) => return Err(why),
            Ok(()) => {}
        }
        match self.kept.push(self.cube.as_slice()) {
            Err(why) => Err(why),
            Ok(()) => {
                self.left -= 1;
                Ok(())
            }
        }
    }

    /// The cubes, where the end was told.
    pub(crate) fn finish(self) -> Result<Invariant, InvariantWhy>
        ensures ok { IfOk result (λ v. (is_ended self.reading.expected ≡ true)
            × (v ≡ record { latches = self.latches; cubes = self.reading.cubes })) }
        ensures err { IfErr result (λ e. (is_ended self.reading.expected ≡ false)
            × (e ≡ why.CutOff)) }
    {
        match self.expected {
            Expected::Nothing => Ok(self.kept),
            _ => Err(InvariantWhy::CutOff),
        }
    }
}

//! The files that names stand for, and the names that results get.

ghost use Rattle.std.specs.Prelude.{◌≡◌, ◌-◌, ◌^◌, ◌≤◌, ℕ, List, [], Bool, true, false, Option, None, Some, IfOk, IfSome, OnOk, OnErr};
ghost use Rattle.base.specs.Device.{CountsFaults};

use base::{DeviceFault, Reason, Sink, Source};
use std::alloc::{AllocError, Global};

/// The name that a result gets once all of it is written.
pub trait ResultName {
    /// The name; none where it needs none, as on standard output.
    ghost name: { Self → Option (List ℕ) };

    /// Whether the result has it.
    ghost is_given: { Self → Bool };

    /// How often it could not be given; the greatest number of 128 bits stands for itself and all above.
    ghost failures: { Self → ℕ };

    /// Gives the result that was written its name.
    ///
    /// Error: the system's own, which the count of failures tells. The name stands for what it did before then.
    fn give(&mut self) -> Result<(), DeviceFault>
        ensures given { OnOk result (is_given self.new ≡ true) }
        ensures kept { OnErr result (is_given self.new ≡ is_given self.old) }
        ensures name { name self.new ≡ name self.old }
        ensures failures { CountsFaults result (failures self.old) (failures self.new) };

    /// Leaves the name to what has it, and what was written so far to nobody.
    fn give_up(&mut self)
        ensures kept { is_given self.new ≡ is_given self.old }
        ensures name { name self.new ≡ name self.old }
        ensures failures { failures self.new ≡ failures self.old };

    /// Why it could not be given last, where the system told it.
    fn reason(&self) -> Option<Reason>;
}

/// The files that names stand for: those that are read, and results that get names.
pub trait NamedFiles {
    /// A file that was opened to be read.
    type File: Source + Drop;

    /// What a result is written to.
    type Output: Sink + Drop;

    /// The name that it gets.
    type Name: ResultName + Drop;

    /// The bytes of the file of a name, where they can be told.
    ghost text: { Self → List ℕ → Option (List ℕ) } = { λ _ _. None };

    /// Opens the file of a name: all of its bytes are to come.
    ///
    /// Error: it can't be opened, for this reason, where the system told one.
    fn open(&self, name: &str) -> Result<Self::File, Option<Reason>>
        ensures bytes { IfOk result (λ file. IfSome (text self.now name.now)
            (λ bytes. Self.File.to_come file ≡ Some bytes)) }
        ensures failures { IfOk result (λ file. Self.File.failures file ≡ 0) }
        ensures reads { IfOk result (λ file. Self.File.calls_left file ≤ 2 ^ 64 - 1) };

    /// Begins a result that is to get a name: nothing is written, and what has the name keeps it. Where nothing can be opened
    /// every write fails, and so does giving the name, for the reason that the system told.
    ///
    /// Error: a growth was refused.
    fn create(&self, alloc: Global, name: &str) -> Result<(Self::Output, Self::Name), AllocError>
        ensures bytes { IfOk result (λ made. IfSome (Self.Output.written made.0)
            (λ bytes. bytes ≡ [])) }
        ensures failures { IfOk result (λ made. Self.Output.failures made.0 ≡ 0) }
        ensures name { IfOk result (λ made. Self.Name.name made.1 ≡ Some name.now) }
        ensures given { IfOk result (λ made. Self.Name.is_given made.1 ≡ false) }
        ensures name_failures { IfOk result (λ made. Self.Name.failures made.1 ≡ 0) };
}

/// The name of a result that goes to standard output, which needs none.
#[derive(Clone, Copy)]
pub struct NoName {
    is_given: bool,
}

impl NoName {
    /// It was not given yet.
    pub fn new() -> NoName
        ensures name { ⟦<NoName as ResultName>⟧.name result ≡ None }
        ensures given { ⟦<NoName as ResultName>⟧.is_given result ≡ false }
        ensures failures { ⟦<NoName as ResultName>⟧.failures result ≡ 0 }
    {
        NoName { is_given: false }
    }
}

impl ResultName for NoName {
    ghost name = { λ _. None };

    ghost is_given = { λ n. n.is_given };

    ghost failures = { λ _. 0 };

    fn give(&mut self) -> Result<(), DeviceFault> {
        self.is_given = true;
        Ok(())
    }

    fn give_up(&mut self) {}

    fn reason(&self) -> Option<Reason> {
        None
    }
}

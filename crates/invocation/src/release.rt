//! The version.

ghost use Rattle.std.specs.Prelude.{◌≡◌};
ghost use Rattle.invocation.specs.Version.{version};

/// The version of the program and of the library for C programs.
pub fn version() -> &'static str
    ensures { result.now ≡ version }
{
    "0.16.0"
}

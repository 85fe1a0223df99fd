//! The bad properties that are kept: all of them, or one.
ghost use Rattle.std.specs.Prelude.{◌≡◌, ◌<◌, true, length, take, drop};
ghost use Rattle.engine_form.specs.EngineForm.{chosen, has_chosen};

use aiger::{Circuit, Lit};

/// Whether the chosen property, if one is chosen, is there.
pub(crate) fn has_chosen(circuit: &Circuit, choice: Option<usize>) -> bool
    ensures { result ≡ has_chosen choice circuit.now.bads }
{
    match choice {
        Some(k) => k < circuit.bads().len(),
        None => true,
    }
}

/// The literal at a position alone.
fn one_at(bads: &[Lit], k: usize) -> &[Lit]
    requires { k < length bads.now }
    ensures { result.now ≡ take 1 (drop k bads.now) }
{
    let (_, rest) = bads.split_at(k);
    let (one, _) = rest.split_at(1);
    one
}

/// The bad properties that are kept.
pub(crate) fn chosen(circuit: &Circuit, choice: Option<usize>) -> &[Lit]
    requires { has_chosen choice circuit.now.bads ≡ true }
    ensures { result.now ≡ chosen choice circuit.now.bads }
{
    match choice {
        Some(k) => one_at(circuit.bads(), k),
        None => circuit.bads(),
    }
}

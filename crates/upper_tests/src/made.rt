//! Models and circuits that are made, and handed to what is tried over them.
use aiger::Circuit;
use btor2::Model;
use std::alloc::Global;
use std::fmt::Debug;
use std::test::Fail;

/// What is answered over the model of a text.
pub fn over_model<A, F: FnOnce(&Model) -> A + Drop>(
    alloc: Global,
    text: &str,
    tried: F,
) -> Result<A, btor2text::ReadFault>
    requires { F.IsAlwaysCallable tried }
{
    let model = btor2text::read(alloc, &mut text.as_bytes())?;
    Ok(tried(&model))
}

/// What is answered over the circuit of a text.
pub fn over_circuit<A, F: FnOnce(&Circuit) -> A + Drop>(
    alloc: Global,
    text: &[u8],
    tried: F,
) -> Result<A, aigertext::ReadFault>
    requires { F.IsAlwaysCallable tried }
{
    let mut source = text;
    let circuit = aigertext::read(alloc, &mut source)?;
    Ok(tried(&circuit))
}

/// Fails where something is not as it should be, and tells it.
pub fn expect_none<T: Debug + Drop>(wrong: Option<T>) -> Result<(), Fail> {
    match wrong {
        Some(wrong) => Err(wrong)?,
        None => Ok(()),
    }
}

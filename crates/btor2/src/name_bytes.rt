//! The bytes of a name, held in two words.
ghost use Rattle.std.specs.Prelude.{◌≡◌, ◌≤◌, List, ℕ, length, IfOk, IsOk};
ghost use Rattle.btor2.specs.NameBytes.{bytes_at, IsPlace};

use std::alloc::{AllocError, Global};
use std::marker::Model;
use std::mem::size_of;

/// The greatest number of bytes that stand in place.
const MOST_IN_PLACE: usize = 14;

/// Where bytes stand.
#[derive(Drop)]
enum Place {
    /// In place: the first `length` of `bytes`.
    Short {
        length: u8,
        bytes: [u8; MOST_IN_PLACE],
    },
    /// In memory of their own.
    Long {
        bytes: Box<Vec<u8>>,
    },
}

/// Some bytes, held in two words. It has two forms since most names are short: up to 14 bytes stand in the two words,
/// and longer ones have memory of their own.
#[derive(Drop)]
pub(crate) struct NameBytes {
    place: Place,
}

// two words
const _: () = prove!(size_of::<NameBytes>() == 16);

impl Model for NameBytes {
    ghost Value = { List ℕ };

    ghost view = { λ t. bytes_at t.place };

    ghost invariant = { λ t. IsPlace t.place };
}

/// These bytes, in place.
///
/// Condition: there are at most 14.
fn in_place(bytes: &[u8]) -> NameBytes
    requires { length bytes.now ≤ 14 }
    ensures { result ≡ bytes.now }
{
    let mut held = [0; MOST_IN_PLACE];
    let length = bytes.len();
    held[..length].copy_from_slice(bytes);
    NameBytes {
        place: Place::Short {
            length: length as u8,
            bytes: held,
        },
    }
}

impl NameBytes {
    /// These bytes.
    ///
    /// Errors: where more than 14 bytes are given and a growth was refused.
    pub(crate) fn new(alloc: Global, bytes: &[u8]) -> Result<NameBytes, AllocError>
        ensures ok { IfOk result (λ t. t ≡ bytes.now) }
        ensures short { length bytes.now ≤ 14 → IsOk result }
    {
        if bytes.len() <= MOST_IN_PLACE {
            return Ok(in_place(bytes));
        }
        let held = Vec::from_slice(alloc, bytes)?;
        let bytes = Box::new(alloc, held)?;
        Ok(NameBytes {
            place: Place::Long { bytes },
        })
    }

    /// The bytes.
    pub(crate) fn bytes(&self) -> &[u8]
        ensures { result.now ≡ self.now }
    {
        match &self.place {
            Place::Short { length, bytes } => &bytes[..usize::from(*length)],
            Place::Long { bytes } => bytes.as_slice(),
        }
    }
}

//! The command line of a row.

use base::cut_at;
use std::env::{Env, FillError};

/// A command line: the program's name and the words, each with a byte 0 behind it.
#[derive(Drop)]
pub(crate) struct CommandLine<'a> {
    /// The bytes.
    pub(crate) words: &'a [u8],
}

/// The word at a place, and none behind the last.
fn word_at(words: &[u8], place: usize) -> Option<&[u8]> {
    let mut rest = words;
    for _ in 0..place {
        let (_, after) = cut_at(rest, 0)?;
        rest = after;
    }
    let (word, _) = cut_at(rest, 0)?;
    Some(word)
}

impl<'a> Env for CommandLine<'a> {
    fn arg(&self, i: usize, buf: &mut [u8]) -> Result<usize, FillError> {
        let word = match word_at(self.words, i) {
            Some(word) => word,
            None => return Err(FillError::NotPresent),
        };
        let count = word.len();
        if buf.len() < count {
            return Err(FillError::TooLong);
        }
        buf[..count].copy_from_slice(word);
        Ok(count)
    }

    fn var(&self, _name: &str, _buf: &mut [u8]) -> Result<usize, FillError> {
        Err(FillError::NotPresent)
    }

    fn var_at(&self, _i: usize, _buf: &mut [u8]) -> Result<usize, FillError> {
        Err(FillError::NotPresent)
    }
}

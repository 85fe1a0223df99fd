//! The words of forms that were read before, compared at once with what a line begins with.
ghost use Rattle.std.specs.Prelude.{◌≡◌, ◌<◌, ◌≤◌, length, true};
ghost use Rattle.btor2text.specs.Tokens.{tokens};
ghost use Rattle.btor2text.specs.Words.{form_name};
ghost use Rattle.btor2text.specs.Reading.{IsAsLineRead, form_at};
ghost use Rattle.btor2text.specs.KnownWords.{IsKnown, BeginsAs};

use crate::fault::Why;
use crate::forms::{Form, form_of};
use crate::tokens::next_token;
use std::marker::Model;

/// A form, and how a line with its word begins: with the word and a space, so many bytes, before bytes 0.
#[derive(Clone, Copy)]
struct KnownWord {
    text: [u8; 8],
    length: u8,
    form: Form,
}

/// A word as a known one.
fn known(word: &[u8], form: Form) -> KnownWord
    requires short { length word.now ≤ 7 }
    requires names { word.now ≡ form_name form }
    ensures { IsKnown result }
{
    let count = word.len();
    let mut text = [0; 8];
    text[..count].copy_from_slice(word);
    text[count] = b' ';
    KnownWord {
        text,
        length: count as u8 + 1,
        form,
    }
}

/// Whether bytes are those of a text, wherever that has another one than 0. All eight are compared at once.
#[inline(always)]
fn begin_as(bytes: &[u8; 8], text: &[u8; 8]) -> bool
    ensures { result ≡ true → BeginsAs text.now bytes.now }
{
    let mut same = true;
    for at in 0..8 {
        same &= (text[at] == 0) | (bytes[at] == text[at]);
    }
    same
}

/// The place of the word that a line begins with, by three of its bytes and two bits of the fourth, which may be a digit
/// behind a short word. Few words share a place.
#[inline(always)]
fn place(bytes: &[u8; 8]) -> usize
    ensures { result < 256 }
{
    let front = u64::from_le_bytes(*bytes) & 0x50ff_ffff;
    (front.wrapping_mul(0x0cbd_817d_0000_0000) >> 56) as usize
}

/// The words of forms that were read before, each at the place that its first bytes give. A line's word is mostly one of
/// them, and then neither its end nor its form is looked for.
#[derive(Drop)]
pub struct KnownWords {
    words: [KnownWord; 256],
}

impl Model for KnownWords {
    ghost use Rattle.std.specs.Prelude.{List};
    ghost use Rattle.std.specs.List.{All};
    ghost use Rattle.btor2text.specs.declared.known_words.KnownWord.{KnownWord};
    ghost use Rattle.btor2text.specs.KnownWords.{IsKnown};

    ghost Value = { List KnownWord };

    ghost view = { λ k. k.words };

    ghost invariant = { λ k. All IsKnown k.words };
}

impl KnownWords {
    /// No words but one.
    pub fn new() -> KnownWords {
        KnownWords {
            words: [known(b"sort", Form::Sort); 256],
        }
    }

    /// A form, and the line behind its word.
    #[inline(always)]
    pub fn form_at<'a>(&mut self, line: &'a [u8]) -> Result<(Form, &'a [u8]), Why>
        ensures { IsAsLineRead (λ x. (x.0, tokens x.1.now)) result (form_at (tokens line.now)) }
    {
        let mut at = 0;
        if let Some(bytes) = line.first_chunk::<8>() {
            at = place(bytes);
            let known = &self.words[at];
            if begin_as(bytes, &known.text) {
                let (_, rest) = line.split_at(usize::from(known.length));
                return Ok((known.form, rest));
            }
        }
        // the answer is made here, so that that of a known word need not stand where a call writes
        Ok(self.learn(at, line)?)
    }

    /// The same by the first token, which is known then at this place, where it is short.
    #[cold]
    #[inline(never)]
    #[tactic(auto, unfolding(crate::specs::Reading::form_at))]
    fn learn<'a>(&mut self, place: usize, line: &'a [u8]) -> Result<(Form, &'a [u8]), Why>
        requires { place < 256 }
        ensures { IsAsLineRead (λ x. (x.0, tokens x.1.now)) result (form_at (tokens line.now)) }
    {
        let (word, rest) = next_token(line).ok_or(Why::BadToken)?;
        let form = form_of(word)?;
        if word.len() <= 7 {
            self.words[place] = known(word, form);
        }
        Ok((form, rest))
    }
}

//! Long texts, told by what stands in them again and again.
use std::alloc::{AllocError, Global};

/// What stands in a text again and again.
pub enum Word {
    /// These words.
    Said(&'static str),
    /// A number: the first time this one, and so much more each further time.
    Counted(u64, u64),
}

/// A part of a text: what stands in front, and what stands behind it so many times.
pub type Part<'a> = (&'a str, u64, &'a [Word]);

/// Adds what stands in a text for this time, behind so many.
fn push_word(alloc: Global, text: &mut String, word: &Word, before: u64) -> Result<(), AllocError> {
    match word {
        Word::Said(said) => text.push_str(said),
        Word::Counted(first, more) => {
            let number = first.saturating_add(more.saturating_mul(before));
            text.push_str(format!(in alloc; "{number}")?.as_str())
        }
    }
}

/// Adds a part.
pub fn push_part(alloc: Global, text: &mut String, part: &Part<'_>) -> Result<(), AllocError> {
    let (front, times, words) = *part;
    text.push_str(front)?;
    for before in 0..times {
        for word in words {
            push_word(alloc, text, word, before)?;
        }
    }
    Ok(())
}

/// The text of these parts.
pub fn text_of(alloc: Global, parts: &[Part<'_>]) -> Result<String, AllocError> {
    let mut text = String::new(alloc);
    for part in parts {
        push_part(alloc, &mut text, part)?;
    }
    Ok(text)
}

/// The text of one part, and of what stands behind it.
pub fn text_before(alloc: Global, part: &Part<'_>, end: &str) -> Result<String, AllocError> {
    let mut text = String::new(alloc);
    push_part(alloc, &mut text, part)?;
    text.push_str(end)?;
    Ok(text)
}

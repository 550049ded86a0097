//! What the lines of a row are made of: words, numbers, and texts that come many times.

use crate::trouble::Trouble;
use pan_base::{List, NoMemory, Text};
use std::alloc::Global;

/// The first word of a line, and what follows the blank after it.
pub fn split_word(line: &str) -> (&str, &str) {
    match line.split_once(' ') {
        Some((word, rest)) => (word, rest),
        None => (line, ""),
    }
}

pub fn number(word: &str) -> Result<u64, Trouble> {
    word.parse::<u64>().ok().ok_or(Trouble::Line)
}

/// The words of the line, parted by blanks; `''` is the empty word.
pub fn words_of(alloc: Global, line: &str) -> Result<List<Text>, NoMemory> {
    let mut words = List::new(alloc);
    for word in line.split_whitespace() {
        let word = if word == "''" { "" } else { word };
        words.push(Text::from_str(alloc, word)?)?;
    }
    Ok(words)
}

/// Adds the text so many times, or so many blanks where there is no text.
pub fn add_times(bytes: &mut Vec<u8>, count: u64, text: &str) -> Result<(), Trouble> {
    let text = if text.is_empty() { " " } else { text };
    for _ in 0..count {
        bytes.extend_from_slice(text.as_bytes())?;
    }
    Ok(())
}

/// Adds the text and a line feed for so many numbers from the first on, each in place of `#`.
pub fn add_for_each(
    alloc: Global,
    bytes: &mut Vec<u8>,
    first: u64,
    count: u64,
    text: &str,
) -> Result<(), Trouble> {
    for number in first..first.saturating_add(count) {
        let number = format!(in alloc; "{number}")?;
        for (i, piece) in text.split('#').enumerate() {
            if i != 0 {
                bytes.extend_from_slice(number.as_bytes())?;
            }
            bytes.extend_from_slice(piece.as_bytes())?;
        }
        bytes.push(b'\n')?;
    }
    Ok(())
}

/// Adds the bytes of hexadecimal digits, which may be parted by blanks.
pub fn add_hex(alloc: Global, bytes: &mut Vec<u8>, digits: &str) -> Result<(), Trouble> {
    for word in digits.split_whitespace() {
        let part = hex::decode(alloc, word).ok().ok_or(Trouble::Line)?;
        bytes.extend_from_slice(part.as_slice())?;
    }
    Ok(())
}

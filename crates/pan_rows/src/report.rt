//! What is printed of a row.

use std::alloc::{AllocError, Global};

/// Adds the words in one line.
pub fn add_line(report: &mut Vec<u8>, words: &[&str]) -> Result<(), AllocError> {
    for word in words {
        report.extend_from_slice(word.as_bytes())?;
    }
    report.push(b'\n')?;
    Ok(())
}

/// Adds a line that was put so many times, one after the other, and says where its line feed is missing.
fn add_put_line(
    alloc: Global,
    report: &mut Vec<u8>,
    count: u64,
    line: &[u8],
) -> Result<(), AllocError> {
    report.extend_from_slice(b"  ")?;
    if count > 1 {
        let count = format!(in alloc; "{count} times ")?;
        report.extend_from_slice(count.as_bytes())?;
    }
    report.extend_from_slice(line)?;
    if line.last() != Some(&b'\n') {
        report.extend_from_slice(b" (cut off)\n")?;
    }
    Ok(())
}

/// Adds the lines that were put: one that was put several times in a row once, with their number.
pub fn add_put(alloc: Global, report: &mut Vec<u8>, put: &[u8]) -> Result<(), AllocError> {
    let mut last: &[u8] = b"";
    let mut count: u64 = 0;
    for line in put.split_inclusive(|byte| *byte == b'\n') {
        if line != last {
            if count > 0 {
                add_put_line(alloc, report, count, last)?;
            }
            last = line;
            count = 0;
        }
        count = count.saturating_add(1);
    }
    if count > 0 {
        add_put_line(alloc, report, count, last)?;
    }
    Ok(())
}

/// How many of the lines have the word between blanks.
pub fn lines_with(word: &[u8], put: &[u8]) -> u64 {
    let mut found: u64 = 0;
    for line in put.split(|byte| *byte == b'\n') {
        if line.split(|byte| *byte == b' ').any(|part| part == word) {
            found = found.saturating_add(1);
        }
    }
    found
}

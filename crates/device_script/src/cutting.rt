//! The lines of a file and the words of a line, one by one.

ghost use Rattle.std.specs.Prelude.{◌≡◌, ◌<◌, ◌≤◌, ◌∷◌, [], drop, length, IfSome, IfNone};
ghost use Rattle.std.specs.List.{prefix_len};
ghost use Rattle.device_script.specs.Lines.{lines, words, is_blank, without_return};
ghost use Rattle.device_script.specs.Cutting.{is_in_line, is_in_word};

/// How many bytes stand before the first line feed.
fn line_len(bytes: &[u8]) -> usize
    ensures value { result ≡ prefix_len is_in_line bytes.now }
    ensures within { result ≤ length bytes.now }
{
    for (i, byte) in bytes.iter().enumerate() {
        if *byte == b'\n' {
            return i;
        }
    }
    bytes.len()
}

/// The line without the carriage return at its end, if there is one.
fn without_return(line: &[u8]) -> &[u8]
    ensures { result.now ≡ without_return line.now }
{
    match line.strip_suffix(b"\r") {
        Some(front) => front,
        None => line,
    }
}

/// The first line of a file, and what follows its line feed: `None` where the line ends with the file.
///
/// A carriage return right before the line feed is no part of the line.
pub fn next_line(bytes: &[u8]) -> (&[u8], Option<&[u8]>)
    ensures more { IfSome result.1 (λ rest. lines bytes.now ≡ result.0.now ∷ lines rest.now) }
    ensures shorter { IfSome result.1 (λ rest. length rest.now < length bytes.now) }
    ensures last { IfNone result.1 (lines bytes.now ≡ result.0.now ∷ []) }
{
    let len = line_len(bytes);
    if len < bytes.len() {
        (without_return(&bytes[..len]), Some(&bytes[len + 1..]))
    } else {
        (bytes, None)
    }
}

/// Whether it's a space or a tab.
fn is_blank(byte: u8) -> bool
    ensures { result ≡ is_blank byte }
{
    matches!(byte, b' ' | b'\t')
}

/// How many spaces and tabs a line begins with.
fn blank_len(line: &[u8]) -> usize
    ensures value { result ≡ prefix_len is_blank line.now }
    ensures within { result ≤ length line.now }
{
    for (i, byte) in line.iter().enumerate() {
        if !is_blank(*byte) {
            return i;
        }
    }
    line.len()
}

/// How many bytes stand before the first space or tab.
fn word_len(line: &[u8]) -> usize
    ensures value { result ≡ prefix_len is_in_word line.now }
    ensures within { result ≤ length line.now }
{
    for (i, byte) in line.iter().enumerate() {
        if is_blank(*byte) {
            return i;
        }
    }
    line.len()
}

/// The first word of a line, which spaces and tabs part, and what follows it.
pub fn next_word(line: &[u8]) -> Option<(&[u8], &[u8])>
    ensures word { IfSome result (λ r. words line.now ≡ r.0.now ∷ words r.1.now) }
    ensures shorter { IfSome result (λ r. length r.1.now < length line.now) }
    ensures none { IfNone result (words line.now ≡ []) }
{
    let words = &line[blank_len(line)..];
    if words.is_empty() {
        None
    } else {
        Some(words.split_at(word_len(words)))
    }
}

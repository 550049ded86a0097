//! White space and comments.

ghost use Rattle.std.specs.Prelude.{◌≡◌, ◌≤◌, length, option_map};
ghost use Rattle.std.specs.List.{prefix_len};
ghost use Rattle.pan_lexer.specs.Pieces.{is_in_line, after_close, after_comment, after_gap};

use crate::bytes::{first, is_space};

/// How many bytes stand before the first line feed.
fn line_len(bytes: &[u8]) -> usize
    ensures value { result ≡ prefix_len is_in_line bytes.now }
    ensures within { result ≤ length bytes.now }
{
    for (i, byte) in bytes.iter().enumerate() {
        if *byte == b'\n' {
            return i;
        }
    }
    bytes.len()
}

/// What follows the first `*/`.
fn after_close(bytes: &[u8]) -> Option<&[u8]>
    ensures { option_map (λ r. r.now) result ≡ after_close bytes.now }
{
    for i in 1..bytes.len() {
        if bytes[i - 1] == b'*' && bytes[i] == b'/' {
            return Some(&bytes[i + 1..]);
        }
    }
    None
}

/// What follows a comment, after its first `/`.
#[tactic(auto, unfolding(crate::specs::Pieces::after_comment))]
fn after_comment(bytes: &[u8]) -> Option<&[u8]>
    ensures { option_map (λ r. r.now) result ≡ after_comment bytes.now }
{
    let (second, more) = first(bytes)?;
    match second {
        b'/' => Some(&more[line_len(more)..]),
        b'*' => after_close(more),
        _ => None,
    }
}

/// What follows a byte of white space or a comment.
#[tactic(auto, unfolding(crate::specs::Pieces::after_gap))]
pub fn after_gap(bytes: &[u8]) -> Option<&[u8]>
    ensures { option_map (λ r. r.now) result ≡ after_gap bytes.now }
{
    let (first, more) = first(bytes)?;
    if is_space(first) {
        Some(more)
    } else if first == b'/' {
        after_comment(more)
    } else {
        None
    }
}

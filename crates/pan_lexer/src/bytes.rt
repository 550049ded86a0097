//! Bytes, and the words that a text begins with.

ghost use Rattle.std.specs.Prelude.{◌≡◌, ◌≤◌, ◌∷◌, [], length, IfSome, IfNone};
ghost use Rattle.std.specs.List.{prefix_len};
ghost use Rattle.pan_base.specs.Names.{is_letter, is_digit, is_word_byte};
ghost use Rattle.pan_base.specs.Spelling.{is_space};
ghost use Rattle.pan_lexer.specs.Pieces.{word_of, after_word};

/// Whether it's a letter of ASCII or `_`.
pub fn is_letter(byte: u8) -> bool
    ensures { result ≡ is_letter byte }
{
    byte.is_ascii_alphabetic() || byte == b'_'
}

/// Whether it's a letter, `_` or digit.
fn is_word_byte(byte: u8) -> bool
    ensures { result ≡ is_word_byte byte }
{
    is_letter(byte) || byte.is_ascii_digit()
}

/// Whether it's white space: a space, tab, line feed or carriage return.
pub fn is_space(byte: u8) -> bool
    ensures { result ≡ is_space byte }
{
    matches!(byte, b' ' | b'\t' | b'\n' | b'\r')
}

/// The first byte, and the others.
pub fn first(bytes: &[u8]) -> Option<(u8, &[u8])>
    ensures some { IfSome result (λ r. bytes.now ≡ r.0 ∷ r.1.now) }
    ensures none { IfNone result (bytes.now ≡ []) }
{
    match bytes {
        [first, more @ ..] => Some((*first, more)),
        [] => None,
    }
}

/// How many letters, `_` and digits the text begins with.
fn word_len(bytes: &[u8]) -> usize
    ensures value { result ≡ prefix_len is_word_byte bytes.now }
    ensures within { result ≤ length bytes.now }
{
    for (i, byte) in bytes.iter().enumerate() {
        if !is_word_byte(*byte) {
            return i;
        }
    }
    bytes.len()
}

/// The longest front of letters, `_` and digits, and what follows it.
#[tactic(auto, unfolding(crate::specs::Pieces::word_of, crate::specs::Pieces::after_word))]
pub fn split_word(bytes: &[u8]) -> (&[u8], &[u8])
    ensures word { result.0.now ≡ word_of bytes.now }
    ensures after { result.1.now ≡ after_word bytes.now }
{
    bytes.split_at(word_len(bytes))
}

//! Signs.

ghost use Rattle.std.specs.Prelude.{◌≡◌, ◌≤◌, ◌∷◌, [], length, slice_index, IfSome};
ghost use Rattle.pan_base.specs.Tokens.{sign_text};
ghost use Rattle.pan_lexer.specs.Pieces.{sign_of};

use pan_base::Sign;

/// The byte there, or 0 past the end.
fn byte_at(bytes: &[u8], at: usize) -> u8
    ensures { result ≡ slice_index bytes.now at }
{
    match bytes.get(at) {
        Some(byte) => *byte,
        None => 0,
    }
}

/// The longest sign that these three bytes begin with.
#[tactic(auto, unfolding(crate::specs::Pieces::sign_of))]
fn sign_by(first: u8, second: u8, third: u8) -> Option<Sign>
    ensures { result ≡ sign_of (first ∷ second ∷ third ∷ []) }
{
    match (first, second, third) {
        (b'>', b'>', b'>') => Some(Sign::ShiftRight),
        (b'>', b'=', b'+') => Some(Sign::NotLessU),
        (b'#', b'>', b'>') => Some(Sign::Rotate),
        (b'=', b'=', _) => Some(Sign::Equal),
        (b'!', b'=', _) => Some(Sign::NotEqual),
        (b'>', b'=', _) => Some(Sign::NotLess),
        (b'<', b'+', _) => Some(Sign::LessU),
        (b'<', b'<', _) => Some(Sign::ShiftLeft),
        (b'>', b'>', _) => Some(Sign::ShiftSigned),
        (b'(', _, _) => Some(Sign::OpenParen),
        (b')', _, _) => Some(Sign::CloseParen),
        (b'{', _, _) => Some(Sign::OpenBrace),
        (b'}', _, _) => Some(Sign::CloseBrace),
        (b'<', _, _) => Some(Sign::Less),
        (b'>', _, _) => Some(Sign::Greater),
        (b',', _, _) => Some(Sign::Comma),
        (b';', _, _) => Some(Sign::Semicolon),
        (b'.', _, _) => Some(Sign::Dot),
        (b'=', _, _) => Some(Sign::Assign),
        (b'+', _, _) => Some(Sign::Plus),
        (b'-', _, _) => Some(Sign::Minus),
        (b'*', _, _) => Some(Sign::Star),
        (b'&', _, _) => Some(Sign::And),
        (b'|', _, _) => Some(Sign::Or),
        (b'^', _, _) => Some(Sign::Xor),
        _ => None,
    }
}

/// The longest sign that the text begins with.
pub fn sign(bytes: &[u8]) -> Option<Sign>
    ensures value { result ≡ sign_of bytes.now }
    ensures within { IfSome result (λ s. length (sign_text s) ≤ length bytes.now) }
{
    sign_by(byte_at(bytes, 0), byte_at(bytes, 1), byte_at(bytes, 2))
}

/// How many bytes the sign has.
pub fn sign_len(sign: Sign) -> usize
    ensures { result ≡ length (sign_text sign) }
{
    match sign {
        Sign::NotLessU | Sign::ShiftRight | Sign::Rotate => 3,
        Sign::Equal
        | Sign::NotEqual
        | Sign::NotLess
        | Sign::LessU
        | Sign::ShiftLeft
        | Sign::ShiftSigned => 2,
        Sign::OpenParen
        | Sign::CloseParen
        | Sign::OpenBrace
        | Sign::CloseBrace
        | Sign::Less
        | Sign::Greater
        | Sign::Comma
        | Sign::Semicolon
        | Sign::Dot
        | Sign::Assign
        | Sign::Plus
        | Sign::Minus
        | Sign::Star
        | Sign::And
        | Sign::Or
        | Sign::Xor => 1,
    }
}

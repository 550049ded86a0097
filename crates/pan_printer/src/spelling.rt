//! How tokens and operators are spelled.

ghost use Rattle.std.specs.Prelude.{◌≡◌};
ghost use Rattle.pan_base.specs.Tokens.{keyword_text, sign_text, bits_text};
ghost use Rattle.pan_printer.specs.Expressions.{operator_sign, shift_sign, comparison_sign};

use pan_base::{BinOp, Cmp, Keyword, ShOp, Sign, Size};

/// The spelling of a reserved word.
pub fn keyword_text(word: Keyword) -> &'static str
    ensures { result.now ≡ keyword_text word }
{
    match word {
        Keyword::Exception => "exception",
        Keyword::Fun => "fun",
        Keyword::Skip => "skip",
        Keyword::Var => "var",
        Keyword::St => "st",
        Keyword::Stb => "stb",
        Keyword::If => "if",
        Keyword::Else => "else",
        Keyword::While => "while",
        Keyword::Break => "break",
        Keyword::Continue => "continue",
        Keyword::Handle => "handle",
        Keyword::Return => "return",
        Keyword::Raise => "raise",
        Keyword::Lds => "lds",
        Keyword::Ldb => "ldb",
    }
}

/// The spelling of a sign.
pub fn sign_text(sign: Sign) -> &'static str
    ensures { result.now ≡ sign_text sign }
{
    match sign {
        Sign::OpenParen => "(",
        Sign::CloseParen => ")",
        Sign::OpenBrace => "{",
        Sign::CloseBrace => "}",
        Sign::Less => "<",
        Sign::Greater => ">",
        Sign::Comma => ",",
        Sign::Semicolon => ";",
        Sign::Dot => ".",
        Sign::Assign => "=",
        Sign::Plus => "+",
        Sign::Minus => "-",
        Sign::Star => "*",
        Sign::And => "&",
        Sign::Or => "|",
        Sign::Xor => "^",
        Sign::Equal => "==",
        Sign::NotEqual => "!=",
        Sign::NotLess => ">=",
        Sign::LessU => "<+",
        Sign::NotLessU => ">=+",
        Sign::ShiftLeft => "<<",
        Sign::ShiftRight => ">>>",
        Sign::ShiftSigned => ">>",
        Sign::Rotate => "#>>",
    }
}

/// A size in bits.
pub fn bits_text(size: Size) -> &'static str
    ensures { result.now ≡ bits_text size }
{
    match size {
        Size::B1 => "8",
        Size::B2 => "16",
        Size::B4 => "32",
        Size::B8 => "64",
    }
}

/// The sign of an operator.
pub fn operator_sign(operator: BinOp) -> Sign
    ensures { result ≡ operator_sign operator }
{
    match operator {
        BinOp::Add => Sign::Plus,
        BinOp::Sub => Sign::Minus,
        BinOp::Mul => Sign::Star,
        BinOp::And => Sign::And,
        BinOp::Or => Sign::Or,
        BinOp::Xor => Sign::Xor,
    }
}

/// The sign of a shift.
pub fn shift_sign(shift: ShOp) -> Sign
    ensures { result ≡ shift_sign shift }
{
    match shift {
        ShOp::Shl => Sign::ShiftLeft,
        ShOp::Shr => Sign::ShiftRight,
        ShOp::Sar => Sign::ShiftSigned,
        ShOp::Ror => Sign::Rotate,
    }
}

/// The sign of a comparison.
pub fn comparison_sign(comparison: Cmp) -> Sign
    ensures { result ≡ comparison_sign comparison }
{
    match comparison {
        Cmp::Eq => Sign::Equal,
        Cmp::Ne => Sign::NotEqual,
        Cmp::Lt => Sign::Less,
        Cmp::Ge => Sign::NotLess,
        Cmp::Ltu => Sign::LessU,
        Cmp::Geu => Sign::NotLessU,
    }
}

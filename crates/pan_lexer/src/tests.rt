//! What no contract says: sources with their tokens from outside, and that calls succeed.

use crate::{LexError, MAX_SOURCE_LEN, lex};
use pan_base::{Token, TokenKind};
use std::alloc::{AllocError, Global};
use std::test::Fail;

/// Sources, each with its tokens and their places or with its error.
const ROWS: [(&[u8], &str); 39] = [
    (b"", ""),
    (b" \t\r\n", ""),
    (b"a\rb", "Name a@0-1 Name b@2-3"),
    (b" 1a", "BadNumber(1)"),
    (b"18446744073709551615", "18446744073709551615@0-20"),
    (b"0xffffffffffffffff", "18446744073709551615@0-18"),
    (b"00018446744073709551615", "18446744073709551615@0-23"),
    (b"0x000FFFFFFFFFFFFFFFF", "18446744073709551615@0-21"),
    (b"0xAbF 007", "2751@0-5 7@6-9"),
    (b"1+0x1", "1@0-1 Plus@1-2 1@2-5"),
    (b"1\x80", "BadByte(1)"),
    (
        b"fun main() { return 7; }",
        "Reserved Fun@0-3 Name main@4-8 OpenParen@8-9 CloseParen@9-10 OpenBrace@11-12 Reserved Return@13-19 7@20-21 Semicolon@21-22 CloseBrace@23-24",
    ),
    (
        b"_ a1_Z funs Fun",
        "Name _@0-1 Name a1_Z@2-6 Name funs@7-11 Name Fun@12-15",
    ),
    (
        b"exception fun skip var st stb if else",
        "Reserved Exception@0-9 Reserved Fun@10-13 Reserved Skip@14-18 Reserved Var@19-22 Reserved St@23-25 Reserved Stb@26-29 Reserved If@30-32 Reserved Else@33-37",
    ),
    (
        b"while break continue handle return raise lds ldb",
        "Reserved While@0-5 Reserved Break@6-11 Reserved Continue@12-20 Reserved Handle@21-27 Reserved Return@28-34 Reserved Raise@35-40 Reserved Lds@41-44 Reserved Ldb@45-48",
    ),
    (
        b"!ld8 !ld16 !ld32 !ld64",
        "Load B1@0-4 Load B2@5-10 Load B4@11-16 Load B8@17-22",
    ),
    (
        b"!st8 !st16 !st32 !st64(",
        "Store B1@0-4 Store B2@5-10 Store B4@11-16 Store B8@17-22 OpenParen@22-23",
    ),
    (b"!=", "NotEqual@0-2"),
    (b"@base @biw", "Base@0-5 Biw@6-10"),
    (
        b"@basement @fun @_1",
        "Foreign basement@0-9 Foreign fun@10-14 Foreign _1@15-18",
    ),
    (
        b"(){}<>,;.=+-*&|^",
        "OpenParen@0-1 CloseParen@1-2 OpenBrace@2-3 CloseBrace@3-4 Less@4-5 Greater@5-6 Comma@6-7 Semicolon@7-8 Dot@8-9 Assign@9-10 Plus@10-11 Minus@11-12 Star@12-13 And@13-14 Or@14-15 Xor@15-16",
    ),
    (
        b"== << <+ <= <<+",
        "Equal@0-2 ShiftLeft@3-5 LessU@6-8 Less@9-10 Assign@10-11 ShiftLeft@12-14 Plus@14-15",
    ),
    (
        b">> >>> >>>> >>=",
        "ShiftSigned@0-2 ShiftRight@3-6 ShiftRight@7-10 Greater@10-11 ShiftSigned@12-14 Assign@14-15",
    ),
    (
        b">=+ >= #>> #>>>",
        "NotLessU@0-3 NotLess@4-6 Rotate@7-10 Rotate@11-14 Greater@14-15",
    ),
    (b"/**/", ""),
    (b"/***/", ""),
    (b"/*/*/", ""),
    (b"*//", "Star@0-1"),
    (b"1/**/2", "1@0-1 2@5-6"),
    (b"/* /* */ a", "Name a@9-10"),
    (b"a//", "Name a@0-1"),
    (b"a// b", "Name a@0-1"),
    (b"//x\ny", "Name y@4-5"),
    (b"// /*\na", "Name a@6-7"),
    (b"/* // */ a", "Name a@9-10"),
    (b"//\x80\xff\na", "Name a@5-6"),
    (b"/*\x80\n*/a", "Name a@6-7"),
    (b"\x80", "BadByte(0)"),
    (b"a\x80", "BadByte(1)"),
];

/// Puts the bytes of a name, which are ASCII.
fn push_name(text: &mut String, name: &[u8]) -> Result<(), AllocError> {
    for byte in name {
        text.push(char::from(*byte))?;
    }
    Ok(())
}

/// The token and its place, with a space before it.
fn push_token(alloc: Global, text: &mut String, token: Token) -> Result<(), AllocError> {
    match token.kind {
        TokenKind::Name(name) => {
            text.push_str(" Name ")?;
            push_name(text, name)?;
        }
        TokenKind::Reserved(word) => text.push_str(format!(in alloc;
            " Reserved {word:?}"
        )?.as_str())?,
        TokenKind::Number(n) => text.push_str(format!(in alloc; " {n}")?.as_str())?,
        TokenKind::Load(size) => text.push_str(format!(in alloc; " Load {size:?}")?.as_str())?,
        TokenKind::Store(size) => text.push_str(format!(in alloc; " Store {size:?}")?.as_str())?,
        TokenKind::Foreign(name) => {
            text.push_str(" Foreign ")?;
            push_name(text, name)?;
        }
        TokenKind::Base => text.push_str(" Base")?,
        TokenKind::Biw => text.push_str(" Biw")?,
        TokenKind::Sign(sign) => text.push_str(format!(in alloc; " {sign:?}")?.as_str())?,
    }
    let span = token.span;
    text.push_str(format!(in alloc; "@{}-{}", span.start, span.end)?.as_str())
}

/// The tokens and their places, or the error.
fn shown(alloc: Global, source: &[u8]) -> Result<String, AllocError> {
    let mut text = String::new(alloc);
    match lex(alloc, source) {
        Ok(tokens) => {
            for i in 0..tokens.len() {
                push_token(alloc, &mut text, tokens.get(i))?;
            }
        }
        Err(e) => text.push_str(format!(in alloc; " {e:?}")?.as_str())?,
    }
    Ok(text)
}

#[test]
fn rows(rt: HostRuntime) -> Result<(), Fail> {
    for (i, (source, want)) in ROWS.iter().enumerate() {
        let text = shown(rt.alloc(), source)?;
        assert_eq!(rt; text.as_str().trim_start(), *want, "in row {i}");
    }
    Ok(())
}

#[test]
fn longest_source(rt: HostRuntime) -> Result<(), Fail> {
    let mut source = vec![in rt.alloc(); b' '; MAX_SOURCE_LEN]?;
    let spaces = lex(rt.alloc(), &source).ok();
    assert_eq!(rt;
        spaces.map(|tokens| (tokens.len(), tokens.source_len())),
        Some((0, 1_048_576))
    );
    source.push(b' ')?;
    assert_eq!(rt; lex(rt.alloc(), &source).err(), Some(LexError::TooLong));
    Ok(())
}

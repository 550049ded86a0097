//! Text that grows by tokens.

ghost use Rattle.std.specs.Prelude.{◌≡◌, [], ◌++◌, OnOk};
ghost use Rattle.pan_base.specs.Tokens.{ASign, kind_of};
ghost use Rattle.pan_printer.specs.Pieces.{spelling, piece_text, spaced, ending, sign, word, name, number, semicolon};

use crate::spelling::{bits_text, keyword_text, sign_text};
use itoa::Buffer;
use pan_base::{Blob, Keyword, NoMemory, Sign, Text, TokenKind};
use std::alloc::Global;
use std::marker::Model;

/// The text so far.
#[derive(Drop)]
pub struct Output {
    text: Vec<u8>,
}

impl Model for Output {
    ghost use Rattle.std.specs.Prelude.{List, ℕ};

    ghost Value = { List ℕ };

    ghost view = { λ o. o.text.items };
}

impl Output {
    /// No text so far.
    pub fn new(alloc: Global) -> Output
        ensures { result ≡ [] }
    {
        Output {
            text: Vec::new(alloc),
        }
    }

    /// The whole text.
    pub fn into_blob(self) -> Blob
        ensures { result ≡ self }
    {
        Blob::from_vec(self.text)
    }

    fn put_bytes(&mut self, bytes: &[u8]) -> Result<(), NoMemory>
        ensures { OnOk result (self.new ≡ self.old ++ bytes.now) }
    {
        self.text.extend_from_slice(bytes)?;
        Ok(())
    }

    /// Puts a token, with nothing behind it.
    fn put_token(&mut self, kind: TokenKind<'_>) -> Result<(), NoMemory>
        ensures { OnOk result (self.new ≡ self.old ++ spelling (kind_of kind.entry)) }
    {
        match kind {
            TokenKind::Name(name) => self.put_bytes(name),
            TokenKind::Reserved(word) => self.put_bytes(keyword_text(word).as_bytes()),
            TokenKind::Number(n) => self.put_bytes(Buffer::new().format(n).as_bytes()),
            TokenKind::Load(size) => {
                self.put_bytes(b"!ld")?;
                self.put_bytes(bits_text(size).as_bytes())?;
                Ok(())
            }
            TokenKind::Store(size) => {
                self.put_bytes(b"!st")?;
                self.put_bytes(bits_text(size).as_bytes())?;
                Ok(())
            }
            TokenKind::Foreign(name) => {
                self.put_bytes(b"@")?;
                self.put_bytes(name)?;
                Ok(())
            }
            TokenKind::Base => self.put_bytes(b"@base"),
            TokenKind::Biw => self.put_bytes(b"@biw"),
            TokenKind::Sign(sign) => self.put_bytes(sign_text(sign).as_bytes()),
        }
    }

    /// Puts a token and a space.
    #[tactic(auto, unfolding(crate::specs::Pieces::piece_text))]
    pub fn put(&mut self, kind: TokenKind<'_>) -> Result<(), NoMemory>
        ensures { OnOk result (self.new ≡ self.old ++ piece_text (spaced (kind_of kind.entry))) }
    {
        self.put_token(kind)?;
        self.put_bytes(b" ")?;
        Ok(())
    }

    /// Puts a sign and a line feed.
    #[tactic(auto, unfolding(crate::specs::Pieces::piece_text))]
    pub fn end_line(&mut self, sign: Sign) -> Result<(), NoMemory>
        ensures { OnOk result (self.new ≡ self.old ++ piece_text (ending (ASign sign))) }
    {
        self.put_token(TokenKind::Sign(sign))?;
        self.put_bytes(b"\n")?;
        Ok(())
    }

    /// Puts a sign and a space.
    pub fn sign(&mut self, token: Sign) -> Result<(), NoMemory>
        ensures { OnOk result (self.new ≡ self.old ++ piece_text (sign token)) }
    {
        self.put(TokenKind::Sign(token))
    }

    /// Puts a reserved word and a space.
    pub fn word(&mut self, token: Keyword) -> Result<(), NoMemory>
        ensures { OnOk result (self.new ≡ self.old ++ piece_text (word token)) }
    {
        self.put(TokenKind::Reserved(token))
    }

    /// Puts a name and a space.
    pub fn name(&mut self, text: &Text) -> Result<(), NoMemory>
        ensures { OnOk result (self.new ≡ self.old ++ piece_text (name text.now)) }
    {
        self.put(TokenKind::Name(text.as_bytes()))
    }

    /// Puts a number and a space.
    pub fn number(&mut self, value: u64) -> Result<(), NoMemory>
        ensures { OnOk result (self.new ≡ self.old ++ piece_text (number value)) }
    {
        self.put(TokenKind::Number(value))
    }

    /// Puts `;` and a line feed.
    pub fn semicolon(&mut self) -> Result<(), NoMemory>
        ensures { OnOk result (self.new ≡ self.old ++ piece_text semicolon) }
    {
        self.end_line(Sign::Semicolon)
    }
}

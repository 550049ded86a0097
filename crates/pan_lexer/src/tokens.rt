//! The tokens of a source.

ghost use Rattle.std.specs.Prelude.{◌≡◌, ◌<◌, ◌≤◌, ◌↔◌, length, map, slice_get, IsTrue};
ghost use Rattle.pan_base.specs.Tokens.{placed, kind_of};
ghost use Rattle.pan_lexer.specs.TokenRow.{IsSpelled, IsLawful};

use pan_base::{List, Token};
use std::marker::Model;

/// The tokens of a source, each with its place. Names are bytes of the source.
#[derive(Drop)]
pub struct Tokens<'a> {
    tokens: List<Token<'a>>,
    source_len: usize,
}

impl<'a> Model for Tokens<'a> {
    ghost use Rattle.std.specs.Prelude.{map};
    ghost use Rattle.pan_base.specs.Tokens.{placed};
    ghost use Rattle.pan_lexer.specs.TokenRow.{TokenRow, IsLawful};

    ghost Value = { TokenRow };

    ghost view = { λ t. record { tokens = map placed t.tokens; source_len = t.source_len } };

    ghost invariant = { λ t. IsLawful (record { tokens = map placed t.tokens; source_len = t.source_len }) };
}

impl<'a> Tokens<'a> {
    /// The tokens of a source of so many bytes.
    pub(crate) fn new(tokens: List<Token<'a>>, source_len: usize) -> Tokens<'a>
        requires { IsLawful (record { tokens = map placed tokens; source_len = source_len }) }
        ensures { result ≡ record { tokens = map placed tokens.entry; source_len = source_len } }
    {
        Tokens { tokens, source_len }
    }

    /// How many tokens there are.
    pub fn len(&self) -> usize
        ensures value { result ≡ length self.now.tokens }
        ensures lawful { IsLawful self.now }
    {
        self.tokens.len()
    }

    /// Whether there are none.
    pub fn is_empty(&self) -> bool
        ensures { IsTrue result ↔ (length self.now.tokens ≡ 0) }
    {
        self.len() == 0
    }

    /// How many bytes the source has.
    pub fn source_len(&self) -> usize
        ensures value { result ≡ self.now.source_len }
        ensures lawful { IsLawful self.now }
    {
        self.source_len
    }

    /// The token of this number, from 0 on.
    pub fn get(&self, i: usize) -> Token<'_>
        requires { i < length self.now.tokens }
        ensures token { slice_get self.now.tokens i ≡ Some (placed result) }
        ensures some { result.span.start < result.span.end }
        ensures within { result.span.end ≤ self.now.source_len }
        ensures spelled { IsSpelled (kind_of result.kind) }
    {
        self.tokens.as_slice()[i]
    }
}

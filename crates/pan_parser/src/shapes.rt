//! Shapes.

ghost use Rattle.std.specs.Prelude.{◌≡◌, ◌<◌, ◌≤◌, [], ◌∷◌, length, IfOk, IfErr};
ghost use Rattle.pan_tree.specs.Grammar.{Within, AShape};
ghost use Rattle.pan_tree.specs.Grammar as grammar;
ghost use Rattle.pan_parser.specs.Machine as machine;
ghost use Rattle.pan_parser.specs.Reading.{left, Reads, Stops, SomeShapes, width};

use crate::cursor::{after_sign, deeper, expect, first, syntax};
use crate::error::ParseError;
use pan_base::{List, Sign, TokenKind};
use pan_lexer::Tokens;
use pan_tree::Shape;
use std::alloc::Global;

/// The shape of so many words, if there are any.
fn width(words: u64) -> Option<Shape>
    ensures { result ≡ width words }
{
    match words {
        0 => None,
        1 => Some(Shape::Word),
        _ => Some(Shape::Words(words)),
    }
}

/// A shape, and what follows it.
#[cycle(shapes)]
pub fn shape(
    alloc: Global,
    tokens: &Tokens<'_>,
    at: usize,
    depth: u32,
) -> Result<(Shape, usize), ParseError>
    requires { depth ≤ grammar.nesting_limit }
    ensures tree { IfOk result (λ r. AShape Within depth (left tokens.now at) (left tokens.now r.1) r.0) }
    ensures reads { IfOk result (λ r. Reads (machine.WantShape depth ∷ []) (left tokens.now at) (left tokens.now r.1)) }
    ensures ahead { IfOk result (λ r. (at < r.1) × (r.1 ≤ length tokens.now.tokens)) }
    ensures err { IfErr result (λ e. Stops tokens.now.source_len (machine.WantShape depth ∷ []) (left tokens.now at) e) }
{
    let Some((t, after)) = first(tokens, at) else {
        return Err(syntax(tokens, at));
    };
    match t.kind {
        TokenKind::Number(n) => match width(n) {
            Some(shape) => Ok((shape, after)),
            None => Err(syntax(tokens, at)),
        },
        TokenKind::Sign(Sign::OpenBrace) => {
            let depth = deeper(tokens, at, depth)?;
            let (parts, after) = shapes(alloc, tokens, after, depth)?;
            let after = expect(tokens, after, Sign::CloseBrace)?;
            Ok((Shape::Group(parts), after))
        }
        _ => Err(syntax(tokens, at)),
    }
}

/// One shape or more, with commas between them, and what follows.
#[cycle(shapes)]
fn shapes(
    alloc: Global,
    tokens: &Tokens<'_>,
    at: usize,
    depth: u32,
) -> Result<(List<Shape>, usize), ParseError>
    requires { depth ≤ grammar.nesting_limit }
    ensures tree { IfOk result (λ r. SomeShapes depth (left tokens.now at) (left tokens.now r.1) r.0) }
    ensures reads { IfOk result (λ r. Reads (machine.WantShape depth ∷ machine.MoreShapes depth ∷ []) (left tokens.now at) (left tokens.now r.1)) }
    ensures ahead { IfOk result (λ r. (at < r.1) × (r.1 ≤ length tokens.now.tokens)) }
    ensures err { IfErr result (λ e. Stops tokens.now.source_len (machine.WantShape depth ∷ machine.MoreShapes depth ∷ []) (left tokens.now at) e) }
{
    let (part, after) = shape(alloc, tokens, at, depth)?;
    let mut parts = List::new(alloc);
    parts.push(part)?;
    let mut rest = after;
    'parts: while let Some(after) = after_sign(tokens, rest, Sign::Comma) {
        let (part, after) = shape(alloc, tokens, after, depth)?;
        parts.push(part)?;
        rest = after;
    }
    Ok((parts, rest))
}

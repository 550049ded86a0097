//! From the tokens of a source to its program.

ghost use Rattle.std.specs.Prelude.{◌≡◌, ◌⊎◌, IfOk, IfErr};
ghost use Rattle.pan_tree.specs.declared.program.Program.{Program as IsProgram};
ghost use Rattle.pan_tree.specs.Grammar.{Tree};
ghost use Rattle.pan_tree.specs.Check.{HasLawfulNames};
ghost use Rattle.pan_parser.specs.declared.error.ParseError.{ParseError as IsParseError};
ghost use Rattle.pan_parser.specs.Answers.{Refusal, Gives};

use crate::error::ParseError;
use crate::items::program;
use pan_lexer::Tokens;
use pan_tree::Program;
use std::alloc::Global;

/// The program that the tokens spell.
///
/// # Errors
///
/// The first place at which the tokens break off: `Syntax` where what comes there continues no program that begins with
/// what comes before it, and `TooDeep` where it continues one but nests more than 128 deep in each. `NoMemory` may come in
/// place of any answer.
pub fn parse(alloc: Global, tokens: &Tokens<'_>) -> Result<Program, ParseError>
    // The tokens spell the program, and nest no deeper than the limit.
    ensures tree { IfOk result (λ p. Tree tokens.now.tokens p) }
    // Its foreign names are spelled as names or reserved words, and are neither `base` nor `biw`.
    ensures lawful { IfOk result HasLawfulNames }
    // There is no other, and none that they spell is refused, but for memory.
    ensures only { (p : IsProgram) → Tree tokens.now.tokens p → Gives result p }

    // An error tells the earliest place where they spell none, and why.
    ensures refused { IfErr result (λ e. (e ≡ ParseError.NoMemory) ⊎ Refusal tokens.now.tokens tokens.now.source_len e) }
    ensures exact { (e : IsParseError) → Refusal tokens.now.tokens tokens.now.source_len e → (result ≡ Err e) ⊎ (result ≡ Err ParseError.NoMemory) }
{
    let program = program(alloc, tokens)?;
    Ok(program)
}

//! Reads a source to its program.

ghost use Rattle.std.specs.Prelude.{◌≡◌, ◌⊎◌, Ok, Err, IfOk, IfErr};
ghost use Rattle.pan_tree.specs.declared.program.Program.{Program};
ghost use Rattle.front_end.specs.Sources.{IsChecked, Unchecked};
ghost use Rattle.front_end.specs.declared.error.SourceError.{SourceError as IsSourceError};

use crate::error::SourceError;
use pan_lexer::lex;
use pan_parser::parse;
use pan_shapes::{Checked, check};
use std::alloc::Global;

/// The program of a source, which keeps every rule.
///
/// # Errors
///
/// The first that applies: `Lex` where the source has no tokens, `Parse` where they spell no program, `Check` where the
/// program breaks a rule. `NoMemory` may come in place of any answer.
pub fn read_program(alloc: Global, source: &[u8]) -> Result<Checked, SourceError>
    ensures checked { IfOk result (λ program. IsChecked source.now program) }
    ensures refused { IfErr result (λ e. (e ≡ SourceError.NoMemory) ⊎ Unchecked source.now e) }

    // which answer comes
    ensures passes { (program : Program) → IsChecked source.now program → (result ≡ Ok program) ⊎ (result ≡ Err SourceError.NoMemory) }
    ensures exact { (e : IsSourceError) → Unchecked source.now e → (result ≡ Err e) ⊎ (result ≡ Err SourceError.NoMemory) }
{
    let tokens = lex(alloc, source)?;
    let program = parse(alloc, &tokens)?;
    let checked = check(alloc, program)?;
    Ok(checked)
}

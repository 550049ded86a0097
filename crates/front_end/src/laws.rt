//! Laws of sources, on calls that do nothing.

ghost use Rattle.std.specs.Prelude.{◌≡◌, ℕ, List};
ghost use Rattle.pan_tree.specs.declared.program.Program.{Program};
ghost use Rattle.front_end.specs.Sources.{IsChecked, Unchecked};
ghost use Rattle.front_end.specs.declared.error.SourceError.{SourceError as IsSourceError};

use pan_lexer::{one_refusal, one_row};
use pan_parser::one_answer;

/// Bytes are a source of one program that keeps every rule, or are refused for one reason, and never both.
pub fn one_reading()
    ensures program { (bytes : List ℕ) (p q : Program) → IsChecked bytes p → IsChecked bytes q → p ≡ q }
    ensures reason { (bytes : List ℕ) (d e : IsSourceError) → Unchecked bytes d → Unchecked bytes e → d ≡ e }
    ensures apart { (bytes : List ℕ) (p : Program) (e : IsSourceError) → IsChecked bytes p → ¬ Unchecked bytes e }
{
    one_row();
    one_refusal();
    one_answer();
}

//! Laws of the tokens of a text. The calls do nothing.

ghost use Rattle.std.specs.Prelude.{◌≡◌, ◌≤◌, ℕ, List, length};
ghost use Rattle.pan_base.specs.Lexing.{Lexes};
ghost use Rattle.pan_base.specs.Tokens.{Placed};
ghost use Rattle.pan_lexer.specs.Laws.{OneRow, NoRowWhereStuck, OneStuckPlace, RowOrStuck};
ghost use Rattle.pan_lexer.specs.Refusal.{Refusal};
ghost use Rattle.pan_lexer.specs.TokenRow.{source_limit};
ghost use Rattle.pan_lexer.specs.declared.error.LexError.{LexError as IsLexError};

/// A text has one row of tokens at most.
pub fn one_row()
    ensures { OneRow }
{}

/// A text that is stuck somewhere has no tokens.
pub fn no_row_where_stuck()
    ensures { NoRowWhereStuck }
{}

/// A text is stuck at one place at most.
pub fn one_stuck_place()
    ensures { OneStuckPlace }
{}

/// A text has tokens, or is stuck somewhere.
pub fn row_or_stuck()
    ensures { RowOrStuck }
{}

/// A text is refused for one reason, and one within the limit that has tokens for none.
pub fn one_refusal()
    ensures reason { (bytes : List ℕ) (d e : IsLexError) → Refusal bytes d → Refusal bytes e → d ≡ e }
    ensures apart { (bytes : List ℕ) (row : List Placed) → length bytes ≤ source_limit → Lexes bytes row → (e : IsLexError) → ¬ Refusal bytes e }
{}

//! Laws of the grammar.

ghost use Rattle.std.specs.Prelude.{◌≡◌, ℕ, List};
ghost use Rattle.pan_base.specs.Tokens.{Placed};
ghost use Rattle.pan_tree.specs.declared.program.Program.{Program as IsProgram};
ghost use Rattle.pan_tree.specs.Grammar.{Derives, Tree};
ghost use Rattle.pan_parser.specs.Answers.{Refusal};
ghost use Rattle.pan_parser.specs.declared.error.ParseError.{ParseError as IsParseError};

/// No tokens spell two programs, however deep they nest.
pub fn one_tree()
    ensures { (ts : List Placed) (p q : IsProgram) → Derives ts p → Derives ts q → p ≡ q }
{}

/// Tokens within the limit of nesting spell one program, or are refused for one reason, and never both.
pub fn one_answer()
    ensures program { (ts : List Placed) (p q : IsProgram) → Tree ts p → Tree ts q → p ≡ q }
    ensures reason { (ts : List Placed) (end : ℕ) (d e : IsParseError) → Refusal ts end d → Refusal ts end e → d ≡ e }
    ensures apart { (ts : List Placed) (end : ℕ) (p : IsProgram) (e : IsParseError) → Tree ts p → ¬ Refusal ts end e }
{}

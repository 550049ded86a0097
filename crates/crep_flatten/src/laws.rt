//! What is kept of every checked program, on calls that do nothing.

ghost use Rattle.std.specs.Prelude.{◌≡◌, true};
ghost use Rattle.pan_stage.specs.Stage.{Keeps};
ghost use Rattle.pan_tree.specs.Check.{IsWellShaped};
ghost use Rattle.pan_tree.specs.declared.program.Program.{Program};
ghost use Rattle.crep_lang.specs.Stage as crep;
ghost use Rattle.crep_lang.specs.WellFormed.{IsWellFormed};
ghost use Rattle.crep_flatten.specs.Flattened.{flattened};
ghost use Rattle.crep_flatten.specs.Literals.{program_fits};
ghost use Rattle.crep_flatten.specs.Source.{stage};

/// In words a program that keeps every rule of the check has the source's face and sites, needs no more than its weight allows,
/// and wherever the source doesn't fail does what it does, with as deep calls, for at most 1,024 instructions a unit of work.
pub fn flattened_is_kept()
    ensures { (p : Program) → IsWellShaped p → Keeps (stage p) (crep.stage (flattened p)) }
{}

/// If the numbers of its text are words, it is well formed in words.
pub fn flattened_is_well_formed()
    ensures { (p : Program) → IsWellShaped p → program_fits p ≡ true → IsWellFormed (flattened p) }
{}

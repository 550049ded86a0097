//! Programs that keep every rule.

ghost use Rattle.std.specs.Prelude.{◌≡◌, ◌<◌, ◌≤◌, IsTrue, Some, codes, length, map, option_map, slice_get};
ghost use Rattle.pan_base.specs.Names.{is_foreign_name};
ghost use Rattle.pan_tree.specs.Check as check;
ghost use Rattle.pan_shapes.specs.Kept.{Kept, IsMainAt};

use pan_base::{Blob, List};
use pan_tree::Program;
use std::marker::Model;

/// A program that keeps every rule, with what its functions weigh and its foreign names. No call of it takes memory.
#[derive(Drop)]
pub struct Checked {
    program: Program,
    main: usize,
    weights: List<u64>,
    weight: u64,
    names: List<Blob>,
}

impl Model for Checked {
    ghost use Rattle.pan_tree.specs.declared.program.Program.{Program};

    ghost Value = { Program };

    ghost use Rattle.pan_tree.specs.contracts.shape.Shape as shape;
    ghost use Rattle.pan_tree.specs.contracts.syntax.ExprKind as expr_kind;
    ghost use Rattle.pan_tree.specs.contracts.syntax.StmtKind as stmt_kind;
    ghost use Rattle.std.specs.Coded.{codes};

    ghost coded = { Prim.hlevel (codes, shape.the_row.coded, expr_kind.the_row.coded, stmt_kind.the_row.coded) };

    ghost use Rattle.pan_shapes.specs.Kept.{Kept};

    ghost view = { λ c. c.program };

    ghost invariant = { λ c. Kept c.program c.main c.weights c.weight c.names };
}

impl Checked {
    /// The program, with the index of `main`, what each function and all together weigh, and the foreign names in the
    /// order of their first use.
    pub(crate) fn new(
        program: Program,
        main: usize,
        weights: List<u64>,
        weight: u64,
        names: List<Blob>,
    ) -> Checked
        requires { Kept program main weights weight names }
        ensures { result ≡ program }
    {
        Checked {
            program,
            main,
            weights,
            weight,
            names,
        }
    }

    /// The program.
    pub fn program(&self) -> &Program
        ensures same { result.now ≡ self.now }
        ensures shaped { check.IsWellShaped self.now }
        ensures lawful { check.HasLawfulNames self.now }
    {
        &self.program
    }

    /// The index of the function `main`.
    pub fn main(&self) -> usize
        ensures { IsMainAt self.now result }
    {
        self.main
    }

    /// What the function at this index weighs.
    pub fn weight_of(&self, f: usize) -> u64
        requires { f < length self.now.functions }
        ensures { Some result ≡ option_map (check.function_weight self.now) (slice_get self.now.functions f) }
    {
        self.weights.as_slice()[f]
    }

    /// What an active call of the function at this index costs, in bytes of stack.
    pub fn cost_of(&self, f: usize) -> u64
        requires { f < length self.now.functions }
        ensures { Some result ≡ option_map (check.cost self.now) (slice_get self.now.functions f) }
    {
        16 * (4 + self.weights.as_slice()[f])
    }

    /// What the functions weigh together.
    pub fn weight(&self) -> u64
        ensures { result ≡ check.program_weight self.now }
    {
        self.weight
    }

    /// The number of foreign names.
    pub fn name_count(&self) -> usize
        ensures { result ≡ length (check.foreign_names self.now) }
    {
        self.names.len()
    }

    /// The foreign name of this number, in the order of their first use.
    pub fn name(&self, i: usize) -> &[u8]
        requires { i < length (check.foreign_names self.now) }
        ensures same { Some result.now ≡ slice_get (check.foreign_names self.now) i }
        ensures lawful { IsTrue (is_foreign_name result.now) }
        ensures short { length result.now ≤ 64 }
    {
        let name = &self.names.as_slice()[i];
        name.as_slice()
    }
}

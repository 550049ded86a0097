//! Fixed rows of lines around the parts of choices and loops.

ghost use Rattle.std.specs.Prelude.{◌≡◌, ◌+◌, ◌++◌, [], ◌∷◌, OnOk};
ghost use Rattle.lab_flatten.specs.Flatten.{inverse, choice_head, choice_middle, choice_end, loop_head, loop_turn};
ghost use Rattle.lab_lang.specs.declared.syntax.Line.TheVariants as line;

use crate::rows::put;
use lab_lang::Line;
use pan_base::{Cmp, List, NoMemory};

/// The comparison that holds where this one doesn't.
fn inverted(comparison: Cmp) -> Cmp
    ensures { result ≡ inverse comparison }
{
    match comparison {
        Cmp::Eq => Cmp::Ne,
        Cmp::Ne => Cmp::Eq,
        Cmp::Lt => Cmp::Ge,
        Cmp::Ge => Cmp::Lt,
        Cmp::Ltu => Cmp::Geu,
        Cmp::Geu => Cmp::Ltu,
    }
}

/// Which sides of a choice have no lines.
#[derive(Clone, Copy)]
pub struct Sides {
    pub no_first: bool,
    pub no_second: bool,
}

/// The branch of a choice, before the second side.
#[tactic(auto, using(crate::proofs::Rules::block_rules))]
pub fn put_choice(
    lines: &mut List<Line>,
    sides: Sides,
    comparison: Cmp,
    left: u8,
    right: u8,
    label: u32,
) -> Result<(), NoMemory>
    ensures { OnOk result (lines.new ≡ lines.old ++ choice_head sides.no_first sides.no_second comparison left right label) }
{
    if sides.no_second {
        if sides.no_first {
            Ok(())
        } else {
            put(
                lines,
                Line::Branch(inverted(comparison), left, right, label),
            )
        }
    } else {
        put(lines, Line::Branch(comparison, left, right, label))
    }
}

/// What stands between the second side of a choice and the first.
#[tactic(auto, using(crate::proofs::Rules::block_rules))]
pub fn put_between(
    lines: &mut List<Line>,
    sides: Sides,
    first: u32,
    end: u32,
) -> Result<(), NoMemory>
    requires { end ≡ first + 1 }
    ensures { OnOk result (lines.new ≡ lines.old ++ choice_middle sides.no_first sides.no_second first) }
{
    if sides.no_first || sides.no_second {
        Ok(())
    } else {
        put(lines, Line::Jump(end))?;
        put(lines, Line::Label(first))
    }
}

/// The end of a choice, behind the first side.
#[tactic(auto, using(crate::proofs::Rules::block_rules))]
pub fn put_joined(
    lines: &mut List<Line>,
    sides: Sides,
    first: u32,
    end: u32,
) -> Result<(), NoMemory>
    requires { end ≡ first + 1 }
    ensures { OnOk result (lines.new ≡ lines.old ++ choice_end sides.no_first sides.no_second first) }
{
    if sides.no_first && sides.no_second {
        Ok(())
    } else if sides.no_first || sides.no_second {
        put(lines, Line::Label(first))
    } else {
        put(lines, Line::Label(end))
    }
}

/// The begin of a loop, whose test stands behind its body.
#[tactic(auto, using(crate::proofs::Rules::block_rules))]
pub fn put_loop(
    lines: &mut List<Line>,
    no_body: bool,
    test: u32,
    inside: u32,
) -> Result<(), NoMemory>
    requires { inside ≡ test + 2 }
    ensures { OnOk result (lines.new ≡ lines.old ++ loop_head no_body test) }
{
    if no_body {
        Ok(())
    } else {
        put(lines, Line::Jump(test))?;
        put(lines, Line::Label(inside))
    }
}

/// Where a turn of a loop begins.
fn turn_of(no_body: bool, test: u32, inside: u32) -> u32
    requires { inside ≡ test + 2 }
    ensures { result ≡ loop_turn no_body test }
{
    if no_body { test } else { inside }
}

/// The test of a loop, and its end.
#[tactic(auto, using(crate::proofs::Rules::block_rules))]
pub fn put_test(
    lines: &mut List<Line>,
    no_body: bool,
    comparison: Cmp,
    left: u8,
    right: u8,
    test: u32,
    inside: u32,
    end: u32,
) -> Result<(), NoMemory>
    requires inside { inside ≡ test + 2 }
    requires end { end ≡ test + 1 }
    ensures { OnOk result (lines.new ≡ lines.old ++ line.Branch comparison left right (loop_turn no_body test) ∷ line.Label (test + 1) ∷ []) }
{
    let turn = turn_of(no_body, test, inside);
    put(lines, Line::Branch(comparison, left, right, turn))?;
    put(lines, Line::Label(end))
}

//! Which lines reach their labels in one instruction.

ghost use Rattle.std.specs.Prelude.{◌≡◌, ℕ, ◌<◌, ◌≤◌, length, Option, slice_index};
ghost use Rattle.lab_lang.specs.Layout.{address_of, shortest, longest};
ghost use Rattle.lab_lang.specs.WellFormed.{IsLine};
ghost use Rattle.lab_link.specs.Reach.{is_within, reaches};
ghost use Rattle.lab_link.specs.Turns.{IsTable};

use lab_lang::Line;

/// How far an instruction reaches, in bytes: back from its own place, and on.
#[derive(Clone, Copy)]
struct Reach {
    back: u32,
    on: u32,
}

/// A branch has 12 bits of a signed distance in units of two bytes (RISC-V unprivileged ISA, section 2.5, B format).
const BRANCH: Reach = Reach {
    back: 4096,
    on: 4094,
};

/// A JAL has 20 bits of one (J format).
const JAL: Reach = Reach {
    back: 1048576,
    on: 1048574,
};

/// How many instructions a line has at least.
pub fn shortest_of(line: &Line) -> u32
    ensures { result ≡ shortest line.now }
{
    match line {
        Line::Label(_) => 0,
        Line::Address(_, _) => 2,
        _ => 1,
    }
}

/// How many it has at most.
pub fn longest_of(line: &Line) -> u32
    ensures { result ≡ longest line.now }
{
    match line {
        Line::Label(_) => 0,
        Line::Plain(_) => 1,
        Line::Jump(_) => 2,
        Line::Branch(_, _, _, _) => 3,
        Line::CallTo(_) => 2,
        Line::Address(_, _) => 2,
        Line::JumpReg(_) => 1,
    }
}

/// Whether an instruction that stands at one place reaches another.
fn is_in_reach(reach: Reach, from: u32, to: u32) -> bool
    requires back { reach.back ≤ 1048576 }
    requires on { reach.on ≤ 1048576 }
    requires from { from ≤ 0x30000000 }
    requires to { to ≤ 0x30000000 }
    ensures { result ≡ is_within reach.back reach.on (address_of from) (address_of to) }
{
    from <= to + reach.back && to <= from + reach.on
}

/// Whether a line at the place `from` reaches its label in one instruction, each label at its place of the table.
pub fn does_reach(line: &Line, from: u32, table: &[u32]) -> bool
    requires line { IsLine (length table.now) line.now }
    requires from { from ≤ 0x30000000 }
    requires near { (l : ℕ) → l < length table.now → slice_index table.now l ≤ 0x30000000 }
    ensures { (f : ℕ → Option ℕ) → IsTable f table.now → result ≡ reaches line.now (address_of from) f }
{
    match line {
        Line::Branch(_, _, _, label) => is_in_reach(BRANCH, from, table[*label as usize]),
        Line::Jump(label) => is_in_reach(JAL, from, table[*label as usize]),
        Line::CallTo(label) => is_in_reach(JAL, from, table[*label as usize]),
        _ => true,
    }
}

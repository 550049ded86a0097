//! The layout in which each line is as short as it can be.

ghost use Rattle.std.specs.Prelude.{◌≡◌, ℕ, ◌≤◌, List, length, IfOk};
ghost use Rattle.std.specs.List.{All};
ghost use Rattle.lab_lang.specs.Layout.{address};
ghost use Rattle.lab_lang.specs.Needs.{code};
ghost use Rattle.lab_lang.specs.WellFormed.{IsLine};
ghost use Rattle.lab_link.specs.Lengths.{laid_out, AreFit};
ghost use Rattle.lab_link.specs.Turns.{IsTable, AreCounts};

use crate::layout::{lay, lengthen, places};
use lab_lang::Line;
use pan_base::{List, NoMemory};
use std::alloc::Global;

/// A layout, and where labels stand in it.
#[derive(Drop)]
pub struct Grown {
    /// The place, in bytes of code, and the number of instructions of each line.
    pub layout: List<(u32, u32)>,
    /// The place of each label, and 0 for one that stands nowhere.
    pub table: Vec<u32>,
}

/// The layout in which every short line reaches its label, and no long one would if it alone were short. All lines begin
/// short. A turn lays them out and lengthens those that don't reach: no line gets shorter, so each turn but the last one
/// lengthens a line for good. `NoMemory` is the one error.
pub fn grow(alloc: Global, lines: &[Line], labels: u32) -> Result<Grown, NoMemory>
    requires lines { All (IsLine labels) lines.now }
    requires most { code lines.now ≤ 268439552 }
    ensures count { IfOk result (λ grown. length (grown.table).items ≡ labels) }
    ensures places { IfOk result (λ grown. IsTable (address lines.now grown.layout) (grown.table).items) }
    ensures layout { IfOk result (λ grown. (counts : List ℕ) × AreCounts lines.now counts × (grown.layout ≡ laid_out 0 counts)) }
    ensures fit { IfOk result (λ grown. AreFit lines.now grown.layout) }
{
    let mut laid = lay(alloc, lines)?;
    loop {
        let table = places(alloc, lines, laid.layout.as_slice(), labels)?;
        let next = lengthen(alloc, lines, laid.layout.as_slice(), table.as_slice())?;
        if next.size == laid.size {
            return Ok(Grown {
                layout: laid.layout,
                table,
            });
        }
        laid = next;
    }
}

//! Where lines and labels stand.

ghost use Rattle.std.specs.Prelude.{◌≡◌, ℕ, ◌*◌, ◌<◌, ◌≤◌, length, map, Option, IfOk, slice_index};
ghost use Rattle.std.specs.List.{All};
ghost use Rattle.pan_stage.specs.Sums.{sum_of};
ghost use Rattle.lab_lang.specs.Layout.{address, shortest};
ghost use Rattle.lab_lang.specs.Needs.{code};
ghost use Rattle.lab_lang.specs.WellFormed.{IsLine};
ghost use Rattle.lab_link.specs.Lengths.{laid_out};
ghost use Rattle.lab_link.specs.Turns.{IsTable, AreCounts, lengthened};

use crate::reach::{does_reach, longest_of, shortest_of};
use lab_lang::Line;
use pan_base::{List, NoMemory};
use std::alloc::Global;

/// Where lines stand.
#[derive(Drop)]
pub struct Laid {
    /// The place, in bytes of code, and the number of instructions of each line.
    pub layout: List<(u32, u32)>,
    /// The bytes of all.
    pub size: u32,
}

/// The layout where each line is at its shortest. `NoMemory` is the one error.
pub fn lay(alloc: Global, lines: &[Line]) -> Result<Laid, NoMemory>
    requires { code lines.now ≤ 268439552 }
    ensures layout { IfOk result (λ laid. laid.layout ≡ laid_out 0 (map shortest lines.now)) }
    ensures size { IfOk result (λ laid. laid.size ≡ 4 * sum_of (map shortest lines.now)) }
{
    let mut layout = List::new(alloc);
    let mut size = 0;
    for line in lines {
        let count = shortest_of(line);
        layout.push((size, count))?;
        size += 4 * count;
    }
    Ok(Laid { layout, size })
}

/// The layout where those lines are long too that don't reach their labels in the one that is passed. `NoMemory` is the one
/// error.
pub fn lengthen(
    alloc: Global,
    lines: &[Line],
    layout: &[(u32, u32)],
    table: &[u32],
) -> Result<Laid, NoMemory>
    requires lines { All (IsLine (length table.now)) lines.now }
    requires layout { (counts : List ℕ) × AreCounts lines.now counts × (layout.now ≡ laid_out 0 counts) }
    requires most { code lines.now ≤ 268439552 }
    requires near { (l : ℕ) → l < length table.now → slice_index table.now l ≤ 0x30000000 }
    ensures layout { IfOk result (λ laid. (f : ℕ → Option ℕ) → IsTable f table.now → laid.layout ≡ laid_out 0 (lengthened lines.now layout.now f)) }
    ensures size { IfOk result (λ laid. (f : ℕ → Option ℕ) → IsTable f table.now → laid.size ≡ 4 * sum_of (lengthened lines.now layout.now f)) }
{
    let mut longer = List::new(alloc);
    let mut size = 0;
    for i in 0..lines.len() {
        let (place, count) = layout[i];
        let needed = if does_reach(&lines[i], place, table) {
            count
        } else {
            longest_of(&lines[i])
        };
        longer.push((size, needed))?;
        size += 4 * needed;
    }
    Ok(Laid {
        layout: longer,
        size,
    })
}

/// The place of each label, and 0 for one that stands nowhere. Of two places of a label the first one counts. `NoMemory`
/// is the one error.
pub fn places(
    alloc: Global,
    lines: &[Line],
    layout: &[(u32, u32)],
    labels: u32,
) -> Result<Vec<u32>, NoMemory>
    requires lines { All (IsLine labels) lines.now }
    requires layout { length layout.now ≡ length lines.now }
    ensures count { IfOk result (λ table. length table.items ≡ labels) }
    ensures places { IfOk result (λ table. IsTable (address lines.now layout.now) table.items) }
{
    let mut table = vec![in alloc; 0; labels as usize]?;
    let mut i = lines.len();
    while i > 0 {
        i -= 1;
        if let Line::Label(label) = lines[i] {
            table[label as usize] = layout[i].0;
        }
    }
    Ok(table)
}

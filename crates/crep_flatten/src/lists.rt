//! Lists from their ends.

ghost use Rattle.std.specs.Prelude.{◌≡◌, reverse, IfOk};

use pan_base::{List, NoMemory};
use std::alloc::Global;

/// Items from the last to the first, so that `pop` gives them in their order.
pub fn reversed<T: Drop>(alloc: Global, mut items: List<T>) -> Result<List<T>, NoMemory>
    ensures { IfOk result (λ all. all ≡ reverse items) }
{
    let mut all = List::new(alloc);
    while let Some(item) = items.pop() {
        all.push(item)?;
    }
    Ok(all)
}

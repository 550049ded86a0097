//! Programs that differ in their functions alone.

ghost use Rattle.std.specs.Prelude.{◌≡◌, IfOk};
ghost use Rattle.pan_stage.specs.Programs.{with_functions};

use crate::program::Program;
use pan_base::{Blob, List, NoMemory};
use std::alloc::Global;

/// A copy of names. `NoMemory` is the one error.
fn copied_names(alloc: Global, names: &[Blob]) -> Result<List<Blob>, NoMemory>
    ensures { IfOk result (λ copy. copy ≡ names.now) }
{
    let mut copy = List::new(alloc);
    for name in names {
        copy.push(Blob::from_slice(alloc, name.as_slice())?)?;
    }
    Ok(copy)
}

impl<F> Program<F> {
    /// The same program with these functions in the place of its own. `NoMemory` is the one error.
    pub fn with_functions<G: Drop>(
        &self,
        alloc: Global,
        functions: List<G>,
    ) -> Result<Program<G>, NoMemory>
        ensures { IfOk result (λ program. program ≡ with_functions self.now functions) }
    {
        Ok(Program {
            functions,
            main: self.main,
            exceptions: List::from_slice(alloc, self.exceptions.as_slice())?,
            names: copied_names(alloc, self.names.as_slice())?,
            globals: List::from_slice(alloc, self.globals.as_slice())?,
        })
    }
}

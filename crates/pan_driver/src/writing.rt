//! The image of the last stage.

ghost use Rattle.std.specs.Prelude.{◌≡◌, ◌≤◌, length, IfOk};
ghost use Rattle.pan_tree.specs.Check.{foreign_names};
ghost use Rattle.riscv_isa.specs.Image.{ImageOf};
ghost use Rattle.pan_driver.specs.Chained.{parts, AreChained};

use crate::built::Stages;
use image_file::write_image;
use pan_base::{Blob, List, NoMemory};
use pan_shapes::Checked;
use riscv_isa::Names;
use std::alloc::Global;

/// The foreign names of a checked program. `NoMemory` is the one error.
fn names_of(alloc: Global, checked: &Checked) -> Result<Names, NoMemory>
    requires { length (foreign_names checked.now) ≤ 1024 }
    ensures { IfOk result (λ names. names.list ≡ foreign_names checked.now) }
{
    let mut list = List::new(alloc);
    for i in 0..checked.name_count() {
        let name = checked.name(i);
        list.push(Blob::from_slice(alloc, name)?)?;
    }
    Ok(Names { list })
}

/// The image of the linked code, with the program's foreign names and its bound. `NoMemory` is the one error.
pub(crate) fn image_of(alloc: Global, stages: &Stages) -> Result<Blob, NoMemory>
    requires { AreChained stages.now }
    ensures { IfOk result (λ image. ImageOf image (parts stages.now)) }
{
    let names = names_of(alloc, &stages.checked)?;
    let image = write_image(alloc, &stages.code, &names, stages.bytes())?;
    Ok(image)
}

//! What the definitions refuse, on calls that do nothing.

ghost use Rattle.std.specs.Prelude.{ℕ, List, Option};
ghost use Rattle.riscv_isa.specs.Image.{ImageParts, ImageOf};
ghost use Rattle.pan_agree.specs.Faithful.{Faithful};
ghost use Rattle.pan_command.specs.Sample.{returns_seven, exits_at_once};

use image_file::one_image;

/// An image that exits with 0 at once isn't faithful to a program that returns 7, whatever it is read as.
pub fn refuses_a_wrong_image()
    ensures { (image : List ℕ) (bound : Option ℕ) (parts : ImageParts) → ImageOf image (exits_at_once bound) → ¬ Faithful returns_seven image parts }
{
    one_image();
}

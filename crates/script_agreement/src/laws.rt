//! Laws of runs under a script, on calls that do nothing.

ghost use Rattle.std.specs.Prelude.{◌≡◌, ◌≢◌, ℕ, ◌%◌, ◌≤◌, List, Ok};
ghost use Rattle.pan_base.specs.Events.{Replied, Fails};
ghost use Rattle.pan_base.specs.Lawful.{IsLawfulMemory, IsLawfulStack};
ghost use Rattle.pan_tree.specs.Meaning.{source};
ghost use Rattle.pan_tree.specs.declared.program.Program.{Program};
ghost use Rattle.riscv_isa.specs.Image.{ImageParts, ImageOf};
ghost use Rattle.riscv_isa.specs.Machine.{machine};
ghost use Rattle.pan_agree.specs.Faithful.{Faithful};
ghost use Rattle.device_script.specs.Script.{Content, script_of_file};
ghost use Rattle.device_script.specs.Memory.{filled};
ghost use Rattle.device_script.specs.Runs.{IsGiven};
ghost use Rattle.script_agreement.specs.Given.{Concur};

use image_file::one_image;
use pan_base::{prefixes, rows_of_bytes};
use pan_tree::source_takes_in_order;
use riscv_isa::machine_goes_on;

/// A script gives one list of replies: with so many units of fuel to a source, and with so many steps to a machine.
pub fn given_once()
    ensures of_source { (program : Program) (script : Content) (memory : List ℕ) (fuel : ℕ) (first second : List Replied)
        → IsGiven script ((source program memory first fuel).behaviour) first
        → IsGiven script ((source program memory second fuel).behaviour) second → first ≡ second }
    ensures of_machine { (parts : ImageParts) (script : Content) (memory : List ℕ) (stack steps : ℕ) (first second : List Replied)
        → IsGiven script (machine parts memory stack first steps) first
        → IsGiven script (machine parts memory stack second steps) second → first ≡ second }
{
    source_takes_in_order();
}

/// A script's file fills each local memory of a lawful length lawfully.
pub fn fills_lawful_memory()
    ensures { (file : List ℕ) (script : Content) (local : ℕ)
        → script_of_file file ≡ Ok script → local % 8 ≡ 0 → local ≤ 67108864 → IsLawfulMemory (filled script.pieces local) }
{
    rows_of_bytes();
}

/// Under one script, and on the memory that it fills, a source and an image that is faithful to it do the same as far as
/// both go, unless the source makes a failing step: each is given the replies that the script gives to its own requests.
pub fn agrees_under_script()
    ensures { (program : Program) (image : List ℕ) (parts others : ImageParts)
        → Faithful program image parts → ImageOf image others
        → (script : Content) (local stack : ℕ) → IsLawfulMemory (filled script.pieces local) → IsLawfulStack stack
        → (fuel steps : ℕ) (asked got : List Replied)
        → let meant = (source program (filled script.pieces local) asked fuel).behaviour in
        let ran = machine others (filled script.pieces local) stack got steps in
        IsGiven script meant asked → IsGiven script ran got → meant.ending ≢ Fails → Concur meant ran }
{
    prefixes();
    source_takes_in_order();
    machine_goes_on();
    one_image();
}

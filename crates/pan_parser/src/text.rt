//! Names as texts.

ghost use Rattle.std.specs.Prelude.{◌≡◌, IfOk, IsTrue};
ghost use Rattle.pan_base.specs.Names.{is_spelled};

use pan_base::{NoMemory, Text};
use std::alloc::Global;
use std::str;

/// The text of a name.
pub fn text(alloc: Global, name: &[u8]) -> Result<Text, NoMemory>
    requires { IsTrue (is_spelled name.now) }
    ensures { IfOk result (λ t. t ≡ name.now) }
{
    let Ok(name) = str::from_utf8(name) else {
        unreachable!()
    };
    Text::from_str(alloc, name)
}

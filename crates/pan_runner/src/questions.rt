//! What a runner asks.

ghost use Rattle.std.specs.Prelude.{◌≡◌};
ghost use Rattle.pan_control.specs.Memory.{is_shared};

use pan_base::Size;

/// A part of local memory: where it begins, and how many bytes it has.
#[derive(Clone, Copy)]
pub struct Buffer {
    pub at: usize,
    pub count: usize,
}

/// What is asked, and where the reply goes.
#[derive(Clone, Copy)]
pub enum Question<'a> {
    /// A load from the shared window to a variable, by its place.
    Load {
        size: Size,
        place: Option<usize>,
        addr: u64,
    },
    /// A store to the shared window.
    Store {
        size: Size,
        addr: u64,
        value: u64,
    },
    /// A foreign call, whose reply replaces the array.
    Foreign {
        number: u32,
        name: &'a [u8],
        conf: Buffer,
        array: Buffer,
    },
}

/// Whether an access lies wholly in the shared window, 0x40000000 to 0x7fffffff, at a multiple of its size.
pub fn is_shared(size: Size, addr: u64) -> bool
    ensures { result ≡ is_shared size addr }
{
    let count = size.bytes();
    addr >= 0x4000_0000 && addr <= 0x8000_0000 - count && addr % count == 0
}

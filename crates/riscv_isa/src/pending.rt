//! What a machine waits for.

use pan_base::{LOp, Size};

/// A part of local memory: so many bytes from an offset on.
#[derive(Clone, Copy, Debug, PartialEq, Eq)]
pub struct Buffer {
    pub at: u64,
    pub count: u64,
}

/// A request whose reply is to come.
#[derive(Clone, Copy, Debug, PartialEq, Eq)]
pub enum Pending {
    /// A load from the shared window, which extends the value that comes and puts it into the register `rd`.
    Load {
        op: LOp,
        rd: u8,
        addr: u64,
    },
    /// A store of the value's low bytes to the shared window.
    Store {
        size: Size,
        addr: u64,
        value: u64,
    },
    /// A call of the foreign function of this number, which reads `conf` and replaces the bytes of `array`.
    Foreign {
        number: u32,
        conf: Buffer,
        array: Buffer,
    },
}

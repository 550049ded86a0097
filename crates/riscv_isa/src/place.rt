//! Where an access of data goes.

/// A region of data memory.
#[derive(Clone, Copy, Debug, PartialEq, Eq)]
pub enum Region {
    /// 1,024 bytes through which calls pass words.
    Block,
    /// The globals, of which there are none.
    Globals,
    /// Local memory.
    Local,
    /// The stack.
    Stack,
}

/// Where an access of data goes.
#[derive(Clone, Copy, Debug, PartialEq, Eq)]
pub enum Place {
    /// To a region, this many bytes after its begin.
    In(Region, u64),
    /// To the shared window.
    Window,
    /// To no place that holds it.
    Nowhere,
}

//! Requests, replies and ends.

ghost use Rattle.std.specs.Prelude.{◌≡◌, ◌↔◌, ◌*◌, ◌%◌, ◌^◌, ◌<◌, IsTrue, []};
ghost use Rattle.pan_base.specs.Events.{asked, replied, Foreign, Bytes, fits, Fits, byte_count};

/// How many bytes an access has: 1, 2, 4 or 8.
#[derive(Clone, Copy, Debug, PartialEq, Eq)]
pub enum Size {
    B1,
    B2,
    B4,
    B8,
}

impl Size {
    /// How many bytes an access of the size has.
    pub fn bytes(self) -> u64
        ensures value { result ≡ byte_count self }
        ensures some { 0 < result }
    {
        match self {
            Size::B1 => 1,
            Size::B2 => 2,
            Size::B4 => 4,
            Size::B8 => 8,
        }
    }

    /// The value's low bytes, so many as the size has.
    pub fn cut(self, value: u64) -> u64
        ensures { result ≡ value % 2 ^ (8 * byte_count self) }
    {
        match self {
            Size::B1 => value % (1 << 8),
            Size::B2 => value % (1 << 16),
            Size::B4 => value % (1 << 32),
            Size::B8 => value,
        }
    }
}

/// What a program asks of a device.
#[derive(Clone, Copy)]
pub enum Request<'a> {
    /// The value of so many bytes at an address of the shared window.
    Load {
        size: Size,
        addr: u64,
    },
    /// That a value goes to an address of the shared window.
    Store {
        size: Size,
        addr: u64,
        value: u64,
    },
    /// That the foreign function of this number and name replaces the bytes of `array`.
    Foreign {
        number: u32,
        name: &'a [u8],
        conf: &'a [u8],
        array: &'a [u8],
    },
}

/// What a device replies.
#[derive(Clone, Copy)]
pub enum Reply<'a> {
    /// The value of a load.
    Value(u64),
    /// A store is done.
    Done,
    /// What replaces the array of a foreign call.
    Bytes(&'a [u8]),
    /// The run is to end here.
    Stop,
}

/// How a run ends, as it is told. The request that is open at `Stopped` and `Asks` isn't in it.
#[derive(Clone, Copy, Debug, PartialEq, Eq)]
pub enum End {
    /// Main returned this word.
    Exit(u64),
    /// The exception of this number left main.
    Uncaught(u64),
    /// A reply was `Stop`, or didn't fit its request.
    Stopped,
    /// No reply was left.
    Asks,
    /// No fuel, or no step, was left.
    Spent,
    /// The stack was too small.
    Stack,
    /// The machine met a fault.
    Fault,
    /// A step of the source failed.
    Fails,
}

fn value_fits(size: Size, n: u64) -> bool
    ensures { IsTrue result ↔ (n < 2 ^ (8 * byte_count size)) }
{
    match size {
        Size::B1 => n < 1 << 8,
        Size::B2 => n < 1 << 16,
        Size::B4 => n < 1 << 32,
        Size::B8 => true,
    }
}

fn bytes_fit(array: &[u8], bytes: &[u8]) -> bool
    ensures { result ≡ fits (Foreign 0 [] [] array.now) (Bytes bytes.now) }
{
    bytes.len() == array.len()
}

/// Whether a reply fits a request: a value of the size for a load, `Done` for a store, and as many bytes as the array
/// has for a foreign call.
pub fn fits(request: &Request<'_>, reply: &Reply<'_>) -> bool
    ensures { IsTrue result ↔ Fits (asked request.now) (replied reply.now) }
{
    match (*request, *reply) {
        (Request::Load { size, .. }, Reply::Value(n)) => value_fits(size, n),
        (Request::Store { .. }, Reply::Done) => true,
        (Request::Foreign { array, .. }, Reply::Bytes(bytes)) => bytes_fit(array, bytes),
        _ => false,
    }
}

//! Bytes that contracts see as a list.

ghost use Rattle.std.specs.Prelude.{◌≡◌, IfOk};

use crate::error::NoMemory;
use std::alloc::Global;
use std::marker::Model;

/// Bytes.
#[derive(Debug, Drop)]
pub struct Blob {
    bytes: Vec<u8>,
}

impl Model for Blob {
    ghost use Rattle.std.specs.Prelude.{List, ℕ};

    ghost Value = { List ℕ };

    ghost view = { λ b. b.bytes.items };
}

impl Blob {
    /// The blob of these bytes.
    pub fn from_vec(bytes: Vec<u8>) -> Blob
        ensures { result ≡ bytes.items }
    {
        Blob { bytes }
    }

    /// The blob of a copy of these bytes.
    pub fn from_slice(alloc: Global, bytes: &[u8]) -> Result<Blob, NoMemory>
        ensures { IfOk result (λ b. b ≡ bytes.now) }
    {
        let bytes = Vec::from_slice(alloc, bytes)?;
        Ok(Blob { bytes })
    }

    /// The bytes.
    pub fn as_slice(&self) -> &[u8]
        ensures { result.now ≡ self.now }
    {
        self.bytes.as_slice()
    }
}

//! Bytes over bytes.

ghost use Rattle.std.specs.Prelude.{◌≡◌, length};
ghost use Rattle.device_script.specs.Memory.{overwritten, filled};

use crate::line::Piece;

/// Puts the bytes over those of the memory from the offset on, as many as there is room for.
pub fn overwrite(memory: &mut [u8], offset: u64, bytes: &[u8])
    ensures { memory.new ≡ overwritten memory.old offset bytes.now }
{
    let start = (offset as usize).min(memory.len());
    let count = bytes.len().min(memory.len() - start);
    memory[start..start + count].copy_from_slice(&bytes[..count]);
}

/// Fills the memory with zeros, and then with the pieces in order.
pub fn fill(memory: &mut [u8], pieces: &[Piece])
    ensures { memory.new ≡ filled pieces.now (length memory.old) }
{
    memory.fill(0);
    for piece in pieces {
        overwrite(memory, piece.offset, piece.bytes.as_slice());
    }
}

//! The answer.

use pan_base::List;

/// How much stack a program takes.
#[derive(Drop)]
pub enum Bound {
    /// So many bytes suffice, whatever the program reads: the most that frames take on a path of calls.
    Bytes(u64),
    /// Functions that call each other in a circle: each calls the next, and the last the first, which has the least number.
    Cycle(List<u32>),
}

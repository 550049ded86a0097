//! What waits for a statement to be left.

ghost use Rattle.std.specs.Prelude.{◌≡◌, IfOk};

use crate::value::Value;
use pan_base::{List, NoMemory};
use pan_tree::copy_shape;
use source_resolver::{Block, Handler, HandlerOf, Target};
use std::alloc::Global;

/// What waits for a statement to be left.
#[derive(Drop)]
pub enum Waiting {
    /// A block, with the index of the statement that is next, and the number of variables that stay when it is left.
    Block {
        block: Block,
        next: usize,
        keep: usize,
    },
    /// A loop: the statement at an index of a block.
    Loop {
        block: Block,
        at: usize,
    },
    /// A call, with where its result goes, what catches its exception, and the caller's variables.
    Called {
        target: Target,
        handler: Option<Handler>,
        variables: List<Value>,
    },
}

/// The same target.
pub fn copy_target(alloc: Global, target: &Target) -> Result<Target, NoMemory>
    ensures { IfOk result (λ t. t ≡ target.now) }
{
    match target {
        Target::Nothing => Ok(Target::Nothing),
        Target::Old(place) => Ok(Target::Old(*place)),
        Target::New(shape) => Ok(Target::New(copy_shape(alloc, shape)?)),
    }
}

/// The same handler.
pub fn share_handler(handler: &Option<Handler>) -> Result<Option<Handler>, NoMemory>
    ensures { IfOk result (λ h. h ≡ handler.now) }
{
    match handler {
        None => Ok(None),
        Some(handler) => Ok(Some(HandlerOf {
            exception: handler.exception,
            body: handler.body.share()?,
        })),
    }
}

//! What runs and asks, what answers, and the two in one run.
#![tactic(auto)]

mod asker;
mod counts;
mod device;
mod driving;
mod replies;
mod stop_after;
#[cfg(test)]
mod tests;

pub use asker::{Advance, Asker, Pause};
pub use counts::Counts;
pub use device::{Answer, Device};
pub use driving::{DriveFault, drive};
pub use replies::{OwnReply, ReplyList};
pub use stop_after::StopAfter;

//! A device that answers a list of replies.

ghost use Rattle.std.specs.Prelude.{◌≡◌, drop, slice_get, option_copied};
ghost use Rattle.pan_port.specs.Device.{Counted, given, given_by_array};
ghost use Rattle.pan_port.specs.Replies.{access_given, call_given};

use crate::counts::Counts;
use crate::device::{Answer, Device};
use pan_base::{Blob, List, Size};
use std::marker::Model;

/// A reply, with its bytes.
#[derive(Debug, Drop)]
pub enum OwnReply {
    /// The value of a load.
    Value(u64),
    /// A store is done.
    Done,
    /// What replaces the array of a foreign call.
    Bytes(Blob),
    /// The run is to end here.
    Stop,
}

/// Answers its replies in order, and then `Quiet`.
///
/// `Bytes` at a load or a store, `Bytes` of another length than the array and `Done` at a foreign call are answered as
/// `Stop`. It takes no memory.
#[derive(Drop)]
pub struct ReplyList {
    replies: List<OwnReply>,
    next: usize,
    counts: Counts,
}

impl Model for ReplyList {
    ghost use Rattle.std.specs.Prelude.{◌≤◌, length, drop};
    ghost use Rattle.pan_port.specs.Replies.{ReplyListState};

    ghost Value = { ReplyListState };

    ghost view = { λ s. record {
      left = drop s.next s.replies;
      stops = s.counts.stops;
      silences = s.counts.silences;
    } };

    ghost invariant = { λ s. s.next ≤ length s.replies };
}

/// The answer to a load or a store.
fn access_answer(reply: Option<&OwnReply>) -> Answer
    ensures { given result ≡ access_given (option_copied reply.entry) }
{
    match reply {
        None => Answer::Quiet,
        Some(OwnReply::Value(value)) => Answer::Value(*value),
        Some(OwnReply::Done) => Answer::Done,
        Some(OwnReply::Bytes(_)) | Some(OwnReply::Stop) => Answer::Stop,
    }
}

/// The answer to a foreign call, whose bytes are written over the array.
fn call_answer(reply: Option<&OwnReply>, array: &mut [u8]) -> Answer
    ensures { given_by_array result array.new ≡ call_given (option_copied reply.entry) array.old }
{
    match reply {
        None => Answer::Quiet,
        Some(OwnReply::Value(value)) => Answer::Value(*value),
        Some(OwnReply::Bytes(bytes)) => write_over(array, bytes.as_slice()),
        Some(OwnReply::Done) | Some(OwnReply::Stop) => Answer::Stop,
    }
}

/// Writes the bytes over an array of their length, and answers `Stop` at any other.
fn write_over(array: &mut [u8], bytes: &[u8]) -> Answer
    ensures { given_by_array result array.new ≡ call_given (Some (OwnReply.Bytes bytes.now)) array.old }
{
    if bytes.len() != array.len() {
        return Answer::Stop;
    }
    array.copy_from_slice(bytes);
    Answer::Done
}

impl ReplyList {
    /// All of the replies are left, and nothing was answered yet.
    pub fn new(replies: List<OwnReply>) -> ReplyList
        ensures { result ≡ record { left = replies; stops = 0; silences = 0 } }
    {
        ReplyList {
            replies,
            next: 0,
            counts: Counts::new(),
        }
    }

    /// The next reply, if one is left.
    fn first(&self) -> Option<&OwnReply>
        ensures { option_copied result ≡ slice_get self.now.left 0 }
    {
        self.replies.get(self.next)
    }

    /// Goes on to the next reply, and counts this answer.
    fn go_on(&mut self, answer: Answer)
        ensures left { self.new.left ≡ drop 1 self.old.left }
        ensures counted { Counted answer self.old.stops self.new.stops self.old.silences self.new.silences }
    {
        self.next = self.next.saturating_add(1).min(self.replies.len());
        self.counts.count(answer);
    }
}

impl Device for ReplyList {
    ghost use Rattle.std.specs.Prelude.{◌≡◌, drop, slice_get};
    ghost use Rattle.pan_port.specs.Replies.{next_given};

    ghost gives = { λ s q g t. (g ≡ next_given q (slice_get s.left 0)) × (t.left ≡ drop 1 s.left) };

    ghost stops = { λ s. s.stops };

    ghost silences = { λ s. s.silences };

    fn load(&mut self, _size: Size, _addr: u64) -> Answer {
        let answer = access_answer(self.first());
        self.go_on(answer);
        answer
    }

    fn store(&mut self, _size: Size, _addr: u64, _value: u64) -> Answer {
        let answer = access_answer(self.first());
        self.go_on(answer);
        answer
    }

    fn foreign(&mut self, _name: &[u8], _conf: &[u8], array: &mut [u8]) -> Answer {
        let answer = call_answer(self.first(), array);
        self.go_on(answer);
        answer
    }
}

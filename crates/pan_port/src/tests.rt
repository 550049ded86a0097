//! What no contract says: that runs succeed, and the text of a run.

ghost use Rattle.std.specs.Prelude.{◌≡◌, ℕ};
ghost use Rattle.pan_base.specs.Events.{end_of};
ghost use Rattle.pan_port.specs.Writer.{ending};

use crate::{
    Advance, Answer, Asker, Device, DriveFault, OwnReply, Pause, ReplyList, StopAfter, drive,
};
use pan_base::{Blob, End, List, MemSink, NoMemory, Reply, Request, Size};
use std::alloc::Global;
use std::test::Fail;

/// Stores the numbers from `left` down to 1, and exits.
#[derive(Drop)]
struct Writer {
    pause: Pause,
    left: u64,
}

impl Writer {
    fn new(left: u64) -> Writer {
        Writer {
            pause: Pause::Spent,
            left,
        }
    }
}

fn end_told(end: End) -> End
    ensures { (n : ℕ) → end_of (ending end n) ≡ result }
{
    match end {
        End::Stopped => End::Stopped,
        _ => End::Exit(0),
    }
}

impl Asker for Writer {
    ghost use Rattle.pan_port.specs.Writer.{writer};

    ghost meaning = { λ s. writer s.pause s.left };

    fn advance(&mut self, budget: u64) -> Result<Advance, NoMemory> {
        match self.pause {
            Pause::Spent => {
                if budget == 0 {
                    return Ok(Advance {
                        used: 0,
                        pause: Pause::Spent,
                    });
                }
                if self.left == 0 {
                    self.pause = Pause::Ended(End::Exit(0));
                    return Ok(Advance {
                        used: 1,
                        pause: Pause::Ended(End::Exit(0)),
                    });
                }
                self.pause = Pause::Asks;
                Ok(Advance {
                    used: 1,
                    pause: Pause::Asks,
                })
            }
            Pause::Asks => Ok(Advance {
                used: 0,
                pause: Pause::Asks,
            }),
            Pause::Ended(end) => Ok(Advance {
                used: 0,
                pause: Pause::Ended(end_told(end)),
            }),
        }
    }

    fn request(&self) -> Option<Request<'_>> {
        match self.pause {
            Pause::Asks => Some(Request::Store {
                size: Size::B8,
                addr: 0x4000_0000,
                value: self.left,
            }),
            _ => None,
        }
    }

    fn answer(&mut self, reply: Reply<'_>) {
        match reply {
            Reply::Done => {
                self.pause = Pause::Spent;
                self.left = self.left.saturating_sub(1);
            }
            _ => self.pause = Pause::Ended(End::Stopped),
        }
    }

    fn local_size(&self) -> usize {
        0
    }
}

fn own_reply(alloc: Global, reply: Reply<'_>) -> Result<OwnReply, Fail> {
    Ok(match reply {
        Reply::Value(value) => OwnReply::Value(value),
        Reply::Done => OwnReply::Done,
        Reply::Bytes(bytes) => OwnReply::Bytes(Blob::from_slice(alloc, bytes)?),
        Reply::Stop => OwnReply::Stop,
    })
}

fn reply_list(alloc: Global, replies: &[Reply<'_>]) -> Result<ReplyList, Fail> {
    let mut list = List::new(alloc);
    for reply in replies {
        list.push(own_reply(alloc, *reply)?)?;
    }
    Ok(ReplyList::new(list))
}

const TWO: &str = "st64 0x0000000040000000 0x0000000000000002\n";

const BOTH: &str =
    "st64 0x0000000040000000 0x0000000000000002\nst64 0x0000000040000000 0x0000000000000001\n";

#[test]
fn runs_over_replies(rt: HostRuntime) -> Result<(), Fail> {
    let done = Reply::Done;
    let rows: [(&[Reply<'_>], u64, &[u64], Result<End, DriveFault>, &str); 8] = [
        (&[done, done], 3, &[], Ok(End::Exit(0)), BOTH),
        (&[done, done, done], 2, &[], Ok(End::Spent), BOTH),
        (&[done], 3, &[], Ok(End::Asks), TWO),
        (&[], 3, &[], Ok(End::Asks), ""),
        (&[Reply::Stop], 3, &[], Ok(End::Stopped), ""),
        (&[Reply::Value(5)], 3, &[], Ok(End::Stopped), ""),
        (&[done], 0, &[], Ok(End::Spent), ""),
        (&[done], 3, &[0], Err(DriveFault::WriteFault), ""),
    ];
    for (row, (replies, budget, failing, want, text)) in rows.into_iter().enumerate() {
        let mut device = reply_list(rt.alloc(), replies)?;
        let failing = List::from_slice(rt.alloc(), failing)?;
        let mut sink = MemSink::new(rt.alloc(), 1000, failing)?;
        let end = drive(&mut Writer::new(2), &mut device, &mut sink, &mut [], budget);
        assert_eq!(rt; end, want, "row {row}");
        assert_eq!(rt; sink.bytes(), text.as_bytes(), "row {row}");
    }
    Ok(())
}

#[test]
fn stops_after(rt: HostRuntime) -> Result<(), Fail> {
    for (after, want, text) in [
        (0, End::Stopped, ""),
        (1, End::Stopped, TWO),
        (2, End::Exit(0), BOTH),
    ] {
        let inner = reply_list(rt.alloc(), &[Reply::Done, Reply::Done])?;
        let mut device = StopAfter::new(inner, after);
        let mut sink = MemSink::new(rt.alloc(), 1000, List::new(rt.alloc()))?;
        let end = drive(&mut Writer::new(2), &mut device, &mut sink, &mut [], 3);
        assert_eq!(rt; end, Ok(want), "after {after}");
        assert_eq!(rt; sink.bytes(), text.as_bytes(), "after {after}");
    }
    Ok(())
}

#[test]
fn replies_of_each_kind(rt: HostRuntime) -> Result<(), Fail> {
    let stop = Answer::Stop;
    for (row, (reply, at_load, at_call, array)) in [
        (Reply::Value(7), Answer::Value(7), Answer::Value(7), b"ab"),
        (Reply::Done, Answer::Done, stop, b"ab"),
        (Reply::Bytes(b"cd"), stop, Answer::Done, b"cd"),
        (Reply::Bytes(b"c"), stop, stop, b"ab"),
        (Reply::Stop, stop, stop, b"ab"),
    ]
    .into_iter()
    .enumerate()
    {
        let mut device = reply_list(rt.alloc(), &[reply, reply])?;
        assert_eq!(rt; device.load(Size::B8, 0), at_load, "row {row}");
        let mut bytes = *b"ab";
        assert_eq!(rt; device.foreign(b"f", b"", &mut bytes), at_call, "row {row}");
        assert_eq!(rt; &bytes, array, "row {row}");
        assert_eq!(rt; device.store(Size::B8, 0, 1), Answer::Quiet, "row {row}");
    }
    Ok(())
}

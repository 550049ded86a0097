//! An asker, a device and a sink in one run.

ghost use Rattle.std.specs.Prelude.{◌≡◌, ◌≤◌, ℕ, length, IfOk, Err, IsSome, Some, ◌≢◌};
ghost use Rattle.pan_base.specs.Events.{Asked, asked, replied};
ghost use Rattle.pan_port.specs.Buffers.{BuffersFit};
ghost use Rattle.pan_port.specs.Device.{Counted, Gave, Silent};
ghost use Rattle.pan_port.specs.Drive.{Drove, Hungry, IsOneLine, Keeps, ServedSo, Unwritten, given_in};

use crate::asker::{Asker, Pause};
use crate::device::{Answer, Device};
use pan_base::{End, NoMemory, Reply, Request, Sink, fits, write_event};

/// Why a run failed.
#[derive(Clone, Copy, Debug, PartialEq, Eq)]
pub enum DriveFault {
    /// The sink failed at the line of an event.
    WriteFault,
    /// The asker found no memory.
    NoMemory,
}

/// How a request was served.
#[derive(Clone, Copy, Debug, PartialEq, Eq)]
enum Served {
    /// By a reply that fits.
    Replied,
    /// By `Stop` or another reply that doesn't fit.
    Stopped,
    /// Not at all.
    Silent,
    /// By a reply whose line could not be put.
    Unwritten,
}

/// Asks the device. The reply to a foreign call is then in the front of the room.
fn ask<D: Device>(device: &mut D, request: &Request<'_>, room: &mut [u8]) -> Answer
    requires { BuffersFit request.now (length room.old) }
    ensures step { D.gives device.old (asked request.now) (given_in request.now result room.new) device.new }
    ensures counts { Counted result (D.stops device.old) (D.stops device.new)
        (D.silences device.old) (D.silences device.new) }
    ensures one_line { IsOneLine (asked request.now) }
{
    match *request {
        Request::Load { size, addr } => device.load(size, addr),
        Request::Store { size, addr, value } => device.store(size, addr, value),
        Request::Foreign {
            name,
            conf,
            array,
            ..
        } => {
            let reply = &mut room[..array.len()];
            reply.copy_from_slice(array);
            device.foreign(name, conf, reply)
        }
    }
}

/// The reply of an answer that isn't `Quiet`.
fn reply_of<'x>(request: &Request<'_>, answer: Answer, room: &'x [u8]) -> Reply<'x>
    requires loud { given_in request.now answer room.now ≢ Silent }
    requires room { BuffersFit request.now (length room.now) }
    ensures { given_in request.now answer room.now ≡ Gave (replied result) }
{
    match answer {
        Answer::Value(value) => Reply::Value(value),
        Answer::Done => match *request {
            Request::Foreign { array, .. } => Reply::Bytes(&room[..array.len()]),
            _ => Reply::Done,
        },
        Answer::Stop => Reply::Stop,
        Answer::Quiet => unreachable!(),
    }
}

/// Lets the device answer what the asker asks, and puts the line of the event.
fn serve<A: Asker, D: Device, O: Sink>(
    asker: &mut A,
    device: &mut D,
    out: &mut O,
    room: &mut [u8],
) -> Served
    requires asks { IsSome (A.meaning asker.old).pending }
    requires room { (A.meaning asker.old).size ≤ length room.old }
    ensures served { (q : Asked) → (A.meaning asker.old).pending ≡ Some q →
        ServedSo D.gives D.stops D.silences (A.meaning asker.old) (A.meaning asker.new)
        device.old device.new (O.state out.old) (O.state out.new) q result }
    ensures keeps { Keeps D.stops D.silences (A.meaning asker.old) (A.meaning asker.new)
        device.old device.new (O.state out.old) (O.state out.new) }
{
    let request = match asker.request() {
        Some(request) => request,
        None => unreachable!(),
    };
    let answer = ask(device, &request, room);
    if answer == Answer::Quiet {
        return Served::Silent;
    }
    let reply = reply_of(&request, answer, room);
    if fits(&request, &reply) {
        if write_event(out, &request, &reply).is_err() {
            return Served::Unwritten;
        }
        asker.answer(reply);
        Served::Replied
    } else {
        asker.answer(reply);
        Served::Stopped
    }
}

/// Runs the asker over the device, and puts the line of each event. It ends where the asker does, where the device
/// answers `Stop`, a reply that doesn't fit or `Quiet`, and where the budget is used. The room, which must have as many
/// bytes as the asker's local memory, holds the replies to foreign calls. No memory is taken but by the asker.
///
/// At `WriteFault` the asker still asks the request whose line could not be put. `NoMemory` is the asker's.
pub fn drive<A: Asker, D: Device, O: Sink>(
    asker: &mut A,
    device: &mut D,
    out: &mut O,
    room: &mut [u8],
    budget: u64,
) -> Result<End, DriveFault>
    requires { (A.meaning asker.old).size ≤ length room.old }
    ensures ran { IfOk result (λ end. Drove D.gives D.stops D.silences
        (A.meaning asker.old) (A.meaning asker.new) device.old device.new (O.state out.old) (O.state out.new) budget end) }
    ensures write { result ≡ Err DriveFault.WriteFault → Unwritten D.gives
        (A.meaning asker.old) (A.meaning asker.new) device.old device.new (O.state out.old) (O.state out.new) budget }
    ensures memory { result ≡ Err DriveFault.NoMemory → Hungry D.gives
        (A.meaning asker.old) (A.meaning asker.new) device.old device.new (O.state out.old) (O.state out.new) budget }
    ensures keeps { Keeps D.stops D.silences (A.meaning asker.old) (A.meaning asker.new)
        device.old device.new (O.state out.old) (O.state out.new) }
{
    let mut left = budget;
    'turns: loop {
        let step = match asker.advance(left) {
            Ok(step) => step,
            Err(NoMemory) => return Err(DriveFault::NoMemory),
        };
        left -= step.used;
        match step.pause {
            Pause::Spent => return Ok(End::Spent),
            Pause::Ended(end) => return Ok(end),
            Pause::Asks => {}
        }
        match serve(asker, device, out, room) {
            Served::Replied => {}
            Served::Stopped => return Ok(End::Stopped),
            Served::Silent => return Ok(End::Asks),
            Served::Unwritten => return Err(DriveFault::WriteFault),
        }
    }
}

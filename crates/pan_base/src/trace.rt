//! The text of events and ends.

ghost use Rattle.std.specs.Prelude.{◌≡◌, ◌+◌, ◌≤◌, ◌∷◌, [], ◌++◌, length, OnOk};
ghost use Rattle.std.specs.List.{flat_map};
ghost use Rattle.pan_base.specs.Causes.{HasCause};
ghost use Rattle.pan_base.specs.Events.{asked, replied, Fits};
ghost use Rattle.pan_base.specs.Pieces.{piece_text, Passes};
ghost use Rattle.pan_base.specs.Sinks.{PutsAll};
ghost use Rattle.pan_base.specs.Tokens.{bits_text};
ghost use Rattle.pan_base.specs.Trace.{hex_text, buffer_text, word_text, call_line, event_line, end_line};

use crate::events::{End, Reply, Request, Size};
use crate::sinks::{Sink, SinkFault, put_all};
use std::marker::Model;

/// A byte as two hexadecimal digits in lower case.
fn byte_digits(byte: u8) -> [u8; 2]
    ensures { result ≡ hex_text (byte ∷ []) }
{
    let mut digits = [0; 2];
    match hex::encode_to_slice([byte], &mut digits) {
        Ok(()) => digits,
        Err(_) => unreachable!(),
    }
}

/// A word as `0x` and 16 hexadecimal digits in lower case.
#[tactic(auto, unfolding(crate::specs::Trace::word_text))]
fn word_digits(word: u64) -> [u8; 18]
    ensures { result ≡ word_text word }
{
    let mut digits = *b"0x0000000000000000";
    match hex::encode_to_slice(word.to_be_bytes(), &mut digits[2..]) {
        Ok(()) => digits,
        Err(_) => unreachable!(),
    }
}

/// The number of bits of an access.
fn bits_of(size: Size) -> &'static [u8]
    ensures { result.now ≡ bits_text size }
{
    match size {
        Size::B1 => b"8",
        Size::B2 => b"16",
        Size::B4 => b"32",
        Size::B8 => b"64",
    }
}

/// The room for a line without buffers, which fits in it.
const SHORT: usize = 64;

/// The room for a line with buffers: how many bytes of it are put at once.
const LONG: usize = 4096;

/// The end of a line that isn't put yet.
#[derive(Drop)]
struct Line<const ROOM: usize> {
    bytes: [u8; ROOM],
    count: usize,
}

impl<const ROOM: usize> Model for Line<ROOM> {
    ghost use Rattle.std.specs.Prelude.{ℕ, ◌≤◌, List, take};

    ghost Value = { List ℕ };

    ghost view = { λ line. take line.count line.bytes };

    ghost invariant = { λ line. (line.count ≤ ROOM) × (ROOM ≤ 4096) };
}

impl<const ROOM: usize> Line<ROOM> {
    /// No byte.
    fn new() -> Self
        requires { ROOM ≤ 4096 }
        ensures { result ≡ [] }
    {
        Line {
            bytes: [0; ROOM],
            count: 0,
        }
    }

    /// Puts what is held back.
    fn put<O: Sink>(&mut self, out: &mut O) -> Result<(), SinkFault>
        ensures took { PutsAll (O.state out.old) (O.state out.new) result self.old }
        ensures emptied { OnOk result (self.new ≡ []) }
        ensures cause { HasCause (O.state out.old).faults (O.state out.new).faults result }
    {
        put_all(out, &self.bytes[..self.count])?;
        self.count = 0;
        Ok(())
    }

    /// Goes on by some text, which is put where it is longer than the room for it.
    fn add<O: Sink>(&mut self, out: &mut O, text: &[u8]) -> Result<(), SinkFault>
        ensures took { Passes (O.state out.old) (O.state out.new) result self.old self.new text.now }
        ensures cause { HasCause (O.state out.old).faults (O.state out.new).faults result }
    {
        if text.len() <= ROOM - self.count {
            self.hold(text);
            return Ok(());
        }
        self.put(out)?;
        if text.len() <= ROOM {
            self.hold(text);
            Ok(())
        } else {
            put_all(out, text)
        }
    }

    /// Holds some text back.
    fn hold(&mut self, text: &[u8])
        requires { length self.old + length text.now ≤ ROOM }
        ensures { self.new ≡ self.old ++ text.now }
    {
        let from = self.count;
        let room = &mut self.bytes[..];
        room[from..from + text.len()].copy_from_slice(text);
        self.count = from + text.len();
    }

    /// Goes on by bytes as two hexadecimal digits each.
    fn add_hex<O: Sink>(&mut self, out: &mut O, bytes: &[u8]) -> Result<(), SinkFault>
        ensures took { Passes (O.state out.old) (O.state out.new) result self.old self.new (hex_text bytes.now) }
        ensures cause { HasCause (O.state out.old).faults (O.state out.new).faults result }
    {
        for byte in bytes {
            self.add(out, &byte_digits(*byte))?;
        }
        Ok(())
    }

    /// Goes on by a buffer in hexadecimal, and by `-` where it is empty.
    fn add_buffer<O: Sink>(&mut self, out: &mut O, bytes: &[u8]) -> Result<(), SinkFault>
        ensures took { Passes (O.state out.old) (O.state out.new) result self.old self.new (buffer_text bytes.now) }
        ensures cause { HasCause (O.state out.old).faults (O.state out.new).faults result }
    {
        if bytes.is_empty() {
            self.add(out, b"-")
        } else {
            self.add_hex(out, bytes)
        }
    }

    /// Goes on by a part of the line.
    fn add_piece<O: Sink>(&mut self, out: &mut O, piece: Piece<'_>) -> Result<(), SinkFault>
        ensures took { Passes (O.state out.old) (O.state out.new) result self.old self.new (piece_text piece.entry) }
        ensures cause { HasCause (O.state out.old).faults (O.state out.new).faults result }
    {
        match piece {
            Piece::Text(text) => self.add(out, text),
            Piece::Bits(size) => self.add(out, bits_of(size)),
            Piece::Word(word) => self.add(out, &word_digits(word)),
            Piece::Buffer(bytes) => self.add_buffer(out, bytes),
        }
    }
}

/// A part of a line.
#[derive(Clone, Copy)]
enum Piece<'a> {
    /// This text.
    Text(&'a [u8]),
    /// The number of bits of an access.
    Bits(Size),
    /// A word in hexadecimal.
    Word(u64),
    /// A buffer in hexadecimal, `-` where it is empty.
    Buffer(&'a [u8]),
}

/// Puts the parts one after another, at once where they are no longer than the room.
fn put_pieces<const ROOM: usize, O: Sink>(
    out: &mut O,
    pieces: &[Piece<'_>],
) -> Result<(), SinkFault>
    requires { ROOM ≤ 4096 }
    ensures took { PutsAll (O.state out.old) (O.state out.new) result (flat_map piece_text pieces.now) }
    ensures cause { HasCause (O.state out.old).faults (O.state out.new).faults result }
{
    let mut line = Line::<ROOM>::new();
    for piece in pieces {
        line.add_piece(out, *piece)?;
    }
    line.put(out)
}

/// Puts the line of a foreign call.
fn put_call<'x, O: Sink>(
    out: &mut O,
    name: &'x [u8],
    conf: &'x [u8],
    array: &'x [u8],
    reply: &'x [u8],
) -> Result<(), SinkFault>
    ensures took { PutsAll (O.state out.old) (O.state out.new) result (call_line name.now conf.now array.now reply.now) }
    ensures cause { HasCause (O.state out.old).faults (O.state out.new).faults result }
{
    put_pieces::<LONG, O>(
        out,
        &[
            Piece::Text(b"call "),
            Piece::Text(name),
            Piece::Text(b" "),
            Piece::Buffer(conf),
            Piece::Text(b" "),
            Piece::Buffer(array),
            Piece::Text(b" "),
            Piece::Buffer(reply),
            Piece::Text(b"\n"),
        ],
    )
}

/// Puts the line of an event, a request and the reply that fits it: as `ld8 ADDR VALUE`, `st64 ADDR VALUE` and
/// `call NAME CONF ARRAY REPLY`, the numbers in hexadecimal. It takes no memory. At a fault of the sink a prefix of
/// the line was put.
#[tactic(auto, unfolding(crate::specs::Trace::event_line))]
pub fn write_event<O: Sink>(
    out: &mut O,
    request: &Request<'_>,
    reply: &Reply<'_>,
) -> Result<(), SinkFault>
    requires { Fits (asked request.now) (replied reply.now) }
    ensures took { PutsAll (O.state out.old) (O.state out.new) result (event_line (asked request.now) (replied reply.now)) }
    ensures cause { HasCause (O.state out.old).faults (O.state out.new).faults result }
{
    match (*request, *reply) {
        (Request::Load { size, addr }, Reply::Value(value)) => put_pieces::<SHORT, O>(
            out,
            &[
                Piece::Text(b"ld"),
                Piece::Bits(size),
                Piece::Text(b" "),
                Piece::Word(addr),
                Piece::Text(b" "),
                Piece::Word(value),
                Piece::Text(b"\n"),
            ],
        ),
        (Request::Store { size, addr, value }, Reply::Done) => put_pieces::<SHORT, O>(
            out,
            &[
                Piece::Text(b"st"),
                Piece::Bits(size),
                Piece::Text(b" "),
                Piece::Word(addr),
                Piece::Text(b" "),
                Piece::Word(value),
                Piece::Text(b"\n"),
            ],
        ),
        (
            Request::Foreign {
                name,
                conf,
                array,
                ..
            },
            Reply::Bytes(bytes),
        ) => put_call(out, name, conf, array, bytes),
        _ => unreachable!(),
    }
}

/// Puts the line of an end: its name in small letters, with the word of `exit` and the number of `uncaught` in
/// hexadecimal. It takes no memory. At a fault of the sink a prefix of the line was put.
pub fn write_end<O: Sink>(out: &mut O, end: End) -> Result<(), SinkFault>
    ensures took { PutsAll (O.state out.old) (O.state out.new) result (end_line end) }
    ensures cause { HasCause (O.state out.old).faults (O.state out.new).faults result }
{
    match end {
        End::Exit(value) => put_pieces::<SHORT, O>(
            out,
            &[
                Piece::Text(b"exit "),
                Piece::Word(value),
                Piece::Text(b"\n"),
            ],
        ),
        End::Uncaught(number) => put_pieces::<SHORT, O>(
            out,
            &[
                Piece::Text(b"uncaught "),
                Piece::Word(number),
                Piece::Text(b"\n"),
            ],
        ),
        End::Stopped => put_all(out, b"stopped\n"),
        End::Asks => put_all(out, b"asks\n"),
        End::Spent => put_all(out, b"spent\n"),
        End::Stack => put_all(out, b"stack\n"),
        End::Fault => put_all(out, b"fault\n"),
        End::Fails => put_all(out, b"fails\n"),
    }
}

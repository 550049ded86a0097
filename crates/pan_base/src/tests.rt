//! What no contract says: values from outside, and that calls succeed.

use crate::{
    BinOp, Blob, Cmp, End, Failing, FileError, LineCount, List, MemFiles, MemSink, RealFiles,
    RealOut, Reply, Request, ShOp, Sink, SinkFault, Size, Text, Workspace, fits, put_all,
    write_end, write_event,
};
use std::alloc::Global;
use std::fs::{self, File};
use std::io::{self, Write};
use std::test::Fail;

const HIGH: u64 = 0x8000_0000_0000_0000;

#[test]
fn operators(rt: HostRuntime) {
    for (op, a, b, want) in [
        (BinOp::Mul, u64::MAX, u64::MAX, 1),
        (BinOp::Sub, 0, 1, u64::MAX),
    ] {
        assert_eq!(rt; op.apply(a, b), want, "{op:?} of {a} and {b}");
    }
    for (op, a, amount, want) in [
        (ShOp::Sar, HIGH, 63, u64::MAX),
        (ShOp::Shr, HIGH, 63, 1),
        (ShOp::Shl, 5, 0, 5),
        (ShOp::Ror, 1, 1, HIGH),
    ] {
        assert!(rt; amount < 64);
        assert_eq!(rt; op.apply(a, amount), want, "{op:?} of {a} by {amount}");
    }
    for (cmp, a, b, want) in [
        (Cmp::Lt, HIGH, 0, true),
        (Cmp::Ltu, HIGH, 0, false),
        (Cmp::Geu, HIGH, 0, true),
    ] {
        assert_eq!(rt; cmp.holds(a, b), want, "{cmp:?} of {a} and {b}");
    }
}

#[test]
fn replies_that_fit(rt: HostRuntime) {
    let load = Request::Load {
        size: Size::B1,
        addr: 0,
    };
    let store = Request::Store {
        size: Size::B8,
        addr: 0,
        value: 1,
    };
    let foreign = Request::Foreign {
        number: 0,
        name: b"f",
        conf: b"",
        array: b"ab",
    };
    for (row, (request, reply, want)) in [
        (load, Reply::Value(255), true),
        (load, Reply::Value(256), false),
        (load, Reply::Done, false),
        (load, Reply::Stop, false),
        (store, Reply::Done, true),
        (store, Reply::Value(1), false),
        (store, Reply::Stop, false),
        (foreign, Reply::Bytes(b"cd"), true),
        (foreign, Reply::Bytes(b"c"), false),
        (foreign, Reply::Stop, false),
    ]
    .into_iter()
    .enumerate()
    {
        assert_eq!(rt; fits(&request, &reply), want, "row {row}");
    }
}

#[test]
fn puts_into_memory(rt: HostRuntime) -> Result<(), Fail> {
    for (room, failing, first, second, want) in [
        (5, 2, Ok(()), Ok(()), "abcde"),
        (5, 0, Err(SinkFault), Ok(()), "de"),
        (5, 1, Ok(()), Err(SinkFault), "abc"),
        (3, 2, Ok(()), Err(SinkFault), "abc"),
        (2, 2, Err(SinkFault), Ok(()), "de"),
    ] {
        let failing = List::from_slice(rt.alloc(), &[failing])?;
        let mut sink = MemSink::new(rt.alloc(), room, failing)?;
        assert_eq!(rt; put_all(&mut sink, b"abc"), first, "{want}");
        assert_eq!(rt; put_all(&mut sink, b"de"), second, "{want}");
        assert_eq!(rt; sink.bytes(), want.as_bytes());
    }
    Ok(())
}

#[test]
fn lines(rt: HostRuntime) -> Result<(), Fail> {
    let mut count = LineCount::new();
    put_all(&mut count, b"a\nb\n")?;
    assert_eq!(rt; count.lines(), 2);
    Ok(())
}

/// A call that has nothing but an array.
fn called(array: &[u8]) -> Request<'_> {
    Request::Foreign {
        number: 0,
        name: b"f",
        conf: b"",
        array,
    }
}

/// The line of an event, put into memory.
fn event_text(alloc: Global, request: Request<'_>, reply: Reply<'_>) -> Result<MemSink, Fail> {
    let mut sink = MemSink::new(alloc, 100, List::new(alloc))?;
    if fits(&request, &reply) {
        write_event(&mut sink, &request, &reply)?;
    }
    Ok(sink)
}

#[test]
fn lines_of_events(rt: HostRuntime) -> Result<(), Fail> {
    let addr = 0x4000_0000;
    let load = Request::Load {
        size: Size::B1,
        addr,
    };
    let store = Request::Store {
        size: Size::B8,
        addr,
        value: 5,
    };
    let swap = Request::Foreign {
        number: 0,
        name: b"swap",
        conf: &[1, 2, 3, 4],
        array: &[3, 4, 5, 6],
    };
    let empty = Request::Foreign {
        number: 0,
        name: b"swap",
        conf: b"",
        array: b"",
    };
    for (request, reply, want) in [
        (
            load,
            Reply::Value(1),
            "ld8 0x0000000040000000 0x0000000000000001\n",
        ),
        (
            store,
            Reply::Done,
            "st64 0x0000000040000000 0x0000000000000005\n",
        ),
        (
            swap,
            Reply::Bytes(&[1, 2, 3, 4]),
            "call swap 01020304 03040506 01020304\n",
        ),
        (empty, Reply::Bytes(b""), "call swap - - -\n"),
    ] {
        let sink = event_text(rt.alloc(), request, reply)?;
        assert_eq!(rt; sink.bytes(), want.as_bytes(), "{want}");
    }
    Ok(())
}

#[test]
fn puts_of_lines(rt: HostRuntime) -> Result<(), Fail> {
    let load = Request::Load {
        size: Size::B8,
        addr: 0x4000_0000,
    };
    let (short, long) = ([7; 10], [7; 3000]);
    for (row, (request, reply, failing, want)) in [
        (load, Reply::Value(0), 0, Err(SinkFault)),
        (load, Reply::Value(0), 1, Ok(())),
        (called(&short), Reply::Bytes(&short), 1, Ok(())),
        (called(&long), Reply::Bytes(&long), 2, Err(SinkFault)),
        (called(&long), Reply::Bytes(&long), 3, Ok(())),
    ]
    .into_iter()
    .enumerate()
    {
        let failing = List::from_slice(rt.alloc(), &[failing])?;
        let mut sink = MemSink::new(rt.alloc(), 20_000, failing)?;
        assert!(rt; fits(&request, &reply));
        assert_eq!(rt; write_event(&mut sink, &request, &reply), want, "row {row}");
    }
    Ok(())
}

#[test]
fn lines_of_ends(rt: HostRuntime) -> Result<(), Fail> {
    for (end, want) in [
        (End::Exit(u64::MAX), "exit 0xffffffffffffffff\n"),
        (End::Uncaught(1), "uncaught 0x0000000000000001\n"),
        (End::Stopped, "stopped\n"),
        (End::Asks, "asks\n"),
        (End::Spent, "spent\n"),
        (End::Stack, "stack\n"),
        (End::Fault, "fault\n"),
        (End::Fails, "fails\n"),
    ] {
        let mut sink = MemSink::new(rt.alloc(), 100, List::new(rt.alloc()))?;
        write_end(&mut sink, end)?;
        assert_eq!(rt; sink.bytes(), want.as_bytes(), "{end:?}");
    }
    Ok(())
}

fn one_file(alloc: Global) -> Result<List<(Text, Blob)>, Fail> {
    let mut files = List::new(alloc);
    files.push((
        Text::from_str(alloc, "a")?,
        Blob::from_slice(alloc, b"old")?,
    ))?;
    Ok(files)
}

/// One call: a write where there is something to write.
fn call(
    alloc: Global,
    files: &mut MemFiles,
    name: &str,
    text: Option<&str>,
) -> Result<(), FileError> {
    match text {
        Some(text) => files.write(alloc, name, text.as_bytes()),
        None => files.read(alloc, name).map(|_| ()),
    }
}

fn bytes_of(read: &Result<Blob, FileError>) -> Result<&[u8], FileError> {
    match read {
        Ok(blob) => Ok(blob.as_slice()),
        Err(error) => Err(*error),
    }
}

#[test]
fn files_in_memory(rt: HostRuntime) -> Result<(), Fail> {
    let (missing, fault) = (FileError::Missing, FileError::Fault);
    let fails = |keep| Some(Failing { call: 0, keep });
    for (name, text, failing, want, left) in [
        ("a", None, None, Ok(()), Ok("old")),
        ("b", None, None, Err(missing), Err(missing)),
        ("a", None, fails(None), Err(fault), Ok("old")),
        ("a", Some("new"), None, Ok(()), Ok("new")),
        ("b", Some("new"), None, Ok(()), Ok("new")),
        ("a", Some("new"), fails(None), Err(fault), Ok("old")),
        ("a", Some("new"), fails(Some(1)), Err(fault), Ok("n")),
        ("a", Some("new"), fails(Some(9)), Err(fault), Ok("new")),
        ("b", Some("new"), fails(None), Err(fault), Err(missing)),
    ] {
        let mut failures = List::new(rt.alloc());
        if let Some(failing) = failing {
            failures.push(failing)?;
        }
        let mut files = MemFiles::new(rt.alloc(), one_file(rt.alloc())?, failures)?;
        assert_eq!(rt;
            call(rt.alloc(), &mut files, name, text),
            want,
            "{name} {text:?}"
        );
        let after = files.read(rt.alloc(), name);
        assert_eq!(rt;
            bytes_of(&after),
            left.map(|text| text.as_bytes()),
            "{name} {text:?}"
        );
    }
    Ok(())
}

/// Takes a byte of each piece but the first two: one it refuses, and one it takes nothing of.
#[derive(Drop)]
struct Broken(u8);

impl Write for Broken {
    fn write(&mut self, piece: &[u8]) -> io::Result<usize> {
        self.0 = self.0.saturating_add(1);
        match self.0 {
            1 => Err(io::Error::from(io::ErrorKind::Other)),
            2 => Ok(0),
            _ => Ok(piece.len().min(1)),
        }
    }

    fn flush(&mut self) -> io::Result<()> {
        Ok(())
    }
}

#[test]
fn real_out(rt: HostRuntime) {
    let mut out = RealOut::new(Broken(0));
    for want in [Err(SinkFault), Err(SinkFault), Ok(1)] {
        assert_eq!(rt; out.put(b"ab"), want);
    }
    assert_eq!(rt; out.put(b""), Ok(0));
}

#[test]
fn real_files(rt: HostRuntime) -> Result<(), Fail> {
    let name = "pan_base_real_files.tmp";
    let mut files = RealFiles::new(&rt);
    files.write(rt.alloc(), name, b"some bytes")?;
    assert_eq!(rt;
        files.read(rt.alloc(), name)?.as_slice(),
        b"some bytes".as_slice()
    );

    let mut out = RealOut::new(File::create(&rt, name)?);
    put_all(&mut out, b"a line\n")?;
    assert_eq!(rt;
        files.read(rt.alloc(), name)?.as_slice(),
        b"a line\n".as_slice()
    );

    fs::remove_file(&rt, name)?;
    assert_eq!(rt;
        files.read(rt.alloc(), name).err(),
        Some(FileError::Missing)
    );

    // Files of Linux: one has no end, and one takes nothing.
    assert_eq!(rt;
        files.read(rt.alloc(), "/dev/zero").err(),
        Some(FileError::Fault)
    );
    assert_eq!(rt;
        files.write(rt.alloc(), "/dev/full", b"x"),
        Err(FileError::Fault)
    );
    Ok(())
}

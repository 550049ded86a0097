//! What a checked program tells, and runs over lists of replies.

use front_end::read_program;
use image_file::read_image;
use pan_base::{End, List, MemSink, Request, Size};
use pan_port::{Asker, Device, OwnReply, ReplyList, StopAfter, drive};
use pan_runner::Runner;
use riscv_machine::Machine;
use std::alloc::Global;
use std::process::Abort;
use std::test::Fail;

/// Local memory.
const MEMORY: [u8; 8] = [0, 0, 0, 0, 0, 0, 0, 0];

const CALLER: &str = "exception E 2;
    fun f(2 p) { @print(p.0, 1, 2, 3); raise E p; }
    fun main() { var x = f(<1, 2>) handle E e { return e.0; }; @put(x, 1, 2, 3); return x; }";

#[test]
fn tells_weights_and_names(rt: HostRuntime) -> Result<(), Fail> {
    let checked = read_program(rt.alloc(), CALLER.as_bytes())?;
    assert!(rt; checked.program().functions.len() == 2);
    assert_eq!(rt; checked.main(), 1);
    assert_eq!(rt; (checked.weight_of(0), checked.cost_of(0)), (29, 528));
    assert_eq!(rt; (checked.weight_of(1), checked.cost_of(1)), (51, 880));
    assert_eq!(rt; checked.weight(), 80);
    assert!(rt; checked.name_count() == 2);
    assert_eq!(rt; checked.name(0), b"print".as_slice());
    assert_eq!(rt; checked.name(1), b"put".as_slice());
    Ok(())
}

/// A source that stores to the window, and then to where nothing is.
const STORES: &str = "fun main() { !st64 0x40000000, 5; st 0, 1; return 0; }";

/// An image that does so: `lui t0, 0x40000; addi t1, x0, 5; sd t1, 0(t0); sd t1, 0(x0); ecall`.
const STORES_IMAGE: [u8; 52] = [
    b'P', b'N', b'K', b'1', 20, 0, 0, 0, 0, 0, 0, 0, 0, 0, 0, 0, 0xff, 0xff, 0xff, 0xff, 0xff,
    0xff, 0xff, 0xff, 0, 0, 0, 0, 0, 0, 0, 0, 0xb7, 0x02, 0x00, 0x40, 0x13, 0x03, 0x50, 0x00, 0x23,
    0xb0, 0x62, 0x00, 0x23, 0x30, 0x60, 0x00, 0x73, 0x00, 0x00, 0x00,
];

/// The asker meets this end over the device, with no line, and has the store of 5 before it.
fn stops_at_the_store<A: Asker, D: Device>(
    rt: &impl Abort,
    alloc: Global,
    asker: &mut A,
    device: &mut D,
    end: End,
) -> Result<(), Fail> {
    let mut out = MemSink::new(alloc, 100, List::new(alloc))?;
    let mut room = MEMORY;
    assert!(rt; asker.local_size() <= room.len());
    assert_eq!(rt; drive(asker, device, &mut out, &mut room, 1000)?, end);
    assert!(rt; out.bytes().is_empty());
    Ok(())
}

/// Whether the request is the store of 5.
fn is_store(request: Option<Request<'_>>) -> bool {
    matches!(
        request,
        Some(Request::Store {
            size: Size::B8,
            addr: 0x4000_0000,
            value: 5
        })
    )
}

/// A step that would fail after a request that isn't answered isn't reached.
#[test]
fn asks_before_it_fails(rt: HostRuntime) -> Result<(), Fail> {
    let alloc = rt.alloc();
    let mut none = ReplyList::new(List::new(alloc));
    let program = read_program(alloc, STORES.as_bytes())?;
    let mut runner = Runner::new(alloc, &program, &MEMORY)?;
    stops_at_the_store(&rt, alloc, &mut runner, &mut none, End::Asks)?;
    assert!(rt; is_store(runner.request()));
    let image = read_image(alloc, &STORES_IMAGE)?;
    let mut machine = Machine::boot(alloc, image, &MEMORY, 16)?;
    stops_at_the_store(&rt, alloc, &mut machine, &mut none, End::Asks)?;
    assert!(rt; is_store(machine.request()));
    Ok(())
}

#[test]
fn stops_after_none(rt: HostRuntime) -> Result<(), Fail> {
    let alloc = rt.alloc();
    let mut replies = List::new(alloc);
    replies.push(OwnReply::Done)?;
    let mut device = StopAfter::new(ReplyList::new(replies), 0);
    let program = read_program(alloc, STORES.as_bytes())?;
    let mut runner = Runner::new(alloc, &program, &MEMORY)?;
    stops_at_the_store(&rt, alloc, &mut runner, &mut device, End::Stopped)?;
    Ok(())
}

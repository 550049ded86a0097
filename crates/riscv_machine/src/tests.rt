//! A known program, and what the machine does with it.

use crate::machine::Machine;
use image_file::{Image, read_image};
use pan_base::{End, Reply, Request, Size};
use pan_port::{Advance, Asker, Pause};
use std::alloc::Global;
use std::test::Fail;

/// LUI x5, 0x40000; ADDI x5, x5, 0; ADDI x6, x0, 5; SD x6, 0(x5); ADDI x11, x0, 7; ADDI x10, x0, 0; ADDI x17, x0, 0;
/// ECALL.
const STORES_5: [u32; 8] = [
    0x4000_02b7,
    0x0002_8293,
    0x0050_0313,
    0x0062_b023,
    0x0070_0593,
    0x0000_0513,
    0x0000_0893,
    0x0000_0073,
];

/// The local memory of the machines here.
const MEMORY: [u8; 16] = [9, 8, 7, 6, 5, 4, 3, 2, 1, 1, 1, 1, 0, 0, 0, 0];

/// The image of this code, of at most 63 words, with the name `f` and no bound.
fn image_of(alloc: Global, code: &[u32]) -> Result<Image, Fail> {
    let mut bytes = Vec::from_slice(alloc, b"PNK1")?;
    bytes.push(u8::try_from(code.len())?.saturating_mul(4))?;
    bytes.extend_from_slice(&[0, 0, 0, 0, 0, 0, 0, 1, 0, 0, 0])?;
    bytes.extend_from_slice(&[255; 8])?;
    bytes.extend_from_slice(&[3, 0, 0, 0, 0, 0, 0, 0, 1, 0, b'f', 0])?;
    for word in code {
        bytes.extend_from_slice(&word.to_le_bytes())?;
    }
    Ok(read_image(alloc, &bytes)?)
}

/// A machine with this code and 16 bytes of stack.
fn machine_of(alloc: Global, code: &[u32]) -> Result<Machine, Fail> {
    Ok(Machine::boot(alloc, image_of(alloc, code)?, &MEMORY, 16)?)
}

#[test]
fn asks_and_goes_on(rt: HostRuntime) -> Result<(), Fail> {
    let mut machine = machine_of(rt.alloc(), &STORES_5)?;
    let asks = Advance {
        used: 4,
        pause: Pause::Asks,
    };
    assert_eq!(rt; machine.advance(10)?, asks);
    match machine.request() {
        Some(Request::Store { size, addr, value }) => {
            assert_eq!(rt; (size, addr, value), (Size::B8, 0x4000_0000, 5));
        }
        _ => assert!(rt; false),
    }
    machine.answer(Reply::Done);
    let ends = Advance {
        used: 4,
        pause: Pause::Ended(End::Exit(7)),
    };
    assert_eq!(rt; machine.advance(10)?, ends);
    assert_eq!(rt;
        (machine.pc(), machine.register(5)),
        (0x1_0000_001c, 0x4000_0000)
    );
    Ok(())
}

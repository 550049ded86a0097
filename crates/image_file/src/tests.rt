//! A known image, and each of its prefixes.

use crate::{ImageError, read_image, read_written, write_image};
use pan_base::{Blob, List};
use riscv_isa::{Code, Names};
use std::alloc::Global;
use std::test::Fail;

/// `ecall`, with no names and no bound.
const SMALL: [u8; 36] = [
    0x50, 0x4e, 0x4b, 0x31, 4, 0, 0, 0, 0, 0, 0, 0, 0, 0, 0, 0, 0xff, 0xff, 0xff, 0xff, 0xff, 0xff,
    0xff, 0xff, 0, 0, 0, 0, 0, 0, 0, 0, 0x73, 0, 0, 0,
];

/// The error that reading these bytes gives, if it gives one.
fn error_of(alloc: Global, bytes: &[u8]) -> Option<ImageError> {
    read_image(alloc, bytes).err()
}

#[test]
fn small(rt: HostRuntime) -> Result<(), Fail> {
    let image = read_image(rt.alloc(), &SMALL)?;
    assert_eq!(rt; image.code(), [0x73, 0, 0, 0].as_slice());
    assert_eq!(rt; image.name_count(), 0);
    assert_eq!(rt; image.bound(), None);
    for n in 0..SMALL.len() {
        assert_eq!(rt;
            error_of(rt.alloc(), &SMALL[..n]),
            Some(ImageError::Short),
            "{n} bytes"
        );
    }
    Ok(())
}

#[test]
fn written(rt: HostRuntime) -> Result<(), Fail> {
    let code = Code {
        bytes: Blob::from_slice(rt.alloc(), &[0x73, 0, 0, 0])?,
        layout: List::new(rt.alloc()),
    };
    let names = Names {
        list: List::new(rt.alloc()),
    };
    let image = write_image(rt.alloc(), &code, &names, None)?;
    assert_eq!(rt; image.as_slice(), SMALL.as_slice());

    let mut list = List::new(rt.alloc());
    list.push(Blob::from_slice(rt.alloc(), b"swap")?)?;
    let names = Names { list };
    let image = read_written(rt.alloc(), &code, &names, Some(1 << 40))?;
    assert_eq!(rt; image.bound(), Some(1 << 40));
    Ok(())
}

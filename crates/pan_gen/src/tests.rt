//! Sources of known texts.

use crate::generate;
use std::test::Fail;

/// The source of three functions.
const OF_ONE: &str = "fun f0(1 x) { !st64 0x40000000, x; return x + 1; }
fun f1(1 x) { var y = f0(x * 3 + 1); !st64 0x40000000, y; return y ^ 1; }
fun main() { var r = f1(1); return r; }
";

/// The source of four functions.
const OF_TWO: &str = "fun f0(1 x) { !st64 0x40000000, x; return x + 1; }
fun f1(1 x) { var y = f0(x * 3 + 1); !st64 0x40000000, y; return y ^ 1; }
fun f2(1 x) { var y = f1(x * 3 + 2); !st64 0x40000000, y; return y ^ 2; }
fun main() { var r = f2(2); return r; }
";

/// The last lines of the largest source.
const END_OF_LARGEST: &str = "
fun f1000(1 x) { var y = f999(x * 3 + 1000); !st64 0x40000000, y; return y ^ 1000; }
fun main() { var r = f1000(1000); return r; }
";

/// The bytes of the largest source.
const BYTES_OF_LARGEST: usize = 81_666;

#[test]
fn small_sources(rt: HostRuntime) -> Result<(), Fail> {
    let alloc = rt.alloc();
    assert_eq!(rt; generate(alloc, 1)?.as_slice(), OF_ONE.as_bytes());
    assert_eq!(rt; generate(alloc, 2)?.as_slice(), OF_TWO.as_bytes());
    Ok(())
}

#[test]
fn largest_source(rt: HostRuntime) -> Result<(), Fail> {
    let alloc = rt.alloc();
    let text = generate(alloc, 1000)?;
    assert_eq!(rt; text.as_slice().len(), BYTES_OF_LARGEST);
    assert!(rt; text.as_slice().ends_with(END_OF_LARGEST.as_bytes()));
    Ok(())
}

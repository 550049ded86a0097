//! What devices answer by their scripts.

use crate::{Script, ScriptDevice, read_script};
use pan_base::Size;
use pan_port::{Answer, Device};
use std::alloc::Global;
use std::test::Fail;

/// The script of a text.
fn script_of(alloc: Global, text: &str) -> Result<Script, Fail> {
    let script = read_script(alloc, text.as_bytes()).map_err(Fail::from)?;
    Ok(script)
}

/// A load, or a store.
#[derive(Clone, Copy)]
enum Access {
    Load(Size, u64),
    Store(Size, u64, u64),
}

use Access::{Load, Store};

/// Lets the device answer it.
fn ask(device: &mut ScriptDevice, access: Access) -> Answer {
    match access {
        Load(size, addr) => device.load(size, addr),
        Store(size, addr, value) => device.store(size, addr, value),
    }
}

/// Where the window begins.
const AT: u64 = 0x4000_0000;

/// A load of the byte there.
const BYTE: Access = Load(Size::B1, AT);

/// A load of the word behind it.
const WORD: Access = Load(Size::B4, AT + 4);

/// Scripts, and what their devices answer in turn.
const EXCHANGES: [(&str, &[(Access, Answer)]); 8] = [
    (
        "",
        &[(BYTE, Answer::Stop), (Store(Size::B1, AT, 0), Answer::Stop)],
    ),
    (
        "register 8 0x40000000 7",
        &[
            (BYTE, Answer::Value(7)),
            (Store(Size::B1, AT, 300), Answer::Done),
            (BYTE, Answer::Value(300)),
            (Load(Size::B1, AT + 1), Answer::Stop),
            (Load(Size::B2, AT), Answer::Stop),
            (Store(Size::B8, AT, 1), Answer::Stop),
            (BYTE, Answer::Value(300)),
        ],
    ),
    (
        "queue 8 0x40000000 1 300",
        &[
            (BYTE, Answer::Value(1)),
            (Store(Size::B1, AT, 1), Answer::Stop),
            (BYTE, Answer::Value(300)),
            (BYTE, Answer::Quiet),
            (BYTE, Answer::Quiet),
        ],
    ),
    (
        "counter 8 0x40000000 254 1",
        &[
            (BYTE, Answer::Value(254)),
            (BYTE, Answer::Value(255)),
            (BYTE, Answer::Value(0)),
            (BYTE, Answer::Value(1)),
        ],
    ),
    (
        "counter 32 0x40000004 0xffffffff00000001 0xffffffffffffffff",
        &[
            (WORD, Answer::Value(1)),
            (WORD, Answer::Value(0)),
            (WORD, Answer::Value(0xffff_ffff)),
        ],
    ),
    (
        "collector 64 0x40000000 2",
        &[
            (Store(Size::B8, AT, 1), Answer::Done),
            (Store(Size::B8, AT, 0), Answer::Done),
            (Store(Size::B8, AT, 1), Answer::Stop),
            (Load(Size::B8, AT), Answer::Stop),
        ],
    ),
    (
        "collector 8 0x40000000 1\nqueue 8 0x40000000 5",
        &[
            (Store(Size::B1, AT, 1), Answer::Done),
            (BYTE, Answer::Value(5)),
            (Store(Size::B1, AT, 1), Answer::Stop),
            (BYTE, Answer::Quiet),
        ],
    ),
    (
        "queue 32 0x40000004 0 1 1\nqueue 8 0x40000000 104 101 121 33\nforeign deliver add 1",
        &[
            (WORD, Answer::Value(0)),
            (WORD, Answer::Value(1)),
            (BYTE, Answer::Value(104)),
            (WORD, Answer::Value(1)),
            (BYTE, Answer::Value(101)),
        ],
    ),
];

#[test]
fn answers(rt: HostRuntime) -> Result<(), Fail> {
    for (text, exchanges) in EXCHANGES {
        let mut device = script_of(rt.alloc(), text)?.into_device();
        for (turn, (access, want)) in exchanges.iter().enumerate() {
            let answer = ask(&mut device, *access);
            assert_eq!(rt; answer, *want, "{text:?}, request {turn}");
        }
    }
    Ok(())
}

#[test]
fn calls(rt: HostRuntime) -> Result<(), Fail> {
    let done = Answer::Done;
    let rows: [(&str, &[u8], Answer, &[u8; 4]); 9] = [
        ("foreign f conf", b"abcd", done, b"abcd"),
        ("foreign f conf", b"ab", done, b"abyz"),
        ("foreign f conf", b"abcdef", done, b"abcd"),
        ("foreign f bytes 6162", b"", done, b"abyz"),
        ("foreign f bytes -", b"abcd", done, b"wxyz"),
        ("foreign f bytes 6162636465", b"", Answer::Stop, b"wxyz"),
        ("foreign f add 257", b"abcd", done, b"xyz{"),
        ("foreign f add 0x8A", b"", done, &[1, 2, 3, 4]),
        (
            "foreign ff conf\nforeign F conf",
            b"",
            Answer::Stop,
            b"wxyz",
        ),
    ];
    for (text, conf, want, after) in rows {
        let mut device = script_of(rt.alloc(), text)?.into_device();
        let mut array = *b"wxyz";
        assert_eq!(rt; device.foreign(b"f", conf, &mut array), want, "{text:?}");
        assert_eq!(rt; &array, after, "{text:?}");
    }
    Ok(())
}

#[test]
fn fills(rt: HostRuntime) -> Result<(), Fail> {
    let rows = [
        ("", [0, 0, 0, 0, 0]),
        ("memory 1 aabbcc\nmemory 2 11", [0, 0xaa, 0x11, 0xcc, 0]),
        ("memory 3 0102030405060708", [0, 0, 0, 1, 2]),
        ("memory 5 01\nmemory 67108863 02", [0, 0, 0, 0, 0]),
        ("memory 0 0102030405060708", [1, 2, 3, 4, 5]),
    ];
    for (text, want) in rows {
        let mut memory = [9u8; 5];
        script_of(rt.alloc(), text)?.fill(&mut memory);
        assert_eq!(rt; memory, want, "{text:?}");
    }
    Ok(())
}

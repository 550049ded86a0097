//! Words and the orders that they give.

use crate::{Action, Order, WordsError, read_words};
use pan_base::{List, NoMemory, Text};
use std::alloc::{AllocError, Global};
use std::test::Fail;

/// The words of a line, parted by blanks, where `''` stands for the empty word.
fn words_of(alloc: Global, line: &str) -> Result<List<Text>, NoMemory> {
    let mut words = List::new(alloc);
    for word in line.split_whitespace() {
        let word = if word == "''" { "" } else { word };
        words.push(Text::from_str(alloc, word)?)?;
    }
    Ok(words)
}

/// An action as words.
fn action_shown(alloc: Global, action: &Action) -> Result<String, AllocError> {
    match action {
        Action::Compile { source, image } => {
            format!(in alloc; "compile {} {}", source.as_str(), image.as_str())
        }
        Action::Check { source } => format!(in alloc; "check {}", source.as_str()),
        Action::Run { image, script } => {
            format!(in alloc; "run {} {}", image.as_str(), script.as_str())
        }
        Action::Meaning { source, script } => {
            format!(in alloc; "meaning {} {}", source.as_str(), script.as_str())
        }
        Action::Show { source } => format!(in alloc; "show {}", source.as_str()),
        Action::Dis { image } => format!(in alloc; "dis {}", image.as_str()),
        Action::Bound { source } => format!(in alloc; "bound {}", source.as_str()),
    }
}

/// An order in one line: the action, and stack, local memory, steps and stage.
fn shown(alloc: Global, order: Result<Order, WordsError>) -> Result<String, AllocError> {
    match order {
        Ok(order) => {
            let action = action_shown(alloc, &order.action)?;
            let options = order.options;
            format!(in alloc;
                "{}: {} {} {} {:?}",
                action.as_str(),
                options.stack,
                options.local,
                options.steps,
                options.stage
            )
        }
        Err(error) => format!(in alloc; "{error:?}"),
    }
}

/// Words, and the orders that they give.
const ORDERS: [(&str, &str); 11] = [
    (
        "compile a.pan a.img",
        "compile a.pan a.img: 65536 65536 1000000 Code",
    ),
    (
        "run --stack 4096 a.img s.txt --steps 10000000",
        "run a.img s.txt: 4096 65536 10000000 Code",
    ),
    (
        "--stage parse --steps 10 meaning a.pan --local 8 s.txt --stack 0",
        "meaning a.pan s.txt: 0 8 10 Parse",
    ),
    (
        "check --stack=192688 --local=0x10 a.pan --steps=0x00FFfF --stage=code",
        "check a.pan: 192688 16 65535 Code",
    ),
    (
        "check a.pan --stack 67108864 --local 67108864",
        "check a.pan: 67108864 67108864 1000000 Code",
    ),
    (
        "check a.pan --steps 18446744073709551615",
        "check a.pan: 65536 65536 18446744073709551615 Code",
    ),
    ("check ''", "check : 65536 65536 1000000 Code"),
    (
        "check --stack 16 -- --stack",
        "check --stack: 16 65536 1000000 Code",
    ),
    ("check a.pan --local 4", "Usage"),
    ("bound a.pan", "bound a.pan: 65536 65536 1000000 Code"),
    ("bound a.pan a.img", "Usage"),
];

#[test]
fn reads(rt: HostRuntime) -> Result<(), Fail> {
    let alloc = rt.alloc();
    for (line, want) in ORDERS {
        let words = words_of(alloc, line)?;
        let order = read_words(alloc, words.as_slice());
        assert_eq!(rt; shown(alloc, order)?.as_str(), want, "{line}");
    }
    Ok(())
}

//! The program: `panc` on the words of its command line, the files of the system and standard output.
#![tactic(auto)]

use pan_base::{List, NoMemory, RealFiles, RealOut, Text};
use pan_command::panc;
use std::process::ExitCode;
use std::rt::Env;
use std::{env, io};

/// The exit status where there is no memory for the words.
const NO_MEMORY: u8 = 8;

/// The words of the command line, without the program's own name.
fn command_words<R: Env + AllocGlobal>(rt: &R) -> Result<List<Text>, NoMemory> {
    let alloc = rt.alloc();
    let mut words = List::new(alloc);
    let Ok(arguments) = env::args(rt) else {
        return Err(NoMemory);
    };
    for argument in arguments.skip(1) {
        words.push(Text::from_str(alloc, argument.as_str())?)?;
    }
    Ok(words)
}

fn main(rt: HostRuntime) -> ExitCode {
    let Ok(words) = command_words(&rt) else {
        return ExitCode::from(NO_MEMORY);
    };
    let mut files = RealFiles::new(&rt);
    let mut out = RealOut::new(io::writer(&rt));
    ExitCode::from(panc(rt.alloc(), words.as_slice(), &mut files, &mut out))
}

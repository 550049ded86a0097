//! The command line as `clap` reads it.

ghost use Rattle.std.specs.Prelude.{◌≡◌, false, IfOk};
ghost use Rattle.clap.specs.Words.{app_of, rule_of, new_rule};
ghost use Rattle.command_words.specs.Panc.{panc, needed, valued};

use clap::{Arg, Command};
use std::alloc::{AllocError, Global};

/// A word that the command line must have.
fn needed<'a>(alloc: Global, name: &'a str) -> Arg<'a>
    ensures rule { rule_of result ≡ needed name.entry.now }
    ensures own { result.global ≡ false }
{
    Arg::new(alloc, name).required(true)
}

/// An option with one value.
fn valued<'a>(alloc: Global, name: &'a str) -> Arg<'a>
    ensures rule { rule_of result ≡ valued name.entry.now }
    ensures own { result.global ≡ false }
{
    Arg::new(alloc, name).long(name)
}

/// The command line: ACTION and FIRST, SECOND if it is there, and the options; no help and no version.
pub fn panc_command<'a>(alloc: Global) -> Result<Command<'a>, AllocError>
    ensures { IfOk result (λ command. app_of command ≡ panc) }
{
    Command::new(alloc, "panc")
        .no_binary_name(true)
        .disable_help_flag(true)
        .arg(needed(alloc, "ACTION"))?
        .arg(needed(alloc, "FIRST"))?
        .arg(Arg::new(alloc, "SECOND"))?
        .arg(valued(alloc, "stack"))?
        .arg(valued(alloc, "local"))?
        .arg(valued(alloc, "steps"))?
        .arg(valued(alloc, "stage"))
}

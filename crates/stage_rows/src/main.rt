//! Prints what the passes make of the sources in its rows. The head of `rows.txt` says how rows are written.
#![tactic(auto)]

mod crep;
mod frames;
mod loops;
mod page;
mod row;
mod signs;
mod trouble;
mod words;

use crate::page::Page;
use crate::row::Row;
use crate::trouble::Trouble;
use std::alloc::Global;
use std::fs;
use std::io::{self, Write};
use std::process::ExitCode;

/// Adds what comes of the rows, up to the first line that is none of a row, if there is one.
fn run_rows(alloc: Global, lines: &str, page: &mut Page) -> Result<(), Trouble> {
    let mut row = Row::new(alloc);
    for line in lines.lines() {
        if let Err(trouble) = row.follow(alloc, line, page) {
            page.line(0, line)?;
            return Err(trouble);
        }
    }
    Ok(())
}

fn main(rt: HostRuntime) -> ExitCode {
    let Ok(lines) = fs::read_to_string(&rt, "rows.txt") else {
        return ExitCode::FAILURE;
    };
    let mut page = Page::new(rt.alloc());
    let ran = run_rows(rt.alloc(), lines.as_str(), &mut page);
    let put = io::writer(&rt).write_all(page.text.as_slice());
    if ran.is_err() || put.is_err() {
        return ExitCode::FAILURE;
    }
    ExitCode::SUCCESS
}

//! Runs the rows of its files, and prints what comes of them. The head of `worked.txt` says how rows are written.
#![tactic(auto)]

mod report;
mod row;
mod text;
mod trouble;

use crate::row::Row;
use crate::trouble::Trouble;
use std::alloc::Global;
use std::fs;
use std::io::{self, Write};
use std::process::ExitCode;

/// The files of rows.
const FILES: [&str; 7] = [
    "worked.txt",
    "outside.txt",
    "refused.txt",
    "scripts.txt",
    "images.txt",
    "code.txt",
    "examples.txt",
];

/// Adds what comes of the rows, up to the first line that is none of a row, if there is one.
fn run_rows(alloc: Global, lines: &str, report: &mut Vec<u8>) -> Result<(), Trouble> {
    let mut row = Row::new(alloc);
    for line in lines.lines() {
        if let Err(trouble) = row.follow(alloc, line, report) {
            report.extend_from_slice(line.as_bytes())?;
            return Err(trouble);
        }
    }
    Ok(())
}

fn main(rt: HostRuntime) -> ExitCode {
    for name in FILES {
        let Ok(lines) = fs::read_to_string(&rt, name) else {
            return ExitCode::FAILURE;
        };
        let mut report = Vec::new(rt.alloc());
        let ran = run_rows(rt.alloc(), lines.as_str(), &mut report);
        let put = io::writer(&rt).write_all(report.as_slice());
        if ran.is_err() || put.is_err() {
            return ExitCode::FAILURE;
        }
    }
    ExitCode::SUCCESS
}

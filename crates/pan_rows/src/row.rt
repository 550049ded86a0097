//! A row: its files, the calls and puts that fail, and its runs.

use crate::report::{add_line, add_put, lines_with};
use crate::text::{add_for_each, add_hex, add_times, number, split_word, words_of};
use crate::trouble::Trouble;
use pan_base::{Blob, Failing, FileError, List, MemFiles, MemSink, Text, Workspace};
use pan_command::panc;
use std::alloc::Global;
use std::mem;

/// The room of a sink, where the row says nothing.
const ROOM: usize = 200_000;

/// A row, up to the line that was followed last.
#[derive(Drop)]
pub struct Row {
    /// The files before the first run.
    given: List<(Text, Blob)>,
    failing: List<Failing>,
    /// The files from the first run on.
    files: Option<MemFiles>,
    /// The name of the file whose bytes are being gathered, if there is one.
    name: Option<Text>,
    bytes: Vec<u8>,
    room: usize,
    failing_put: Option<u64>,
}

impl Row {
    /// A row without files.
    pub fn new(alloc: Global) -> Row {
        Row {
            given: List::new(alloc),
            failing: List::new(alloc),
            files: None,
            name: None,
            bytes: Vec::new(alloc),
            room: ROOM,
            failing_put: None,
        }
    }

    /// Does what the line says, and adds what comes of it to the report.
    pub fn follow(
        &mut self,
        alloc: Global,
        line: &str,
        report: &mut Vec<u8>,
    ) -> Result<(), Trouble> {
        if line.is_empty() || line.starts_with('#') {
            return Ok(());
        }
        let (kind, rest) = split_word(line);
        if self.gathers(alloc, kind, rest)? {
            return Ok(());
        }
        self.store(alloc)?;
        match kind {
            "row" => {
                *self = Row::new(alloc);
                add_line(report, &["row ", rest])?;
            }
            "file" => self.begin_file(alloc, rest)?,
            "fail" => self.fail(rest)?,
            "put" => self.failing_put = Some(number(rest)?),
            "room" => self.room = number(rest)? as usize,
            "$" => self.run(alloc, rest, report)?,
            "count" => self.count(alloc, rest, report)?,
            "show" => self.show(alloc, rest, report)?,
            _ => return Err(Trouble::Line),
        }
        Ok(())
    }

    /// Adds what the line says to the bytes of the file, and answers whether it is such a line.
    fn gathers(&mut self, alloc: Global, kind: &str, rest: &str) -> Result<bool, Trouble> {
        match kind {
            "+" => self.bytes.extend_from_slice(rest.as_bytes())?,
            "|" => {
                self.bytes.extend_from_slice(rest.as_bytes())?;
                self.bytes.push(b'\n')?;
            }
            "times" => {
                let (count, text) = split_word(rest);
                add_times(&mut self.bytes, number(count)?, text)?;
            }
            "each" => {
                let (first, rest) = split_word(rest);
                let (count, text) = split_word(rest);
                add_for_each(alloc, &mut self.bytes, number(first)?, number(count)?, text)?;
            }
            "hex" => add_hex(alloc, &mut self.bytes, rest)?,
            _ => return Ok(false),
        }
        Ok(true)
    }

    fn begin_file(&mut self, alloc: Global, rest: &str) -> Result<(), Trouble> {
        let (name, text) = split_word(rest);
        self.name = Some(Text::from_str(alloc, name)?);
        self.bytes.extend_from_slice(text.as_bytes())?;
        Ok(())
    }

    /// Stores the file whose bytes were gathered, if there is one.
    fn store(&mut self, alloc: Global) -> Result<(), Trouble> {
        let Some(name) = self.name.take() else {
            return Ok(());
        };
        let bytes = mem::replace(&mut self.bytes, Vec::new(alloc));
        match &mut self.files {
            Some(files) => files.write(alloc, name.as_str(), bytes.as_slice())?,
            None => self.given.push((name, Blob::from_vec(bytes)))?,
        }
        Ok(())
    }

    fn fail(&mut self, rest: &str) -> Result<(), Trouble> {
        let (call, keep) = split_word(rest);
        let keep = if keep.is_empty() {
            None
        } else {
            Some(number(keep)?)
        };
        let call = number(call)?;
        self.failing.push(Failing { call, keep })?;
        Ok(())
    }

    /// The files, which stand from the first run on.
    fn opened(&mut self, alloc: Global) -> Result<MemFiles, Trouble> {
        if let Some(files) = self.files.take() {
            return Ok(files);
        }
        let given = mem::replace(&mut self.given, List::new(alloc));
        let failing = mem::replace(&mut self.failing, List::new(alloc));
        Ok(MemFiles::new(alloc, given, failing)?)
    }

    /// Runs the words, and answers the status and what was put.
    fn call(&mut self, alloc: Global, line: &str) -> Result<(u8, MemSink), Trouble> {
        let mut files = self.opened(alloc)?;
        let mut failing = List::new(alloc);
        if let Some(put) = self.failing_put {
            failing.push(put)?;
        }
        let mut out = MemSink::new(alloc, self.room, failing)?;
        let words = words_of(alloc, line)?;
        let status = panc(alloc, words.as_slice(), &mut files, &mut out);
        self.files = Some(files);
        Ok((status, out))
    }

    /// Adds the words, the status, and the lines that were put.
    fn run(&mut self, alloc: Global, line: &str, report: &mut Vec<u8>) -> Result<(), Trouble> {
        let (status, out) = self.call(alloc, line)?;
        let status = format!(in alloc; "{status}")?;
        let line = if line.is_empty() { "no words" } else { line };
        add_line(report, &[line, ": status ", status.as_str()])?;
        add_put(alloc, report, out.bytes())?;
        Ok(())
    }

    /// Adds the words, the status, and how many lines that were put have the first word.
    fn count(&mut self, alloc: Global, rest: &str, report: &mut Vec<u8>) -> Result<(), Trouble> {
        let (word, line) = split_word(rest);
        let (status, out) = self.call(alloc, line)?;
        let found = lines_with(word.as_bytes(), out.bytes());
        let ended = format!(in alloc; ": status {status}, {found} lines with ")?;
        add_line(report, &[line, ended.as_str(), word])?;
        Ok(())
    }

    /// Adds what stands in the file, in hexadecimal.
    fn show(&mut self, alloc: Global, name: &str, report: &mut Vec<u8>) -> Result<(), Trouble> {
        let mut files = self.opened(alloc)?;
        let read = files.read(alloc, name);
        self.files = Some(files);
        match read {
            Ok(bytes) => {
                let digits = hex::encode(alloc, bytes.as_slice())?;
                add_line(report, &[name, ": ", digits.as_str()])?;
            }
            Err(FileError::Missing) => add_line(report, &[name, ": missing"])?,
            Err(_) => add_line(report, &[name, ": can't be read"])?,
        }
        Ok(())
    }
}

//! A row: a source, and the stages of it that are printed.

use crate::crep::put_crep;
use crate::frames::put_frames;
use crate::loops::put_loops;
use crate::page::Page;
use crate::trouble::Trouble;
use crate::words::put_words;
use front_end::read_program;
use pan_driver::{Built, build_checked};
use std::alloc::{AllocError, Global};

/// A stage that can be printed.
#[derive(Clone, Copy, Debug, PartialEq, Eq)]
enum Stage {
    Words,
    Steps,
    Operations,
    Frames,
}

impl Stage {
    /// The stage of this name.
    fn named(name: &str) -> Option<Stage> {
        match name {
            "words" => Some(Stage::Words),
            "steps" => Some(Stage::Steps),
            "operations" => Some(Stage::Operations),
            "frames" => Some(Stage::Frames),
            _ => None,
        }
    }

    /// Adds the text of the stage to the page.
    fn put(self, alloc: Global, page: &mut Page, built: &Built) -> Result<(), AllocError> {
        match self {
            Stage::Words => put_crep(page, built.crep()),
            Stage::Steps => put_loops(page, built.loops()),
            Stage::Operations => put_words(alloc, page, built.words()),
            Stage::Frames => put_frames(page, built.stack()),
        }
    }
}

/// A row, up to the line that was followed last.
#[derive(Drop)]
pub struct Row {
    source: Vec<u8>,
}

impl Row {
    /// A row without a source.
    pub fn new(alloc: Global) -> Row {
        Row {
            source: Vec::new(alloc),
        }
    }

    /// Does what the line says, and adds what comes of it to the page.
    pub fn follow(&mut self, alloc: Global, line: &str, page: &mut Page) -> Result<(), Trouble> {
        if line.is_empty() || line.starts_with('#') {
            return Ok(());
        }
        let (kind, rest) = match line.split_once(' ') {
            Some(parts) => parts,
            None => (line, ""),
        };
        match kind {
            "row" => {
                self.source.clear();
                page.line(0, line)?;
            }
            "|" => {
                self.source.extend_from_slice(rest.as_bytes())?;
                self.source.push(b'\n')?;
            }
            "stage" => {
                page.line(0, line)?;
                let stage = Stage::named(rest).ok_or(Trouble::Line)?;
                self.put_stage(alloc, stage, page)?;
            }
            _ => return Err(Trouble::Line),
        }
        Ok(())
    }

    /// Adds what the passes make of the row's source, at this stage, to the page.
    fn put_stage(&self, alloc: Global, stage: Stage, page: &mut Page) -> Result<(), Trouble> {
        let checked = read_program(alloc, self.source.as_slice())?;
        let built = build_checked(alloc, checked)?;
        stage.put(alloc, page, &built)?;
        Ok(())
    }
}

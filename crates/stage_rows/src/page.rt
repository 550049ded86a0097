//! Text, line by line.

use std::alloc::{AllocError, Global};

/// A text that grows at its end.
#[derive(Drop)]
pub struct Page {
    alloc: Global,
    pub text: Vec<u8>,
}

impl Page {
    pub fn new(alloc: Global) -> Page {
        Page {
            alloc,
            text: Vec::new(alloc),
        }
    }

    /// Begins a line, so many steps in.
    pub fn begin(&mut self, depth: u32) -> Result<(), AllocError> {
        for _ in 0..depth {
            self.put("  ")?;
        }
        Ok(())
    }

    pub fn end(&mut self) -> Result<(), AllocError> {
        self.text.push(b'\n')?;
        Ok(())
    }

    pub fn put(&mut self, words: &str) -> Result<(), AllocError> {
        self.text.extend_from_slice(words.as_bytes())
    }

    /// A line of these words.
    pub fn line(&mut self, depth: u32, words: &str) -> Result<(), AllocError> {
        self.begin(depth)?;
        self.put(words)?;
        self.end()
    }

    pub fn bytes(&mut self, bytes: &[u8]) -> Result<(), AllocError> {
        self.text.extend_from_slice(bytes)
    }

    /// A number: in hexadecimal from 65,536 on.
    pub fn number(&mut self, n: u64) -> Result<(), AllocError> {
        let digits = if n < 0x10000 {
            format!(in self.alloc; "{n}")?
        } else {
            format!(in self.alloc; "{n:#x}")?
        };
        self.put(digits.as_str())
    }

    pub fn integer(&mut self, n: i32) -> Result<(), AllocError> {
        let digits = format!(in self.alloc; "{n}")?;
        self.put(digits.as_str())
    }

    /// A variable.
    pub fn variable(&mut self, v: u32) -> Result<(), AllocError> {
        self.put("v")?;
        self.number(v as u64)
    }

    /// Variables between commas.
    pub fn variables(&mut self, all: &[u32]) -> Result<(), AllocError> {
        for i in 0..all.len() {
            if i > 0 {
                self.put(", ")?;
            }
            self.variable(all[i])?;
        }
        Ok(())
    }

    /// A word, a blank, and variables between commas.
    pub fn named_variables(&mut self, word: &str, all: &[u32]) -> Result<(), AllocError> {
        self.put(word)?;
        self.put(" ")?;
        self.variables(all)
    }

    /// The head of a function.
    pub fn head(&mut self, number: usize, name: &[u8]) -> Result<(), AllocError> {
        self.put("function ")?;
        self.number(number as u64)?;
        self.put(", ")?;
        self.bytes(name)?;
        self.put(": ")
    }
}

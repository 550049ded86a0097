//! The frames of a program.

use crate::page::Page;
use stack_lang::StackProg;
use std::alloc::AllocError;

/// The bytes of each function's frame, and what its calls cost.
pub fn put_frames(page: &mut Page, prog: &StackProg) -> Result<(), AllocError> {
    let functions = prog.program.functions.as_slice();
    for i in 0..functions.len() {
        let function = &functions[i];
        page.head(i, function.name.as_slice())?;
        page.put("frame of ")?;
        page.number(function.frame)?;
        page.put(" bytes, cost ")?;
        page.number(function.cost)?;
        page.end()?;
    }
    Ok(())
}

//! Functions and programs.

use crate::shape::Shape;
use crate::syntax::Block;
use pan_base::{List, Span, Text};

/// A parameter of a function.
#[derive(Drop)]
pub struct Param {
    pub name: Text,
    pub shape: Shape,
}

/// An exception, and the shape of the value that is raised with it.
#[derive(Drop)]
pub struct Exception {
    pub name: Text,
    pub shape: Shape,
    pub span: Span,
}

/// A function, and the shape of what it returns.
#[derive(Drop)]
pub struct Function {
    pub name: Text,
    pub params: List<Param>,
    pub result: Shape,
    pub body: Block,
    pub span: Span,
}

/// A program.
#[derive(Drop)]
pub struct Program {
    pub exceptions: List<Exception>,
    pub functions: List<Function>,
}

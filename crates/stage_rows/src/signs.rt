//! Operators and sizes, as sources spell them.

use pan_base::{BinOp, Cmp, ShOp, Size};

pub fn operator(op: BinOp) -> &'static str {
    match op {
        BinOp::Add => " + ",
        BinOp::Sub => " - ",
        BinOp::Mul => " * ",
        BinOp::And => " & ",
        BinOp::Or => " | ",
        BinOp::Xor => " ^ ",
    }
}

pub fn shift(op: ShOp) -> &'static str {
    match op {
        ShOp::Shl => " << ",
        ShOp::Shr => " >>> ",
        ShOp::Sar => " >> ",
        ShOp::Ror => " #>> ",
    }
}

pub fn comparison(op: Cmp) -> &'static str {
    match op {
        Cmp::Eq => " == ",
        Cmp::Ne => " != ",
        Cmp::Lt => " < ",
        Cmp::Ge => " >= ",
        Cmp::Ltu => " <+ ",
        Cmp::Geu => " >=+ ",
    }
}

/// The shared window, by the size of an access.
pub fn window(size: Size) -> &'static str {
    match size {
        Size::B1 => "window8[",
        Size::B2 => "window16[",
        Size::B4 => "window32[",
        Size::B8 => "window64[",
    }
}

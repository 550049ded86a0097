//! Operands.

/// What stands behind a mnemonic.
#[derive(Clone, Copy, Debug, PartialEq, Eq)]
pub enum Operand {
    /// A register, by its number.
    Register(u8),
    /// A number in decimal.
    Number(i32),
    /// A number in hexadecimal.
    High(u32),
    /// An address: the offset that is added to a register.
    Address { offset: i32, base: u8 },
}

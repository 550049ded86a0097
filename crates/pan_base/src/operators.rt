//! The operators of the source and of the instructions.

ghost use Rattle.std.specs.Prelude.{◌≡◌, ◌<◌};
ghost use Rattle.pan_base.specs.Words.{operate, shift, compare};

/// An operator of two words.
#[derive(Clone, Copy, Debug, PartialEq, Eq)]
pub enum BinOp {
    Add,
    Sub,
    Mul,
    And,
    Or,
    Xor,
}

impl BinOp {
    /// What the operator makes of two words. Sums, differences and products wrap at 2^64.
    pub fn apply(self, a: u64, b: u64) -> u64
        ensures { result ≡ operate self a b }
    {
        match self {
            BinOp::Add => a.wrapping_add(b),
            BinOp::Sub => a.wrapping_sub(b),
            BinOp::Mul => a.wrapping_mul(b),
            BinOp::And => a & b,
            BinOp::Or => a | b,
            BinOp::Xor => a ^ b,
        }
    }
}

/// How a word is shifted: left, right with zeros, right with the sign, or rotated right.
#[derive(Clone, Copy, Debug, PartialEq, Eq)]
pub enum ShOp {
    Shl,
    Shr,
    Sar,
    Ror,
}

impl ShOp {
    /// The word shifted by `amount` bits.
    pub fn apply(self, a: u64, amount: u32) -> u64
        requires { amount < 64 }
        ensures { result ≡ shift self a amount }
    {
        match self {
            ShOp::Shl => a.wrapping_shl(amount),
            ShOp::Shr => a >> amount,
            ShOp::Sar => shifted_with_sign(a, amount),
            ShOp::Ror => a.rotate_right(amount),
        }
    }
}

fn shifted_with_sign(a: u64, amount: u32) -> u64
    requires { amount < 64 }
    ensures { result ≡ shift ShOp.Sar a amount }
{
    if a < 1 << 63 {
        a >> amount
    } else {
        u64::MAX - ((u64::MAX - a) >> amount)
    }
}

/// How two words are compared. `Lt` and `Ge` read them in two's complement, `Ltu` and `Geu` as they are.
#[derive(Clone, Copy, Debug, PartialEq, Eq)]
pub enum Cmp {
    Eq,
    Ne,
    Lt,
    Ge,
    Ltu,
    Geu,
}

impl Cmp {
    /// Whether the comparison holds of two words.
    pub fn holds(self, a: u64, b: u64) -> bool
        ensures { result ≡ compare self a b }
    {
        match self {
            Cmp::Eq => a == b,
            Cmp::Ne => a != b,
            Cmp::Lt => is_less_signed(a, b),
            Cmp::Ge => !is_less_signed(a, b),
            Cmp::Ltu => a < b,
            Cmp::Geu => !(a < b),
        }
    }
}

fn is_less_signed(a: u64, b: u64) -> bool
    ensures { result ≡ compare Cmp.Lt a b }
{
    a.cast_signed() < b.cast_signed()
}

/// An instruction on two registers. The names that end in `w` work on the low 32 bits.
#[derive(Clone, Copy, Debug, PartialEq, Eq)]
pub enum ROp {
    Add,
    Sub,
    Sll,
    Slt,
    Sltu,
    Xor,
    Srl,
    Sra,
    Or,
    And,
    Mul,
    Mulhu,
    Addw,
    Subw,
    Sllw,
    Srlw,
    Sraw,
}

/// An instruction on a register and an immediate.
#[derive(Clone, Copy, Debug, PartialEq, Eq)]
pub enum IOp {
    Addi,
    Slti,
    Sltiu,
    Xori,
    Ori,
    Andi,
    Addiw,
}

/// A shift of a register by a fixed amount.
#[derive(Clone, Copy, Debug, PartialEq, Eq)]
pub enum ShiftOp {
    Slli,
    Srli,
    Srai,
    Slliw,
    Srliw,
    Sraiw,
}

/// A load: of a byte, of 2, 4 or 8 bytes, extended with the sign or, in the last three, with zeros.
#[derive(Clone, Copy, Debug, PartialEq, Eq)]
pub enum LOp {
    Lb,
    Lh,
    Lw,
    Ld,
    Lbu,
    Lhu,
    Lwu,
}

/// A store of the low 1, 2, 4 or 8 bytes.
#[derive(Clone, Copy, Debug, PartialEq, Eq)]
pub enum SOp {
    Sb,
    Sh,
    Sw,
    Sd,
}

/// An instruction with an immediate of 20 high bits.
#[derive(Clone, Copy, Debug, PartialEq, Eq)]
pub enum UOp {
    Lui,
    Auipc,
}

//! What the instructions make of the values of registers and of immediates (RISC-V unprivileged ISA, section 2.4, and
//! its chapters on RV64I and M).

ghost use Rattle.std.specs.Prelude.{◌≡◌, ◌*◌, ◌/◌, ◌^◌, ◌<◌};
ghost use Rattle.pan_base.specs.Events.{byte_count};
ghost use Rattle.pan_base.specs.Results.{plus, upper, immediate, low_half, r_result, i_result, sh_result, u_result, loads, l_result, stores};
ghost use Rattle.riscv_isa.specs.Table.{amounts};

use pan_base::{BinOp, Cmp, IOp, LOp, ROp, SOp, ShOp, ShiftOp, Size, UOp};

/// An immediate as a word, in two's complement.
fn immediate(imm: i32) -> u64
    ensures { result ≡ immediate imm }
{
    if imm < 0 {
        u64::MAX - (-1 - imm) as u64
    } else {
        imm as u64
    }
}

/// A sum of a word and an immediate, which wraps at 2^64.
#[tactic(auto, unfolding(pan_base::specs::Results::plus))]
pub fn plus(a: u64, imm: i32) -> u64
    ensures { result ≡ plus a imm }
{
    a.wrapping_add(immediate(imm))
}

/// The low 32 bits, with the sign in the bits above.
#[tactic(auto, unfolding(pan_base::specs::Results::sign_extended))]
fn low_half(n: u64) -> u64
    ensures { result ≡ low_half n }
{
    let low = n % (1 << 32);
    if low < 1 << 31 {
        low
    } else {
        0xffff_ffff_0000_0000 + low
    }
}

/// The high 64 bits of the product of two words without sign.
fn high_product(a: u64, b: u64) -> u64
    ensures { result ≡ a * b / 2 ^ 64 }
{
    a.carrying_mul(b, 0).1
}

/// What an operation on two registers makes of their values.
pub fn r_result(op: ROp, a: u64, b: u64) -> u64
    ensures { result ≡ r_result op a b }
{
    match op {
        ROp::Add => BinOp::Add.apply(a, b),
        ROp::Sub => BinOp::Sub.apply(a, b),
        ROp::Sll => ShOp::Shl.apply(a, (b % 64) as u32),
        ROp::Slt => u64::from(Cmp::Lt.holds(a, b)),
        ROp::Sltu => u64::from(Cmp::Ltu.holds(a, b)),
        ROp::Xor => BinOp::Xor.apply(a, b),
        ROp::Srl => ShOp::Shr.apply(a, (b % 64) as u32),
        ROp::Sra => ShOp::Sar.apply(a, (b % 64) as u32),
        ROp::Or => BinOp::Or.apply(a, b),
        ROp::And => BinOp::And.apply(a, b),
        ROp::Mul => BinOp::Mul.apply(a, b),
        ROp::Mulhu => high_product(a, b),
        ROp::Addw => low_half(BinOp::Add.apply(a, b)),
        ROp::Subw => low_half(BinOp::Sub.apply(a, b)),
        ROp::Sllw => sh_result(ShiftOp::Slliw, a, (b % 32) as u8),
        ROp::Srlw => sh_result(ShiftOp::Srliw, a, (b % 32) as u8),
        ROp::Sraw => sh_result(ShiftOp::Sraiw, a, (b % 32) as u8),
    }
}

/// What an operation on a register and an immediate makes of the register's value.
pub fn i_result(op: IOp, a: u64, imm: i32) -> u64
    ensures { result ≡ i_result op a imm }
{
    match op {
        IOp::Addi => plus(a, imm),
        IOp::Slti => u64::from(Cmp::Lt.holds(a, immediate(imm))),
        IOp::Sltiu => u64::from(Cmp::Ltu.holds(a, immediate(imm))),
        IOp::Xori => BinOp::Xor.apply(a, immediate(imm)),
        IOp::Ori => BinOp::Or.apply(a, immediate(imm)),
        IOp::Andi => BinOp::And.apply(a, immediate(imm)),
        IOp::Addiw => low_half(plus(a, imm)),
    }
}

/// The low 32 bits shifted left, with the sign in the bits above.
fn shifted_left_half(a: u64, amount: u8) -> u64
    requires { amount < 32 }
    ensures { result ≡ low_half (a * 2 ^ amount) }
{
    low_half(ShOp::Shl.apply(a, u32::from(amount)))
}

/// What a shift by a fixed amount makes of a register's value.
pub fn sh_result(op: ShiftOp, a: u64, amount: u8) -> u64
    requires { amount < amounts op }
    ensures { result ≡ sh_result op a amount }
{
    let by = u32::from(amount);
    match op {
        ShiftOp::Slli => ShOp::Shl.apply(a, by),
        ShiftOp::Srli => ShOp::Shr.apply(a, by),
        ShiftOp::Srai => ShOp::Sar.apply(a, by),
        ShiftOp::Slliw => shifted_left_half(a, amount),
        ShiftOp::Srliw => low_half(ShOp::Shr.apply(a % (1 << 32), by)),
        ShiftOp::Sraiw => ShOp::Sar.apply(low_half(a), by),
    }
}

/// 20 bits in the place of bits 12 to 31, with the sign in the bits above.
#[tactic(auto, unfolding(pan_base::specs::Results::upper))]
fn upper(high: u32) -> u64
    requires { high < 2 ^ 20 }
    ensures { result ≡ upper high }
{
    let low = u64::from(high) << 12;
    if high < 1 << 19 {
        low
    } else {
        0xffff_ffff_0000_0000 + low
    }
}

/// What an operation on an immediate's 20 high bits makes at a program counter.
pub fn u_result(op: UOp, pc: u64, high: u32) -> u64
    requires { high < 2 ^ 20 }
    ensures { result ≡ u_result op pc high }
{
    match op {
        UOp::Lui => upper(high),
        UOp::Auipc => pc.wrapping_add(upper(high)),
    }
}

/// How many bytes a load reads.
pub fn loads(op: LOp) -> Size
    ensures { result ≡ loads op }
{
    match op {
        LOp::Lb | LOp::Lbu => Size::B1,
        LOp::Lh | LOp::Lhu => Size::B2,
        LOp::Lw | LOp::Lwu => Size::B4,
        LOp::Ld => Size::B8,
    }
}

/// What a load makes of the number that it reads.
#[tactic(auto, unfolding(pan_base::specs::Results::sign_extended))]
pub fn l_result(op: LOp, n: u64) -> u64
    requires { n < 2 ^ (8 * byte_count (loads op)) }
    ensures { result ≡ l_result op n }
{
    match op {
        LOp::Lb if n >= 1 << 7 => 0xffff_ffff_ffff_ff00 + n,
        LOp::Lh if n >= 1 << 15 => 0xffff_ffff_ffff_0000 + n,
        LOp::Lw if n >= 1 << 31 => 0xffff_ffff_0000_0000 + n,
        _ => n,
    }
}

/// How many bytes a store writes.
pub fn stores(op: SOp) -> Size
    ensures { result ≡ stores op }
{
    match op {
        SOp::Sb => Size::B1,
        SOp::Sh => Size::B2,
        SOp::Sw => Size::B4,
        SOp::Sd => Size::B8,
    }
}

//! The mnemonics of operations.

ghost use Rattle.std.specs.Prelude.{◌≡◌, ◌≤◌, length};
ghost use Rattle.code_listing.specs.Assembly.{r_name, i_name, shift_name, load_name, store_name, branch_name, upper_name};

use pan_base::{Cmp, IOp, LOp, ROp, SOp, ShiftOp, UOp};

/// The mnemonic of an operation on two registers.
pub fn name_of_r(op: ROp) -> &'static [u8]
    ensures name { result.now ≡ r_name op }
    ensures short { length result.now ≤ 5 }
{
    match op {
        ROp::Add => b"add",
        ROp::Sub => b"sub",
        ROp::Sll => b"sll",
        ROp::Slt => b"slt",
        ROp::Sltu => b"sltu",
        ROp::Xor => b"xor",
        ROp::Srl => b"srl",
        ROp::Sra => b"sra",
        ROp::Or => b"or",
        ROp::And => b"and",
        ROp::Mul => b"mul",
        ROp::Mulhu => b"mulhu",
        ROp::Addw => b"addw",
        ROp::Subw => b"subw",
        ROp::Sllw => b"sllw",
        ROp::Srlw => b"srlw",
        ROp::Sraw => b"sraw",
    }
}

/// The mnemonic of an operation on a register and an immediate.
pub fn name_of_i(op: IOp) -> &'static [u8]
    ensures name { result.now ≡ i_name op }
    ensures short { length result.now ≤ 5 }
{
    match op {
        IOp::Addi => b"addi",
        IOp::Slti => b"slti",
        IOp::Sltiu => b"sltiu",
        IOp::Xori => b"xori",
        IOp::Ori => b"ori",
        IOp::Andi => b"andi",
        IOp::Addiw => b"addiw",
    }
}

/// The mnemonic of a shift by a fixed amount.
pub fn name_of_shift(op: ShiftOp) -> &'static [u8]
    ensures name { result.now ≡ shift_name op }
    ensures short { length result.now ≤ 5 }
{
    match op {
        ShiftOp::Slli => b"slli",
        ShiftOp::Srli => b"srli",
        ShiftOp::Srai => b"srai",
        ShiftOp::Slliw => b"slliw",
        ShiftOp::Srliw => b"srliw",
        ShiftOp::Sraiw => b"sraiw",
    }
}

/// The mnemonic of a load.
pub fn name_of_load(op: LOp) -> &'static [u8]
    ensures name { result.now ≡ load_name op }
    ensures short { length result.now ≤ 5 }
{
    match op {
        LOp::Lb => b"lb",
        LOp::Lh => b"lh",
        LOp::Lw => b"lw",
        LOp::Ld => b"ld",
        LOp::Lbu => b"lbu",
        LOp::Lhu => b"lhu",
        LOp::Lwu => b"lwu",
    }
}

/// The mnemonic of a store.
pub fn name_of_store(op: SOp) -> &'static [u8]
    ensures name { result.now ≡ store_name op }
    ensures short { length result.now ≤ 5 }
{
    match op {
        SOp::Sb => b"sb",
        SOp::Sh => b"sh",
        SOp::Sw => b"sw",
        SOp::Sd => b"sd",
    }
}

/// The mnemonic of an operation on an immediate's high bits.
pub fn name_of_upper(op: UOp) -> &'static [u8]
    ensures name { result.now ≡ upper_name op }
    ensures short { length result.now ≤ 5 }
{
    match op {
        UOp::Lui => b"lui",
        UOp::Auipc => b"auipc",
    }
}

/// The mnemonic of the branch where a comparison holds.
pub fn name_of_branch(op: Cmp) -> &'static [u8]
    ensures name { result.now ≡ branch_name op }
    ensures short { length result.now ≤ 5 }
{
    match op {
        Cmp::Eq => b"beq",
        Cmp::Ne => b"bne",
        Cmp::Lt => b"blt",
        Cmp::Ge => b"bge",
        Cmp::Ltu => b"bltu",
        Cmp::Geu => b"bgeu",
    }
}

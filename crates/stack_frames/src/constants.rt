//! Instructions that give a register a word.

ghost use Rattle.std.specs.Prelude.{◌≡◌, ◌%◌, ◌^◌, ◌<◌, ◌++◌, ◌∷◌, [], map, OnOk};
ghost use Rattle.std.specs.Int.{trailing_zeros, w64};
ghost use Rattle.pan_base.specs.Words.{shift};
ghost use Rattle.pan_base.specs.declared.operators.ShOp.TheVariants.{Sar};
ghost use Rattle.pan_base.specs.declared.operators.UOp.TheVariants.{Lui};
ghost use Rattle.stack_frames.specs.Constants.{low, high, with_low, is_upper, shifted, constant_in, constant};
ghost use Rattle.stack_lang.specs.declared.syntax.Stmt.TheVariants as stack;
ghost use Rattle.riscv_isa.specs.declared.instr.Instr.TheVariants as instr;
ghost use Rattle.pan_base.specs.declared.operators.IOp.TheVariants.{Addi};

use pan_base::{IOp, List, NoMemory, ShOp, ShiftOp, UOp};
use riscv_isa::Instr;
use stack_lang::Stmt;

/// Puts a statement at the end.
pub fn put(code: &mut List<Stmt>, stmt: Stmt) -> Result<(), NoMemory>
    ensures { OnOk result (code.new ≡ code.old ++ stmt ∷ []) }
{
    code.push(stmt)?;
    Ok(())
}

/// The sum of a register and a small number.
pub fn sum(rd: u8, rs1: u8, imm: i32) -> Stmt
    ensures { result ≡ stack.Plain (instr.I Addi rd rs1 imm) }
{
    Stmt::Plain(Instr::I {
        op: IOp::Addi,
        rd,
        rs1,
        imm,
    })
}

/// Divides a word by 2^12 in two's complement, to the nearest: the quotient, and what is left, from -2,048 to 2,047.
fn split(word: u64) -> (u64, i32)
    ensures quotient { result.0 ≡ high word }
    ensures rest { result.1 ≡ low word }
{
    let bits = (word % 4096) as i32;
    let quotient = ShOp::Sar.apply(word, 12);
    if bits < 2048 {
        (quotient, bits)
    } else {
        (quotient.wrapping_add(1), bits - 4096)
    }
}

/// Puts what adds the low bits of the word to what register `rd` has, where they aren't 0.
#[tactic(auto, using(crate::proofs::Rules::constant_rules))]
fn put_low(code: &mut List<Stmt>, op: IOp, rd: u8, word: u64) -> Result<(), NoMemory>
    ensures { OnOk result (code.new ≡ code.old ++ map stack.Plain (with_low op rd word)) }
{
    let (_, imm) = split(word);
    if word % 4096 != 0 {
        put(
            code,
            Stmt::Plain(Instr::I {
                op,
                rd,
                rs1: rd,
                imm,
            }),
        )?;
    }
    Ok(())
}

/// Puts LUI of the low 20 bits of `high`.
#[tactic(auto, using(crate::proofs::Rules::constant_rules))]
fn put_upper(code: &mut List<Stmt>, rd: u8, high: u64) -> Result<(), NoMemory>
    ensures { OnOk result (code.new ≡ code.old ++ stack.Plain (instr.U Lui rd (high % 2 ^ 20)) ∷ []) }
{
    put(
        code,
        Stmt::Plain(Instr::U {
            op: UOp::Lui,
            rd,
            high: (high % (1 << 20)) as u32,
        }),
    )
}

/// Puts what shifts register `rd` to the left, and adds the low bits of the word.
#[tactic(auto, using(crate::proofs::Rules::constant_rules))]
fn put_shifted(code: &mut List<Stmt>, amount: u8, rd: u8, word: u64) -> Result<(), NoMemory>
    ensures { OnOk result (code.new ≡ code.old ++ map stack.Plain (shifted amount rd word)) }
{
    put(
        code,
        Stmt::Plain(Instr::Sh {
            op: ShiftOp::Slli,
            rd,
            rs1: rd,
            amount,
        }),
    )?;
    put_low(code, IOp::Addi, rd, word)
}

/// The zeros below the lowest bit of a word that is set, and the word without them, in two's complement.
#[tactic(auto, using(crate::proofs::Rules::constant_rules))]
fn without_zeros(word: u64) -> (u8, u64)
    requires { 0 < word }
    ensures zeros { result.0 ≡ trailing_zeros w64 word }
    ensures odd { result.1 ≡ shift Sar word (trailing_zeros w64 word) }
{
    let zeros = word.trailing_zeros();
    (zeros as u8, ShOp::Sar.apply(word, zeros))
}

/// Whether LUI alone gives 2^12 times the word, and ADDI alone doesn't give the word.
fn is_for_upper(word: u64) -> bool
    ensures { result ≡ is_upper word }
{
    let (quotient, _) = split(word);
    quotient != 0 && word.wrapping_add(1 << 19) < 1 << 20
}

/// Puts instructions that give register `rd` the word, with its high bits by as many steps as the depth allows.
#[tactic(auto, using(crate::proofs::Rules::constant_rules))]
fn put_constant_in(code: &mut List<Stmt>, depth: u8, rd: u8, word: u64) -> Result<(), NoMemory>
    ensures { OnOk result (code.new ≡ code.old ++ map stack.Plain (constant_in depth rd word)) }
{
    let (quotient, rest) = split(word);
    if quotient == 0 {
        put(code, sum(rd, 0, rest))?;
    } else if word.wrapping_add(1 << 31) < 1 << 32 {
        put_upper(code, rd, quotient)?;
        put_low(code, IOp::Addiw, rd, word)?;
    } else if depth > 0 {
        let (zeros, odd) = without_zeros(quotient);
        if is_for_upper(odd) {
            put_upper(code, rd, odd)?;
            put_shifted(code, zeros, rd, word)?;
        } else {
            put_constant_in(code, depth - 1, rd, odd)?;
            put_shifted(code, 12 + zeros, rd, word)?;
        }
    }
    Ok(())
}

/// Puts instructions that give register `rd` the word, at most 8: ADDI from x0, or LUI and ADDIW, or else those of the word's
/// quotient by 2^12 without the zeros at its end, with one SLLI for these and the 12 bits, and ADDI. Where LUI alone gives this
/// quotient times 2^12, SLLI is by 12 less. Where the low 12 bits are 0 nothing is added.
pub fn put_constant(code: &mut List<Stmt>, rd: u8, word: u64) -> Result<(), NoMemory>
    ensures { OnOk result (code.new ≡ code.old ++ map stack.Plain (constant rd word)) }
{
    put_constant_in(code, 3, rd, word)
}

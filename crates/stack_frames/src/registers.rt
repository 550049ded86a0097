//! Moves of words: between homes and registers, and to and from the places where words are passed.

ghost use Rattle.std.specs.Prelude.{◌≡◌, ◌+◌, ◌*◌, ◌-◌, ◌^◌, ◌<◌, ◌≤◌, ◌++◌, ◌∷◌, [], length, OnOk, pos};
ghost use Rattle.stack_frames.specs.Frames.{register_of, operand, number_in, gets, gets_operand, gets_both, puts, load, save, pass, fetch, passes, fetches};
ghost use Rattle.stack_lang.specs.declared.syntax.Stmt.TheVariants as stack;
ghost use Rattle.riscv_isa.specs.declared.instr.Instr.TheVariants as instr;
ghost use Rattle.pan_base.specs.declared.operators.LOp.TheVariants.{Ld};
ghost use Rattle.pan_base.specs.declared.operators.SOp.TheVariants.{Sd};

use crate::constants::{put, sum};
use crate::numbering::{FIRST_SLOT, Slots};
use pan_base::{LOp, List, NoMemory, SOp};
use riscv_isa::Instr;
use stack_lang::Stmt;

/// The register of a home, or the one that stands in for its slot.
pub fn register(stand_in: u8, home: u32) -> u8
    ensures { result ≡ register_of stand_in home }
{
    if home < FIRST_SLOT {
        home as u8
    } else {
        stand_in
    }
}

/// The register of an operand of a test, which may be 0.
pub fn operand_register(stand_in: u8, home: Option<u32>) -> u8
    ensures { result ≡ operand stand_in home }
{
    match home {
        None => 0,
        Some(home) => register(stand_in, home),
    }
}

/// Puts what brings the word of a slot to the register that stands in for it.
pub fn put_gets(
    code: &mut List<Stmt>,
    slots: &Slots,
    stand_in: u8,
    home: u32,
) -> Result<(), NoMemory>
    ensures { OnOk result (code.new ≡ code.old ++ gets (number_in slots.now.homes) stand_in home) }
{
    if home >= FIRST_SLOT {
        put(code, Stmt::Get(stand_in, slots.number(home)))?;
    }
    Ok(())
}

/// The same for an operand of a test.
fn put_operand_gets(
    code: &mut List<Stmt>,
    slots: &Slots,
    stand_in: u8,
    home: Option<u32>,
) -> Result<(), NoMemory>
    ensures { OnOk result (code.new ≡ code.old ++ gets_operand (number_in slots.now.homes) stand_in home) }
{
    match home {
        None => Ok(()),
        Some(home) => put_gets(code, slots, stand_in, home),
    }
}

/// The same for both operands of a test.
#[tactic(auto, using(crate::proofs::Rules::row_rules))]
pub fn put_both_gets(
    code: &mut List<Stmt>,
    slots: &Slots,
    left: Option<u32>,
    right: Option<u32>,
) -> Result<(), NoMemory>
    ensures { OnOk result (code.new ≡ code.old ++ gets_both (number_in slots.now.homes) left right) }
{
    put_operand_gets(code, slots, 5, left)?;
    put_operand_gets(code, slots, 6, right)
}

/// Puts what brings a word from the register that stands in for a slot to the slot.
pub fn put_puts(
    code: &mut List<Stmt>,
    slots: &Slots,
    home: u32,
    stand_in: u8,
) -> Result<(), NoMemory>
    ensures { OnOk result (code.new ≡ code.old ++ puts (number_in slots.now.homes) home stand_in) }
{
    if home >= FIRST_SLOT {
        put(code, Stmt::Put(slots.number(home), stand_in))?;
    }
    Ok(())
}

/// A home's word to another register.
fn loaded(slots: &Slots, rd: u8, home: u32) -> Stmt
    ensures { result ≡ load (number_in slots.now.homes) rd home }
{
    if home < FIRST_SLOT {
        sum(rd, home as u8, 0)
    } else {
        Stmt::Get(rd, slots.number(home))
    }
}

/// Another register's word to a home.
fn saved(slots: &Slots, home: u32, rs: u8) -> Stmt
    ensures { result ≡ save (number_in slots.now.homes) home rs }
{
    if home < FIRST_SLOT {
        sum(home as u8, rs, 0)
    } else {
        Stmt::Put(slots.number(home), rs)
    }
}

/// How far from x3 the word of the block stands that is passed at a place from the sixth on.
fn distance(place: u32) -> i32
    requires place { place < 2 ^ 16 }
    requires block { 5 ≤ place }
    ensures { result ≡ pos (8 * (place - 5)) }
{
    (8 * (place - 5)) as i32
}

/// Puts what passes a home's word at a place.
#[tactic(auto, using(crate::proofs::Rules::row_rules))]
fn put_pass(code: &mut List<Stmt>, slots: &Slots, place: u32, home: u32) -> Result<(), NoMemory>
    requires { place < 2 ^ 16 }
    ensures { OnOk result (code.new ≡ code.old ++ pass (number_in slots.now.homes) place home) }
{
    if place < 5 {
        put(code, loaded(slots, 10 + place as u8, home))?;
    } else {
        put_gets(code, slots, 5, home)?;
        put(
            code,
            Stmt::Plain(Instr::S {
                op: SOp::Sd,
                rs1: 3,
                rs2: register(5, home),
                imm: distance(place),
            }),
        )?;
    }
    Ok(())
}

/// Puts what brings the word at a place to a home.
#[tactic(auto, using(crate::proofs::Rules::row_rules))]
fn put_fetch(code: &mut List<Stmt>, slots: &Slots, place: u32, home: u32) -> Result<(), NoMemory>
    requires { place < 2 ^ 16 }
    ensures { OnOk result (code.new ≡ code.old ++ fetch (number_in slots.now.homes) place home) }
{
    if place < 5 {
        put(code, saved(slots, home, 10 + place as u8))?;
    } else {
        put(
            code,
            Stmt::Plain(Instr::L {
                op: LOp::Ld,
                rd: register(5, home),
                rs1: 3,
                imm: distance(place),
            }),
        )?;
        put_puts(code, slots, home, 5)?;
    }
    Ok(())
}

/// Puts what passes the words of homes, in order. In a well-formed program they are at most 64.
#[tactic(auto, using(crate::proofs::Rules::row_rules))]
pub fn put_passes(code: &mut List<Stmt>, slots: &Slots, homes: &[u32]) -> Result<(), NoMemory>
    ensures { OnOk result (code.new ≡ code.old ++ passes (number_in slots.now.homes) 0 homes.now) }
{
    if homes.len() > 65_535 {
        return Err(NoMemory);
    }
    let mut place = 0;
    for home in homes {
        put_pass(code, slots, place, *home)?;
        place += 1;
    }
    Ok(())
}

/// Puts what brings the words that are passed to homes, in order. In a well-formed program they are at most 64.
#[tactic(auto, using(crate::proofs::Rules::row_rules))]
pub fn put_fetches(code: &mut List<Stmt>, slots: &Slots, homes: &[u32]) -> Result<(), NoMemory>
    ensures { OnOk result (code.new ≡ code.old ++ fetches (number_in slots.now.homes) 0 homes.now) }
{
    if homes.len() > 65_535 {
        return Err(NoMemory);
    }
    let mut place = 0;
    for home in homes {
        put_fetch(code, slots, place, *home)?;
        place += 1;
    }
    Ok(())
}

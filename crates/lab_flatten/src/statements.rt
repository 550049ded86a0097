//! From statements to lines.

ghost use Rattle.std.specs.Prelude.{◌≡◌, ◌+◌, ◌^◌, ◌<◌, ◌++◌, map, IfOk};
ghost use Rattle.lab_flatten.specs.Flatten.{flat, row, labels_of, choice_last};

use crate::blocks::{Sides, put_between, put_choice, put_joined, put_loop, put_test};
use crate::emptiness::{is_behind, is_empty};
use crate::rows::{
    put, put_foreign, put_get, put_guard, put_handler, put_off, put_put, put_raise, shared_load,
    shared_store,
};
use lab_lang::Line;
use pan_base::{List, NoMemory};
use stack_lang::Stmt;

/// What the lines of a statement stand in.
#[derive(Clone, Copy)]
pub struct Place {
    /// How many words the frame has before its slots.
    pub front: u64,
    /// The bytes of the frame.
    pub size: u64,
    /// The label of the code that goes to the newest record.
    pub unwind: u32,
    /// The label at which the innermost loop ends.
    pub out: u32,
    /// The label at which its next turn begins.
    pub again: u32,
    /// Whether that turn begins right behind the statement.
    pub last: bool,
}

/// Whether the loop's next turn begins right behind the second side of a choice.
fn last_of(sides: Sides, last: bool) -> bool
    ensures { result ≡ choice_last sides.no_first sides.no_second last }
{
    (sides.no_first || sides.no_second) && last
}

/// The label after so many more. There are fewer labels than instructions, and far fewer of these than a `u32` counts.
pub fn after(label: u32, more: u32) -> Result<u32, NoMemory>
    ensures { IfOk result (λ next. next ≡ label + more) }
{
    match label.checked_add(more) {
        Some(next) => Ok(next),
        None => Err(NoMemory),
    }
}

/// Puts the lines of a statement at the end, where the labels from `free` on are free; the next free label.
#[cycle(flatten)]
#[tactic(auto, using(crate::proofs::Rules::flat_rules))]
pub fn flatten_stmt(
    lines: &mut List<Line>,
    place: Place,
    stmt: &Stmt,
    free: u32,
) -> Result<u32, NoMemory>
    requires front { place.front < 2 ^ 8 }
    requires size { place.size < 2 ^ 40 }
    ensures lines { IfOk result (λ next. lines.new ≡ lines.old ++ (flat place.front place.size place.unwind stmt.now).lines free place.out place.again place.last) }
    ensures labels { IfOk result (λ next. next ≡ free + (flat place.front place.size place.unwind stmt.now).labels) }
{
    match stmt {
        Stmt::Seq(all) => flatten_all(lines, place, all.as_slice(), free),
        Stmt::Plain(instr) => {
            put(lines, Line::Plain(*instr))?;
            Ok(free)
        }
        Stmt::Get(register, slot) => {
            put_get(lines, place.front, *register, *slot)?;
            Ok(free)
        }
        Stmt::Put(slot, register) => {
            put_put(lines, place.front, *slot, *register)?;
            Ok(free)
        }
        Stmt::SharedLoad { size, rd, rs1, imm } => {
            put(lines, shared_load(*size, *rd, *rs1, *imm))?;
            Ok(free)
        }
        Stmt::SharedStore {
            size,
            rs1,
            rs2,
            imm,
        } => {
            put(lines, shared_store(*size, *rs1, *rs2, *imm))?;
            Ok(free)
        }
        Stmt::Foreign(name) => {
            put_foreign(lines, *name)?;
            Ok(free)
        }
        Stmt::If(comparison, left, right, first, second) => {
            let end = after(free, 1)?;
            let start = after(free, 2)?;
            let sides = Sides {
                no_first: is_empty(first.get(), place.last),
                no_second: is_empty(second.get(), place.last),
            };
            let inner = Place {
                last: last_of(sides, place.last),
                ..place
            };
            put_choice(lines, sides, *comparison, *left, *right, free)?;
            let next = flatten_stmt(lines, inner, second.get(), start)?;
            put_between(lines, sides, free, end)?;
            let last = flatten_stmt(lines, place, first.get(), next)?;
            put_joined(lines, sides, free, end)?;
            Ok(last)
        }
        Stmt::While {
            before,
            comparison,
            left,
            right,
            body,
        } => {
            let end = after(free, 1)?;
            let inside = after(free, 2)?;
            let start = after(free, 3)?;
            let no_body = is_empty(body.get(), true);
            let inner = Place {
                out: end,
                again: free,
                last: true,
                ..place
            };
            put_loop(lines, no_body, free, inside)?;
            let next = flatten_stmt(lines, inner, body.get(), start)?;
            put(lines, Line::Label(free))?;
            let outer = Place {
                last: false,
                ..place
            };
            let last = flatten_all(lines, outer, before.as_slice(), next)?;
            put_test(
                lines,
                no_body,
                *comparison,
                *left,
                *right,
                free,
                inside,
                end,
            )?;
            Ok(last)
        }
        Stmt::Break => {
            put(lines, Line::Jump(place.out))?;
            Ok(free)
        }
        Stmt::Continue => {
            if !place.last {
                put(lines, Line::Jump(place.again))?;
            }
            Ok(free)
        }
        Stmt::Call {
            function,
            returned,
            handler,
        } => match handler {
            None => {
                put(lines, Line::CallTo(*function))?;
                flatten_stmt(lines, place, returned.get(), free)
            }
            Some(handler) => {
                let end = after(free, 1)?;
                let start = after(free, 2)?;
                let inner = Place {
                    last: false,
                    ..place
                };
                put_guard(lines, free, *function)?;
                let next = flatten_stmt(lines, inner, returned.get(), start)?;
                put_handler(lines, end, free, handler.exception, place.unwind)?;
                let last = flatten_stmt(lines, place, handler.body.get(), next)?;
                put(lines, Line::Label(end))?;
                Ok(last)
            }
        },
        Stmt::TailCall(function) => {
            put_off(lines, place.front, place.size, Line::Jump(*function))?;
            Ok(free)
        }
        Stmt::Return => {
            put_off(lines, place.front, place.size, Line::JumpReg(1))?;
            Ok(free)
        }
        Stmt::Raise(exception) => {
            put_raise(lines, *exception, place.unwind)?;
            Ok(free)
        }
    }
}

/// The same for statements one after another.
#[cycle(flatten)]
fn flatten_all(
    lines: &mut List<Line>,
    place: Place,
    stmts: &[Stmt],
    free: u32,
) -> Result<u32, NoMemory>
    requires front { place.front < 2 ^ 8 }
    requires size { place.size < 2 ^ 40 }
    ensures lines { IfOk result (λ next. lines.new ≡ lines.old ++ row (map (flat place.front place.size place.unwind) stmts.now) free place.out place.again place.last) }
    ensures labels { IfOk result (λ next. next ≡ free + labels_of (map (flat place.front place.size place.unwind) stmts.now)) }
{
    let mut at = free;
    for i in 0..stmts.len() {
        let here = Place {
            last: is_behind(i, stmts.len(), place.last),
            ..place
        };
        at = flatten_stmt(lines, here, &stmts[i], at)?;
    }
    Ok(at)
}

//! Functions whose variables are homes.

ghost use Rattle.std.specs.Prelude.{◌≡◌, ◌≤◌, length, map, option_map, IfOk};
ghost use Rattle.pan_flow.specs.Functions.{above, variables};
ghost use Rattle.word_lang.specs.Text.{flow_of_function};
ghost use Rattle.reg_alloc.specs.Homes.{home_number};
ghost use Rattle.reg_alloc.specs.Renamed.{rename_test, rename, rename_handler, rename_function};
ghost use Rattle.reg_alloc.specs.Accepts.{Accepts, IsRenamedFunction};

use crate::homes::Colours;
use pan_base::{Blob, Boxed, List, NoMemory};
use pan_stage::Handler;
use std::alloc::Global;
use word_lang::{Stmt, Test, WordFun};

/// The number of a variable's home.
fn renamed(homes: &[u32], x: u32) -> u32
    ensures { result ≡ home_number homes.now x }
{
    match homes.get(x as usize) {
        None => 0,
        Some(home) => *home,
    }
}

fn renamed_operand(homes: &[u32], operand: &Option<u32>) -> Option<u32>
    ensures { result ≡ option_map (home_number homes.now) operand.now }
{
    match operand {
        None => None,
        Some(x) => Some(renamed(homes, *x)),
    }
}

fn renamed_test(homes: &[u32], test: &Test) -> Test
    ensures { result ≡ rename_test (home_number homes.now) test.now }
{
    Test {
        comparison: test.comparison,
        left: renamed_operand(homes, &test.left),
        right: renamed_operand(homes, &test.right),
    }
}

fn all_renamed(alloc: Global, homes: &[u32], xs: &List<u32>) -> Result<List<u32>, NoMemory>
    ensures { IfOk result (λ ys. ys ≡ map (home_number homes.now) xs.now) }
{
    let xs = xs.as_slice();
    let mut all = List::new(alloc);
    for i in 0..xs.len() {
        all.push(renamed(homes, xs[i]))?;
    }
    Ok(all)
}

/// A statement with each variable renamed.
#[cycle(rename)]
#[tactic(auto, using(crate::proofs::RenameRules::rename_rules))]
fn rename_stmt(alloc: Global, homes: &[u32], stmt: &Stmt) -> Result<Stmt, NoMemory>
    ensures { IfOk result (λ s. s ≡ rename (home_number homes.now) stmt.now) }
{
    match stmt {
        Stmt::Skip => Ok(Stmt::Skip),
        Stmt::Seq(all) => Ok(Stmt::Seq(rename_row(alloc, homes, all)?)),
        Stmt::Const(x, n) => Ok(Stmt::Const(renamed(homes, *x), *n)),
        Stmt::Reg(op, x, a, b) => Ok(Stmt::Reg(
            *op,
            renamed(homes, *x),
            renamed(homes, *a),
            renamed(homes, *b),
        )),
        Stmt::Imm(op, x, a, i) => { Ok(Stmt::Imm(*op, renamed(homes, *x), renamed(homes, *a), *i)) }
        Stmt::Sh(op, x, a, n) => Ok(Stmt::Sh(*op, renamed(homes, *x), renamed(homes, *a), *n)),
        Stmt::Load(op, x, a, i) => {
            Ok(Stmt::Load(*op, renamed(homes, *x), renamed(homes, *a), *i))
        }
        Stmt::Store(op, x, a, i) => {
            Ok(Stmt::Store(*op, renamed(homes, *x), renamed(homes, *a), *i))
        }
        Stmt::If(test, first, second) => {
            let first = rename_part(alloc, homes, first)?;
            let second = rename_part(alloc, homes, second)?;
            Ok(Stmt::If(renamed_test(homes, test), first, second))
        }
        Stmt::While { before, test, body } => {
            let before = rename_row(alloc, homes, before)?;
            let test = renamed_test(homes, test);
            let body = rename_part(alloc, homes, body)?;
            Ok(Stmt::While { before, test, body })
        }
        Stmt::Break => Ok(Stmt::Break),
        Stmt::Continue => Ok(Stmt::Continue),
        Stmt::Call {
            results,
            function,
            args,
            handler,
        } => {
            let results = all_renamed(alloc, homes, results)?;
            let function = *function;
            let args = all_renamed(alloc, homes, args)?;
            let handler = rename_catcher(alloc, homes, handler)?;
            Ok(Stmt::Call {
                results,
                function,
                args,
                handler,
            })
        }
        Stmt::TailCall { function, args } => {
            let function = *function;
            let args = all_renamed(alloc, homes, args)?;
            Ok(Stmt::TailCall { function, args })
        }
        Stmt::Return(xs) => Ok(Stmt::Return(all_renamed(alloc, homes, xs)?)),
        Stmt::Raise(i, xs) => Ok(Stmt::Raise(*i, all_renamed(alloc, homes, xs)?)),
        Stmt::SharedLoad(size, x, a, i) => Ok(Stmt::SharedLoad(
            *size,
            renamed(homes, *x),
            renamed(homes, *a),
            *i,
        )),
        Stmt::SharedStore(size, x, a, i) => Ok(Stmt::SharedStore(
            *size,
            renamed(homes, *x),
            renamed(homes, *a),
            *i,
        )),
        Stmt::Foreign(i, conf, conf_len, array, array_len) => Ok(Stmt::Foreign(
            *i,
            renamed(homes, *conf),
            renamed(homes, *conf_len),
            renamed(homes, *array),
            renamed(homes, *array_len),
        )),
    }
}

/// Statements, each with its variables renamed.
#[cycle(rename)]
fn rename_row(alloc: Global, homes: &[u32], all: &List<Stmt>) -> Result<List<Stmt>, NoMemory>
    ensures { IfOk result (λ row. row ≡ map (rename (home_number homes.now)) all.now) }
{
    let all = all.as_slice();
    let mut row = List::new(alloc);
    for i in 0..all.len() {
        row.push(rename_stmt(alloc, homes, &all[i])?)?;
    }
    Ok(row)
}

#[cycle(rename)]
fn rename_part(alloc: Global, homes: &[u32], part: &Boxed<Stmt>) -> Result<Boxed<Stmt>, NoMemory>
    ensures { IfOk result (λ s. s ≡ rename (home_number homes.now) part.now) }
{
    let stmt = rename_stmt(alloc, homes, part.get())?;
    Ok(Boxed::new(alloc, stmt)?)
}

/// What catches an exception, with its variables and those of its body renamed.
#[cycle(rename)]
fn rename_catcher(
    alloc: Global,
    homes: &[u32],
    handler: &Option<Handler<Boxed<Stmt>>>,
) -> Result<Option<Handler<Boxed<Stmt>>>, NoMemory>
    ensures { IfOk result (λ h. h ≡ rename_handler (home_number homes.now) handler.now) }
{
    match handler {
        None => Ok(None),
        Some(handler) => {
            let exception = handler.exception;
            let variables = all_renamed(alloc, homes, &handler.variables)?;
            let body = rename_stmt(alloc, homes, handler.body.get())?;
            let body = Boxed::new(alloc, body)?;
            Ok(Some(Handler {
                exception,
                variables,
                body,
            }))
        }
    }
}

/// The function with each variable renamed to its home, by colours for as many variables as it has, which it accepts: two
/// variables that meet have different homes, and one that is across has a slot. `NoMemory` is the one error.
pub fn apply(alloc: Global, fun: &WordFun, colours: &Colours) -> Result<WordFun, NoMemory>
    requires count { length colours.now.homes ≡ above (variables (flow_of_function fun.now)) }
    requires accepted { Accepts (home_number colours.now.homes) fun.now }
    ensures renamed { IfOk result (λ g. g ≡ rename_function (home_number colours.now.homes) fun.now) }
    ensures homes { IfOk result (λ g. IsRenamedFunction fun.now g) }
{
    let homes = colours.homes.as_slice();
    let name = Blob::from_slice(alloc, fun.name.as_slice())?;
    let params = all_renamed(alloc, homes, &fun.params)?;
    let body = rename_stmt(alloc, homes, &fun.body)?;
    Ok(WordFun {
        name,
        cost: fun.cost,
        params,
        results: fun.results,
        body,
    })
}

//! Statements without the operations whose variable isn't used.

ghost use Rattle.std.specs.Prelude.{◌≡◌, ◌++◌, [], ◌∷◌, IfOk, OnOk};
ghost use Rattle.word_lang.specs.declared.syntax.Stmt.TheVariants as word;
ghost use Rattle.word_select.specs.Pruned.{is_set, where_used, pruned, pruned_row, pruned_handler, pruned_function};

use crate::selection::copied;
use crate::uses::used_flags;
use pan_base::{Boxed, List, NoMemory};
use pan_stage::Handler;
use std::alloc::Global;
use word_lang::{Stmt, Test, WordFun};

fn copied_test(test: &Test) -> Test
    ensures { result ≡ test.now }
{
    Test {
        comparison: test.comparison,
        left: test.left,
        right: test.right,
    }
}

fn add(out: &mut List<Stmt>, stmt: Stmt) -> Result<(), NoMemory>
    ensures { OnOk result (out.new ≡ out.old ++ stmt ∷ []) }
{
    Ok(out.push(stmt)?)
}

/// Adds an operation that only gives this variable a word, where that is used.
fn add_where_used(
    used: &[bool],
    out: &mut List<Stmt>,
    variable: u32,
    stmt: Stmt,
) -> Result<(), NoMemory>
    ensures { OnOk result (out.new ≡ out.old ++ where_used (is_set used.now) variable stmt) }
{
    match used.get(variable as usize) {
        Some(true) => add(out, stmt),
        _ => Ok(()),
    }
}

/// Adds what is left of a statement, by a flag for each variable that is used.
#[cycle(pruned)]
#[tactic(auto, using(crate::proofs::PruneRules::prune_rules))]
fn add_pruned(
    alloc: Global,
    used: &[bool],
    stmt: &Stmt,
    out: &mut List<Stmt>,
) -> Result<(), NoMemory>
    ensures { OnOk result (out.new ≡ out.old ++ pruned (is_set used.now) stmt.now) }
{
    match stmt {
        Stmt::Skip => Ok(()),
        Stmt::Seq(all) => add_pruned_row(alloc, used, all.as_slice(), out),
        Stmt::Const(x, n) => add_where_used(used, out, *x, Stmt::Const(*x, *n)),
        Stmt::Reg(op, x, a, b) => add_where_used(used, out, *x, Stmt::Reg(*op, *x, *a, *b)),
        Stmt::Imm(op, x, a, i) => add_where_used(used, out, *x, Stmt::Imm(*op, *x, *a, *i)),
        Stmt::Sh(op, x, a, n) => add_where_used(used, out, *x, Stmt::Sh(*op, *x, *a, *n)),
        Stmt::Load(op, x, a, i) => add_where_used(used, out, *x, Stmt::Load(*op, *x, *a, *i)),
        Stmt::Store(op, x, a, i) => add(out, Stmt::Store(*op, *x, *a, *i)),
        Stmt::If(test, first, second) => {
            let first = pruned_part(alloc, used, first)?;
            let second = pruned_part(alloc, used, second)?;
            add(out, Stmt::If(copied_test(test), first, second))
        }
        Stmt::While { before, test, body } => {
            let before = pruned_list(alloc, used, before.as_slice())?;
            let test = copied_test(test);
            let body = pruned_part(alloc, used, body)?;
            add(out, Stmt::While { before, test, body })
        }
        Stmt::Break => add(out, Stmt::Break),
        Stmt::Continue => add(out, Stmt::Continue),
        Stmt::Call {
            results,
            function,
            args,
            handler,
        } => {
            let results = copied(alloc, results)?;
            let function = *function;
            let args = copied(alloc, args)?;
            let handler = pruned_catcher(alloc, used, handler)?;
            let call = Stmt::Call {
                results,
                function,
                args,
                handler,
            };
            add(out, call)
        }
        Stmt::TailCall { function, args } => {
            let function = *function;
            let args = copied(alloc, args)?;
            add(out, Stmt::TailCall { function, args })
        }
        Stmt::Return(xs) => add(out, Stmt::Return(copied(alloc, xs)?)),
        Stmt::Raise(i, xs) => add(out, Stmt::Raise(*i, copied(alloc, xs)?)),
        Stmt::SharedLoad(size, x, a, i) => add(out, Stmt::SharedLoad(*size, *x, *a, *i)),
        Stmt::SharedStore(size, x, a, i) => add(out, Stmt::SharedStore(*size, *x, *a, *i)),
        Stmt::Foreign(i, conf, conf_len, array, array_len) => {
            let call = Stmt::Foreign(*i, *conf, *conf_len, *array, *array_len);
            add(out, call)
        }
    }
}

#[cycle(pruned)]
#[tactic(auto, using(crate::proofs::PruneRules::prune_rules))]
fn add_pruned_row(
    alloc: Global,
    used: &[bool],
    all: &[Stmt],
    out: &mut List<Stmt>,
) -> Result<(), NoMemory>
    ensures { OnOk result (out.new ≡ out.old ++ pruned_row (is_set used.now) all.now) }
{
    for i in 0..all.len() {
        add_pruned(alloc, used, &all[i], out)?;
    }
    Ok(())
}

#[cycle(pruned)]
fn pruned_list(alloc: Global, used: &[bool], all: &[Stmt]) -> Result<List<Stmt>, NoMemory>
    ensures { IfOk result (λ row. row ≡ pruned_row (is_set used.now) all.now) }
{
    let mut row = List::new(alloc);
    add_pruned_row(alloc, used, all, &mut row)?;
    Ok(row)
}

#[cycle(pruned)]
fn pruned_seq(alloc: Global, used: &[bool], stmt: &Stmt) -> Result<Stmt, NoMemory>
    ensures { IfOk result (λ s. s ≡ word.Seq (pruned (is_set used.now) stmt.now)) }
{
    let mut row = List::new(alloc);
    add_pruned(alloc, used, stmt, &mut row)?;
    Ok(Stmt::Seq(row))
}

#[cycle(pruned)]
fn pruned_part(alloc: Global, used: &[bool], part: &Boxed<Stmt>) -> Result<Boxed<Stmt>, NoMemory>
    ensures { IfOk result (λ s. s ≡ word.Seq (pruned (is_set used.now) part.now)) }
{
    let stmt = pruned_seq(alloc, used, part.get())?;
    Ok(Boxed::new(alloc, stmt)?)
}

#[cycle(pruned)]
fn pruned_catcher(
    alloc: Global,
    used: &[bool],
    handler: &Option<Handler<Boxed<Stmt>>>,
) -> Result<Option<Handler<Boxed<Stmt>>>, NoMemory>
    ensures { IfOk result (λ h. h ≡ pruned_handler (is_set used.now) handler.now) }
{
    match handler {
        None => Ok(None),
        Some(handler) => {
            let body = pruned_seq(alloc, used, handler.body.get())?;
            Ok(Some(Handler {
                exception: handler.exception,
                variables: copied(alloc, &handler.variables)?,
                body: Boxed::new(alloc, body)?,
            }))
        }
    }
}

/// The function without the operations whose variable nothing in it uses.
#[tactic(auto, using(crate::proofs::PruneRules::pruned_by_flags))]
pub fn prune_function(alloc: Global, f: WordFun) -> Result<WordFun, NoMemory>
    ensures { IfOk result (λ g. g ≡ pruned_function f) }
{
    let used = used_flags(alloc, &f.body)?;
    let body = pruned_seq(alloc, used.as_slice(), &f.body)?;
    Ok(WordFun {
        name: f.name,
        cost: f.cost,
        params: f.params,
        results: f.results,
        body,
    })
}

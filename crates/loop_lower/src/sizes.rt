//! How many temporaries a statement needs, and where they stand.

ghost use Rattle.std.specs.Prelude.{◌≡◌, ◌≤◌, ◌+◌, [], ◌∷◌, max};
ghost use Rattle.crep_lang.specs.Needs.{temporaries, row_temporaries};
ghost use Rattle.crep_lang.specs.Steps.{expr_steps, row_steps};
ghost use Rattle.loop_lower.specs.Lowered.{most_words, capped, plan};

use crate::places::Plan;
use crep_lang::Expr;

/// How many temporaries are enough, each at most 1,048,576.
#[derive(Clone, Copy, Drop)]
pub struct Sizes {
    /// Where each result stands apart from its operands.
    pub many: u32,
    /// Where a result stands where its first operand did.
    pub few: u32,
}

/// The number, or 1,048,576 where it is more.
pub fn at_most(n: u32) -> u32
    ensures { result ≡ capped n }
{
    if n < 1048576 { n } else { 1048576 }
}

/// What is needed with an operator of one operand, which is worth so many.
fn with_one(of: Sizes, own: u32) -> Sizes
    requires own { own ≤ 3 }
    requires many { of.many ≤ most_words }
    ensures many { result.many ≡ capped (own + of.many) }
    ensures few { result.few ≡ of.few }
{
    Sizes {
        many: at_most(own + of.many),
        few: of.few,
    }
}

/// What is needed with an operator of two, whose second operand needs what stands to the right.
fn with_two(left: Sizes, right: Sizes, own: u32) -> Sizes
    requires own { own ≤ 3 }
    requires left { left.many ≤ most_words }
    requires right { right.many ≤ most_words }
    requires right_few { right.few ≤ most_words }
    ensures many { result.many ≡ capped (own + left.many + right.many) }
    ensures few { result.few ≡ capped (max left.few (1 + right.few)) }
{
    let behind = 1 + right.few;
    let few = if left.few < behind { behind } else { left.few };
    Sizes {
        many: at_most(own + left.many + right.many),
        few: at_most(few),
    }
}

/// How many temporaries an expression needs. First operands are followed in a loop.
#[tactic(auto, using(crate::proofs::SizeRules::size_rules))]
pub fn sizes_of(expr: &Expr) -> Sizes
    ensures many { result.many ≡ capped (expr_steps expr.now) }
    ensures few { result.few ≡ capped (temporaries expr.now) }
{
    let nothing = Sizes { many: 0, few: 0 };
    let mut behind = nothing;
    let mut rest = expr;
    'operands: loop {
        match rest {
            Expr::Num(_) => return with_two(behind, nothing, 1),
            Expr::Var(_) => return with_two(behind, nothing, 1),
            Expr::LoadWord(address) => {
                behind = with_one(behind, 1);
                rest = address.get();
            }
            Expr::LoadByte(address) => {
                behind = with_one(behind, 1);
                rest = address.get();
            }
            Expr::Bin(_, left, right) => {
                behind = with_two(behind, sizes_of(right.get()), 1);
                rest = left.get();
            }
            Expr::Shift(_, of, _) => {
                behind = with_one(behind, 3);
                rest = of.get();
            }
            Expr::Compare(_, left, right) => {
                behind = with_two(behind, sizes_of(right.get()), 3);
                rest = left.get();
            }
        }
    }
}

/// What a row needs, of which an expression of these sizes stands in front.
fn in_front(first: Sizes, rest: Sizes) -> Sizes
    requires first { first.many ≤ most_words }
    requires rest { rest.many ≤ most_words }
    requires rest_few { rest.few ≤ most_words }
    ensures many { result.many ≡ capped (1 + first.many + rest.many) }
    ensures few { result.few ≡ capped (max first.few (1 + rest.few)) }
{
    with_two(first, rest, 1)
}

/// What a row of one needs.
pub fn sizes_of_one(expr: &Expr) -> Sizes
    ensures many { result.many ≡ capped (row_steps (expr.now ∷ [])) }
    ensures few { result.few ≡ capped (row_temporaries (expr.now ∷ [])) }
{
    in_front(sizes_of(expr), Sizes { many: 0, few: 0 })
}

/// What a row of two needs.
pub fn sizes_of_two(first: &Expr, second: &Expr) -> Sizes
    ensures many { result.many ≡ capped (row_steps (first.now ∷ second.now ∷ [])) }
    ensures few { result.few ≡ capped (row_temporaries (first.now ∷ second.now ∷ [])) }
{
    in_front(sizes_of(first), sizes_of_one(second))
}

/// What a row of four needs.
pub fn sizes_of_four(a: &Expr, b: &Expr, c: &Expr, d: &Expr) -> Sizes
    ensures many { result.many ≡ capped (row_steps (a.now ∷ b.now ∷ c.now ∷ d.now ∷ [])) }
    ensures few { result.few ≡ capped (row_temporaries (a.now ∷ b.now ∷ c.now ∷ d.now ∷ [])) }
{
    in_front(sizes_of(a), in_front(sizes_of(b), sizes_of_two(c, d)))
}

/// What a row needs.
pub fn sizes_of_row(exprs: &[Expr]) -> Sizes
    ensures many { result.many ≡ capped (row_steps exprs.now) }
    ensures few { result.few ≡ capped (row_temporaries exprs.now) }
{
    let mut row = Sizes { many: 0, few: 0 };
    for i in 0..exprs.len() {
        let left = exprs.len() - 1 - i;
        row = in_front(sizes_of(&exprs[left]), row);
    }
    row
}

/// Where the temporaries of a statement of these sizes stand. Each result has one of its own while there is room for that.
pub fn next_start(limit: u32, base: u32, next: u32, sizes: Sizes) -> Plan
    ensures { result ≡ plan limit base next sizes.many sizes.few }
{
    let many = next as u64 + sizes.many as u64;
    let few = next as u64 + sizes.few as u64;
    if many <= limit as u64 {
        Plan {
            apart: true,
            start: next,
            next: many as u32,
        }
    } else if few <= limit as u64 {
        Plan {
            apart: false,
            start: next,
            next: few as u32,
        }
    } else {
        Plan {
            apart: false,
            start: base,
            next,
        }
    }
}

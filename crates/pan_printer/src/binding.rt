//! How tightly expressions bind.

ghost use Rattle.std.specs.Prelude.{◌≡◌, nat_lt};
ghost use Rattle.pan_printer.specs.Expressions.{rank, tighter, operator_binding, chain_binding};

use pan_base::BinOp;
use pan_tree::Expr;

/// How tightly an expression binds: from a comparison, the loosest, to what needs no parentheses anywhere.
#[derive(Clone, Copy, Debug, PartialEq, Eq)]
pub enum Binding {
    /// A comparison.
    Comparison,
    /// A chain of `|`.
    Or,
    /// A chain of `^`.
    Xor,
    /// A chain of `&`.
    And,
    /// A shift.
    Shift,
    /// A chain of `+` and `-`.
    Sum,
    /// A chain of `*`.
    Product,
    /// An expression that begins with `-`, `lds` or `ldb`.
    Unary,
    /// A field of a struct.
    Field,
    /// A number, a name, `@base`, `@biw` or a struct.
    Primary,
}

impl Binding {
    /// The place of the binding in their order.
    fn rank(self) -> u8
        ensures { result ≡ rank self }
    {
        match self {
            Binding::Comparison => 0,
            Binding::Or => 1,
            Binding::Xor => 2,
            Binding::And => 3,
            Binding::Shift => 4,
            Binding::Sum => 5,
            Binding::Product => 6,
            Binding::Unary => 7,
            Binding::Field => 8,
            Binding::Primary => 9,
        }
    }

    /// Whether it binds less tightly than the other.
    pub fn is_looser(self, other: Binding) -> bool
        ensures { result ≡ nat_lt (rank self) (rank other) }
    {
        self.rank() < other.rank()
    }

    /// The next tighter binding, of which the parts of a comparison, a chain, a shift or a field are at least.
    pub fn tighter(self) -> Binding
        ensures { result ≡ tighter self }
    {
        match self {
            Binding::Comparison => Binding::Or,
            Binding::Or => Binding::Xor,
            Binding::Xor => Binding::And,
            Binding::And => Binding::Shift,
            Binding::Shift => Binding::Sum,
            Binding::Sum => Binding::Product,
            Binding::Product => Binding::Unary,
            Binding::Unary => Binding::Field,
            Binding::Field | Binding::Primary => Binding::Primary,
        }
    }

    /// How a chain of the operator binds.
    fn of_operator(operator: BinOp) -> Binding
        ensures { result ≡ operator_binding operator }
    {
        match operator {
            BinOp::Add | BinOp::Sub => Binding::Sum,
            BinOp::Mul => Binding::Product,
            BinOp::And => Binding::And,
            BinOp::Or => Binding::Or,
            BinOp::Xor => Binding::Xor,
        }
    }

    /// How a chain of these operators binds.
    pub fn of_chain(terms: &[(BinOp, Expr)]) -> Binding
        ensures { result ≡ chain_binding terms.now }
    {
        match terms {
            [(operator, _), ..] => Binding::of_operator(*operator),
            [] => Binding::Primary,
        }
    }
}

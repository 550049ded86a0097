//! What follows from the check's rules for what expressions, statements and programs do, on calls that do nothing.

ghost use Rattle.std.specs.Prelude.{◌≡◌, ℕ, ◌%◌, List, [], Some, None, true, false, slice_get, codes};
ghost use Rattle.pan_base.specs.Events.{Replied, Ending, Fails};
ghost use Rattle.pan_control.specs.Control.{Over};
ghost use Rattle.pan_control.specs.Memory.{with_byte};
ghost use Rattle.pan_tree.specs.Running.{World};
ghost use Rattle.pan_tree.specs.Nodes.{Expr};
ghost use Rattle.pan_tree.specs.Scopes.{innermost};
ghost use Rattle.pan_tree.specs.Check.{Scopes as Checked, Context, State, judged, IsWellShaped};
ghost use Rattle.pan_tree.specs.Meaning.{Scopes, Does, value, own_weight, expr_weight, word, function_index, source};
ghost use Rattle.pan_tree.specs.declared.shape.Shape.{Shape};
ghost use Rattle.pan_tree.specs.declared.syntax.ExprKind.TheVariants as expr;
ghost use Rattle.pan_tree.specs.declared.syntax.StmtKind.{StmtKind, StmtKind-F};
ghost use Rattle.pan_tree.specs.declared.syntax.StmtKind.TheOpen as stmt;
ghost use Rattle.pan_tree.specs.declared.program.Function.{Function};
ghost use Rattle.pan_tree.specs.declared.program.Program.{Program};
ghost use Rattle.check_soundness.specs.Spread.{HaveShapes};
ghost use Rattle.check_soundness.specs.FailingSteps.{MakesFailingStep, FailsByStep, ShapedOr};
ghost use Rattle.check_soundness.specs.Guarded.{own_done, breaks_nothing, alone, guarded, seen_so};

/// From variables of the shapes that the check knows, an expression that breaks no rule gives a value of the shape that the
/// check gives it, or makes a failing step; and whatever makes a failing step gives nothing.
pub fn expressions_keep_shapes()
    ensures shaped { (e : Expr) (checked : Checked) (variables : Scopes) (memory : List ℕ)
        → HaveShapes checked variables → (judged e checked).breaks ≡ []
        → ShapedOr (MakesFailingStep variables memory e.kind) (judged e checked).shape (value e variables memory) }
    ensures nothing { (e : Expr) (variables : Scopes) (memory : List ℕ)
        → MakesFailingStep variables memory e.kind → value e variables memory ≡ None }
{}

/// A statement that breaks no rule with the shapes that its variables have when it is reached fails by itself only by a
/// failing step: an expression's, or of its own at memory or the window. And every statement that makes a failing step, also
/// one that breaks a rule, fails by itself, with the world as it was.
pub fn statements_fail_by_steps()
    ensures only { (program : Program) (result : Shape) (statement : StmtKind-F Does) (variables : Scopes) (world end : World)
        → breaks_nothing program result statement variables ≡ true
        → alone program statement variables world ≡ Over Fails end
        → FailsByStep variables world.memory statement }
    ensures always { (program : Program) (statement : StmtKind-F Does) (variables : Scopes) (world : World)
        → FailsByStep variables world.memory statement
        → alone program statement variables world ≡ Over Fails world }
{}

/// A run of a program that keeps every rule comes to nothing that the check rules out, and fails only where a statement that
/// breaks no rule fails by itself. Said with two ends, `ill` and `halt`, which may be any: if runs ended `ill` where they come
/// to what the check rules out, and `halt` where such a statement fails by itself, then what is seen of this program would be
/// the same but for `halt` in the place of `Fails`.
pub fn checked_programs_are_guarded()
    ensures { (ill halt : Ending) (program : Program) (memory : List ℕ) (replies : List Replied) (fuel : ℕ)
        → IsWellShaped program
        → guarded ill halt program memory replies fuel ≡ seen_so halt (source program memory replies fuel) }
{}

/// Where variables have the shapes that the check knows, the work of a statement is the weight that the check gives it, both
/// without the statement's blocks; and the work of each further test of a loop is the weight of the loop's condition.
pub fn work_is_weight()
    ensures statement { (context : Context) (place : ℕ) (state : State) (statement : StmtKind-F StmtKind) (variables : Scopes)
        → HaveShapes state.scopes variables
        → own_weight context.program statement variables ≡ (own_done statement context place state).weight }
    ensures test { (condition : Expr) (checked : Checked) (variables : Scopes)
        → HaveShapes checked variables → expr_weight condition variables ≡ (judged condition checked).weight }
{}

/// What the definitions above refuse. To give an unknown variable a value breaks a rule, and a main whose body is empty ends
/// ill; a byte store outside local memory fails by itself; a statement that does nothing makes no failing step, and neither
/// does an unknown variable, which gives nothing.
pub fn refuses_what_is_ill()
    ensures unknown { (program : Program) (result : Shape) (name : List ℕ) (e : Expr) (variables : Scopes)
        → innermost name variables ≡ None → breaks_nothing {A = Does} program result (stmt.Assign name e) variables ≡ false }
    ensures falls_off { (ill halt : Ending) (program : Program) (number : ℕ) (main : Function) (memory : List ℕ) (replies : List Replied) (fuel : ℕ)
        → function_index (codes "main") program ≡ Some number → slice_get program.functions number ≡ Some main
        → main.params ≡ [] → (main.body).stmts ≡ []
        → ((guarded ill halt program memory replies fuel).behaviour).ending ≡ ill }
    ensures outside { (program : Program) (address value : Expr) (variables : Scopes) (world : World) (at byte : ℕ)
        → word address variables world.memory ≡ Some at → word value variables world.memory ≡ Some byte
        → with_byte world.memory at (byte % 256) ≡ None
        → alone {A = Does} program (stmt.StoreByte address value) variables world ≡ Over Fails world }
    ensures harmless { (variables : Scopes) (memory : List ℕ) → FailsByStep {A = Does} variables memory stmt.Skip → ⊥ }
    ensures nothing { (variables : Scopes) (memory : List ℕ) (name : List ℕ) → MakesFailingStep variables memory (expr.Var name) → ⊥ }
{}

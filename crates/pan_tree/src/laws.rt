//! What follows from the meaning, on calls that do nothing.

ghost use Rattle.std.specs.Prelude.{◌≡◌, true, ℕ, ◌+◌, List, ◌++◌};
ghost use Rattle.pan_base.specs.Events.{Replied};
ghost use Rattle.pan_tree.specs.Meaning.{Does, run_kind, run_layer, source};
ghost use Rattle.pan_tree.specs.GoesOn.{GoesOn};
ghost use Rattle.pan_tree.specs.Ends.{IsSourceLike};
ghost use Rattle.pan_tree.specs.InOrder.{TakesInOrder};
ghost use Rattle.pan_tree.specs.Running.{Callee};
ghost use Rattle.pan_tree.specs.Shapes.{words_of, is_word, same};
ghost use Rattle.pan_tree.specs.Value.{Value};
ghost use Rattle.pan_tree.specs.declared.shape.Shape.{Shape};
ghost use Rattle.pan_tree.specs.declared.syntax.StmtKind.{StmtKind, StmtKind-F, roll-StmtKind, map-StmtKind};
ghost use Rattle.pan_tree.specs.declared.program.Program.{Program};

/// With more fuel and later replies the trace of a program grows, a real end stays with all that is seen, and a program that
/// asked goes on from its request.
pub fn source_goes_on()
    ensures { (program : Program) (memory : List ℕ) (replies later : List Replied) (n more : ℕ) → GoesOn later (source program memory replies n) (source program memory (replies ++ later) (n + more)) }
{}

/// No program, whatever its memory and the replies, meets a fault or the end of a stack: these are the machine's.
pub fn source_meets_no_limit()
    ensures { (program : Program) (memory : List ℕ) (replies : List Replied) → IsSourceLike (source program memory replies) }
{}

/// A program takes its replies in order, and what stands behind those that it took makes no difference, but where it asks.
pub fn source_takes_in_order()
    ensures { (program : Program) (memory : List ℕ) (n : ℕ) → TakesInOrder (λ replies. (source program memory replies n).behaviour) }
{}

/// What a statement does is what it does from what its parts do.
pub fn statements_mean_by_parts()
    ensures { (program : Program) (turns : ℕ) (callee : Callee (List Value) Value) (statement : StmtKind-F StmtKind)
        → run_kind program turns callee (roll-StmtKind statement) ≡ run_layer program turns callee (map-StmtKind StmtKind Does (run_kind program turns callee) statement) }
{}

/// A word has one word, is one, and has the shape of whatever is one.
pub fn word_is_one()
    ensures words { words_of Shape.Word ≡ 1 }
    ensures word { is_word Shape.Word ≡ true }
    ensures alike { (shape : Shape) → same Shape.Word shape ≡ is_word shape }
{}

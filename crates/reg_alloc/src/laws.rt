//! Laws of homes and of renaming, each on a call that does nothing.

ghost use Rattle.std.specs.Prelude.{◌≡◌, ◌≢◌, ◌<◌, ◌≤◌, ℕ, List, length};
ghost use Rattle.pan_flow.specs.Functions.{above, variables};
ghost use Rattle.pan_stage.specs.Stage.{Keeps};
ghost use Rattle.pan_stage.specs.declared.program.Program.{Program};
ghost use Rattle.word_lang.specs.Homes.{first_slot, AreOverHomes};
ghost use Rattle.word_lang.specs.Stage.{stage};
ghost use Rattle.word_lang.specs.Text.{flow_of_function};
ghost use Rattle.word_lang.specs.WellFormed.{IsWellFormed};
ghost use Rattle.word_lang.specs.declared.syntax.WordFun.{WordFun};
ghost use Rattle.reg_alloc.specs.Homes.{home_number};
ghost use Rattle.reg_alloc.specs.Accepts.{Accepts, IsRenamed};

/// Homes for as many variables as a function has, all of them slots and no two the same, are accepted.
pub fn different_slots_are_accepted()
    ensures { (homes : List ℕ) (f : WordFun) → length homes ≡ above (variables (flow_of_function f))
        → ((a b : ℕ) → a < length homes → b < length homes → a ≢ b → home_number homes a ≢ home_number homes b)
        → ((v : ℕ) → v < length homes → first_slot ≤ home_number homes v) → Accepts (home_number homes) f }
{}

/// A program each of whose functions is renamed by homes that it accepts does what the program does, wherever that doesn't
/// fail, shows the same, and needs no more.
pub fn renaming_keeps()
    ensures { (p q : Program WordFun) → IsRenamed p q → Keeps (stage p) (stage q) }
{}

/// Where the program is well formed, the renamed one is so too, and its variables are homes.
pub fn renamed_is_well_formed()
    ensures { (p q : Program WordFun) → IsRenamed p q → IsWellFormed p → IsWellFormed q × AreOverHomes q }
{}

//! The law of the whole chain of passes, on a call that does nothing.

ghost use Rattle.std.specs.Prelude.{ℕ, List};
ghost use Rattle.pan_base.specs.Events.{Replied};
ghost use Rattle.pan_base.specs.Lawful.{IsLawfulMemory, IsLawfulStack};
ghost use Rattle.pan_control.specs.Seen.{Seen};
ghost use Rattle.pan_stage.specs.Room.{HasRoom};
ghost use Rattle.pan_stage.specs.Stage.{Site, Face, Stage, Keeps, StackStage, KeepsOverStack, StepStage, KeepsInSteps, InSteps, Executes, RunsInSteps};
ghost use Rattle.pan_tree.specs.Meaning.{source};
ghost use Rattle.pan_tree.specs.declared.program.Program.{Program};
ghost use Rattle.riscv_isa.specs.Image.{ImageParts, ImageOf};
ghost use Rattle.pan_agree.specs.Laws.{ForwardWithin};
ghost use Rattle.pan_agree.specs.Faithful.{Faithful};
ghost use Rattle.pan_chain.specs.Whole.{most_instructions, source_stage, machine_of};

use pan_agree::both_ways;
use pan_tree::source_meets_no_limit;
use riscv_isa::machine_goes_on;

/// Where every pass keeps what it is given, the machine does all that the source does in as many steps as its work allows,
/// and so the image is faithful to the program. `passes` joins two passes that know no stack, `room` says that what one gives has
/// room where what it was given has, `frames` joins one with the pass onto a stack, and `lines` that pass with the ones to lines and to an image; `within` gives the number of steps, and `faithful`
/// the whole.
pub fn chain()
    ensures passes { (a b c : Stage) → Keeps a b → Keeps b c → Keeps a c }
    ensures room { (a b : Stage) → Keeps a b → HasRoom (a.face).costs a.needs → HasRoom (b.face).costs b.needs }
    ensures frames { (a b : Stage) (c : StackStage) → Keeps a b → KeepsOverStack b c → KeepsOverStack a c }
    ensures lines { (a : Stage) (b : StackStage) (c : StepStage) (machine : InSteps)
        → KeepsOverStack a b → KeepsInSteps b c → Executes c machine → RunsInSteps a machine }
    ensures within { (face : Face) (sites : List (List Site)) (first : List ℕ → List Replied → ℕ → Seen) (machine : InSteps)
        → RunsInSteps (source_stage face sites first) machine
        → (stack : ℕ) (memory : List ℕ) (replies : List Replied) → IsLawfulStack stack → IsLawfulMemory memory
        → ForwardWithin stack (most_instructions (first memory replies)) (first memory replies) (machine stack memory replies) }
    ensures faithful { (program : Program) (image : List ℕ) (parts : ImageParts) (face : Face) (sites : List (List Site))
        (a : Stage) (b : StackStage) (c : StepStage)
        → Keeps (source_stage face sites (source program)) a → KeepsOverStack a b → KeepsInSteps b c
        → Executes c (machine_of parts) → ImageOf image parts → Faithful program image parts }
{
    both_ways();
    source_meets_no_limit();
    machine_goes_on();
}

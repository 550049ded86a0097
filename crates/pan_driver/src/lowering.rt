//! The passes one after another: to operations, to homes, and to code.

ghost use Rattle.std.specs.Prelude.{◌≡◌, ℕ, List, IfOk};
ghost use Rattle.std.specs.List.{AllZip};
ghost use Rattle.pan_stage.specs.Programs.{with_functions};
ghost use Rattle.pan_stage.specs.Stage.{Keeps, KeepsOverStack, KeepsInSteps};
ghost use Rattle.crep_flatten.specs.Source as source_stages;
ghost use Rattle.crep_lang.specs.Stage as crep_stages;
ghost use Rattle.loop_lang.specs.Stage as loop_stages;
ghost use Rattle.word_lang.specs.Homes.{AreOverHomes};
ghost use Rattle.word_lang.specs.Stage as word_stages;
ghost use Rattle.stack_bound.specs.Bounds.{IsAnswer};
ghost use Rattle.stack_lang.specs.Stage as stack_stages;
ghost use Rattle.lab_lang.specs.Layout.{IsLayout};
ghost use Rattle.lab_lang.specs.Meaning.{behaviour};
ghost use Rattle.lab_lang.specs.Stage as lab_stages;
ghost use Rattle.lab_flatten.specs.Contract.{RunsOnFuel};
ghost use Rattle.lab_link.specs.Linked.{IsLinked};
ghost use Rattle.pan_driver.specs.Chained.{AreColoursOf, renamed, AreChained};
ghost use Rattle.pan_driver.specs.Joined.{joined, IsRear};

use crate::allocating::{over_homes, slots_of_all};
use crate::built::Stages;
use crep_flatten::flatten;
use crep_lang::CrepProg;
use lab_flatten::flatten_code;
use lab_lang::LabProg;
use lab_link::link;
use loop_lang::LoopProg;
use loop_lower::lower;
use pan_base::{List, NoMemory};
use pan_shapes::Checked;
use reg_alloc::Colours;
use riscv_isa::Code;
use stack_bound::bound;
use stack_bound::types::Bound;
use stack_frames::frames;
use stack_lang::StackProg;
use std::alloc::Global;
use word_lang::WordProg;
use word_select::select;

/// The stages that know neither homes nor frames.
#[derive(Drop)]
pub(crate) struct Front {
    pub(crate) crep: CrepProg,
    pub(crate) loops: LoopProg,
    pub(crate) words: WordProg,
}

/// Homes, and the program over them.
#[derive(Drop)]
pub(crate) struct Middle {
    pub(crate) colours: List<Colours>,
    pub(crate) homes: WordProg,
}

/// The stages over the machine.
#[derive(Drop)]
pub(crate) struct Back {
    pub(crate) stack: StackProg,
    pub(crate) bound: Bound,
    pub(crate) lab: LabProg,
    pub(crate) code: Code,
}

/// The stages behind operations.
#[derive(Drop)]
pub(crate) struct Rear {
    pub(crate) middle: Middle,
    pub(crate) back: Back,
}

/// All stages behind a checked program.
#[derive(Drop)]
pub(crate) struct Lowered {
    pub(crate) front: Front,
    pub(crate) rear: Rear,
}

/// From a checked program to operations. `NoMemory` is the one error.
fn front_of(alloc: Global, checked: &Checked) -> Result<Front, NoMemory>
    ensures crep { IfOk result (λ front. Keeps (source_stages.stage checked.now) (crep_stages.stage front.crep.program)) }
    ensures loops { IfOk result (λ front. Keeps (crep_stages.stage front.crep.program) (loop_stages.stage front.loops.program)) }
    ensures words { IfOk result (λ front. Keeps (loop_stages.stage front.loops.program) (word_stages.stage front.words.program)) }
{
    let crep = flatten(alloc, checked)?;
    let loops = lower(alloc, &crep)?;
    let words = select(alloc, &loops)?;
    Ok(Front { crep, loops, words })
}

/// Homes for all variables. `NoMemory` is the one error.
fn middle_of(alloc: Global, words: &WordProg) -> Result<Middle, NoMemory>
    ensures colours { IfOk result (λ middle. AllZip AreColoursOf words.now.program.functions middle.colours) }
    ensures homes { IfOk result (λ middle. middle.homes.program ≡ with_functions words.now.program (renamed words.now.program.functions middle.colours)) }
    ensures over_homes { IfOk result (λ middle. AreOverHomes middle.homes.program) }
{
    let colours = slots_of_all(alloc, words.program.functions.as_slice())?;
    let homes = over_homes(alloc, words, colours.as_slice())?;
    Ok(Middle { colours, homes })
}

/// From a program over homes to code. `NoMemory` is the one error.
fn back_of(alloc: Global, homes: &WordProg) -> Result<Back, NoMemory>
    requires { AreOverHomes homes.now.program }
    ensures stack { IfOk result (λ back. KeepsOverStack (word_stages.stage homes.now.program) (stack_stages.stage back.stack.program)) }
    ensures bound { IfOk result (λ back. IsAnswer back.stack.program back.bound) }
    ensures lab { IfOk result (λ back. (layout : List (ℕ × ℕ)) → IsLayout 0 back.lab.lines layout → KeepsInSteps (stack_stages.stage back.stack.program) (lab_stages.stage back.lab.program back.lab.lines layout)) }
    ensures fuel { IfOk result (λ back. (layout : List (ℕ × ℕ)) → IsLayout 0 back.lab.lines layout → RunsOnFuel back.stack.program (behaviour back.lab.program back.lab.lines layout)) }
    ensures code { IfOk result (λ back. IsLinked back.lab.program back.lab.lines back.code.layout back.code.bytes) }
{
    let stack = frames(alloc, homes)?;
    let bound = bound(alloc, &stack)?;
    let lab = flatten_code(alloc, &stack)?;
    let code = link(alloc, &lab)?;
    Ok(Back {
        stack,
        bound,
        lab,
        code,
    })
}

/// From operations to code. `NoMemory` is the one error.
fn rear_of(alloc: Global, words: &WordProg) -> Result<Rear, NoMemory>
    ensures { IfOk result (λ rear. IsRear words.now rear) }
{
    let middle = middle_of(alloc, words)?;
    let back = back_of(alloc, &middle.homes)?;
    Ok(Rear { middle, back })
}

/// All stages behind a checked program. `NoMemory` is the one error.
pub(crate) fn lowered_of(alloc: Global, checked: &Checked) -> Result<Lowered, NoMemory>
    ensures { IfOk result (λ lowered. AreChained (joined checked.now lowered)) }
{
    let front = front_of(alloc, checked)?;
    let rear = rear_of(alloc, &front.words)?;
    Ok(Lowered { front, rear })
}

impl Lowered {
    /// All stages of a checked program.
    pub(crate) fn join(self, checked: Checked) -> Stages
        ensures { result ≡ joined checked self }
    {
        Stages {
            checked,
            crep: self.front.crep,
            loops: self.front.loops,
            words: self.front.words,
            colours: self.rear.middle.colours,
            homes: self.rear.middle.homes,
            stack: self.rear.back.stack,
            bound: self.rear.back.bound,
            lab: self.rear.back.lab,
            code: self.rear.back.code,
        }
    }
}

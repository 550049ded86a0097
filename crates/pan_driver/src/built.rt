//! What a build gives: the image, and each stage on the way to it.

ghost use Rattle.std.specs.Prelude.{◌≡◌};
ghost use Rattle.pan_driver.specs.Chained.{bytes_of, parts};

use crep_lang::CrepProg;
use lab_lang::LabProg;
use loop_lang::LoopProg;
use pan_base::{Blob, List};
use pan_shapes::Checked;
use reg_alloc::Colours;
use riscv_isa::Code;
use stack_bound::types::Bound;
use stack_lang::StackProg;
use word_lang::WordProg;

/// The program in each language of the compiler, from the checked source to the code.
#[derive(Drop)]
pub struct Stages {
    pub(crate) checked: Checked,
    pub(crate) crep: CrepProg,
    pub(crate) loops: LoopProg,
    pub(crate) words: WordProg,
    /// Those of each function of the words.
    pub(crate) colours: List<Colours>,
    /// The words over homes.
    pub(crate) homes: WordProg,
    pub(crate) stack: StackProg,
    /// What the program over frames takes of a stack.
    pub(crate) bound: Bound,
    pub(crate) lab: LabProg,
    pub(crate) code: Code,
}

impl Stages {
    /// The bytes of stack that suffice, where the calls have no cycle.
    pub(crate) fn bytes(&self) -> Option<u64>
        ensures { result ≡ bytes_of self.now.bound }
    {
        match &self.bound {
            Bound::Bytes(bytes) => Some(*bytes),
            Bound::Cycle(_) => None,
        }
    }
}

/// An image, and the stages that it was built in.
#[derive(Drop)]
pub struct Built {
    pub(crate) stages: Stages,
    pub(crate) image: Blob,
}

impl Built {
    /// The bytes of the image.
    pub fn image(&self) -> &[u8]
        ensures { result.now ≡ self.now.image }
    {
        self.image.as_slice()
    }

    /// The source's program, which keeps every rule.
    pub fn checked(&self) -> &Checked
        ensures { result.now ≡ self.now.stages.checked }
    {
        &self.stages.checked
    }

    /// The program in words, without structs.
    pub fn crep(&self) -> &CrepProg
        ensures { result.now ≡ self.now.stages.crep }
    {
        &self.stages.crep
    }

    /// The program in steps between variables.
    pub fn loops(&self) -> &LoopProg
        ensures { result.now ≡ self.now.stages.loops }
    {
        &self.stages.loops
    }

    /// The program in operations of the instruction table.
    pub fn words(&self) -> &WordProg
        ensures { result.now ≡ self.now.stages.words }
    {
        &self.stages.words
    }

    /// The homes of variables, for each function of `words` in order.
    pub fn colours(&self) -> &List<Colours>
        ensures { result.now ≡ self.now.stages.colours }
    {
        &self.stages.colours
    }

    /// The program in operations on homes.
    pub fn homes(&self) -> &WordProg
        ensures { result.now ≡ self.now.stages.homes }
    {
        &self.stages.homes
    }

    /// The program over frames.
    pub fn stack(&self) -> &StackProg
        ensures { result.now ≡ self.now.stages.stack }
    {
        &self.stages.stack
    }

    /// The bytes of stack that suffice for the image where the source makes no failing step, or a cycle of its calls, for
    /// which there is no such number.
    pub fn bound(&self) -> &Bound
        ensures { result.now ≡ self.now.stages.bound }
    {
        &self.stages.bound
    }

    /// The bytes of stack that suffice for the image where the source makes no failing step; none where its calls have a
    /// cycle.
    pub fn bytes(&self) -> Option<u64>
        ensures { result ≡ (parts self.now.stages).bound }
    {
        self.stages.bytes()
    }

    /// The program in lines.
    pub fn lab(&self) -> &LabProg
        ensures { result.now ≡ self.now.stages.lab }
    {
        &self.stages.lab
    }

    /// The linked code of the image, and where each line stands in it.
    pub fn code(&self) -> &Code
        ensures { result.now ≡ self.now.stages.code }
    {
        &self.stages.code
    }
}

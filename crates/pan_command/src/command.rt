//! The top call.

ghost use Rattle.std.specs.Prelude.{◌≡◌, ◌⊎◌, List, ℕ, codes};
ghost use Rattle.command_words.specs.Words.{IsSize};
ghost use Rattle.command_words.specs.declared.order.Action.TheVariants.{Compile, Check, Run, Meaning, Show, Dis, Bound};
ghost use Rattle.command_words.specs.declared.order.Options.{Options as IsOptions};
ghost use Rattle.pan_command.specs.declared.status.Status.{Status as IsStatus};
ghost use Rattle.pan_command.specs.Status.{code};
ghost use Rattle.pan_command.specs.Outside.{the_call, NoFileChanged, IsPut, WriteFailed, PutFailed};
ghost use Rattle.pan_command.specs.Command.{AreWordsOf, AreUnlawful, ActionEnds, Ends};
ghost use Rattle.pan_command.specs.Promises.{CompileKeeps, CheckKeeps, RunKeeps, MeaningKeeps, ShowKeeps, DisKeeps, BoundKeeps};

use crate::bounding::bound;
use crate::checking::check;
use crate::compiling::compile;
use crate::listing::list_image;
use crate::meaning::meaning;
use crate::running::run;
use crate::showing::show;
use crate::status::Status;
use command_words::{Action, Order, WordsError, read_words};
use pan_base::{Sink, SinkFault, Text, Workspace, put_all};
use std::alloc::Global;

/// Does what an order says.
fn perform<W: Workspace, O: Sink>(
    alloc: Global,
    order: &Order,
    files: &mut W,
    out: &mut O,
) -> Status
    requires stack { IsSize 16 order.now.options.stack }
    requires local { IsSize 8 order.now.options.local }
    ensures { ActionEnds order.now.action order.now.options (the_call (W.state files.old) (O.state out.old) (W.state files.new) (O.state out.new)) result }
{
    let options = order.options;
    match &order.action {
        Action::Compile { source, image } => {
            compile(alloc, source.as_str(), image.as_str(), files, out)
        }
        Action::Check { source } => check(alloc, source.as_str(), files, out),
        Action::Run { image, script } => {
            run(alloc, image.as_str(), script.as_str(), options, files, out)
        }
        Action::Meaning { source, script } => {
            meaning(alloc, source.as_str(), script.as_str(), options, files, out)
        }
        Action::Show { source } => show(alloc, source.as_str(), options.stage, files, out),
        Action::Dis { image } => list_image(alloc, image.as_str(), files, out),
        Action::Bound { source } => bound(alloc, source.as_str(), files, out),
    }
}

/// Does what the words ask for.
fn act<W: Workspace, O: Sink>(alloc: Global, words: &[Text], files: &mut W, out: &mut O) -> Status
    ensures { Ends words.now (the_call (W.state files.old) (O.state out.old) (W.state files.new) (O.state out.new)) result }
{
    match read_words(alloc, words) {
        Ok(order) => perform(alloc, &order, files, out),
        Err(WordsError::NoMemory) => Status::NoMemory,
        Err(WordsError::Usage) => match put_all(out, b"usage\n") {
            Ok(()) => Status::Usage,
            Err(SinkFault) => Status::Unput,
        },
    }
}

/// The top call: does what `words`, the command line without the program's own name, ask for, over these files and this
/// sink, and answers the exit status.
///
/// - `compile SRC IMG` reads the source SRC and writes its image to IMG.
/// - `check SRC` reads the source SRC and says what its program weighs.
/// - `run IMG SCRIPT` reads the image IMG and the device script SCRIPT, and runs the one over the other.
/// - `meaning SRC SCRIPT` does so with the source SRC, as its meaning says.
/// - `show SRC` reads the source SRC and puts a stage of it: with `--stage parse` the canonical text of its program, and else
///   the listing of its code.
/// - `dis IMG` reads the image IMG and puts the listing of its code.
/// - `bound SRC` reads the source SRC and puts how much stack suffices for its image, where the source makes no failing
///   step, or a cycle of its calls.
///
/// `command_words::read_words` tells how the words are read, and the options: `--stack` and `--local`, bytes of a run's stack
/// and of local memory, `--steps`, the instructions of `run` and the fuel of `meaning`, and `--stage`. The status is
/// - 0: the image is written, and `bound BYTES` is put, or `bound none` where its calls have a cycle; or the program keeps
///   every rule, and `ok WEIGHT` is put; or the run ended by an exit, and its lines are put; or the text of the stage or the
///   listing is put; or that line of the bound is put, and for a cycle `cycle NAME NAME ..`;
/// - 2: the words are no action's, and `usage` is put;
/// - 3: a file could not be read, and `read NAME` is put;
/// - 4: the source is refused, and `PLACE CAUSE` is put, the place in bytes from 0 on: it has no tokens (`TooLong`,
///   `BadByte`, `BadNumber`, `OpenComment`), they spell no program (`Syntax`, `TooDeep`), or the program breaks a rule
///   (the rule's name, as `TwoNames`);
/// - 5: the bytes of IMG are no image, and `image CAUSE` is put;
/// - 6: a line of SCRIPT fits no rule, and `script LINE CAUSE` is put for the first;
/// - 7: IMG could not be written, and `write IMG` is put, or a line could not be put;
/// - 8: there was no memory; nothing is put, but that `meaning` may have put the lines of the first events of its run;
/// - 10 to 15: the run ended as spent, by the stack, stopped, by a fault or a failing step, uncaught, or asking, and its
///   lines are put.
///
/// Nothing is written to IMG before the whole image is built, and no memory is taken after it is written.
pub fn panc<W: Workspace, O: Sink>(alloc: Global, words: &[Text], files: &mut W, out: &mut O) -> u8
    // How the call ended, and what it left: one case for each way to end.
    ensures ends { let call = the_call (W.state files.old) (O.state out.old) (W.state files.new) (O.state out.new) in
        (s : IsStatus) × (result ≡ code s) × Ends words.now call s }
    // A write or a put failed.
    ensures failed { let call = the_call (W.state files.old) (O.state out.old) (W.state files.new) (O.state out.new) in
        result ≡ 7 → WriteFailed call ⊎ PutFailed call }
    // Words of no action, and no file changed. They give 2 always, unless the line could not be put or there was no memory.
    ensures usage { let call = the_call (W.state files.old) (O.state out.old) (W.state files.new) (O.state out.new) in
        result ≡ 2 → AreUnlawful words.now × NoFileChanged call × IsPut call (codes "usage\n") }
    ensures usage_complete { AreUnlawful words.now → (result ≡ 2) ⊎ ((result ≡ 7) ⊎ (result ≡ 8)) }

    // What each action leaves by its status, and which status comes.
    ensures compile { let call = the_call (W.state files.old) (O.state out.old) (W.state files.new) (O.state out.new) in
        (source image : List ℕ) (options : IsOptions) → AreWordsOf words.now (Compile source image) options → CompileKeeps source image call result }
    ensures check { let call = the_call (W.state files.old) (O.state out.old) (W.state files.new) (O.state out.new) in
        (source : List ℕ) (options : IsOptions) → AreWordsOf words.now (Check source) options → CheckKeeps source call result }
    ensures run { let call = the_call (W.state files.old) (O.state out.old) (W.state files.new) (O.state out.new) in
        (image script : List ℕ) (options : IsOptions) → AreWordsOf words.now (Run image script) options → RunKeeps options image script call result }
    ensures show { let call = the_call (W.state files.old) (O.state out.old) (W.state files.new) (O.state out.new) in
        (source : List ℕ) (options : IsOptions) → AreWordsOf words.now (Show source) options → ShowKeeps options.stage source call result }
    ensures dis { let call = the_call (W.state files.old) (O.state out.old) (W.state files.new) (O.state out.new) in
        (image : List ℕ) (options : IsOptions) → AreWordsOf words.now (Dis image) options → DisKeeps image call result }
    ensures bound { let call = the_call (W.state files.old) (O.state out.old) (W.state files.new) (O.state out.new) in
        (source : List ℕ) (options : IsOptions) → AreWordsOf words.now (Bound source) options → BoundKeeps source call result }
    ensures meaning { let call = the_call (W.state files.old) (O.state out.old) (W.state files.new) (O.state out.new) in
        (source script : List ℕ) (options : IsOptions) → AreWordsOf words.now (Meaning source script) options → MeaningKeeps options source script call result }
{
    act(alloc, words, files, out).code()
}

//! Homes for the variables of a whole program.

ghost use Rattle.std.specs.Prelude.{◌≡◌, IfOk};
ghost use Rattle.std.specs.List.{AllZip};
ghost use Rattle.pan_stage.specs.Programs.{with_functions};
ghost use Rattle.word_lang.specs.Homes.{AreOverHomes};
ghost use Rattle.pan_driver.specs.Chained.{AreColoursOf, renamed};

use pan_base::{List, NoMemory};
use reg_alloc::{Colours, apply, renamed_is_well_formed, slots};
use std::alloc::Global;
use word_lang::{WordFun, WordProg};

/// Colours of each function, by which every variable has a slot of its own. `NoMemory` is the one error.
pub(crate) fn slots_of_all(alloc: Global, functions: &[WordFun]) -> Result<List<Colours>, NoMemory>
    ensures { IfOk result (λ colours. AllZip AreColoursOf functions.now colours) }
{
    let mut colours = List::new(alloc);
    for function in functions {
        colours.push(slots(alloc, function)?)?;
    }
    Ok(colours)
}

/// Each function with its variables renamed by its colours. `NoMemory` is the one error.
fn apply_all(
    alloc: Global,
    functions: &[WordFun],
    colours: &[Colours],
) -> Result<List<WordFun>, NoMemory>
    requires { AllZip AreColoursOf functions.now colours.now }
    ensures { IfOk result (λ made. made ≡ renamed functions.now colours.now) }
{
    let mut made = List::new(alloc);
    for (function, own) in functions.iter().zip(colours) {
        made.push(apply(alloc, function, own)?)?;
    }
    Ok(made)
}

/// The program over homes: each function is renamed by its colours. `NoMemory` is the one error.
pub(crate) fn over_homes(
    alloc: Global,
    words: &WordProg,
    colours: &[Colours],
) -> Result<WordProg, NoMemory>
    requires { AllZip AreColoursOf words.now.program.functions colours.now }
    ensures renamed { IfOk result (λ homes. homes.program ≡ with_functions words.now.program (renamed words.now.program.functions colours.now)) }
    ensures homes { IfOk result (λ homes. AreOverHomes homes.program) }
{
    renamed_is_well_formed();
    let functions = apply_all(alloc, words.program.functions.as_slice(), colours)?;
    let program = words.program.with_functions(alloc, functions)?;
    Ok(WordProg { program })
}

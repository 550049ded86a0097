//! Every variable in a slot of its own.

ghost use Rattle.std.specs.Prelude.{◌≡◌, ◌<◌, ◌≤◌, ◌-◌, ◌^◌, ℕ, length, IfOk};
ghost use Rattle.pan_flow.specs.Functions.{above, variables};
ghost use Rattle.pan_stage.specs.Locals.{numbers_from};
ghost use Rattle.word_lang.specs.Homes.{first_slot};
ghost use Rattle.word_lang.specs.Text.{flow_of_function};
ghost use Rattle.reg_alloc.specs.declared.homes.Home.TheVariants.{Slot};
ghost use Rattle.reg_alloc.specs.Homes.{number_of, home_number};
ghost use Rattle.reg_alloc.specs.Accepts.{Accepts};

use crate::homes::{Colours, FIRST_SLOT};
use crate::variables::above_function;
use pan_base::{List, NoMemory};
use std::alloc::Global;
use word_lang::WordFun;

/// Colours for as many variables as the function has, by which variable v has slot v. A function with more than 2^32 - 32
/// variables has none for want of memory.
pub fn slots(alloc: Global, fun: &WordFun) -> Result<Colours, NoMemory>
    ensures count { IfOk result (λ c. length c.homes ≡ above (variables (flow_of_function fun.now))) }
    ensures homes { IfOk result (λ c. (v : ℕ) → v < length c.homes → home_number c.homes v ≡ number_of (Slot v)) }
    ensures accepted { IfOk result (λ c. Accepts (home_number c.homes) fun.now) }
{
    let count = above_function(fun);
    if count > (u32::MAX - FIRST_SLOT) as u64 + 1 {
        return Err(NoMemory);
    }
    let homes = numbers(alloc, count)?;
    Ok(Colours { homes })
}

/// The numbers of so many slots, in order.
#[tactic(auto, using(crate::proofs::SlotNumbers::numbers_more))]
fn numbers(alloc: Global, count: u64) -> Result<List<u32>, NoMemory>
    requires { count ≤ 2 ^ 32 - first_slot }
    ensures { IfOk result (λ homes. homes ≡ numbers_from first_slot count) }
{
    let mut homes = List::new(alloc);
    for v in 0..count {
        homes.push(FIRST_SLOT + v as u32)?;
    }
    Ok(homes)
}

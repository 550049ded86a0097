//! The text of a source with a chain of functions.

ghost use Rattle.std.specs.Prelude.{◌≡◌, ◌++◌, ◌≤◌, OnOk, IfOk, string_bytes};
ghost use Rattle.pan_gen.specs.Generated.{calling_function, main_function, generated};

use pan_base::{Blob, NoMemory};
use std::alloc::Global;

/// Adds the function of this number, which calls the one before it.
fn add_function(text: &mut String, number: u64) -> Result<(), NoMemory>
    requires { 1 ≤ number }
    ensures { OnOk result (string_bytes text.new ≡ string_bytes text.old ++ calling_function number) }
{
    let callee = number - 1;
    write!(
        text,
        "fun f{number}(1 x) {{ var y = f{callee}(x * 3 + {number}); !st64 0x40000000, y; return y ^ {number}; }}\n"
    )?;
    Ok(())
}

/// Adds `main`, which calls the function of this number.
fn add_main(text: &mut String, number: u64) -> Result<(), NoMemory>
    ensures { OnOk result (string_bytes text.new ≡ string_bytes text.old ++ main_function number) }
{
    write!(
        text,
        "fun main() {{ var r = f{number}({number}); return r; }}\n"
    )?;
    Ok(())
}

/// The source of the functions `f0` to `fn` and `main`, which calls `fn` with n. Each function but `f0` calls the one before
/// it, and each stores one word to the shared address 0x40000000.
///
/// No clause speaks of its program. As counted by hand it has n + 2 functions and weighs 40 · n + 43, and its run takes n + 1
/// units of fuel, has n + 1 events and exits.
///
/// # Errors
///
/// `NoMemory` for want of memory.
#[tactic(auto, unfolding(crate::specs::Generated::generated))]
pub fn generate(alloc: Global, n: u64) -> Result<Blob, NoMemory>
    requires some { 1 ≤ n }
    requires most { n ≤ 1000 }
    ensures { IfOk result (λ text. text ≡ generated n) }
{
    let mut text = String::from_str(
        alloc,
        "fun f0(1 x) { !st64 0x40000000, x; return x + 1; }\n",
    )?;
    for callee in 0..n {
        add_function(&mut text, callee + 1)?;
    }
    add_main(&mut text, n)?;
    Ok(Blob::from_vec(text.into_bytes()))
}

//! From the bytes of a script to what it says.

ghost use Rattle.std.specs.Prelude.{◌≡◌, ◌⊎◌, Err, Ok, IfOk, IfErr};
ghost use Rattle.device_script.specs.Script.{Content, Refusal, script_of_file};
ghost use Rattle.device_script.specs.Told.{TellsRefusal};

use crate::cutting::next_line;
use crate::error::{LineError, ScriptError};
use crate::script::Script;
use std::alloc::Global;

/// What a script says.
///
/// A line ends with a line feed, before which a carriage return may stand; the last may end with the file. Spaces and tabs
/// part its words. It says nothing if it has no words or its first begins with `#`; else it is one of these, where N is 8,
/// 16, 32 or 64, A an address of the window, aligned for N bits, HEX an even number of hexadecimal digits or `-`, and the
/// others are numbers below 2^64 in decimal digits, or in hexadecimal ones after `0x`:
///
/// - `memory O HEX`: local memory has these bytes, at least one, from offset O on, and they end at 67,108,864 at most;
/// - `register N A V`: loads give the value that was stored last, at first V;
/// - `queue N A V*`: loads give the values in order, and then nothing;
/// - `counter N A V D`: the load after k others gives V + k · D, modulo 2^N;
/// - `collector N A K`: so many stores are done, and later ones are answered `Stop`;
/// - `foreign NAME bytes HEX`, `foreign NAME conf`, `foreign NAME add D`: calls of the name replace the first bytes of their
///   array by these, if they aren't more than the array (else `Stop`), or by as much of their configuration as fits, or add D
///   to each byte modulo 256. NAME is spelled as a name of a source, with 64 bytes at most, and isn't `base` or `biw`.
///
/// No two rules answer one request, and a request that none answers is answered `Stop`.
///
/// It takes memory for the pieces and the rules alone, and time in proportion to the bytes, times the logarithm of the
/// number of rules.
///
/// # Errors
///
/// The number of the first line that is none of these, and why; or want of memory.
pub fn read_script(alloc: Global, bytes: &[u8]) -> Result<Script, ScriptError>
    ensures says { IfOk result (λ script. script_of_file bytes.now ≡ Ok script) }
    ensures refused { IfErr result (λ e. TellsRefusal e (script_of_file bytes.now)) }
    ensures exact_script { (s : Content) → script_of_file bytes.now ≡ Ok s
        → (result ≡ Ok s) ⊎ (result ≡ Err ScriptError.NoMemory) }
    ensures exact_refusal { (r : Refusal) → script_of_file bytes.now ≡ Err r
        → (result ≡ Err (ScriptError.Line r.line r.cause)) ⊎ (result ≡ Err ScriptError.NoMemory) }
{
    let mut script = Script::new(alloc);
    let mut rest = bytes;
    let mut number: u64 = 1;
    'lines: loop {
        let (line, more) = next_line(rest);
        match script.with_line(alloc, line) {
            Ok(longer) => script = longer,
            Err(LineError::Wrong(cause)) => return Err(ScriptError::Line(number, cause)),
            Err(LineError::NoMemory) => return Err(ScriptError::NoMemory),
        }
        match more {
            Some(more) => {
                rest = more;
                number += 1;
            }
            None => return Ok(script),
        }
    }
}

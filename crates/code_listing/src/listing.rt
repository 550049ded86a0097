//! The listing of code.

ghost use Rattle.std.specs.Prelude.{◌≡◌, ◌+◌, ◌≤◌, length};
ghost use Rattle.pan_base.specs.Bytes.{number_at};
ghost use Rattle.pan_base.specs.Causes.{HasCause};
ghost use Rattle.pan_base.specs.Sinks.{PutsAll};
ghost use Rattle.pan_base.specs.declared.events.Size.{Size};
ghost use Rattle.riscv_isa.specs.Image.{IsLawfulCode};
ghost use Rattle.code_listing.specs.Assembly.{instr_text};
ghost use Rattle.code_listing.specs.Listing.{word_line, listing};

use crate::line::Line;
use pan_base::{Sink, SinkFault, put_all};
use riscv_isa::{Instr, decode};

/// The word of four bytes at a place, the lowest first.
fn read_word(code: &[u8], at: usize) -> u32
    requires { at + 4 ≤ length code.now }
    ensures { result ≡ number_at Size.B4 code.now at }
{
    let s = &code[at..at + 4];
    u32::from_le_bytes([s[0], s[1], s[2], s[3]])
}

/// The line of a word at a place of the code.
#[tactic(auto, unfolding(crate::specs::Listing::word_line))]
fn line_of(offset: u32, word: u32) -> Line
    ensures { result ≡ word_line offset word }
{
    let mut line = Line::new();
    line.add_digits(offset);
    line.add(b" ");
    line.add_digits(word);
    line.add(b" ");
    line.add_meaning(decode(word));
    line.add(b"\n");
    line
}

/// Puts an instruction in the assembly of RISC-V, at once and without a line feed: its mnemonic and its operands, registers
/// by number as `x5`, numbers in decimal but those of LUI and AUIPC. No memory is taken.
///
/// # Errors
///
/// The fault of the sink; a prefix of the text was put then.
pub fn put_instr<O: Sink>(instr: Instr, out: &mut O) -> Result<(), SinkFault>
    ensures took { PutsAll (O.state out.old) (O.state out.new) result (instr_text instr) }
    ensures cause { HasCause (O.state out.old).faults (O.state out.new).faults result }
{
    let mut line = Line::new();
    line.add_instr(instr);
    put_all(out, line.as_slice())
}

/// Puts the listing of some code: for each word, in order, its place in the code and the word, both in eight hexadecimal
/// digits, and the instruction that it stands for, `none` where it stands for none. Each line is put at once, and no memory
/// is taken.
///
/// # Errors
///
/// The fault of the sink; a prefix of the listing was put then.
pub fn put_listing<O: Sink>(code: &[u8], out: &mut O) -> Result<(), SinkFault>
    requires { IsLawfulCode code.now }
    ensures took { PutsAll (O.state out.old) (O.state out.new) result (listing code.now) }
    ensures cause { HasCause (O.state out.old).faults (O.state out.new).faults result }
{
    for i in 0..code.len() / 4 {
        let at = 4 * i;
        let line = line_of(at as u32, read_word(code, at));
        put_all(out, line.as_slice())?;
    }
    Ok(())
}

//! The machine's instructions, what they do, and the form of an image (`specs/`), with the encoder and the
//! decoder.
#![tactic(auto)]

#[cfg(test)]
mod assembled_words;
mod bits;
mod code;
mod codes;
mod decoding;
mod encoding;
mod instr;
#[cfg(test)]
mod known_words;
mod laws;
mod pending;
mod place;
mod spelled;
mod words;

pub use code::{Code, Names};
pub use decoding::decode;
pub use encoding::encode;
pub use instr::Instr;
pub use laws::{
    accesses_find_regions, decoded_is_the_table, machine_goes_on, read_written, registers_hold,
    runs_go_on, states_stay_sound, ways_reach, write_read,
};
pub use pending::{Buffer, Pending};
pub use place::{Place, Region};
pub use spelled::spelled_code;
pub use words::spell;

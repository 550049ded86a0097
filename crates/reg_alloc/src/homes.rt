//! Homes of variables.

ghost use Rattle.std.specs.Prelude.{◌≡◌, ◌<◌, length};
ghost use Rattle.std.proofs.Props.{props};
ghost use Rattle.reg_alloc.specs.Homes.{number_of, home_number, IsAmong, AreHomes};

use pan_base::List;

/// The number that stands for slot 0.
pub const FIRST_SLOT: u32 = 32;

/// Where a variable is kept: in the register of this number, or in the slot of this number of its function's frame.
#[derive(Clone, Copy, Debug, PartialEq, Eq)]
pub enum Home {
    Reg(u8),
    Slot(u32),
}

/// The homes of a function's variables. A register is one of x15, x16 and x18 to x31, and the number of a slot is below that
/// of the variables.
#[derive(Drop)]
pub struct Colours {
    /// The number of each variable's home.
    pub(crate) homes: List<u32>,
    ghost lawful: { AreHomes homes } by { Prim.hlevel (props) },
}

impl Colours {
    /// The number of variables.
    pub fn count(&self) -> u32
        ensures { result ≡ length self.now.homes }
    {
        self.homes.len() as u32
    }

    /// The home of a variable.
    pub fn home(&self, v: u32) -> Home
        requires { v < length self.now.homes }
        ensures number { number_of result ≡ home_number self.now.homes v }
        ensures among { IsAmong (length self.now.homes) result }
    {
        let number = self.homes.as_slice()[v as usize];
        if number < FIRST_SLOT {
            Home::Reg(number as u8)
        } else {
            Home::Slot(number - FIRST_SLOT)
        }
    }
}

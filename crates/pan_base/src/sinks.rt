//! Where text goes.

ghost use Rattle.std.specs.Prelude.{◌≡◌, ℕ, ◌≤◌, ◌<◌, length};
ghost use Rattle.std.specs.List.{flat_map};
ghost use Rattle.pan_base.specs.Causes.{HasCause};
ghost use Rattle.pan_base.specs.Sinks.{SinkState, Puts, PutsAll};

/// A sink failed.
#[derive(Clone, Copy, Debug, PartialEq, Eq)]
pub struct SinkFault;

/// Takes text.
pub trait Sink {
    /// What it tells of the text so far, and how often it failed. No call changes which of its meanings it tells.
    ghost state: { Self → SinkState };

    /// Takes a front of the piece, and answers how many bytes that is: at least one where the piece isn't empty.
    /// At a fault it takes nothing, and its count of faults rises.
    fn put(&mut self, piece: &[u8]) -> Result<usize, SinkFault>
        ensures took { Puts (state self.old) (state self.new) result piece.now }
        ensures cause { HasCause (state self.old).faults (state self.new).faults result };
}

/// Puts all of the bytes, or answers the sink's fault, a prefix being put then.
pub fn put_all<O: Sink>(out: &mut O, bytes: &[u8]) -> Result<(), SinkFault>
    ensures took { PutsAll (O.state out.old) (O.state out.new) result bytes.now }
    ensures cause { HasCause (O.state out.old).faults (O.state out.new).faults result }
{
    let mut done = 0;
    while done < bytes.len() {
        done += out.put(&bytes[done..])?;
    }
    Ok(())
}

/// Puts the pieces one after another, or answers the sink's fault, a prefix of all of them being put then.
pub fn put_each<O: Sink>(out: &mut O, pieces: &[&[u8]]) -> Result<(), SinkFault>
    ensures took { PutsAll (O.state out.old) (O.state out.new) result (flat_map (λ piece. piece.now) pieces.now) }
    ensures cause { HasCause (O.state out.old).faults (O.state out.new).faults result }
{
    for piece in pieces {
        put_all(out, piece)?;
    }
    Ok(())
}

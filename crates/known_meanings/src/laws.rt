//! The deepest calls and the work of known programs, on a call that does nothing.

ghost use Rattle.std.specs.Prelude.{◌≡◌, []};
ghost use Rattle.pan_base.specs.Events.{only, Exit};
ghost use Rattle.pan_tree.specs.Meaning.{source};
ghost use Rattle.known_meanings.specs.Programs.{diamond, tail_call, caught};

/// What three programs cost at their deepest calls and do as work, and how they end.
pub fn known_meanings()
    // On its dearest path main (496), c (512), b (448) and d (320) are active.
    ensures diamond { source diamond [] [] 6 ≡ record { behaviour = only (Exit 19); deepest = 1776; toll = 151 } }
    // The callee (320) takes the place of main (256).
    ensures tail_call { source tail_call [] [] 1 ≡ record { behaviour = only (Exit 4); deepest = 320; toll = 28 } }
    // Main (592) and the function that raises (240) are active.
    ensures caught { source caught [] [] 1 ≡ record { behaviour = only (Exit 5); deepest = 832; toll = 44 } }
{}

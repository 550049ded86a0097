//! What known programs over frames do, on a call that does nothing.

ghost use Rattle.std.specs.Prelude.{◌≡◌, [], ◌∷◌, replicate};
ghost use Rattle.pan_base.specs.declared.events.Size.TheVariants.{B8};
ghost use Rattle.pan_base.specs.Events.{Store, Done, Stop, only, Exit, Uncaught, Spent, Stack, Asks, Stopped};
ghost use Rattle.stack_lang.specs.Meaning as stack;
ghost use Rattle.known_stages.specs.StackPrograms as stack_programs;

/// What the same programs do over frames, with a stack of 1,024 bytes, and one of them where that has no room for a call.
pub fn known_stack()
    // Four turns: the second is continued and the last one broken.
    ensures loops { stack.meaning stack_programs.loops 1024 [] [] 4 ≡ record { behaviour = only (Exit 4); deepest = 240; toll = 105 } }
    ensures spent { stack.meaning stack_programs.loops 1024 [] [] 3 ≡ record { behaviour = only Spent; deepest = 240; toll = 84 } }
    // Both calls stand on main, one after the other.
    ensures caught { stack.meaning stack_programs.caught 1024 [] [] 2 ≡ record { behaviour = only (Exit 14); deepest = 560; toll = 88 } }
    // Main's frame (48 bytes) leaves 16 bytes, and the callee's has 32.
    ensures short { stack.meaning stack_programs.caught 64 [] [] 2 ≡ record { behaviour = only Stack; deepest = 240; toll = 32 } }
    // The callee (320) takes the place of main (240).
    ensures tail { stack.meaning stack_programs.tail 1024 [] [] 1 ≡ record { behaviour = only (Exit 42); deepest = 320; toll = 35 } }
    ensures stopped { stack.meaning stack_programs.stopped 1024 [] (Stop ∷ []) 0 ≡ record { behaviour = only (Stopped (Store B8 0x40000000 5)); deepest = 240; toll = 18 } }
    ensures asks { stack.meaning stack_programs.stopped 1024 [] [] 0 ≡ record { behaviour = only (Asks (Store B8 0x40000000 5)); deepest = 240; toll = 18 } }
    ensures done { stack.meaning stack_programs.stopped 1024 [] (Done ∷ []) 0 ≡ record { behaviour = record { events = record { request = Store B8 0x40000000 5; reply = Done } ∷ []; ending = Exit 0 }; deepest = 240; toll = 24 } }
    // Exception 1 passes the handler of exception 0 by.
    ensures passes_on { stack.meaning stack_programs.passes_on 1024 [] [] 1 ≡ record { behaviour = only (Uncaught 1); deepest = 560; toll = 40 } }
    // With three units, since the third turn breaks the outer loop.
    ensures breaks_before { stack.meaning stack_programs.breaks_before 1024 [] [] 3 ≡ record { behaviour = only (Exit 3); deepest = 240; toll = 66 } }
    // The sum of 0x1234ff78, rotated, 0x12 and 0x205.
    ensures data_memory { stack.meaning stack_programs.data_memory 1024 (replicate 8 0) [] 0 ≡ record { behaviour = only (Exit 0x7800000000123716); deepest = 240; toll = 37 } }
{}

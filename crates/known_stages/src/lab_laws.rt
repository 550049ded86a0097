//! What known programs of lines do, on a call that does nothing.

ghost use Rattle.std.specs.Prelude.{◌≡◌, [], ◌∷◌};
ghost use Rattle.pan_base.specs.declared.events.Size.TheVariants.{B8};
ghost use Rattle.pan_base.specs.Events.{Store, Done, Stop, only, Exit, Spent, Asks, Stopped, Fails};
ghost use Rattle.lab_lang.specs.Meaning.{behaviour};
ghost use Rattle.known_stages.specs.LabPrograms.{program, laid, calls, jumps, jumps_laid, jumps_nowhere, jumps_inside, branches, passes, addresses, reads_global, stores, loops, loops_laid, caught, caught_laid, tail, tail_laid};

/// What small programs of lines do at their layouts, in so many steps.
pub fn known_lab()
    // A call of one instruction links the address behind it, and one of two that behind both.
    ensures calls_near { behaviour (program []) calls (laid 0 (1 ∷ 1 ∷ 0 ∷ 1 ∷ 1 ∷ [])) 0 [] [] 4 ≡ only (Exit 0x100000004) }
    ensures calls_far { behaviour (program []) calls (laid 0 (2 ∷ 1 ∷ 0 ∷ 1 ∷ 1 ∷ [])) 0 [] [] 5 ≡ only (Exit 0x100000008) }
    ensures calls_spent { behaviour (program []) calls (laid 0 (2 ∷ 1 ∷ 0 ∷ 1 ∷ 1 ∷ [])) 0 [] [] 4 ≡ only Spent }
    // A jump of one instruction writes no register, and one of two leaves the page of its target in x9.
    ensures jumps_near { behaviour (program []) jumps (jumps_laid 1) 0 [] [] 3 ≡ only (Exit 0) }
    ensures jumps_far { behaviour (program []) jumps (jumps_laid 2) 0 [] [] 4 ≡ only (Exit 0x100001000) }
    ensures jumps_spent { behaviour (program []) jumps (jumps_laid 2) 0 [] [] 3 ≡ only Spent }
    // A branch that is taken has its one instruction or all three, and one that isn't taken has one.
    ensures branches_near { behaviour (program []) branches (laid 0 (1 ∷ 1 ∷ 0 ∷ 1 ∷ 1 ∷ [])) 0 [] [] 3 ≡ only (Exit 0) }
    ensures branches_far { behaviour (program []) branches (laid 0 (3 ∷ 1 ∷ 0 ∷ 1 ∷ 1 ∷ [])) 0 [] [] 5 ≡ only (Exit 0x100000004) }
    ensures branches_spent { behaviour (program []) branches (laid 0 (3 ∷ 1 ∷ 0 ∷ 1 ∷ 1 ∷ [])) 0 [] [] 4 ≡ only Spent }
    ensures passes_near { behaviour (program []) passes (laid 0 (1 ∷ 1 ∷ 0 ∷ 1 ∷ 1 ∷ [])) 0 [] [] 4 ≡ only (Exit 1) }
    ensures passes_far { behaviour (program []) passes (laid 0 (3 ∷ 1 ∷ 0 ∷ 1 ∷ 1 ∷ [])) 0 [] [] 4 ≡ only (Exit 1) }
    // The first of two labels counts. To a label that stands nowhere, and into a line, nothing goes.
    ensures addresses { behaviour (program []) addresses (laid 0 (2 ∷ 0 ∷ 1 ∷ 0 ∷ [])) 0 [] [] 3 ≡ only (Exit 0x100000008) }
    ensures nowhere { behaviour (program []) jumps_nowhere (laid 0 (1 ∷ 1 ∷ [])) 0 [] [] 1 ≡ only Fails }
    ensures inside { behaviour (program []) jumps_inside (laid 0 (2 ∷ 1 ∷ 0 ∷ 2 ∷ 0 ∷ 1 ∷ [])) 0 [] [] 4 ≡ only Fails }
    // Globals are read as they are given, and requests are answered.
    ensures reads { behaviour (program (7 ∷ 8 ∷ [])) reads_global (laid 0 (1 ∷ 1 ∷ 1 ∷ [])) 0 [] [] 3 ≡ only (Exit 8) }
    ensures stopped { behaviour (program []) stores (laid 0 (1 ∷ 1 ∷ 1 ∷ 1 ∷ [])) 0 [] (Stop ∷ []) 3 ≡ only (Stopped (Store B8 0x40000000 5)) }
    ensures asks { behaviour (program []) stores (laid 0 (1 ∷ 1 ∷ 1 ∷ 1 ∷ [])) 0 [] [] 3 ≡ only (Asks (Store B8 0x40000000 5)) }
    ensures done { behaviour (program []) stores (laid 0 (1 ∷ 1 ∷ 1 ∷ 1 ∷ [])) 0 [] (Done ∷ []) 4 ≡ record { events = record { request = Store B8 0x40000000 5; reply = Done } ∷ []; ending = Exit 0 } }
    // The programs that stand in each language, at their shortest and at their longest.
    ensures loops_near { behaviour (program []) loops (loops_laid 1 1) 0 [] [] 25 ≡ only (Exit 4) }
    ensures loops_far { behaviour (program []) loops (loops_laid 3 2) 0 [] [] 31 ≡ only (Exit 4) }
    ensures loops_spent { behaviour (program []) loops (loops_laid 3 2) 0 [] [] 30 ≡ only Spent }
    ensures caught_near { behaviour (program []) caught (caught_laid 1 1) 64 [] [] 29 ≡ only (Exit 14) }
    ensures caught_far { behaviour (program []) caught (caught_laid 2 3) 64 [] [] 33 ≡ only (Exit 14) }
    ensures caught_spent { behaviour (program []) caught (caught_laid 2 3) 64 [] [] 32 ≡ only Spent }
    ensures tail_near { behaviour (program []) tail (tail_laid 1) 0 [] [] 9 ≡ only (Exit 42) }
    ensures tail_far { behaviour (program []) tail (tail_laid 2) 0 [] [] 11 ≡ only (Exit 42) }
    ensures tail_spent { behaviour (program []) tail (tail_laid 2) 0 [] [] 10 ≡ only Spent }
{}

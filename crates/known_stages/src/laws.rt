//! What known programs do, on calls that do nothing.

ghost use Rattle.std.specs.Prelude.{◌≡◌, ℕ, pos, List, [], ◌∷◌, replicate};
ghost use Rattle.pan_base.specs.declared.events.Size.TheVariants.{B8};
ghost use Rattle.pan_base.specs.declared.operators.LOp.TheVariants.{Lb, Lw, Ld, Lhu, Lwu};
ghost use Rattle.pan_base.specs.Events.{Store, Done, Stop, only, Exit, Uncaught, Spent, Asks, Stopped};
ghost use Rattle.crep_lang.specs.Meaning as crep;
ghost use Rattle.loop_lang.specs.Meaning as loop_meaning;
ghost use Rattle.word_lang.specs.Meaning as word;
ghost use Rattle.known_stages.specs.CrepPrograms as crep_programs;
ghost use Rattle.known_stages.specs.LoopPrograms as loop_programs;
ghost use Rattle.known_stages.specs.WordPrograms as word_programs;

/// What small programs of the language of words do.
pub fn known_crep()
    // Four turns: the second is continued and the last one broken.
    ensures loops { crep.meaning crep_programs.loops [] [] 4 ≡ record { behaviour = only (Exit 4); deepest = 240; toll = 1776 } }
    ensures spent { crep.meaning crep_programs.loops [] [] 3 ≡ record { behaviour = only Spent; deepest = 240; toll = 1312 } }
    // Both calls stand on main, one after the other.
    ensures caught { crep.meaning crep_programs.caught [] [] 2 ≡ record { behaviour = only (Exit 14); deepest = 560; toll = 1664 } }
    // The callee (320) takes the place of main (240).
    ensures tail { crep.meaning crep_programs.tail [] [] 1 ≡ record { behaviour = only (Exit 42); deepest = 320; toll = 688 } }
    ensures stopped { crep.meaning crep_programs.stopped [] (Stop ∷ []) 0 ≡ record { behaviour = only (Stopped (Store B8 0x40000000 5)); deepest = 240; toll = 192 } }
    ensures asks { crep.meaning crep_programs.stopped [] [] 0 ≡ record { behaviour = only (Asks (Store B8 0x40000000 5)); deepest = 240; toll = 192 } }
    ensures done { crep.meaning crep_programs.stopped [] (Done ∷ []) 0
        ≡ record {
          behaviour = record { events = record { request = Store B8 0x40000000 5; reply = Done } ∷ []; ending = Exit 0 };
          deepest = 240;
          toll = 352;
        } }
    // Exception 1 passes the handler of exception 0 by.
    ensures passes_on { crep.meaning crep_programs.passes_on [] [] 1 ≡ record { behaviour = only (Uncaught 1); deepest = 560; toll = 544 } }
    // With three units, since the third turn breaks the outer loop.
    ensures breaks_before { crep.meaning crep_programs.breaks_before [] [] 3 ≡ record { behaviour = only (Exit 3); deepest = 240; toll = 1232 } }
    // The sum of 0x1234ff78, rotated, 0x12 and 0x205.
    ensures data_memory { crep.meaning crep_programs.data_memory (replicate 8 0) [] 0 ≡ record { behaviour = only (Exit 0x7800000000123716); deepest = 240; toll = 608 } }
{}

/// What the same programs do in the language of steps between variables, two of them whatever live sets stand there.
pub fn known_loop()
    // Four turns: the second is continued and the last one broken.
    ensures loops { (live : List ℕ) → loop_meaning.meaning (loop_programs.loops live) [] [] 4 ≡ record { behaviour = only (Exit 4); deepest = 240; toll = 1392 } }
    ensures spent { (live : List ℕ) → loop_meaning.meaning (loop_programs.loops live) [] [] 3 ≡ record { behaviour = only Spent; deepest = 240; toll = 1008 } }
    // Both calls stand on main, one after the other.
    ensures caught { (live : List ℕ) → loop_meaning.meaning (loop_programs.caught live) [] [] 2 ≡ record { behaviour = only (Exit 14); deepest = 560; toll = 1552 } }
    // The callee (320) takes the place of main (240).
    ensures tail { loop_meaning.meaning loop_programs.tail [] [] 1 ≡ record { behaviour = only (Exit 42); deepest = 320; toll = 656 } }
    ensures stopped { loop_meaning.meaning loop_programs.stopped [] (Stop ∷ []) 0 ≡ record { behaviour = only (Stopped (Store B8 0x40000000 5)); deepest = 240; toll = 192 } }
    ensures asks { loop_meaning.meaning loop_programs.stopped [] [] 0 ≡ record { behaviour = only (Asks (Store B8 0x40000000 5)); deepest = 240; toll = 192 } }
    ensures done { loop_meaning.meaning loop_programs.stopped [] (Done ∷ []) 0
        ≡ record {
          behaviour = record { events = record { request = Store B8 0x40000000 5; reply = Done } ∷ []; ending = Exit 0 };
          deepest = 240;
          toll = 352;
        } }
    // Exception 1 passes the handler of exception 0 by.
    ensures passes_on { loop_meaning.meaning loop_programs.passes_on [] [] 1 ≡ record { behaviour = only (Uncaught 1); deepest = 560; toll = 544 } }
    // With three units, since the third turn breaks the outer loop.
    ensures breaks_before { loop_meaning.meaning loop_programs.breaks_before [] [] 3 ≡ record { behaviour = only (Exit 3); deepest = 240; toll = 1040 } }
    // The sum of 0x1234ff78, rotated, 0x12 and 0x205.
    ensures data_memory { loop_meaning.meaning loop_programs.data_memory (replicate 8 0) [] 0 ≡ record { behaviour = only (Exit 0x7800000000123716); deepest = 240; toll = 576 } }
{}

/// What the same programs do in the language of operations on variables, and one that stores in two bytes and in four, and
/// reads back.
pub fn known_word()
    // Four turns: the second is continued and the last one broken.
    ensures loops { word.meaning word_programs.loops [] [] 4 ≡ record { behaviour = only (Exit 4); deepest = 240; toll = 816 } }
    ensures spent { word.meaning word_programs.loops [] [] 3 ≡ record { behaviour = only Spent; deepest = 240; toll = 576 } }
    // Both calls stand on main, one after the other.
    ensures caught { word.meaning word_programs.caught [] [] 2 ≡ record { behaviour = only (Exit 14); deepest = 560; toll = 1376 } }
    // The callee (320) takes the place of main (240).
    ensures tail { word.meaning word_programs.tail [] [] 1 ≡ record { behaviour = only (Exit 42); deepest = 320; toll = 656 } }
    ensures stopped { word.meaning word_programs.stopped [] (Stop ∷ []) 0 ≡ record { behaviour = only (Stopped (Store B8 0x40000000 5)); deepest = 240; toll = 192 } }
    ensures asks { word.meaning word_programs.stopped [] [] 0 ≡ record { behaviour = only (Asks (Store B8 0x40000000 5)); deepest = 240; toll = 192 } }
    ensures done { word.meaning word_programs.stopped [] (Done ∷ []) 0
        ≡ record {
          behaviour = record { events = record { request = Store B8 0x40000000 5; reply = Done } ∷ []; ending = Exit 0 };
          deepest = 240;
          toll = 352;
        } }
    // Exception 1 passes the handler of exception 0 by.
    ensures passes_on { word.meaning word_programs.passes_on [] [] 1 ≡ record { behaviour = only (Uncaught 1); deepest = 560; toll = 544 } }
    // With three units, since the third turn breaks the outer loop.
    ensures breaks_before { word.meaning word_programs.breaks_before [] [] 3 ≡ record { behaviour = only (Exit 3); deepest = 240; toll = 672 } }
    // The sum of 0x1234ff78, rotated, 0x12 and 0x205.
    ensures data_memory { word.meaning word_programs.data_memory (replicate 8 0) [] 0 ≡ record { behaviour = only (Exit 0x7800000000123716); deepest = 240; toll = 544 } }
    // The bytes are 0, 0, 0xff, 0xff, 1, 0, 0, 0x80, and then zeros.
    ensures lwu { word.meaning (word_programs.accesses Lwu (pos 4)) (replicate 16 0) [] 0 ≡ record { behaviour = only (Exit 0x80000001); deepest = 240; toll = 384 } }
    ensures lw { word.meaning (word_programs.accesses Lw (pos 4)) (replicate 16 0) [] 0 ≡ record { behaviour = only (Exit 0xffffffff80000001); deepest = 240; toll = 384 } }
    ensures lhu { word.meaning (word_programs.accesses Lhu (pos 2)) (replicate 16 0) [] 0 ≡ record { behaviour = only (Exit 0xffff); deepest = 240; toll = 384 } }
    ensures lb { word.meaning (word_programs.accesses Lb (pos 7)) (replicate 16 0) [] 0 ≡ record { behaviour = only (Exit 0xffffffffffffff80); deepest = 240; toll = 384 } }
    ensures ld { word.meaning (word_programs.accesses Ld (pos 0)) (replicate 16 0) [] 0 ≡ record { behaviour = only (Exit 0x80000001ffff0000); deepest = 240; toll = 384 } }
{}

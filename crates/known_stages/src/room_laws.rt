//! Which known programs of the language of words are well formed, on a call that does nothing.

ghost use Rattle.pan_stage.specs.Room.{IsCost};
ghost use Rattle.pan_stage.specs.WellFormed.{AreRight};
ghost use Rattle.crep_lang.specs.Text.{arity, mentions};
ghost use Rattle.crep_lang.specs.WellFormed.{IsWellFormed};
ghost use Rattle.crep_lang.specs.declared.syntax.CrepFun.{CrepFun};
ghost use Rattle.known_stages.specs.CrepPrograms as crep_programs;
ghost use Rattle.known_stages.specs.RoomPrograms as room_programs;

/// Which costs are lawful, and which programs of the language of words are well formed.
pub fn known_room()
    ensures caught { IsWellFormed crep_programs.caught }
    ensures tail { IsWellFormed crep_programs.tail }
    // A cost is a multiple of 16, and 64 at least.
    ensures no_cost_48 { ¬ IsCost 48 }
    ensures no_cost_250 { ¬ IsCost 250 }
    // A call passes one word of two, another takes two words of one, and a read has a write before it on one of two ways.
    ensures passes_one { ¬ AreRight arity (λ (f : CrepFun). mentions f.body) room_programs.passes_one }
    ensures takes_two { ¬ AreRight arity (λ (f : CrepFun). mentions f.body) room_programs.takes_two }
    ensures reads_unwritten { ¬ IsWellFormed room_programs.reads_unwritten }
    // A cost of 96 allows 12 words of frame and 32 steps of code, and one of 80 allows 16 steps.
    ensures fits { IsWellFormed (room_programs.returns_variable 96 5) }
    ensures wide { ¬ IsWellFormed (room_programs.returns_variable 96 6) }
    ensures long { ¬ IsWellFormed (room_programs.returns_variable 80 0) }
{}

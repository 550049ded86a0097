//! What is live, across and meets in small flows, on a call that does nothing.

ghost use Rattle.std.specs.Prelude.{[], ◌∷◌};
ghost use Rattle.pan_flow.specs.Flow.{AtBreak, AtContinue, Live, ways, behind, Across, Meet};
ghost use Rattle.pan_flow.specs.Functions.{leaves, IsWritten};
ghost use Rattle.known_stages.specs.Flows.{function, one_side, both_sides, in_turns, before_tests, next_turn, behind_return, past_call, from_call, in_handler, own_of_handler, round_loop, not_round, past_foreign, tail_call, two_results, ends_turn};

/// Which variables of small flows are live at the start, are across a call, and meet, and which functions read nothing that
/// isn't written.
pub fn known_flows()
    // A read that a write stands before on one of two ways.
    ensures one_side { Live (ways one_side behind) 0 }
    // A read that a write stands before on both.
    ensures both_sides { ¬ Live (ways both_sides behind) 0 }
    // A loop may end before its first turn, and not before its first test.
    ensures in_turns { Live (ways in_turns behind) 0 }
    ensures before_tests { ¬ Live (ways before_tests behind) 0 }
    // A read in a turn, before the write of that turn.
    ensures next_turn { Live (ways next_turn behind) 0 }
    // No way goes on behind a return.
    ensures behind_return { ¬ Live (ways behind_return behind) 0 }
    // f(); return x, and x = f(); return x.
    ensures past_call { Across past_call 0 }
    ensures from_call { ¬ Across from_call 0 }
    // What only the handler reads is across, and what the call's return or its exception writes isn't.
    ensures in_handler { Across in_handler 0 }
    ensures result { ¬ Across in_handler 1 }
    ensures own_of_handler { ¬ Across own_of_handler 2 }
    // A read in the next turn, and the same body without the loop.
    ensures round_loop { Across round_loop 0 }
    ensures not_round { ¬ Across not_round 0 }
    // A foreign call's operands are read before it.
    ensures past_foreign { Across past_foreign 0 }
    ensures operand { ¬ Across past_foreign 1 }
    // A tail call has no way out.
    ensures tail_call { ¬ Across tail_call 0 }
    // Both results are written at once: one that isn't read meets one that is.
    ensures one_dead { Meet (two_results (0 ∷ [])) 0 1 }
    ensures other_dead { Meet (two_results (1 ∷ [])) 0 1 }
    ensures both_dead { ¬ Meet (two_results (2 ∷ [])) 0 1 }
    // A variable that is written before another one, and a break, meets it if it is read behind the loop.
    ensures read_behind { Meet (ends_turn AtBreak (0 ∷ [])) 0 1 }
    ensures not_behind { ¬ Meet (ends_turn AtBreak (2 ∷ [])) 0 1 }
    ensures next_behind { Meet (ends_turn AtContinue (0 ∷ [])) 0 1 }
    // A read before a write is refused. An entry writes its parameters.
    ensures unwritten { ¬ IsWritten (function [] (leaves (0 ∷ []) ∷ [])) }
    ensures parameter { IsWritten (function (0 ∷ []) (leaves (0 ∷ []) ∷ [])) }
    ensures one_way { ¬ IsWritten one_side }
    ensures each_way { IsWritten both_sides }
{}

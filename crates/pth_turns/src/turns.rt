//! Marks in turns.

ghost use Rattle.std.specs.Prelude.{◌++◌, ℕ, List};
ghost use Rattle.pth_base.specs.declared.mark.Mark.{Mark};
ghost use Rattle.pth_model.specs.Run.{run};
ghost use Rattle.pth_model.specs.State.{Given};
ghost use Rattle.pth_turns.specs.Examples.{a_cancellation_of_its_own_from_outside, a_dispatch_after_a_kill, a_dispatch_after_the_end, a_dispatch_of_nobody, a_dispatch_of_who_waits, a_dispatch_within_a_turn, a_line_after_a_wait, a_line_after_a_yield, a_line_in_anothers_turn, a_line_while_another_ends, a_moment_falls, a_nap_and_a_cancellation, a_spawn_skips_a_number, a_turn_comes_again, a_turn_is_skipped, a_wake_after_the_end, a_wake_comes_twice, a_wake_of_who_did_not_wait, a_wake_within_a_turn, an_answer_after_the_end, an_end_in_anothers_turn, time_moves_back, time_moves_within_a_turn};
ghost use Rattle.pth_turns.specs.Turns.{InTurns, StartsInTime};

use pth_base::program::Program;

/// The marks of every run, wherever it stands, are in turns, if the run starts no later than at the last moment: turns are numbered
/// from 1 on, and moments never fall; each mark is one of the thread whose turn it is, or of the one that it cancels or aborts, but for
/// wakes and moves of time, which come between turns; a turn lasts from a dispatch until its thread waits, yields or ends; nobody has a
/// mark who was not made or has ended; who is woken waits, and who is dispatched does not.
pub fn every_run_is_in_turns<P: Program>()
    ensures { (g : Given P) (i : ℕ) → StartsInTime g → InTurns (run P.functions g i).marks }
{}

/// Marks in another thread's turn, or in nobody's: a line of a thread that has not the turn, or has given it up with a yield or a wait,
/// and a dispatch, a wake and a move of time within a turn.
pub fn in_turns_refuses_lines()
    ensures another { InTurns a_line_in_anothers_turn → ⊥ }
    ensures yielded { InTurns a_line_after_a_yield → ⊥ }
    ensures waits { InTurns a_line_after_a_wait → ⊥ }
    ensures dispatch { InTurns a_dispatch_within_a_turn → ⊥ }
    ensures wake { InTurns a_wake_within_a_turn → ⊥ }
    ensures moved { InTurns time_moves_within_a_turn → ⊥ }
{}

/// Turns that skip a number or come again, and moments that fall.
pub fn in_turns_refuses_numbers()
    ensures skipped { InTurns a_turn_is_skipped → ⊥ }
    ensures again { InTurns a_turn_comes_again → ⊥ }
    ensures falls { InTurns a_moment_falls → ⊥ }
    ensures back { InTurns time_moves_back → ⊥ }
    ensures spawn { InTurns a_spawn_skips_a_number → ⊥ }
{}

/// A thread that was not made and is dispatched, one that did not wait and is woken, or is woken twice, and one that waits and is
/// dispatched.
pub fn in_turns_refuses_who_does_not_wait()
    ensures nobody { InTurns a_dispatch_of_nobody → ⊥ }
    ensures wake { InTurns a_wake_of_who_did_not_wait → ⊥ }
    ensures twice { InTurns a_wake_comes_twice → ⊥ }
    ensures waits { InTurns a_dispatch_of_who_waits → ⊥ }
{}

/// A thread that has ended and is answered, dispatched or woken, and one that ends in another's turn without having been canceled; a
/// line of the thread that cancels another which has not ended yet, and one that cancels itself so; and a dispatch after a kill.
pub fn in_turns_refuses_ends()
    ensures answer { InTurns an_answer_after_the_end → ⊥ }
    ensures dispatch { InTurns a_dispatch_after_the_end → ⊥ }
    ensures wake { InTurns a_wake_after_the_end → ⊥ }
    ensures another { InTurns an_end_in_anothers_turn → ⊥ }
    ensures line { InTurns a_line_while_another_ends → ⊥ }
    ensures own { InTurns a_cancellation_of_its_own_from_outside → ⊥ }
    ensures killed { InTurns a_dispatch_after_a_kill → ⊥ }
{}

/// A thread that naps, is woken and answered, and is canceled in another's turn.
pub fn in_turns_takes()
    ensures { InTurns a_nap_and_a_cancellation }
{}

/// Wherever marks in turns stand, those so far are in turns.
pub fn beginnings_are_in_turns()
    ensures { (before later : List Mark) → InTurns (before ++ later) → InTurns before }
{}

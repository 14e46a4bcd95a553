//! Orderly marks.

ghost use Rattle.std.specs.Prelude.{◌≡◌, ◌++◌, ℕ, List};
ghost use Rattle.pth_base.specs.declared.mark.Mark.{Mark};
ghost use Rattle.pth_laws.specs.Examples.{a_canceled_thread_ends_with_0, a_destructor_is_left, a_destructor_of_another_value, a_handler_after_a_destructor, a_later_destructor_first, a_pop_runs_nothing, a_value_is_set_again, a_handler_is_missing, a_key_out_of_range_is_destroyed, a_key_out_of_range_is_left, a_mark_after_the_end, an_answer_after_a_cancellation, an_end_after_a_kill, first_in_first_out};
ghost use Rattle.pth_laws.specs.Marks.{before_block, block_at_end};
ghost use Rattle.pth_laws.specs.Orderly.{Orderly};

/// Marks that are not orderly: handlers that ran first in first out, a handler that did not run, also after another thread's kill, a
/// destructor that did not, also of a key that is none of 0 to 255, an answer after a cancellation, and a mark after an end; a handler
/// after a destructor, a destructor before that of a lesser key, or with a value that its thread does not have, or one that sets its
/// value again and does not run again; a pop without its handler, and a thread that was canceled and ends with 0.
pub fn orderly_refuses()
    ensures order { Orderly first_in_first_out → ⊥ }
    ensures handler { Orderly a_handler_is_missing → ⊥ }
    ensures killed { Orderly an_end_after_a_kill → ⊥ }
    ensures destructor { Orderly a_destructor_is_left → ⊥ }
    ensures key { Orderly a_key_out_of_range_is_left → ⊥ }
    ensures canceled { Orderly an_answer_after_a_cancellation → ⊥ }
    ensures ended { Orderly a_mark_after_the_end → ⊥ }
    ensures first { Orderly a_handler_after_a_destructor → ⊥ }
    ensures least { Orderly a_later_destructor_first → ⊥ }
    ensures value { Orderly a_destructor_of_another_value → ⊥ }
    ensures again { Orderly a_value_is_set_again → ⊥ }
    ensures pop { Orderly a_pop_runs_nothing → ⊥ }
    ensures minus_one { Orderly a_canceled_thread_ends_with_0 → ⊥ }
{}

/// Marks that are orderly, though no run tells them: the destructor of a key that is none of 0 to 255 runs.
pub fn orderly_takes()
    ensures { Orderly a_key_out_of_range_is_destroyed }
{}

/// The block of a thread with which marks close, and the marks before it, are all of them.
pub fn blocks_close_marks()
    ensures { (t : ℕ) (marks : List Mark) → before_block t marks ++ block_at_end t marks ≡ marks }
{}

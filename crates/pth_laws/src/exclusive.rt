//! Exclusive marks.

ghost use Rattle.std.specs.Prelude.{◌++◌, List};
ghost use Rattle.pth_base.specs.declared.mark.Mark.{Mark};
ghost use Rattle.pth_laws.specs.Examples.{a_kill_keeps_levels, a_lock_at_an_end, a_mutex_at_an_end, a_mutex_is_initialised_twice, a_mutex_out_of_range, a_mutex_that_was_not_initialised, a_reader_reads_again, a_release_answered_seven, a_lock_left_by_another, a_mutex_taken_back_beside_an_owner, a_mutex_taken_back_once, a_reader_beside_a_writer, a_release_after_all_was_given_up, a_release_without_a_level, a_writer_beside_a_reader, an_acquire_answered_two, an_await_answered_beside_an_owner, an_await_of_a_number_below_zero, an_await_without_a_level, two_numbers_below_zero, two_owners};
ghost use Rattle.pth_laws.specs.Exclusive.{Exclusive, IsExclusiveAfter};

/// Marks that are not exclusive: a mutex that two threads have, a release by a thread that has no level, also after it gave all of them
/// up, a writer that enters beside a reader or a reader beside a writer, a lock that another thread gives back, and a mutex or a lock
/// that a thread still has as it ends, also after another thread's kill, and after a release that was answered 7, since only an answer
/// of 1 counts.
pub fn exclusive_refuses()
    ensures owners { Exclusive two_owners → ⊥ }
    ensures release { Exclusive a_release_without_a_level → ⊥ }
    ensures given_up { Exclusive a_release_after_all_was_given_up → ⊥ }
    ensures writer { Exclusive a_writer_beside_a_reader → ⊥ }
    ensures reader { Exclusive a_reader_beside_a_writer → ⊥ }
    ensures another { Exclusive a_lock_left_by_another → ⊥ }
    ensures mutex { Exclusive a_mutex_at_an_end → ⊥ }
    ensures lock { Exclusive a_lock_at_an_end → ⊥ }
    ensures killed { Exclusive a_kill_keeps_levels → ⊥ }
    ensures seven { Exclusive a_release_answered_seven → ⊥ }
{}

/// Marks of threads that await and are not exclusive: one that awaits without a level of its mutex, one that takes it back, or whose
/// `cond_await` is answered, while another thread has it, and one that has its mutex again and counts it once more with the answer.
pub fn exclusive_refuses_awaits()
    ensures level { Exclusive an_await_without_a_level → ⊥ }
    ensures took { Exclusive a_mutex_taken_back_beside_an_owner → ⊥ }
    ensures answered { Exclusive an_await_answered_beside_an_owner → ⊥ }
    ensures once { Exclusive a_mutex_taken_back_once → ⊥ }
{}

/// Marks that are exclusive, though no run tells them: a mutex that was not initialised, or that was twice, or that is none of 0 to 63,
/// a thread that takes a mutex of another one and is answered 2, a reader that enters once more, two threads that have mutexes of two
/// numbers below 0, and a `cond_await` that gives back a mutex below 0.
pub fn exclusive_takes()
    ensures uninitialised { Exclusive a_mutex_that_was_not_initialised }
    ensures twice { Exclusive a_mutex_is_initialised_twice }
    ensures beyond { Exclusive a_mutex_out_of_range }
    ensures two { Exclusive an_acquire_answered_two }
    ensures reader { Exclusive a_reader_reads_again }
    ensures below { Exclusive two_numbers_below_zero }
    ensures awaits { Exclusive an_await_of_a_number_below_zero }
{}

/// Wherever exclusive marks stand, no two threads have a mutex, and if a thread writes under a lock no other thread holds it.
pub fn exclusive_marks_exclude()
    ensures { (before later : List Mark) → Exclusive (before ++ later) → IsExclusiveAfter before }
{}

//! Marks of what was initialised.

ghost use Rattle.std.specs.Prelude.{◌++◌, List};
ghost use Rattle.pth_base.specs.declared.mark.Mark.{Mark};
ghost use Rattle.pth_laws.specs.Examples.{a_mutex_is_initialised_twice, a_mutex_out_of_range, a_mutex_that_was_not_initialised, a_reader_reads_again, two_numbers_below_zero, two_owners};
ghost use Rattle.pth_laws.specs.Initialised.{HaveObjects, Initialised};

/// Marks that take what was not initialised, or initialise a mutex twice or one that is none of 0 to 63, and a reader that enters once
/// more: these are exclusive, and refused here.
pub fn initialised_refuses()
    ensures uninitialised { Initialised a_mutex_that_was_not_initialised → ⊥ }
    ensures below { Initialised two_numbers_below_zero → ⊥ }
    ensures twice { Initialised a_mutex_is_initialised_twice → ⊥ }
    ensures beyond { Initialised a_mutex_out_of_range → ⊥ }
    ensures reader { Initialised a_reader_reads_again → ⊥ }
{}

/// Two owners of a mutex that was initialised are not refused here: that they exclude each other is a law of its own.
pub fn initialised_takes()
    ensures { Initialised two_owners }
{}

/// Wherever such marks stand, the mutexes and the locks that threads have are among 0 to 63.
pub fn initialised_marks_are_in_range()
    ensures { (before later : List Mark) → Initialised (before ++ later) → HaveObjects before }
{}

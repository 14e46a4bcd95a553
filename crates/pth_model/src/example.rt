//! Runs that the definitions alone compute.

ghost use Rattle.std.specs.Prelude.{◌≡◌, pos};
ghost use Rattle.pth_base.specs.declared.outcome.Outcome.TheVariants.{Ended};
ghost use Rattle.pth_model.specs.Example.{given, two_bodies, its_marks, joining_bodies, joining_marks, napping_bodies, napping_marks, waiting_bodies, waiting_marks, given_a_byte, reading_bodies, reading_marks, ending_bodies, ending_marks, spawning_bodies, spawning_marks};
ghost use Rattle.pth_model.specs.Run.{run};

/// By the definitions, a main that spawns a thread, yields to it and exits gives exactly these marks, and the run ends
/// with main's value after nine parts.
pub fn two_bodies_run()
    ensures marks { (run two_bodies given 9).marks ≡ its_marks }
    ensures outcome { (run two_bodies given 9).turn.outcome ≡ Ended (pos 0) }
{}

/// By the definitions, a main that suspends one of two new threads, yields to the other by name, resumes the first and joins
/// it gives exactly these marks, and the run ends with main's value after nineteen parts.
pub fn joining_bodies_run()
    ensures marks { (run joining_bodies given 19).marks ≡ joining_marks }
    ensures outcome { (run joining_bodies given 19).turn.outcome ≡ Ended (pos 0) }
{}

/// By the definitions, a main that naps for 5 microseconds sees time move there, and the run ends with its value after seven
/// parts.
pub fn napping_bodies_run()
    ensures marks { (run napping_bodies given 7).marks ≡ napping_marks }
    ensures outcome { (run napping_bodies given 7).turn.outcome ≡ Ended (pos 0) }
{}

/// By the definitions, a main that waits for an event of moment 8 is woken there, and the run ends with its value after eight
/// parts.
pub fn waiting_bodies_run()
    ensures marks { (run waiting_bodies given 8).marks ≡ waiting_marks }
    ensures outcome { (run waiting_bodies given 8).turn.outcome ≡ Ended (pos 0) }
{}

/// By the definitions, a main that reads is woken as a byte comes, and reads it; the run ends with its value after seven parts.
pub fn reading_bodies_run()
    ensures marks { (run reading_bodies given_a_byte 7).marks ≡ reading_marks }
    ensures outcome { (run reading_bodies given_a_byte 7).turn.outcome ≡ Ended (pos 0) }
{}

/// By the definitions, a main that exits with a cleanup handler, and with values under two keys whose destructors set each other's,
/// runs the handler and then four rounds of destructors; the run ends with its value after seven parts.
pub fn ending_bodies_run()
    ensures marks { (run ending_bodies given 7).marks ≡ ending_marks }
    ensures outcome { (run ending_bodies given 7).turn.outcome ≡ Ended (pos 0) }
{}

/// By the definitions, a main that spawns three threads and exits sees the last of them, whose grace is one dispatch, wait for two,
/// as it is allowed; the run ends with main's value after nineteen parts.
pub fn spawning_bodies_run()
    ensures marks { (run spawning_bodies given 19).marks ≡ spawning_marks }
    ensures outcome { (run spawning_bodies given 19).turn.outcome ≡ Ended (pos 0) }
{}

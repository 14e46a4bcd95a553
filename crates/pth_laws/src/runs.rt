//! Laws of every run of every program.
//!
//! `laws` has the clauses of the functions next to it, so a crate above makes one call for all.

ghost use Rattle.std.specs.Prelude.{◌≢◌, ℕ};
ghost use Rattle.pth_base.specs.declared.outcome.Outcome.TheVariants.{Killed};
ghost use Rattle.pth_model.specs.Run.{run};
ghost use Rattle.pth_model.specs.State.{Given};
ghost use Rattle.pth_laws.specs.Clean.{IsClean};
ghost use Rattle.pth_laws.specs.Exclusive.{Exclusive};
ghost use Rattle.pth_laws.specs.Initialised.{Initialised};
ghost use Rattle.pth_laws.specs.InOrder.{InOrder};
ghost use Rattle.pth_laws.specs.Orderly.{Orderly};
ghost use Rattle.pth_laws.specs.RunLaws.{MeetsRunLaws};
ghost use Rattle.pth_laws.specs.Tied.{IsTiedTo};
ghost use Rattle.pth_laws.specs.Valid.{IsValid};

use pth_base::program::Program;

/// The marks of every run, wherever it stands, are orderly: a thread that ended ran the handlers that it had pushed and not
/// popped, the last pushed first, and then its destructors, until none was due in four rounds; a handler that a pop runs is the
/// last that is pending; a thread that was canceled is answered nothing more, and ends with -1; and a thread that has ended has
/// no mark more.
pub fn every_run_is_orderly<P: Program>()
    ensures { (g : Given P) (i : ℕ) → Orderly (run P.functions g i).marks }
{}

/// The marks of every run, wherever it stands, are exclusive, also if a `pth_kill` ended the run: no two threads have a mutex, and
/// who gives a level of one back has it; no thread that writes under a lock meets another that holds it, and who gives a lock back
/// holds it; and a thread that ends has no mutex and no lock left, however it ended.
pub fn every_run_is_exclusive<P: Program>()
    ensures { (g : Given P) (i : ℕ) → Exclusive (run P.functions g i).marks }
{}

/// In the marks of every run, wherever it stands, what a thread takes was initialised before, once, and is one of 0 to 63, and no thread
/// enters a lock that it holds.
pub fn every_run_initialises<P: Program>()
    ensures { (g : Given P) (i : ℕ) → Initialised (run P.functions g i).marks }
{}

/// The marks of every run, wherever it stands, are in order, also if a `pth_kill` ended the run: a message that is got is the oldest
/// of its port, none is missing where none is found, and as many are there as a `pth_msgport_pending` tells.
pub fn every_run_is_in_order<P: Program>()
    ensures { (g : Given P) (i : ℕ) → InOrder (run P.functions g i).marks }
{}

/// Each state of a run fits the marks that led to it, unless a `pth_kill` ended the run: who has ended, what threads have, and which
/// messages are at which ports can be read off a transcript. And who runs, who is named by a yield, and whoever stands in a queue but
/// that of the dead, lives.
pub fn every_run_is_tied<P: Program>()
    ensures tied { (g : Given P) (i : ℕ) → (run P.functions g i).turn.outcome ≢ Killed → IsTiedTo (run P.functions g i).state (run P.functions g i).marks }
    ensures valid { (g : Given P) (i : ℕ) → (run P.functions g i).turn.outcome ≢ Killed → IsValid (run P.functions g i).state (run P.functions g i).turn }
{}

/// Nothing of a wait stays behind, and nothing that a thread has, however the thread ended: by an exit, by a request that it took up at
/// a cancellation point, or in another thread's turn (`pth_cancel`, `pth_abort`). A claim on a ring is that of a thread that lives,
/// and whose call made it; a thread that has a mutex, or holds a lock, lives, and these are among 0 to 63; an arrival that waits at a
/// barrier is that of a thread that lives, and waits there for the round of this arrival; and a seat that a thread has at a condition
/// is that of one that lives, and waits there. An event has a seat only at its own condition, and only while a thread claims its ring.
pub fn every_run_is_clean<P: Program>()
    ensures { (g : Given P) (i : ℕ) → (run P.functions g i).turn.outcome ≢ Killed → IsClean (run P.functions g i).state }
{}

/// Every run of every program, with any kernel, meets the laws of runs wherever it stands: those of its marks, and those of the state to
/// which they led. A crate that builds on them calls this for its program.
pub fn laws<P: Program>()
    ensures { (g : Given P) (i : ℕ) → MeetsRunLaws (run P.functions g i) }
{}

//! Marks in time.

ghost use Rattle.std.specs.Prelude.{◌≤◌, ℕ, Contains};
ghost use Rattle.pth_model.specs.Allowance.{allowed, waited};
ghost use Rattle.pth_model.specs.Course.{HasHistory};
ghost use Rattle.pth_model.specs.Run.{run};
ghost use Rattle.pth_model.specs.Standing.{Standing};
ghost use Rattle.pth_model.specs.State.{Given};
ghost use Rattle.pth_queue.specs.declared.queue.Queue.TheVariants.{Ready};
ghost use Rattle.pth_laws.specs.Examples.{all_dispatched_in_time, one_dispatched_late};
ghost use Rattle.pth_laws.specs.InTime.{InTime};

use pth_base::program::Program;

/// A thread that has waited once more than it may as it is dispatched, which no run tells.
pub fn in_time_refuses()
    ensures { InTime one_dispatched_late → ⊥ }
{}

/// Threads that have waited less than they may, or as often.
pub fn in_time_takes()
    ensures { InTime all_dispatched_in_time }
{}

/// In every run, wherever it stands, no thread has waited longer than it may, neither at its dispatch nor while it is ready: another was
/// taken before it at no more dispatches than its rank on entry is below N + 1, and after these as often as threads stood before it at
/// the first of them, yields named another, and new threads came to Top. N is that of the run, and may be any number.
/// The dispatches of which this is said are those of the run: there is one for each of its turns, and each took a thread that was ready.
pub fn every_run_is_in_time<P: Program>()
    ensures marks { (g : Given P) (i : ℕ) → InTime (run P.functions g i).marks }
    ensures ready { (g : Given P) (i : ℕ) (s : Standing) → let x = (run P.functions g i).state.control.threads in
        Contains (x.standing Ready) s → waited x.trail s ≤ allowed g.top x.trail s }
    ensures history { (g : Given P) (i : ℕ) → HasHistory (run P.functions g i) }
{}

//! Laws of every run.

ghost use Rattle.std.specs.Prelude.{◌≡◌, ◌≢◌, ◌+◌, ◌≤◌, [], ◌∷◌, ◌++◌, ℕ, ℤ, true, List};
ghost use Rattle.pth_base.specs.declared.mark.Mark.{Mark as MarkOf};
ghost use Rattle.pth_base.specs.declared.mark.Mark.TheVariants.{Ended as End};
ghost use Rattle.pth_base.specs.declared.outcome.Outcome.TheVariants.{Running, Ended};
ghost use Rattle.pth_model.specs.State.{Given, main};
ghost use Rattle.pth_model.specs.Transition.{tid};
ghost use Rattle.pth_model.specs.Run.{run, GoesTo, TurnsTo, IsBetween};
ghost use Rattle.pth_model.specs.Part.{Step, next_part};
ghost use Rattle.pth_model.specs.ThreadEnds.{is_alone};
ghost use Rattle.pth_sched.specs.MachineOf.{MachineOf};
ghost use Rattle.pth_sched.specs.Running.{GoesOn, StandsAt, TurnGoesOn};
ghost use Rattle.pth_world.specs.WellFormed.{WellFormed};
ghost use Rattle.pth_end.specs.Whole.{Whole};

use pth_base::program::Program;

/// A run does not depend on how it is cut: what `Machine::advance` ensures of n steps, and then of k steps, is what it
/// ensures of n + k steps. And what it ensures leaves one answer: the same marks, and the same outcome.
pub fn cut_anywhere<P: Program>()
    ensures joined { (g : Given P) (i n k : ℕ) (m t u : MachineOf P P.State P.Shared) (a b c : List MarkOf) → (first : GoesOn P.functions g (m.turn.steps + n) i t a b) → (t.turn.outcome ≡ Running → t.turn.steps ≡ m.turn.steps + n) → GoesOn P.functions g (t.turn.steps + k) first.part u b c → GoesOn P.functions g (m.turn.steps + (n + k)) i u a c }
    ensures same_marks { (g : Given P) (to i : ℕ) (t u : MachineOf P P.State P.Shared) (a b c : List MarkOf) → GoesOn P.functions g to i t a b → GoesOn P.functions g to i u a c → b ≡ c }
    ensures same_outcome { (g : Given P) (to i : ℕ) (t u : MachineOf P P.State P.Shared) (a b c : List MarkOf) → GoesOn P.functions g to i t a b → GoesOn P.functions g to i u a c → t.turn.outcome ≡ u.turn.outcome }
{}

/// Turns, one after another, and then an advance are one advance: what `Machine::turn` ensures, and then what
/// `Machine::advance` ensures to no fewer steps than the turn came to, is what `Machine::advance` ensures to as many. And what
/// `turn` ensures leaves one answer.
pub fn turn_by_turn<P: Program>()
    ensures joined { (g : Given P) (to far i : ℕ) (t u : MachineOf P P.State P.Shared) (a b c : List MarkOf) → (first : TurnGoesOn P.functions g to i t a b) → t.turn.steps ≤ far → GoesOn P.functions g far first.part u b c → GoesOn P.functions g far i u a c }
    ensures same_marks { (g : Given P) (to i : ℕ) (t u : MachineOf P P.State P.Shared) (a b c : List MarkOf) → TurnGoesOn P.functions g to i t a b → TurnGoesOn P.functions g to i u a c → b ≡ c }
    ensures same_outcome { (g : Given P) (to i : ℕ) (t u : MachineOf P P.State P.Shared) (a b c : List MarkOf) → TurnGoesOn P.functions g to i t a b → TurnGoesOn P.functions g to i u a c → t.turn.outcome ≡ u.turn.outcome }
{}

/// The exit of the main thread ends a run, and only where no other thread is new, ready, waiting or suspended. The run ends
/// with the value that is told of main's end (`pth_exit`), and this is told last.
pub fn main_ends_last<P: Program>()
    ensures step { (g : Given P) (i : ℕ) (v : ℤ) → (run P.functions g i).turn.outcome ≡ Running → (run P.functions g (i + 1)).turn.outcome ≡ Ended v → next_part (run P.functions g i).state (run P.functions g i).turn ≡ Step main }
    ensures alone { (g : Given P) (i : ℕ) (v : ℤ) → (run P.functions g i).turn.outcome ≡ Running → (run P.functions g (i + 1)).turn.outcome ≡ Ended v → is_alone (run P.functions g i).state.control main ≡ true }
    ensures value { (g : Given P) (i : ℕ) (v : ℤ) → (run P.functions g i).turn.outcome ≡ Running → (run P.functions g (i + 1)).turn.outcome ≡ Ended v → (before : List MarkOf) × IsBetween P.functions g i (i + 1) (before ++ End (tid main) v ∷ []) }
{}

/// Every run comes to its end, or to each number of steps that it is to have, and every turn to where its run stops or it is
/// closed.
pub fn every_run_stops<P: Program>()
    ensures stops { (g : Given P) (to i : ℕ) → (j : ℕ) × GoesTo P.functions g to i j }
    ensures turns { (g : Given P) (to i : ℕ) → (j : ℕ) × TurnsTo P.functions g to i j }
{}

/// Where a machine stands on a run, its world is whole. So from there on it may be driven by hand, call by call, and stays so.
pub fn machines_on_runs_are_whole<P: Program>()
    ensures { (g : Given P) (i : ℕ) (m : MachineOf P P.State P.Shared) → WellFormed m.world → StandsAt P.functions g i m → Whole m.world }
{}

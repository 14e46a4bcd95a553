//! Laws of snapshots.

ghost use Rattle.std.specs.Prelude.{◌≡◌, ◌⊎◌, ◌≤◌, ℕ, List, Result, Ok};
ghost use Rattle.pth_base.specs.Limits.{last_moment, most_steps};
ghost use Rattle.pth_line.specs.Script.{Sections, functions_of};
ghost use Rattle.pth_operand.specs.declared.cells.Cells.{Cells};
ghost use Rattle.pth_operand.specs.declared.frame.Frame.{Frame};
ghost use Rattle.pth_model.specs.Course.{Course};
ghost use Rattle.pth_model.specs.Run.{run};
ghost use Rattle.pth_model.specs.State.{Given};
ghost use Rattle.pth_sched.specs.MachineOf.{MachineOf};
ghost use Rattle.pth_sched.specs.Running.{Stands, StandsAt, IsAtStep, IsBetweenTurns};
ghost use Rattle.pth_snapshot.specs.Dump.{dump};
ghost use Rattle.pth_snapshot.specs.Loading.{Gives, IsFound, IsLoaded};
ghost use Rattle.pth_snapshot.specs.Place.{IsPlace, IsSavable, named_place, place_of};
ghost use Rattle.pth_snapshot.specs.declared.load.LoadErr.{LoadErr as LoadErrOf};
ghost use Rattle.pth_snapshot.specs.declared.place.Place.{Place as PlaceOf};

use pth_base::program::Program;

/// No two parts of a run are the same place.
pub fn places_are_one<P: Program>()
    ensures { (g : Given P) (p : PlaceOf) (i j : ℕ)
        → IsPlace P.functions g p i → IsPlace P.functions g p j → i ≡ j }
{}

/// Each part of a run at which it goes on, no turn is to be closed next, and at most 1,000,000,000 steps were made, is the place of
/// what it says of itself; and if the run began no later than the last moment, its dump names this place.
pub fn each_part_is_a_place<P: Program>()
    ensures place { (g : Given P) (i : ℕ) → IsSavable P.functions g i
        → IsPlace P.functions g (place_of (run P.functions g i)) i }
    ensures named { (g : Given P) (i : ℕ) → g.kernel.now ≤ last_moment → IsSavable P.functions g i
        → named_place (dump (run P.functions g i)) ≡ Ok (place_of (run P.functions g i)) }
{}

/// What was saved is found again: of the dump of such a part of an accepted input's run, what `load` ensures leaves two answers, want of
/// memory, and a machine that stands on this run at this part, and so goes on with the same marks.
pub fn saved_runs_are_found()
    ensures { (input : List ℕ) (g : Given Sections) (i : ℕ)
        → Gives input g → IsSavable functions_of g i
        → (r : Result (MachineOf Sections Frame Cells) LoadErrOf) → IsLoaded input (dump (run functions_of g i)) r
        → IsFound g i r }
{}

/// A machine of which `advance` or `turn` has just said that its run goes on, and so at its start and behind `idle`, stands at a part
/// that can be saved; and the text that `save` ensures of it is found again beside the input: what `load` ensures leaves two answers, want
/// of memory, and a machine that stands at the same part.
pub fn what_is_saved_is_found()
    ensures savable { (g : Given Sections) (i : ℕ) (m : MachineOf Sections Frame Cells)
        → StandsAt functions_of g i m → IsAtStep m ⊎ IsBetweenTurns m → m.turn.steps ≤ most_steps
        → IsSavable functions_of g i }
    ensures found { (input text : List ℕ) (g : Given Sections) (i : ℕ) (m : MachineOf Sections Frame Cells)
        → Gives input g → StandsAt functions_of g i m → IsAtStep m ⊎ IsBetweenTurns m → m.turn.steps ≤ most_steps
        → ((c : Course Sections Frame Cells) → Stands m c → text ≡ dump c)
        → (r : Result (MachineOf Sections Frame Cells) LoadErrOf) → IsLoaded input text r
        → IsFound g i r }
{}

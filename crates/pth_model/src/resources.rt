//! What is seen of resources.

ghost use Rattle.std.specs.Prelude.{◌≡◌, ℕ};
ghost use Rattle.pth_model.specs.Resources.{told_all};
ghost use Rattle.pth_model.specs.Store.{no_resources};
ghost use Rattle.pth_model.specs.Run.{run};
ghost use Rattle.pth_model.specs.State.{Given};

use pth_base::program::Program;

/// The resources of each state of a run are those that its marks tell: cleanups, keys, mutexes, locks and ports can be read
/// off a transcript.
pub fn resources_are_told<P: Program>()
    ensures { (g : Given P) (i : ℕ) → (run P.functions g i).state.resources ≡ told_all no_resources (run P.functions g i).marks }
{}

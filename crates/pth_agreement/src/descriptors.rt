//! Runs in which a descriptor is open from the start.

ghost use Rattle.std.specs.Prelude.{ℕ};
ghost use Rattle.pth_model.specs.State.{Given};
ghost use Rattle.pth_agreement.specs.Descriptors.{NeverNamesUpTo, AgreesWithOpened};

use pth_base::program::Program;

/// If no call that a thread asks for before part i names a descriptor, then the run in which it is open from the start agrees with the run
/// up to part i, in all but that the descriptor is open: in the state, in the turn and in the marks.
pub fn opened_descriptors_agree<P: Program>()
    ensures agrees { (g : Given P) (d i : ℕ) → NeverNamesUpTo d P.functions g i
        → AgreesWithOpened P.functions g d i }
{}

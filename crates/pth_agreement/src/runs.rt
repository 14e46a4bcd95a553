//! Runs of two programs.

ghost use Rattle.std.specs.Prelude.{◌≡◌, ℕ};
ghost use Rattle.pth_model.specs.Run.{run};
ghost use Rattle.pth_model.specs.State.{Given};
ghost use Rattle.pth_agreement.specs.Agreement.{IsAlikeUpTo, AgreesWithProgram};

use pth_base::program::Program;

/// No part of a run changes the program.
pub fn every_run_keeps_its_program<P: Program>()
    ensures keeps { (g : Given P) (i : ℕ) → (run P.functions g i).state.control.program ≡ g.program }
{}

/// If another program has the same bodies, checks and handlers, and gives the same call in each step that a run makes before part i, then
/// its run agrees with the run up to part i, in all but the program: in the state, in the turn and in the marks.
pub fn runs_agree<P: Program>()
    ensures agrees { (g : Given P) (q : P) (i : ℕ) → IsAlikeUpTo P.functions g q i
        → AgreesWithProgram P.functions g q i }
{}

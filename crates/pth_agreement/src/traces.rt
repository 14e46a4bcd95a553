//! Runs with another kernel trace.

ghost use Rattle.std.specs.Prelude.{◌≡◌, ℕ, List};
ghost use Rattle.pth_kernel.specs.declared.trace.Stamp.{Stamp};
ghost use Rattle.pth_model.specs.Run.{run};
ghost use Rattle.pth_model.specs.State.{Given};
ghost use Rattle.pth_agreement.specs.Traces.{DiffersLater, AgreesWithTrace};

use pth_base::program::Program;

/// No part of a run changes the kernel's trace.
pub fn every_run_keeps_its_trace<P: Program>()
    ensures keeps { (g : Given P) (i : ℕ) → (run P.functions g i).state.control.kernel.trace ≡ g.kernel.trace }
{}

/// If a trace differs from that of a run only in stamps that are later than the run at part i, and the run is not stalled there, then the
/// run with that trace agrees with the run up to part i, in all but the trace: in the state, in the turn and in the marks.
pub fn later_stamps_agree<P: Program>()
    ensures agrees { (g : Given P) (trace : List Stamp) (i : ℕ) → DiffersLater P.functions g trace i
        → AgreesWithTrace P.functions g trace i }
{}

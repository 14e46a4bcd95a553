//! Calls that are refused as they begin.

ghost use Rattle.std.specs.Prelude.{◌≡◌, ℕ, false};
ghost use Rattle.pth_base.specs.declared.call.Call.{Call};
ghost use Rattle.pth_base.specs.declared.errno.Errno.{Errno};
ghost use Rattle.pth_model.specs.Calls.{begun};
ghost use Rattle.pth_model.specs.Rows.{row_of};
ghost use Rattle.pth_model.specs.State.{State};
ghost use Rattle.pth_model.specs.Verdict.{refused};
ghost use Rattle.pth_laws.specs.Refusals.{IsRefusal};

use pth_base::program::Program;

/// A call that its row refuses as it begins changes nothing: it is told with its error, and its thread goes on and is handed the error
/// over. The thread that calls waits at no condition, as no thread does that makes a call.
pub fn refused_calls_change_nothing<P: Program>()
    ensures { (s : State P P.State P.Shared) (t : ℕ) (c : Call) (e : Errno) → (row_of P.functions s t c).begin.verdict ≡ refused e → s.resources.awaits t ≡ false → IsRefusal t c e s (begun P.functions t c s) }
{}

//! Cancellation Management of pth(3): `pth_cancel_state`, `pth_cancel_point`.

ghost use Rattle.std.specs.Prelude.{ℕ, ℤ, not, pos};
ghost use Rattle.pth_base.specs.declared.call.Call.TheVariants as call;
ghost use Rattle.pth_base.specs.declared.errno.Errno.TheVariants.{EINVAL};
ghost use Rattle.pth_numbered.specs.Operands.{◌is_from◌to◌, is_zero, number};
ghost use Rattle.pth_threads.specs.declared.entry.Change.TheVariants as change;
ghost use Rattle.pth_model.specs.Cancellation.{is_to_cancel};
ghost use Rattle.pth_model.specs.Changes.{sets};
ghost use Rattle.pth_model.specs.State.{State};
ghost use Rattle.pth_sheet.specs.Outcomes.{Begins, canceled, returns, refused, ◌then◌};
ghost use Rattle.pth_numbered.specs.Clauses.{◌when◌otherwise◌};
ghost use Rattle.pth_sheet.specs.States.{entry_of, control_becomes};

use pth_base::program::Program;

/// This manages the cancellation state of the current thread. When `n` is not 0 it sets the new cancellation state. The old state is
/// created before the new state is set. A state is a combination of `PTH_CANCEL_ENABLE` or `PTH_CANCEL_DISABLE` and `PTH_CANCEL_DEFERRED`
/// or `PTH_CANCEL_ASYNCHRONOUS`. `PTH_CANCEL_ENABLE|PTH_CANCEL_DEFERRED` is the default state. Here the old state is the answer, and each
/// state has a number (else EINVAL): 1 is enabled and deferred, 2 disabled and deferred, 3 enabled and asynchronous, 4 disabled and
/// asynchronous.
pub fn pth_cancel_state<P: Program>()
    ensures { (s : State P P.State P.Shared) (t : ℕ) (n : ℤ) →
        Begins P.functions s t (call.CancelState n) (
        refused EINVAL when not (n is_from pos 0 to pos 4) otherwise
        returns (entry_of s t).cancel when is_zero n otherwise
        control_becomes (sets t (change.Cancel (number n))) then returns (entry_of s t).cancel) }
{}

/// This explicitly enters a cancellation point. When the current cancellation state is `PTH_CANCEL_DISABLE` or no cancellation request is
/// pending, this has no side effect and returns immediately, here with 1. Else it calls `pth_exit(PTH_CANCELED)`. `is_to_cancel` says that
/// a request is pending and the state is enabled.
pub fn pth_cancel_point<P: Program>()
    ensures { (s : State P P.State P.Shared) (t : ℕ) →
        Begins P.functions s t call.CancelPoint (
        canceled P.functions when is_to_cancel (entry_of s t) otherwise
        returns 1) }
{}

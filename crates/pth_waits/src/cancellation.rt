//! Whether a thread is canceled in the call that blocks it, and `pth_cancel_point`.

ghost use Rattle.std.specs.Prelude.{◌≡◌, ◌≢◌, Some, IfOk, OnOk};
ghost use Rattle.pth_base.specs.declared.call.Call.TheVariants.{CancelPoint};
ghost use Rattle.pth_model.specs.Calls.{begun};
ghost use Rattle.pth_model.specs.Cancellation.{is_point as is_point_wait, is_to_cancel as is_to_cancel_by, may_be_canceled as may_be_canceled_in};
ghost use Rattle.pth_model.specs.Changes.{entry_of, or_nobody};
ghost use Rattle.pth_model.specs.State.{Control};
ghost use Rattle.pth_end.specs.Whole.{Whole, IsUnblocked};
ghost use Rattle.pth_threads.specs.Threads.{tid_at};
ghost use Rattle.pth_world.specs.Frame.{Frame, runs_after, yields_after};
ghost use Rattle.pth_world.specs.Leading.{Goes};
ghost use Rattle.pth_world.specs.Numbering.{no_numbers};
ghost use Rattle.pth_world.specs.Shows.{Shows, StandsFor};
ghost use Rattle.pth_world.specs.Sound.{IsSound};
ghost use Rattle.pth_world.specs.WellFormed.{WellFormed};

use pth_base::answer::Answer;
use pth_base::call::Call;
use pth_base::ids::{Slot, Tid};
use pth_base::marks::Marks;
use pth_base::memory::OutOfMemory;
use pth_base::program::Program;
use pth_end::answering::done;
use pth_end::cancellation::{CANCELED, cancel_within};
use pth_model::awaits::Awaits;
use pth_model::cancel_states::is_enabled;
use pth_model::next::Next;
use pth_threads::entry::Entry;
use pth_world::world::World;

// Whether a thread lets itself be canceled and was asked to end.
fn is_to_cancel(it: &Entry) -> bool
    ensures { result ≡ is_to_cancel_by it.now }
{
    it.request && is_enabled(it.cancel)
}

// Whether a wait is a cancellation point: each is one, but those of pth_exit and pth_barrier_reach, and that of a pth_cond_await for
// its mutex.
fn is_point(awaits: Awaits) -> bool
    ensures { result ≡ is_point_wait awaits }
{
    !matches!(
        awaits,
        Awaits::Nothing | Awaits::Alone | Awaits::Round { .. } | Awaits::Retaking { .. }
    )
}

// Whether a thread, by its number, lets itself be canceled and was asked to end; false where there is none.
fn is_asked<P: Program>(w: &World<P>, t: Tid) -> bool
    requires { IsSound w.now.threads }
    ensures { (k : Control P P.State P.Shared) → Shows w.now k → result ≡ is_to_cancel_by (or_nobody (entry_of k t.0)) }
{
    match w.entry(t) {
        Some(it) => is_to_cancel(it),
        None => false,
    }
}

/// Whether a thread was asked to end, lets itself be canceled, and is blocked in a cancellation point.
pub fn may_be_canceled<P: Program>(w: &World<P>, t: Tid) -> bool
    requires { WellFormed w.now }
    ensures { (k : Control P P.State P.Shared) → Shows w.now k → result ≡ may_be_canceled_in k t.0 }
{
    is_asked(w, t) && is_point(w.awaited(t).what)
}

/// The same of the thread at a slot.
pub fn may_be_canceled_at<P: Program>(w: &World<P>, slot: Slot) -> bool
    requires whole { WellFormed w.now }
    requires used { tid_at w.now.threads.records slot.0 ≢ 0 }
    ensures { (k : Control P P.State P.Shared) → Shows w.now k → result ≡ may_be_canceled_in k (tid_at w.now.threads.records slot.0) }
{
    is_to_cancel(w.entry_at(slot)) && is_point(w.awaited_in(slot).what)
}

/// `pth_cancel_point`: the thread ends where it was asked to and lets itself be canceled. After an error the world may only be
/// dropped.
pub fn cancel_point<P: Program>(
    w: &mut World<P>,
    t: Tid,
    call: &Call,
    marks: &mut Marks,
) -> Result<Next, OutOfMemory>
    requires whole { WellFormed w.old }
    requires runs { w.old.scheduler.running ≡ Some t.0 }
    requires call { call.now ≡ CancelPoint }
    ensures goes { Goes (StandsFor w.old) (begun P.functions t.0 call.now) w.new marks.old marks.new result }
    ensures frame { IfOk result (λ n. Frame w.old w.new no_numbers (runs_after t.0 n) (yields_after n)) }
    ensures keeps { OnOk result (IsUnblocked w.old t.0 → Whole w.old → Whole w.new) }
{
    if is_asked(w, t) {
        cancel_within(w, t, Call::CancelPoint, marks)?;
        return Ok(Next::Ended(CANCELED));
    }
    done(t, call, Answer::Int(1), marks)
}

//! Event Handling of pth(3): when events occur and fail, as the scheduler finds in its pass over the waiting threads.
//!
//! Only events are looked at in whose rings threads wait. `Finds P.functions s e x (..)` says what the pass makes of such an event `e`,
//! which is `x` before: it becomes the first of `failed`, `occurred` and `pending` whose test holds.

ghost use Rattle.std.specs.Prelude.{ℕ, ℤ, not, false, map, filter, ◌+ℤ◌, pos, ◌&&◌, ◌||◌, nat_le, nat_lt, ◌≡◌, length};
ghost use Rattle.pth_base.specs.Descriptors.{contains};
ghost use Rattle.pth_base.specs.declared.event.EventSpec.TheVariants as of;
ghost use Rattle.pth_base.specs.declared.ids.FdSet.{FdSet};
ghost use Rattle.pth_base.specs.declared.mark.Mark.TheVariants.{Woke};
ghost use Rattle.pth_base.specs.declared.thread.ThreadState.{ThreadState};
ghost use Rattle.pth_io.specs.Attempts.{are_all_live, is_any_ready};
ghost use Rattle.pth_kernel.specs.Kernel.{fd_named, is_fd_live, is_readable, is_writeable, is_exceptional};
ghost use Rattle.pth_ring.specs.declared.event.Event.{Event};
ghost use Rattle.pth_cond.specs.Conditions.{is_marked};
ghost use Rattle.pth_model.specs.Calls.{wakes};
ghost use Rattle.pth_model.specs.Cancellation.{may_be_canceled};
ghost use Rattle.pth_model.specs.Changes.{blocked_of, prio_of};
ghost use Rattle.pth_model.specs.EventSeats.{event_seat};
ghost use Rattle.pth_model.specs.Looks.{is_state};
ghost use Rattle.pth_model.specs.Pass.{waiting, pass};
ghost use Rattle.pth_model.specs.RingWaits.{has_settled, ring_held};
ghost use Rattle.pth_model.specs.State.{State, now_of};
ghost use Rattle.pth_model.specs.ThreadControl.{is_known};
ghost use Rattle.pth_model.specs.Times.{moment_after};
ghost use Rattle.pth_model.specs.Transition.{tid};
ghost use Rattle.pth_sheet.specs.Events.{event, after_pass, is_awaited, Finds, failed, occurred, pending, pending_until, check_holds};
ghost use Rattle.pth_numbered.specs.Clauses.{◌when◌otherwise◌};
ghost use Rattle.pth_sheet.specs.States.{thread_of, is_condition, is_message_port, pending_on};

use pth_base::program::Program;

/// `PTH_EVENT_FD` waits until the descriptor is readable, writeable or has an exception, as `goals` says. Here it fails if the descriptor
/// is closed.
pub fn fd_event_occurs<P: Program>()
    ensures { (s : State P P.State P.Shared) (e goals : ℕ) (fd : ℤ) (x : Event) →
        x.spec ≡ of.Fd goals fd →
        Finds P.functions s e x (
        failed when not (is_fd_live s.control.kernel (fd_named fd)) otherwise
        occurred when contains goals 0 && is_readable s.control.kernel (fd_named fd) otherwise
        occurred when contains goals 1 && is_writeable s.control.kernel (fd_named fd) otherwise
        occurred when contains goals 2 && is_exceptional s.control.kernel (fd_named fd) otherwise
        pending) }
{}

/// `PTH_EVENT_SELECT` waits as select(2) does, with the sets `r`, `w` and `x`. Here it fails if a member of one of them is closed.
pub fn select_event_occurs<P: Program>()
    ensures { (s : State P P.State P.Shared) (e : ℕ) (r w ex : FdSet) (x : Event) →
        x.spec ≡ of.Select r w ex →
        Finds P.functions s e x (
        failed when not (are_all_live s.control.kernel r.0 w.0 ex.0) otherwise
        occurred when is_any_ready s.control.kernel r.0 w.0 ex.0 otherwise
        pending) }
{}

/// `PTH_EVENT_TIME` waits until the specified time point has elapsed.
pub fn time_event_occurs<P: Program>()
    ensures { (s : State P P.State P.Shared) (e moment : ℕ) (x : Event) →
        x.spec ≡ of.Time moment →
        Finds P.functions s e x (
        occurred when nat_le moment (now_of s.control) otherwise
        pending) }
{}

/// `PTH_EVENT_MSG` waits until one or more messages were received on the message port. Here it fails if there is no such port.
pub fn msg_event_occurs<P: Program>()
    ensures { (s : State P P.State P.Shared) (e : ℕ) (p : ℤ) (x : Event) →
        x.spec ≡ of.Msg p →
        Finds P.functions s e x (
        failed when not (is_message_port s p) otherwise
        occurred when nat_lt 0 (length (pending_on s p)) otherwise
        pending) }
{}

/// `PTH_EVENT_TID` waits until the thread has the state. Here it fails if the thread is not in the system.
pub fn tid_event_occurs<P: Program>()
    ensures { (s : State P P.State P.Shared) (e : ℕ) (state : ThreadState) (n : ℤ) (x : Event) →
        x.spec ≡ of.Tid state n →
        Finds P.functions s e x (
        failed when not (is_known s.control n) otherwise
        occurred when is_state state (thread_of s n).state otherwise
        pending) }
{}

/// `PTH_EVENT_COND` waits until its condition is notified. Here the event has a seat at the condition while a thread waits for its ring,
/// and occurs once this seat is notified. It fails if the condition is not initialised.
pub fn cond_event_occurs<P: Program>()
    ensures { (s : State P P.State P.Shared) (e : ℕ) (c : ℤ) (x : Event) →
        x.spec ≡ of.Cond c →
        Finds P.functions s e x (
        failed when not (is_condition s c) otherwise
        occurred when is_marked s.control.conditions c (event_seat e) otherwise
        pending) }
{}

/// `PTH_EVENT_FUNC`: the scheduler calls the check function, and the thread is kept sleeping while it returns FALSE. The check function is
/// polled again not until the check interval has elapsed.
pub fn func_event_occurs<P: Program>()
    ensures { (s : State P P.State P.Shared) (e interval : ℕ) (check arg : ℤ) (x : Event) →
        x.spec ≡ of.Func check arg interval →
        Finds P.functions s e x (
        pending when nat_lt (now_of s.control) x.next_look otherwise
        occurred when check_holds P.functions s check arg otherwise
        pending_until (moment_after (now_of s.control) interval)) }
{}

/// Events in whose rings no thread waits stay as they are, so their status is what was found as they were last looked at
/// (`pth_event_status`). No event is made or freed, and no ring changes.
pub fn other_events_stay<P: Program>()
    ensures stay { (s : State P P.State P.Shared) (e : ℕ) →
        is_awaited s e ≡ false →
        event (after_pass P.functions s) e ≡ event s e }
    ensures rings { (s : State P P.State P.Shared) →
        (after_pass P.functions s).control.events.rings ≡ s.control.events.rings }
{}

/// The pass awakens a waiting thread whose call has what it waits for, or in whose ring an event has now occurred or failed, or that may
/// be canceled. The threads are awakened in the order in which they wait, each at its priority and one.
pub fn waiting_threads_are_awakened<P: Program>()
    ensures { (s : State P P.State P.Shared) →
        (pass P.functions s).marks ≡
        map (λ t. Woke (tid t) (prio_of s.control t +ℤ pos 1)) (filter (λ t.
        wakes t s
        || has_settled (after_pass P.functions s).control.events (ring_held (blocked_of s.control t))
        || may_be_canceled s.control t) (waiting s.control)) }
{}

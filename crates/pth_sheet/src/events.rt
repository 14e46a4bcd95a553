//! Event Handling of pth(3): events and event rings, `pth_event_t`. `pth_event` has a statement for each type of event.
//!
//! The statements say how an event is created. When it occurs or fails is stated in `occurrences.rt`.

ghost use Rattle.std.specs.Prelude.{ℕ, ℤ, not, ◌&&◌, ◌+◌, ◌≡◌, None, Some, ◌||◌, option_map, Bool, if◌then◌else◌};
ghost use Rattle.pth_base.specs.Descriptors.{descriptor_limit};
ghost use Rattle.pth_base.specs.declared.answer.Answer.TheVariants.{Int};
ghost use Rattle.pth_base.specs.declared.call.Call.TheVariants as call;
ghost use Rattle.pth_base.specs.declared.errno.Errno.TheVariants.{EINVAL, EAGAIN, EBUSY, ENOENT};
ghost use Rattle.pth_base.specs.declared.event.EvLine.{EvLine};
ghost use Rattle.pth_base.specs.declared.event.EventSpec.{EventSpec};
ghost use Rattle.pth_base.specs.declared.event.EventSpec.TheVariants as of;
ghost use Rattle.pth_base.specs.declared.ids.FdSet.{FdSet};
ghost use Rattle.pth_base.specs.declared.thread.ThreadState.{ThreadState};
ghost use Rattle.pth_numbered.specs.Operands.{is_below, number};
ghost use Rattle.pth_ring.specs.Ring.{ring_holds, head_event, rest_of};
ghost use Rattle.pth_ring.specs.Rings.{is_full_of_events, alone, is_event, is_claimed, chained, concatenated, isolated, event_id, walk_end, candidates, kind_of, ring_freed, freed};
ghost use Rattle.pth_ring.specs.declared.event.Event.{Event};
ghost use Rattle.pth_model.specs.EventHandling.{are_goals, spec_of, number_or_none, status_number};
ghost use Rattle.pth_model.specs.State.{State};
ghost use Rattle.pth_model.specs.Times.{is_negative, moment_of, length_of};
ghost use Rattle.pth_sheet.specs.Outcomes.{Begins, refused, ◌then◌, returns, answers};
ghost use Rattle.pth_numbered.specs.Clauses.{◌when◌otherwise◌};
ghost use Rattle.pth_sheet.specs.States.{events_become};

use pth_base::program::Program;

/// This creates a new event ring consisting of a single initial event. `PTH_EVENT_FD` is a file descriptor event. One or more of
/// `PTH_UNTIL_FD_READABLE` (1), `PTH_UNTIL_FD_WRITEABLE` (2) or `PTH_UNTIL_FD_EXCEPTION` (4) have to be OR-ed into `goals` to specify on
/// which state of the file descriptor `fd` you want to wait.
pub fn pth_event_fd<P: Program>()
    ensures { (s : State P P.State P.Shared) (t : ℕ) (goals : ℕ) (fd : ℤ) →
        Begins P.functions s t (call.EvFd goals fd) (
        refused EINVAL when not (are_goals goals && is_below fd descriptor_limit) otherwise
        refused EAGAIN when is_full_of_events s.control.events otherwise
        events_become (alone (of.Fd goals fd)) then returns (s.control.events.made + 1)) }
{}

/// This creates a new event ring consisting of a single initial event. `PTH_EVENT_SELECT` is a multiple file descriptor event modeled
/// directly after the select(2) call, with the sets `r`, `w` and `x`. Here the event does not store the number of descriptors.
pub fn pth_event_select<P: Program>()
    ensures { (s : State P P.State P.Shared) (t : ℕ) (r w x : FdSet) →
        Begins P.functions s t (call.EvSelect r w x) (
        refused EAGAIN when is_full_of_events s.control.events otherwise
        events_become (alone (of.Select r w x)) then returns (s.control.events.made + 1)) }
{}

/// This creates a new event ring consisting of a single initial event. `PTH_EVENT_TIME` is a time point event. This event waits until the
/// specified time point `n` has elapsed. The value is an absolute time point and not an offset.
pub fn pth_event_time<P: Program>()
    ensures { (s : State P P.State P.Shared) (t : ℕ) (n : ℤ) →
        Begins P.functions s t (call.EvTime n) (
        refused EINVAL when is_negative n otherwise
        refused EAGAIN when is_full_of_events s.control.events otherwise
        events_become (alone (of.Time (moment_of n))) then returns (s.control.events.made + 1)) }
{}

/// This creates a new event ring consisting of a single initial event. `PTH_EVENT_MSG` is a message port event. This event waits until one
/// or more messages were received on the specified message port `p`.
pub fn pth_event_msg<P: Program>()
    ensures { (s : State P P.State P.Shared) (t : ℕ) (p : ℤ) →
        Begins P.functions s t (call.EvMsg p) (
        refused EAGAIN when is_full_of_events s.control.events otherwise
        events_become (alone (of.Msg p)) then returns (s.control.events.made + 1)) }
{}

/// This creates a new event ring consisting of a single initial event. `PTH_EVENT_TID` is a thread event. One of `PTH_UNTIL_TID_NEW`,
/// `PTH_UNTIL_TID_READY`, `PTH_UNTIL_TID_WAITING` or `PTH_UNTIL_TID_DEAD`, here `x`, specifies on which state of the thread `n` you want to
/// wait.
pub fn pth_event_tid<P: Program>()
    ensures { (s : State P P.State P.Shared) (t : ℕ) (x : ThreadState) (n : ℤ) →
        Begins P.functions s t (call.EvTid x n) (
        refused EAGAIN when is_full_of_events s.control.events otherwise
        events_become (alone (of.Tid x n)) then returns (s.control.events.made + 1)) }
{}

/// This creates a new event ring consisting of a single initial event. `PTH_EVENT_FUNC` is a custom callback function event. The first
/// argument is a check function, and the second argument `v` is a context value which is passed to this function. The scheduler calls this
/// function on a regular basis, and the thread is kept sleeping while the function returns FALSE. The check function is polled again not
/// until the amount of time `l` elapsed.
pub fn pth_event_func<P: Program>()
    ensures { (s : State P P.State P.Shared) (t : ℕ) (check v l : ℤ) →
        Begins P.functions s t (call.EvFunc check v l) (
        refused EINVAL when is_negative l otherwise
        refused EAGAIN when is_full_of_events s.control.events otherwise
        events_become (alone (of.Func check v (length_of 1 l))) then
        returns (s.control.events.made + 1)) }
{}

/// `PTH_EVENT_COND` is an event of a condition variable `c`. The library's `pth.h` has this type; pth(3) does not describe it.
pub fn pth_event_cond<P: Program>()
    ensures { (s : State P P.State P.Shared) (t : ℕ) (c : ℤ) →
        Begins P.functions s t (call.EvCond c) (
        refused EAGAIN when is_full_of_events s.control.events otherwise
        events_become (alone (of.Cond c)) then returns (s.control.events.made + 1)) }
{}

/// `PTH_MODE_CHAIN` makes a new event of the line `l` that is inserted into the event ring of `e`, here just before `e`. The library's
/// `pth.h` has this mode; pth(3) does not describe it.
pub fn pth_event_chained<P: Program>()
    ensures argument_refused { (s : State P P.State P.Shared) (t : ℕ) (e : ℤ) (l : EvLine) →
        spec_of l ≡ None →
        Begins P.functions s t (call.Chain e l) (refused EINVAL) }
    ensures made { (s : State P P.State P.Shared) (t : ℕ) (e : ℤ) (l : EvLine) (x : EventSpec) →
        spec_of l ≡ Some x →
        Begins P.functions s t (call.Chain e l) (
        refused EINVAL when not (is_event s.control.events (number e)) otherwise
        refused EBUSY when is_claimed s.control.events (number e) otherwise
        refused EAGAIN when is_full_of_events s.control.events otherwise
        events_become (chained x (number e)) then returns (s.control.events.made + 1)) }
{}

/// This returns the type of event `e`, the describing `PTH_EVENT_XX`. Here the types are numbered from 1, and the `PTH_UNTIL_XX` value is
/// not included.
pub fn pth_event_typeof<P: Program>()
    ensures no_event { (s : State P P.State P.Shared) (t : ℕ) (e : ℤ) →
        s.control.events.events (number e) ≡ None →
        Begins P.functions s t (call.EvKind e) (refused EINVAL) }
    ensures found { (s : State P P.State P.Shared) (t : ℕ) (e : ℤ) (x : Event) →
        s.control.events.events (number e) ≡ Some x →
        Begins P.functions s t (call.EvKind e) (returns (kind_of x.spec)) }
{}

/// This concatenates an additional event ring, that of `g`, to the event ring `e` and returns `e`. Here one ring is added at a time.
pub fn pth_event_concat<P: Program>()
    ensures { (s : State P P.State P.Shared) (t : ℕ) (e g : ℤ) →
        Begins P.functions s t (call.EvConcat e g) (
        refused EINVAL when not (is_event s.control.events (number e)
        && is_event s.control.events (number g)) otherwise
        refused EINVAL when ring_holds (number e) (s.control.events.rings (number g)) otherwise
        refused EBUSY when is_claimed s.control.events (number e)
        || is_claimed s.control.events (number g) otherwise
        events_become (concatenated (number e) (number g)) then answers (Int e)) }
{}

/// This isolates the event `e` from possibly appended events in the event ring. When in `e` only one event exists, this returns NULL (0).
/// When remaining events exist, they form a new event ring which is returned.
pub fn pth_event_isolate<P: Program>()
    ensures { (s : State P P.State P.Shared) (t : ℕ) (e : ℤ) →
        let next = head_event (rest_of (s.control.events.rings (number e))) in
        Begins P.functions s t (call.EvIsolate e) (
        refused EINVAL when not (is_event s.control.events (number e)) otherwise
        refused EBUSY when is_claimed s.control.events (number e) otherwise
        events_become (isolated (number e)) then
        returns (number_or_none (option_map event_id next))) }
{}

/// This walks to the next (`PTH_WALK_NEXT`, `forward`) or previous (`PTH_WALK_PREV`) event in the event ring `e` and returns this newly
/// reached event. Additionally `PTH_UNTIL_OCCURRED`, here `until`, can be given to walk to the next or previous occurred event in the ring
/// `e`.
pub fn pth_event_walk<P: Program>()
    ensures found { (s : State P P.State P.Shared) (t : ℕ) (e : ℤ) (forward until : Bool) (x : ℕ) →
        let ring = s.control.events.rings (number e) in
        walk_end until s.control.events.events (candidates forward ring) ≡ Some x →
        Begins P.functions s t (call.EvWalk e forward until) (
        refused EINVAL when not (is_event s.control.events (number e)) otherwise
        returns x) }
    ensures none_occurred { (s : State P P.State P.Shared) (t : ℕ) (e : ℤ) (forward until : Bool) →
        let ring = s.control.events.rings (number e) in
        walk_end until s.control.events.events (candidates forward ring) ≡ None →
        Begins P.functions s t (call.EvWalk e forward until) (
        refused EINVAL when not (is_event s.control.events (number e)) otherwise
        refused ENOENT) }
{}

/// This returns the status of event `e`. This doesn't check the event itself, it just checks the last knowledge of the scheduler. The
/// possible returned status codes are: `PTH_STATUS_PENDING` (0, event is still pending), `PTH_STATUS_OCCURRED` (1, event successfully
/// occurred), `PTH_STATUS_FAILED` (2, event failed).
pub fn pth_event_status<P: Program>()
    ensures no_event { (s : State P P.State P.Shared) (t : ℕ) (e : ℤ) →
        s.control.events.events (number e) ≡ None →
        Begins P.functions s t (call.EvStatus e) (refused EINVAL) }
    ensures found { (s : State P P.State P.Shared) (t : ℕ) (e : ℤ) (x : Event) →
        s.control.events.events (number e) ≡ Some x →
        Begins P.functions s t (call.EvStatus e) (returns (status_number x.status)) }
{}

/// This deallocates the event `e` (`PTH_FREE_THIS`) or all events appended to the event ring under `e` (`PTH_FREE_ALL`, `all`).
pub fn pth_event_free<P: Program>()
    ensures { (s : State P P.State P.Shared) (t : ℕ) (e : ℤ) (all : Bool) →
        Begins P.functions s t (call.EvFree e all) (
        refused EINVAL when not (is_event s.control.events (number e)) otherwise
        refused EBUSY when is_claimed s.control.events (number e) otherwise
        events_become (if all then ring_freed (number e) else freed (number e)) then returns 1) }
{}

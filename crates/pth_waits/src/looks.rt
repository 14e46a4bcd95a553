//! What is found of events, and the rings for which threads wait.

ghost use Rattle.std.specs.Prelude.{◌≡◌, ◌≢◌, ◌<◌, ◌&&◌, ◌||◌, ℕ, false, nat_le, Some, None, if◌then◌else◌};
ghost use Rattle.std.specs.List.{list_any};
ghost use Rattle.pth_base.specs.Descriptors.{contains};
ghost use Rattle.pth_kernel.specs.Kernel.{kernel_of, fd_named, is_readable, is_writeable, is_exceptional};
ghost use Rattle.pth_cond.specs.Conditions.{is_marked};
ghost use Rattle.pth_model.specs.EventSeats.{event_seat};
ghost use Rattle.pth_model.specs.Looks.{comes, found_by, found_unasked, check_holds, looks_at};
ghost use Rattle.pth_model.specs.State.{Control, State, now_of};
ghost use Rattle.pth_numbered.specs.Numbered.{number_at};
ghost use Rattle.pth_numbered.specs.Operands.{number};
ghost use Rattle.pth_ring.specs.Arena.{events_of};
ghost use Rattle.pth_ring.specs.Ring.{Begins};
ghost use Rattle.pth_ring.specs.Rings.{is_pending as is_pending_status};
ghost use Rattle.pth_world.specs.Shows.{Shows, StandsFor};
ghost use Rattle.pth_world.specs.Sound.{IsSound};
ghost use Rattle.pth_waits.specs.Looking.{IsFunction, IsUnasked, KeepsRings, LooksAt};

use pth_base::ids::{EventId, FdSet, Micros, Slot};
use pth_base::program::Program;
use pth_base::thread::ThreadState;
use pth_cond::seats::Seat;
use pth_io::select::{are_all_live, is_any_ready};
use pth_kernel::kernel::Kernel;
use pth_model::looks::is_state;
use pth_model::times::moment_after;
use pth_ring::rings::{EventSpec, Status};
use pth_world::world::World;

// Whether a goal is one of an event's: 0 to be readable, 1 to be writeable, 2 an exceptional condition.
fn has_goal(goals: u8, goal: u8) -> bool
    requires { goal < 8 }
    ensures { result ≡ contains goals goal }
{
    goals >> goal & 1 == 1
}

/// Whether a descriptor is as one of these goals says.
pub(crate) fn is_as_goals_say(k: &Kernel, goals: u8, fd: i64) -> bool
    ensures { result ≡ ((contains goals 0 && is_readable (kernel_of k.now) (fd_named fd)) || (contains goals 1 && is_writeable (kernel_of k.now) (fd_named fd)) || (contains goals 2 && is_exceptional (kernel_of k.now) (fd_named fd))) }
{
    has_goal(goals, 0) && k.readable(fd)
        || has_goal(goals, 1) && k.writeable(fd)
        || has_goal(goals, 2) && k.exceptional(fd)
}

/// Whether the seat of an event at a condition was notified.
pub(crate) fn is_noticed_event<P: Program>(w: &World<P>, e: EventId, c: i64) -> bool
    ensures { (k : Control P P.State P.Shared) → Shows w.now k → result ≡ is_marked k.conditions c (event_seat e.0) }
{
    w.conditions().is_marked(c, Seat::Event(e))
}

// What is found of an event that does not fail.
fn status_of(occurs: bool) -> Status
    ensures { result ≡ found_by false occurs }
{
    if occurs {
        Status::Occurred
    } else {
        Status::Pending
    }
}

// What is found of an event of a descriptor.
fn found_fd<P: Program>(w: &World<P>, goals: u8, fd: i64) -> Status
    ensures { (s : State P P.State P.Shared) (e : ℕ) → StandsFor w.now s → result ≡ found_unasked s e (EventSpec.Fd goals fd) }
{
    if !w.kernel().is_live(fd) {
        return Status::Failed;
    }
    status_of(is_as_goals_say(w.kernel(), goals, fd))
}

// What is found of an event of sets of descriptors.
fn found_select<P: Program>(w: &World<P>, r: FdSet, writes: FdSet, x: FdSet) -> Status
    ensures { (s : State P P.State P.Shared) (e : ℕ) → StandsFor w.now s → result ≡ found_unasked s e (EventSpec.Select r writes x) }
{
    if !are_all_live(w.kernel(), r, writes, x) {
        return Status::Failed;
    }
    status_of(is_any_ready(w.kernel(), r, writes, x))
}

// What is found of an event of a condition.
fn found_cond<P: Program>(w: &World<P>, e: EventId, c: i64) -> Status
    ensures { (s : State P P.State P.Shared) → StandsFor w.now s → result ≡ found_unasked s e.0 (EventSpec.Cond c) }
{
    if !w.conditions().is_live(c) {
        return Status::Failed;
    }
    status_of(is_noticed_event(w, e, c))
}

// What is found of an event of a thread.
fn found_thread<P: Program>(w: &World<P>, state: ThreadState, tid: i64) -> Status
    requires { IsSound w.now.threads }
    ensures { (s : State P P.State P.Shared) (e : ℕ) → StandsFor w.now s → result ≡ found_unasked s e (EventSpec.Tid state tid) }
{
    match w.known(tid) {
        Some(it) => status_of(is_state(state, it.state)),
        None => Status::Failed,
    }
}

/// What is found of an event of a message.
pub(crate) fn found_message<P: Program>(w: &World<P>, p: i64) -> Status
    ensures { (s : State P P.State P.Shared) (e : ℕ) → StandsFor w.now s → result ≡ found_unasked s e (EventSpec.Msg p) }
{
    match w.ports().pending(p) {
        Ok(n) => status_of(n > 0),
        Err(_) => Status::Failed,
    }
}

// What is found of an event, if no check is asked.
fn found<P: Program>(w: &World<P>, e: EventId, spec: &EventSpec) -> Status
    requires { IsSound w.now.threads }
    ensures { (s : State P P.State P.Shared) → StandsFor w.now s → result ≡ found_unasked s e.0 spec.now }
{
    match spec {
        EventSpec::Time(at) => status_of(*at <= w.time()),
        EventSpec::Fd { goals, fd } => found_fd(w, *goals, *fd),
        EventSpec::Select { r, w: writes, x } => found_select(w, *r, *writes, *x),
        EventSpec::Msg(p) => found_message(w, *p),
        EventSpec::Cond(c) => found_cond(w, e, *c),
        EventSpec::Tid { state, tid } => found_thread(w, *state, *tid),
        EventSpec::Func { .. } => Status::Pending,
    }
}

/// Whether nothing was found yet.
pub(crate) fn is_pending(status: Status) -> bool
    ensures { result ≡ is_pending_status status }
{
    match status {
        Status::Pending => true,
        Status::Occurred => false,
        Status::Failed => false,
    }
}

// What a look finds of an event of a function. Its check is asked only if its next look is due.
fn asked<P: Program>(w: &World<P>, next: Micros, check: i64, arg: i64) -> Option<bool>
    ensures { (s : State P P.State P.Shared) → StandsFor w.now s
        → result ≡ (if nat_le next (now_of s.control) then Some (check_holds P.functions s check arg) else None) }
{
    if next <= w.time() {
        Some(w.check(check, arg))
    } else {
        None
    }
}

// The event of a function at a place is looked at. Whether it has occurred then. A look that is due and finds that the check does not
// hold puts the next one off.
fn look_at_function<P: Program>(
    w: &mut World<P>,
    place: Slot,
    next: Micros,
    check: i64,
    arg: i64,
    interval: Micros,
) -> bool
    requires used { number_at w.old.events place.0 ≢ 0 }
    requires is { IsFunction next check arg interval ((events_of w.old.events).events (number_at w.old.events place.0)) }
    ensures looked { (s : State P P.State P.Shared) → StandsFor w.old s
        → LooksAt P.functions s (number_at w.old.events place.0) (events_of w.old.events) (events_of w.new.events) result }
    ensures kept { KeepsRings w.old.events w.new.events }
    ensures same { w.new ≡ record w.old { events = w.new.events } }
{
    match asked(w, next, check, arg) {
        Some(true) => {
            w.rings_mut().mark_at(place, Status::Occurred);
            true
        }
        Some(false) => {
            let later = moment_after(w.time(), interval);
            w.rings_mut().mark_at(place, Status::Pending);
            w.rings_mut().look_next_at(place, later);
            false
        }
        None => {
            w.rings_mut().mark_at(place, Status::Pending);
            false
        }
    }
}

// The event at a place is looked at, if it is of no function. Whether it is not pending then.
fn look_unasked<P: Program>(w: &mut World<P>, place: Slot) -> bool
    requires sound { IsSound w.old.threads }
    requires used { number_at w.old.events place.0 ≢ 0 }
    requires is { IsUnasked ((events_of w.old.events).events (number_at w.old.events place.0)) }
    ensures looked { (s : State P P.State P.Shared) → StandsFor w.old s
        → LooksAt P.functions s (number_at w.old.events place.0) (events_of w.old.events) (events_of w.new.events) result }
    ensures kept { KeepsRings w.old.events w.new.events }
    ensures same { w.new ≡ record w.old { events = w.new.events } }
{
    let rings = w.rings();
    let status = found(w, rings.id_at(place), rings.spec_at(place));
    w.rings_mut().mark_at(place, status);
    !is_pending(status)
}

// The event at a place is looked at. Whether it is not pending then.
fn look_at<P: Program>(w: &mut World<P>, place: Slot) -> bool
    requires sound { IsSound w.old.threads }
    requires used { number_at w.old.events place.0 ≢ 0 }
    ensures looked { (s : State P P.State P.Shared) → StandsFor w.old s
        → LooksAt P.functions s (number_at w.old.events place.0) (events_of w.old.events) (events_of w.new.events) result }
    ensures kept { KeepsRings w.old.events w.new.events }
    ensures same { w.new ≡ record w.old { events = w.new.events } }
{
    let event = w.rings().event_at(place);
    let next = event.next_look;
    match event.spec {
        EventSpec::Func {
            check,
            arg,
            interval,
        } => look_at_function(w, place, next, check, arg, interval),
        _ => look_unasked(w, place),
    }
}

// The events of a ring are looked at, from a place on and round. Whether one of them is not pending then.
fn look_round<P: Program>(w: &mut World<P>, first: Slot) -> bool
    requires sound { IsSound w.old.threads }
    requires used { number_at w.old.events first.0 ≢ 0 }
    requires begins { Begins ((events_of w.old.events).rings (number_at w.old.events first.0)) (number_at w.old.events first.0) }
    ensures shows { (s : State P P.State P.Shared) → StandsFor w.old s
        → Shows w.new (looks_at P.functions s (s.control.events.rings (number_at w.old.events first.0)) s.control) }
    ensures comes { (s : State P P.State P.Shared) → StandsFor w.old s
        → result ≡ list_any (λ e. comes P.functions s e (s.control.events.events e))
        (s.control.events.rings (number_at w.old.events first.0)) }
    ensures made { w.new.events.made ≡ w.old.events.made }
    ensures same { w.new ≡ record w.old { events = w.new.events } }
{
    let mut at = first;
    let mut come = false;
    'round: loop {
        come = look_at(w, at) | come;
        at = w.rings().next_at(at);
        if at.0 == first.0 {
            return come;
        }
    }
}

/// The events of the ring of an event are looked at, as a pass does with the rings for which threads wait. Whether one of them is
/// not pending then.
pub fn look_at_ring<P: Program>(w: &mut World<P>, e: i64) -> bool
    requires sound { IsSound w.old.threads }
    ensures shows { (s : State P P.State P.Shared) → StandsFor w.old s
        → Shows w.new (looks_at P.functions s (s.control.events.rings (number e)) s.control) }
    ensures comes { (s : State P P.State P.Shared) → StandsFor w.old s
        → result ≡ list_any (λ e. comes P.functions s e (s.control.events.events e)) (s.control.events.rings (number e)) }
    ensures made { w.new.events.made ≡ w.old.events.made }
    ensures same { w.new ≡ record w.old { events = w.new.events } }
{
    match w.rings().find(e) {
        Some(first) => look_round(w, first),
        None => false,
    }
}

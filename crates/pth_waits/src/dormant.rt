//! Until when blocked threads are not to wake, if nothing changes but time.

ghost use Rattle.std.specs.Prelude.{◌≡◌, ◌≢◌, ◌<◌, ◌≤◌, ◌+◌, ℕ, false, if◌then◌else◌};
ghost use Rattle.pth_base.specs.Limits.{last_moment};
ghost use Rattle.pth_kernel.specs.Kernel.{advanced, kernel_of, next_time};
ghost use Rattle.pth_model.specs.Coming.{descriptors_bring};
ghost use Rattle.pth_model.specs.Looks.{found_unasked};
ghost use Rattle.pth_model.specs.State.{State, now_of};
ghost use Rattle.pth_numbered.specs.Numbered.{number_at};
ghost use Rattle.pth_numbered.specs.Operands.{number};
ghost use Rattle.pth_ring.specs.Arena.{events_of};
ghost use Rattle.pth_ring.specs.Ring.{Begins};
ghost use Rattle.pth_ring.specs.declared.event.Status.TheVariants.{Pending};
ghost use Rattle.pth_threads.specs.Threads.{tid_at};
ghost use Rattle.pth_waits.specs.Dormant.{AreFoundPending, ArePending, IsDormant, IsFoundPending, IsUndue, StaysAway, after_now, bound, deadline_in};
ghost use Rattle.pth_world.specs.Shows.{StandsFor};
ghost use Rattle.pth_world.specs.WellFormed.{MayAwait, WellFormed};

use crate::barriers::has_passed;
use crate::cancellation::may_be_canceled_at;
use crate::conditions::is_noticed;
use crate::joins::{any_has_died, has_died};
use crate::looks::{found_message, is_as_goals_say, is_noticed_event, is_pending};
use crate::mutexes::is_free_mutex;
use crate::rwlocks::is_open_lock;
use crate::trials::descriptors_bring;
use pth_base::ids::{EventId, FdSet, MAIN, Micros, Slot};
use pth_base::limits::LAST_MOMENT;
use pth_base::program::Program;
use pth_io::select::{are_all_live, is_any_ready};
use pth_kernel::kernel::Kernel;
use pth_model::awaits::Awaits;
use pth_ring::rings::EventSpec;
use pth_world::world::World;

// After the last moment.
const NEVER: Micros = LAST_MOMENT + 1;

/// After the last moment, and so after now.
pub fn never<P: Program>(w: &World<P>) -> Micros
    ensures never { result ≡ last_moment + 1 }
    ensures later { w.now.kernel.now < result }
{
    prove!(w.time() <= LAST_MOMENT);
    NEVER
}

// Until when something stays away that time does not bring.
fn never_unless<P: Program>(w: &World<P>, here: bool) -> Micros
    ensures until { result ≡ (if here then 0 else last_moment + 1) }
    ensures later { here ≡ false → w.now.kernel.now < result }
{
    if here { 0 } else { never(w) }
}

// Until when nothing comes to a descriptor.
fn next_arrival(k: &Kernel) -> Micros
    ensures arrival { result ≡ bound (next_time (kernel_of k.now)) }
    ensures within { result ≤ last_moment + 1 }
    ensures later { k.now.now < result }
{
    prove!(k.now() <= LAST_MOMENT);
    match k.next_entry() {
        Some(at) => at,
        None => NEVER,
    }
}

// The deadline of what is awaited at descriptors.
fn deadline_of(awaits: Awaits) -> Micros
    ensures { result ≡ deadline_in awaits }
{
    match awaits {
        Awaits::Selection {
            deadline: Some(moment),
            ..
        } => moment,
        _ => NEVER,
    }
}

// Until when a thread does not have what it waits for at descriptors.
fn descriptors_until(k: &Kernel, awaits: Awaits) -> Micros
    requires may { MayAwait awaits }
    ensures away { (n : ℕ) → k.now.now ≤ n → n < result → descriptors_bring (advanced n (kernel_of k.now)) awaits ≡ false }
    ensures later { descriptors_bring (kernel_of k.now) awaits ≡ false → k.now.now < result }
{
    if descriptors_bring(k, awaits) {
        return 0;
    }
    next_arrival(k).min(deadline_of(awaits))
}

// Until when the thread at a slot does not have what its call waits for.
fn awaits_until<P: Program>(w: &World<P>, slot: Slot, awaits: Awaits) -> Micros
    requires whole { WellFormed w.now }
    requires used { tid_at w.now.threads.records slot.0 ≢ 0 }
    requires may { MayAwait awaits }
    ensures away { (s : State P P.State P.Shared) → StandsFor w.now s → 0 < result → StaysAway s result (tid_at w.now.threads.records slot.0) awaits }
    ensures later { (s : State P P.State P.Shared) → StandsFor w.now s → StaysAway s (after_now s.control) (tid_at w.now.threads.records slot.0) awaits → now_of s.control < result }
{
    match awaits {
        Awaits::Nothing => never(w),
        Awaits::Alone => never_unless(w, w.thread_in(slot).0 != MAIN),
        Awaits::Death(n) => never_unless(w, has_died(w, n)),
        Awaits::AnyDeath => never_unless(w, any_has_died(w)),
        Awaits::Moment(moment) => moment,
        Awaits::Ring(_) => never(w),
        Awaits::Mutex(m) => never_unless(w, is_free_mutex(w, m)),
        Awaits::Lock { l, write } => never_unless(w, is_open_lock(w, l, write)),
        Awaits::Round { b, round } => never_unless(w, has_passed(w, b, round)),
        Awaits::Notice(c) => never_unless(w, is_noticed(w, w.thread_in(slot), c)),
        Awaits::Retaking { m, .. } => never_unless(w, w.can_take_mutex(w.thread_in(slot), m)),
        _ => descriptors_until(w.kernel(), awaits),
    }
}

// Until when an event of a descriptor is found pending.
fn fd_until<P: Program>(w: &World<P>, goals: u8, fd: i64) -> Micros
    ensures pending { (s : State P P.State P.Shared) (e : ℕ) → StandsFor w.now s → IsFoundPending s result e (EventSpec.Fd goals fd) }
    ensures later { (s : State P P.State P.Shared) (e : ℕ) → StandsFor w.now s
        → found_unasked s e (EventSpec.Fd goals fd) ≡ Pending → now_of s.control < result }
{
    if !w.kernel().is_live(fd) {
        return 0;
    }
    if is_as_goals_say(w.kernel(), goals, fd) {
        return 0;
    }
    next_arrival(w.kernel())
}

// Until when an event of sets of descriptors is found pending.
fn select_until<P: Program>(w: &World<P>, r: FdSet, writes: FdSet, x: FdSet) -> Micros
    ensures pending { (s : State P P.State P.Shared) (e : ℕ) → StandsFor w.now s → IsFoundPending s result e (EventSpec.Select r writes x) }
    ensures later { (s : State P P.State P.Shared) (e : ℕ) → StandsFor w.now s
        → found_unasked s e (EventSpec.Select r writes x) ≡ Pending → now_of s.control < result }
{
    if !are_all_live(w.kernel(), r, writes, x) {
        return 0;
    }
    if is_any_ready(w.kernel(), r, writes, x) {
        return 0;
    }
    next_arrival(w.kernel())
}

// Until when an event of a condition is found pending: for ever, if it is now.
fn cond_until<P: Program>(w: &World<P>, e: EventId, c: i64) -> Micros
    ensures pending { (s : State P P.State P.Shared) → StandsFor w.now s → IsFoundPending s result e.0 (EventSpec.Cond c) }
    ensures later { (s : State P P.State P.Shared) → StandsFor w.now s
        → found_unasked s e.0 (EventSpec.Cond c) ≡ Pending → now_of s.control < result }
{
    never_unless(w, !w.conditions().is_live(c) || is_noticed_event(w, e, c))
}

// Until when an event of a message is found pending: for ever, if it is now.
fn message_until<P: Program>(w: &World<P>, p: i64) -> Micros
    ensures pending { (s : State P P.State P.Shared) (e : ℕ) → StandsFor w.now s → IsFoundPending s result e (EventSpec.Msg p) }
    ensures later { (s : State P P.State P.Shared) (e : ℕ) → StandsFor w.now s
        → found_unasked s e (EventSpec.Msg p) ≡ Pending → now_of s.control < result }
{
    never_unless(w, !is_pending(found_message(w, p)))
}

// Until when an event is found pending, if nothing changes but time; 0 for one of a thread or of a function, which is asked at each pass.
fn found_until<P: Program>(w: &World<P>, e: EventId, spec: &EventSpec) -> Micros
    ensures pending { (s : State P P.State P.Shared) → StandsFor w.now s → IsFoundPending s result e.0 spec.now }
    ensures later { (s : State P P.State P.Shared) → StandsFor w.now s
        → IsFoundPending s (after_now s.control) e.0 spec.now → now_of s.control < result }
{
    match spec {
        EventSpec::Time(at) => *at,
        EventSpec::Fd { goals, fd } => fd_until(w, *goals, *fd),
        EventSpec::Select { r, w: writes, x } => select_until(w, *r, *writes, *x),
        EventSpec::Msg(p) => message_until(w, *p),
        EventSpec::Cond(c) => cond_until(w, e, *c),
        EventSpec::Tid { .. } => 0,
        EventSpec::Func { .. } => 0,
    }
}

// Until when the events of a ring would be found pending, from a place on and round.
fn round_until<P: Program>(w: &World<P>, first: Slot) -> Micros
    requires used { number_at w.now.events first.0 ≢ 0 }
    requires begins { Begins ((events_of w.now.events).rings (number_at w.now.events first.0)) (number_at w.now.events first.0) }
    ensures pending { (s : State P P.State P.Shared) → StandsFor w.now s
        → AreFoundPending s result (s.control.events.rings (number_at w.now.events first.0)) }
    ensures later { (s : State P P.State P.Shared) → StandsFor w.now s
        → AreFoundPending s (after_now s.control) (s.control.events.rings (number_at w.now.events first.0)) → now_of s.control < result }
{
    let rings = w.rings();
    let mut until = never(w);
    let mut at = first;
    'round: loop {
        until = until.min(found_until(w, rings.id_at(at), rings.spec_at(at)));
        at = rings.next_at(at);
        if at.0 == first.0 {
            return until;
        }
    }
}

// Until when all events of the ring of an event are pending.
fn ring_until<P: Program>(w: &World<P>, e: i64) -> Micros
    ensures pending { (s : State P P.State P.Shared) → StandsFor w.now s → 0 < result
        → ArePending s result (s.control.events.rings (number e)) }
    ensures later { (s : State P P.State P.Shared) → StandsFor w.now s
        → ArePending s (after_now s.control) (s.control.events.rings (number e)) → now_of s.control < result }
{
    if w.rings().settled(e) > 0 {
        return 0;
    }
    match w.rings().find(e) {
        Some(first) => round_until(w, first),
        None => never(w),
    }
}

/// Before this moment the thread at a slot is not to wake, if nothing changes but time, and a look at its ring finds what was found
/// before; 0 where it may be to wake now.
pub fn dormant_until<P: Program>(w: &World<P>, slot: Slot) -> Micros
    requires whole { WellFormed w.now }
    requires used { tid_at w.now.threads.records slot.0 ≢ 0 }
    ensures dormant { (s : State P P.State P.Shared) → StandsFor w.now s → 0 < result → IsDormant s result (tid_at w.now.threads.records slot.0) }
    ensures later { (s : State P P.State P.Shared) → StandsFor w.now s → IsDormant s (after_now s.control) (tid_at w.now.threads.records slot.0) → now_of s.control < result }
    ensures told { (s : State P P.State P.Shared) → StandsFor w.now s
        → IsUndue P.functions s (tid_at w.now.threads.records slot.0) → now_of s.control < result }
{
    if may_be_canceled_at(w, slot) {
        return 0;
    }
    let awaited = w.awaited_in(slot);
    let until = awaits_until(w, slot, awaited.what);
    match awaited.ring {
        Some(e) => until.min(ring_until(w, e)),
        None => until,
    }
}

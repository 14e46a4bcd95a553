//! Which blocked threads have what they wait for.

ghost use Rattle.std.specs.Prelude.{◌≡◌, ◌≢◌, ◌||◌};
ghost use Rattle.pth_model.specs.Calls.{wakes};
ghost use Rattle.pth_model.specs.Looks.{looks_at};
ghost use Rattle.pth_model.specs.Pass.{comes_for, is_to_wake};
ghost use Rattle.pth_model.specs.RingWaits.{awaited_events};
ghost use Rattle.pth_model.specs.State.{Control, State};
ghost use Rattle.pth_threads.specs.Threads.{tid_at};
ghost use Rattle.pth_model.specs.Coming.{has_any_died, has_come};
ghost use Rattle.pth_world.specs.Shows.{Shows, StandsFor};
ghost use Rattle.pth_world.specs.WellFormed.{WellFormed, MayAwait};

use crate::barriers::has_passed;
use crate::cancellation::may_be_canceled_at;
use crate::conditions::is_noticed;
use crate::joins::{any_has_died, has_died};
use crate::looks::look_at_ring;
use crate::mutexes::is_free_mutex;
use crate::rwlocks::is_open_lock;
use crate::trials::descriptors_bring;
use pth_base::ids::{Slot, Tid};
use pth_base::program::Program;
use pth_model::awaits::Awaits;
use pth_world::world::World;

// Whether what the thread at a slot waits for has come. `any_dead` tells whether a thread that can be joined has died.
fn has_come<P: Program>(w: &World<P>, slot: Slot, awaits: Awaits, any_dead: bool) -> bool
    requires whole { WellFormed w.now }
    requires used { tid_at w.now.threads.records slot.0 ≢ 0 }
    requires dead { (k : Control P P.State P.Shared) → Shows w.now k → any_dead ≡ has_any_died k }
    requires may { MayAwait awaits }
    ensures { (s : State P P.State P.Shared) → StandsFor w.now s → result ≡ has_come s (tid_at w.now.threads.records slot.0) awaits }
{
    match awaits {
        Awaits::Nothing => false,
        Awaits::Alone => w.is_alone(w.thread_in(slot)),
        Awaits::Death(n) => has_died(w, n),
        Awaits::AnyDeath => any_dead,
        Awaits::Moment(moment) => moment <= w.time(),
        Awaits::Ring(_) => false,
        Awaits::Mutex(m) => is_free_mutex(w, m),
        Awaits::Lock { l, write } => is_open_lock(w, l, write),
        Awaits::Round { b, round } => has_passed(w, b, round),
        Awaits::Notice(c) => is_noticed(w, w.thread_in(slot), c),
        Awaits::Retaking { m, .. } => w.can_take_mutex(w.thread_in(slot), m),
        _ => descriptors_bring(w.kernel(), awaits),
    }
}

/// Whether the call that blocks a thread has what it waits for; false if no call blocks it. The events of a ring are not asked, so
/// it is false of every `pth_wait`: they are told as they are looked at (`is_to_wake`).
pub fn wakes<P: Program>(w: &World<P>, t: Tid) -> bool
    requires { WellFormed w.now }
    ensures { (s : State P P.State P.Shared) → StandsFor w.now s → result ≡ wakes t.0 s }
{
    match w.threads().find(t) {
        Some(slot) => has_come(w, slot, w.awaited_in(slot).what, any_has_died(w)),
        None => false,
    }
}

// Whether what the blocked thread at a slot waits for has come, where the events of the ring for which it waits are looked at, if it
// waits for one.
fn has_come_for<P: Program>(w: &mut World<P>, slot: Slot, any_dead: bool) -> bool
    requires whole { WellFormed w.old }
    requires used { tid_at w.old.threads.records slot.0 ≢ 0 }
    requires dead { (k : Control P P.State P.Shared) → Shows w.old k → any_dead ≡ has_any_died k }
    ensures shows { (s : State P P.State P.Shared) → StandsFor w.old s
        → Shows w.new (looks_at P.functions s (awaited_events s.control (tid_at w.old.threads.records slot.0)) s.control) }
    ensures wakes { (s : State P P.State P.Shared) → StandsFor w.old s
        → result ≡ (wakes (tid_at w.old.threads.records slot.0) s || comes_for P.functions s (tid_at w.old.threads.records slot.0)) }
    ensures made { w.new.events.made ≡ w.old.events.made }
    ensures same { w.new ≡ record w.old { events = w.new.events } }
{
    let awaited = w.awaited_in(slot);
    let come = has_come(w, slot, awaited.what, any_dead);
    match awaited.ring {
        Some(e) => look_at_ring(w, e) | come,
        None => come,
    }
}

/// Whether the blocked thread at a slot is to wake, where the events of the ring for which it waits are looked at, if it waits for
/// one. `any_dead` tells whether a thread that can be joined has died.
pub fn is_to_wake<P: Program>(w: &mut World<P>, slot: Slot, any_dead: bool) -> bool
    requires whole { WellFormed w.old }
    requires used { tid_at w.old.threads.records slot.0 ≢ 0 }
    requires dead { (k : Control P P.State P.Shared) → Shows w.old k → any_dead ≡ has_any_died k }
    ensures shows { (s : State P P.State P.Shared) → StandsFor w.old s
        → Shows w.new (looks_at P.functions s (awaited_events s.control (tid_at w.old.threads.records slot.0)) s.control) }
    ensures wakes { (s : State P P.State P.Shared) → StandsFor w.old s
        → result ≡ is_to_wake P.functions s (tid_at w.old.threads.records slot.0) }
    ensures made { w.new.events.made ≡ w.old.events.made }
    ensures same { w.new ≡ record w.old { events = w.new.events } }
{
    has_come_for(w, slot, any_dead) || may_be_canceled_at(w, slot)
}

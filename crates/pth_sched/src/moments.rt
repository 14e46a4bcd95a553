//! The moments at which something comes to a descriptor, and those for which waiting threads wait: idle time goes to the next
//! one.

ghost use Rattle.std.specs.Prelude.{◌≡◌, ◌≢◌, ◌<◌, ◌≤◌, ◌++◌, ◌&&◌, ℕ, List, Option, IfSome, All, map, nat_lt, nat_le, if◌then◌else◌};
ghost use Rattle.pth_base.specs.Limits.{last_moment};
ghost use Rattle.pth_kernel.specs.Moments.{least_after, least_by};
ghost use Rattle.pth_model.specs.Looks.{event_moment, occurs_at};
ghost use Rattle.pth_model.specs.Pass.{moment, moments_of, waiting};
ghost use Rattle.pth_model.specs.State.{Control, State};
ghost use Rattle.pth_numbered.specs.Numbered.{number_at};
ghost use Rattle.pth_numbered.specs.Operands.{number};
ghost use Rattle.pth_ring.specs.Arena.{events_of};
ghost use Rattle.pth_ring.specs.Ring.{Begins};
ghost use Rattle.pth_threads.specs.Threads.{tid_at};
ghost use Rattle.pth_world.specs.Shows.{Shows, StandsFor};
ghost use Rattle.pth_world.specs.WellFormed.{WellFormed};

use pth_base::ids::{Micros, Slot};
use pth_base::limits::LAST_MOMENT;
use pth_base::program::Program;
use pth_ring::event::{Event, EventSpec};
use pth_world::world::World;

// The least of the moments so far, and of another one, which counts if it is later than now, and no later than the last moment.
fn sooner(now: Micros, best: Option<Micros>, m: Micros) -> Option<Micros>
    ensures { result ≡ (if nat_lt now m && nat_le m last_moment then least_by m best else best) }
{
    if m <= now || m > LAST_MOMENT {
        return best;
    }
    match best {
        Some(b) if b < m => best,
        _ => Some(m),
    }
}

// The next look of an event of a function, if its check holds now, else 0.
fn asked_moment<P: Program>(w: &World<P>, next: Micros, check: i64, arg: i64) -> Micros
    ensures { (s : State P P.State P.Shared) (interval : ℕ) → StandsFor w.now s
        → result ≡ occurs_at P.functions s next (EventSpec.Func check arg interval) }
{
    if w.check(check, arg) { next } else { 0 }
}

// The moment at which an event occurs, 0 where none is known.
fn occurs_at<P: Program>(w: &World<P>, event: &Event) -> Micros
    ensures { (s : State P P.State P.Shared) → StandsFor w.now s → result ≡ occurs_at P.functions s event.now.next_look event.now.spec }
{
    match event.spec {
        EventSpec::Time(at) => at,
        EventSpec::Func { check, arg, .. } => asked_moment(w, event.next_look, check, arg),
        _ => 0,
    }
}

// The least of the moments so far, and of those of a ring's events, from a place on and round.
fn count_round<P: Program>(w: &World<P>, first: Slot, start: Option<Micros>) -> Option<Micros>
    requires used { number_at w.now.events first.0 ≢ 0 }
    requires begins { Begins ((events_of w.now.events).rings (number_at w.now.events first.0)) (number_at w.now.events first.0) }
    ensures { (s : State P P.State P.Shared) (ms : List ℕ) → StandsFor w.now s → start ≡ least_after w.now.kernel.now ms
        → result ≡ least_after w.now.kernel.now (ms ++ map (λ e. event_moment P.functions s ((events_of w.now.events).events e))
        ((events_of w.now.events).rings (number_at w.now.events first.0))) }
{
    let mut best = start;
    let mut at = first;
    'round: loop {
        best = sooner(w.time(), best, occurs_at(w, w.rings().event_at(at)));
        at = w.rings().next_at(at);
        if at.0 == first.0 {
            return best;
        }
    }
}

// The least of the moments so far, and of those of the events of the ring of an event.
fn count_ring<P: Program>(w: &World<P>, e: i64, best: Option<Micros>) -> Option<Micros>
    ensures { (s : State P P.State P.Shared) (ms : List ℕ) → StandsFor w.now s → best ≡ least_after w.now.kernel.now ms
        → result ≡ least_after w.now.kernel.now (ms ++ map (λ i. event_moment P.functions s ((events_of w.now.events).events i))
        ((events_of w.now.events).rings (number e))) }
{
    match w.rings().find(e) {
        Some(first) => count_round(w, first, best),
        None => best,
    }
}

// The least of the moments so far, and of those for which the thread at a slot waits.
fn count_of<P: Program>(w: &World<P>, slot: Slot, best: Option<Micros>) -> Option<Micros>
    requires whole { WellFormed w.now }
    requires used { tid_at w.now.threads.records slot.0 ≢ 0 }
    ensures { (s : State P P.State P.Shared) (ms : List ℕ) → StandsFor w.now s → best ≡ least_after w.now.kernel.now ms
        → result ≡ least_after w.now.kernel.now (ms ++ moments_of P.functions s (tid_at w.now.threads.records slot.0)) }
{
    let awaited = w.awaited_in(slot);
    let best = sooner(w.time(), best, awaited.what.moment());
    match awaited.ring {
        Some(e) => count_ring(w, e, best),
        None => best,
    }
}

/// The least moment, in microseconds, that is later than now and at which something comes to a descriptor, or for which a waiting
/// thread waits: its call's, or that of an event of its ring.
pub fn next_moment<P: Program>(w: &World<P>, slots: &[Slot]) -> Option<Micros>
    requires whole { WellFormed w.now }
    requires used { All (λ s. tid_at w.now.threads.records s.0 ≢ 0) slots.now }
    requires waiting { (k : Control P P.State P.Shared) → Shows w.now k → map (λ s. tid_at w.now.threads.records s.0) slots.now ≡ waiting k }
    ensures moment { (s : State P P.State P.Shared) → StandsFor w.now s → result ≡ moment P.functions s }
    ensures later { IfSome result (λ m. w.now.kernel.now < m) }
    ensures within { IfSome result (λ m. m ≤ last_moment) }
{
    let mut best = w.kernel().next_entry();
    for slot in slots {
        best = count_of(w, *slot, best);
    }
    best
}

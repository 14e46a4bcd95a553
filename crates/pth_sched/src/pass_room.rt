//! What a pass keeps while it goes over the waiting threads.

ghost use Rattle.std.specs.Prelude.{◌≡◌, ◌≢◌, ◌<◌, ◌≤◌, ◌+◌, ℕ, List, [], ◌++◌, ◌∷◌, All, map, length, if◌then◌else◌, IfSome, vec_capacity};
ghost use Rattle.pth_base.specs.Limits.{last_moment};
ghost use Rattle.pth_model.specs.Coming.{has_any_died};
ghost use Rattle.pth_model.specs.Pass.{is_to_wake, looks, moment, to_wake, waiting};
ghost use Rattle.pth_model.specs.State.{Control, State, now_of};
ghost use Rattle.pth_model.specs.Looks.{looks_at};
ghost use Rattle.pth_model.specs.RingWaits.{awaited_events};
ghost use Rattle.pth_threads.specs.Threads.{number_of, tid_at};
ghost use Rattle.pth_waits.specs.Dormant.{after_now};
ghost use Rattle.pth_world.specs.Shows.{Shows, StandsFor};
ghost use Rattle.pth_world.specs.WellFormed.{WellFormed};
ghost use Rattle.pth_sched.specs.Quiescence.{AreDormant};

use crate::moments::next_moment;
use pth_base::ids::{Micros, Slot, Tid};
use pth_base::limits::MOST_THREADS;
use pth_base::memory::OutOfMemory;
use pth_base::program::Program;
use pth_waits::dormant::{dormant_until, never};
use pth_waits::joins::any_has_died;
use pth_waits::wakes::is_to_wake;
use pth_world::world::World;
use std::alloc::Global;
use std::marker::Model;

/// The slots of the waiting threads, and the threads that wake. There is room for as many of both as there may be threads, so
/// that to find who wakes takes no memory.
#[derive(Drop)]
pub struct PassRoom {
    waiting: Vec<Slot>,
    waking: Vec<Tid>,
}

impl Model for PassRoom {
    ghost use Rattle.std.specs.Prelude.{◌≤◌, ℕ, List, map, vec_capacity};
    ghost use Rattle.pth_base.specs.Limits.{thread_limit};
    ghost use Rattle.pth_threads.specs.Threads.{number_of};

    // The threads that wake.
    ghost Value = { List ℕ };

    ghost view = { λ a. map number_of a.waking.items };

    ghost invariant = { λ a. (thread_limit ≤ vec_capacity a.waiting) × (thread_limit ≤ vec_capacity a.waking) };
}

// A waiting thread is gone over: it is listed if it is to wake.
fn go_over<P: Program>(w: &mut World<P>, slot: Slot, any_dead: bool, waking: &mut Vec<Tid>)
    requires whole { WellFormed w.old }
    requires used { tid_at w.old.threads.records slot.0 ≢ 0 }
    requires dead { (k : Control P P.State P.Shared) → Shows w.old k → any_dead ≡ has_any_died k }
    requires room { length waking.old.items < vec_capacity waking.old }
    ensures shows { (s : State P P.State P.Shared) → StandsFor w.old s
        → Shows w.new (looks_at P.functions s (awaited_events s.control (tid_at w.old.threads.records slot.0)) s.control) }
    ensures listed { (s : State P P.State P.Shared) → StandsFor w.old s → map number_of waking.new.items
        ≡ map number_of waking.old.items ++ (if is_to_wake P.functions s (tid_at w.old.threads.records slot.0)
        then tid_at w.old.threads.records slot.0 ∷ [] else []) }
    ensures one { length waking.new.items ≤ length waking.old.items + 1 }
    ensures room { vec_capacity waking.old ≤ vec_capacity waking.new }
    ensures made { w.new.events.made ≡ w.old.events.made }
    ensures same { w.new ≡ record w.old { events = w.new.events } }
{
    if is_to_wake(w, slot, any_dead) {
        waking.push(w.thread_in(slot)).unwrap();
    }
}

// The waiting threads are gone over in their order.
fn go_over_all<P: Program>(w: &mut World<P>, slots: &[Slot], waking: &mut Vec<Tid>)
    requires whole { WellFormed w.old }
    requires used { All (λ s. tid_at w.old.threads.records s.0 ≢ 0) slots.now }
    requires waiting { (k : Control P P.State P.Shared) → Shows w.old k → map (λ s. tid_at w.old.threads.records s.0) slots.now ≡ waiting k }
    requires room { length slots.now ≤ vec_capacity waking.old }
    ensures listed { (s : State P P.State P.Shared) → StandsFor w.old s → map number_of waking.new.items ≡ to_wake P.functions s }
    ensures shows { (s : State P P.State P.Shared) → StandsFor w.old s → Shows w.new (looks P.functions s s.control) }
    ensures room { vec_capacity waking.old ≤ vec_capacity waking.new }
    ensures made { w.new.events.made ≡ w.old.events.made }
    ensures same { w.new ≡ record w.old { events = w.new.events } }
{
    waking.clear();
    let any_dead = any_has_died(w);
    for slot in slots {
        go_over(w, *slot, any_dead, waking);
    }
}

// Before this moment none of the waiting threads, which stand at these slots, is to wake, if nothing changes but time; 0 where one
// may be to wake now.
fn all_dormant_until<P: Program>(w: &World<P>, slots: &[Slot]) -> Micros
    requires whole { WellFormed w.now }
    requires used { All (λ s. tid_at w.now.threads.records s.0 ≢ 0) slots.now }
    requires waiting { (k : Control P P.State P.Shared) → Shows w.now k → map (λ s. tid_at w.now.threads.records s.0) slots.now ≡ waiting k }
    ensures dormant { (s : State P P.State P.Shared) → StandsFor w.now s → 0 < result → AreDormant s result }
    ensures later { (s : State P P.State P.Shared) → StandsFor w.now s → AreDormant s (after_now s.control) → now_of s.control < result }
{
    let mut until = never(w);
    for slot in slots {
        until = until.min(dormant_until(w, *slot));
        if until <= w.time() {
            return 0;
        }
    }
    until
}

impl PassRoom {
    /// Room for as many threads as there may be.
    pub fn new(alloc: Global) -> Result<PassRoom, OutOfMemory> {
        let waiting = Vec::with_capacity(alloc, MOST_THREADS as usize)?;
        let waking = Vec::with_capacity(alloc, MOST_THREADS as usize)?;
        Ok(PassRoom { waiting, waking })
    }

    /// Looks at the events for which threads wait, and lists the waiting threads that are to wake, in their order.
    pub fn go_over<P: Program>(&mut self, w: &mut World<P>)
        requires { WellFormed w.old }
        ensures listed { (s : State P P.State P.Shared) → StandsFor w.old s → self.new ≡ to_wake P.functions s }
        ensures shows { (s : State P P.State P.Shared) → StandsFor w.old s → Shows w.new (looks P.functions s s.control) }
        ensures made { w.new.events.made ≡ w.old.events.made }
        ensures same { w.new ≡ record w.old { events = w.new.events } }
    {
        w.waiting(&mut self.waiting);
        go_over_all(w, self.waiting.as_slice(), &mut self.waking);
    }

    /// Before this moment no waiting thread is to wake, if nothing changes but time, and a look at their rings finds what was found
    /// before; 0 where one may be to wake now.
    pub fn dormant_until<P: Program>(&mut self, w: &World<P>) -> Micros
        requires { WellFormed w.now }
        ensures dormant { (s : State P P.State P.Shared) → StandsFor w.now s → 0 < result → AreDormant s result }
        ensures later { (s : State P P.State P.Shared) → StandsFor w.now s → AreDormant s (after_now s.control) → now_of s.control < result }
        ensures same { self.new ≡ self.old }
    {
        w.waiting(&mut self.waiting);
        all_dormant_until(w, self.waiting.as_slice())
    }

    /// The least moment, in microseconds, that is later than now and at which something comes to a descriptor, or for which a
    /// waiting thread waits.
    pub fn next_moment<P: Program>(&mut self, w: &World<P>) -> Option<Micros>
        requires { WellFormed w.now }
        ensures moment { (s : State P P.State P.Shared) → StandsFor w.now s → result ≡ moment P.functions s }
        ensures later { IfSome result (λ m. w.now.kernel.now < m) }
        ensures within { IfSome result (λ m. m ≤ last_moment) }
        ensures same { self.new ≡ self.old }
    {
        w.waiting(&mut self.waiting);
        next_moment(w, self.waiting.as_slice())
    }

    /// The threads that were listed last.
    pub fn waking(&self) -> &[Tid]
        ensures { map number_of result.now ≡ self.now }
    {
        self.waking.as_slice()
    }
}

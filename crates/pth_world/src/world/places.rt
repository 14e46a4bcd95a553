//! The queues in which threads stand.

ghost use Rattle.std.specs.Prelude.{◌≡◌, ◌≢◌, ◌<◌, ◌≤◌, length, ℕ, Option, Some, None, IfSome, false};
ghost use Rattle.pth_tables.specs.CountedOf.{MayEnter};
ghost use Rattle.pth_queue.specs.Queues.{IsNowhere, CanRise, entered, without, with_rows};
ghost use Rattle.pth_queue.specs.Ranking.{increase};
ghost use Rattle.pth_queue.specs.declared.queue.Queue.TheVariants as queue;
ghost use Rattle.pth_threads.specs.Threads.{slot_of};
ghost use Rattle.pth_model.specs.State.{Control};
ghost use Rattle.pth_model.specs.Changes.{enters, leaves_queue, raises_ready, trails};
ghost use Rattle.pth_model.specs.Part.{trail_with};
ghost use Rattle.pth_model.specs.Allowance.{AreTakenReady};
ghost use Rattle.pth_base.specs.Limits.{most_steps};
ghost use Rattle.pth_world.specs.Shows.{Shows, IsTurnOf};
ghost use Rattle.pth_world.specs.Sound.{IsSound, IsKnown};
ghost use Rattle.pth_world.specs.WellFormed.{WellFormed, WellFormedBut, IsIn, WaitsToRun, view};
ghost use Rattle.pth_world.specs.Touches.{SameButQueues, Touches, view_placed};

use crate::world::World;
use pth_base::ids::{Slot, Tid};
use pth_base::program::Program;
use pth_queue::queue::Queue;
use pth_tables::waits::Turn;

impl<P: Program> World<P> {
    /// Puts a thread that stands nowhere into a queue at a rank, and leaves its state.
    pub fn put_in(&mut self, t: Tid, q: Queue, rank: i64)
        requires sound { IsSound self.old.threads }
        requires known { IsKnown self.old.threads t.0 }
        requires nowhere { IfSome (slot_of self.old.threads.records t.0) (λ u. IsNowhere u self.old.threads.queues) }
        requires rank { MayEnter q rank }
        ensures shows { (k : Control P P.State P.Shared) → Shows self.old k → Shows self.new (enters t.0 q rank false k) }
        ensures sound { IsSound self.new.threads }
        ensures touches { Touches self.old.threads self.new.threads t.0 (view_placed (Some q)) }
        ensures but { WellFormedBut self.old t.0 → WellFormedBut self.new t.0 }
        ensures queues { IfSome (slot_of self.old.threads.records t.0) (λ u. self.new.threads.queues ≡ entered q rank u self.old.threads.queues) }
        ensures same { SameButQueues self.old self.new }
    {
        let slot = self.slot(t);
        self.put_at(t, slot, q, rank, false);
    }

    // Puts the thread at a slot, which stands nowhere, into a queue at a rank, and leaves its state. `top` says that it is a new
    // thread that is favoured.
    #[inline(always)]
    pub(crate) fn put_at(&mut self, t: Tid, slot: Slot, q: Queue, rank: i64, top: bool)
        requires sound { IsSound self.old.threads }
        requires at { slot_of self.old.threads.records t.0 ≡ Some slot.0 }
        requires nowhere { IfSome (slot_of self.old.threads.records t.0) (λ u. IsNowhere u self.old.threads.queues) }
        requires rank { MayEnter q rank }
        ensures shows { (k : Control P P.State P.Shared) → Shows self.old k → Shows self.new (enters t.0 q rank top k) }
        ensures sound { IsSound self.new.threads }
        ensures touches { Touches self.old.threads self.new.threads t.0 (view_placed (Some q)) }
        ensures but { WellFormedBut self.old t.0 → WellFormedBut self.new t.0 }
        ensures queues { IfSome (slot_of self.old.threads.records t.0) (λ u. self.new.threads.queues ≡ entered q rank u self.old.threads.queues) }
        ensures same { SameButQueues self.old self.new }
    {
        self.queues_mut().insert(q, rank, slot, top);
    }

    /// Takes a thread out of its queue, if it stands in one, and leaves its state.
    pub fn take_out(&mut self, t: Tid)
        requires sound { IsSound self.old.threads }
        requires known { IsKnown self.old.threads t.0 }
        ensures shows { (k : Control P P.State P.Shared) → Shows self.old k → Shows self.new (leaves_queue t.0 k) }
        ensures sound { IsSound self.new.threads }
        ensures touches { Touches self.old.threads self.new.threads t.0 (view_placed None) }
        ensures but { WellFormedBut self.old t.0 → WellFormedBut self.new t.0 }
        ensures queues { IfSome (slot_of self.old.threads.records t.0) (λ u. self.new.threads.queues ≡ without u self.old.threads.queues) }
        ensures same { SameButQueues self.old self.new }
    {
        let slot = self.slot(t);
        self.take_from(t, slot);
    }

    // Takes the thread at a slot out of its queue, if it stands in one, and leaves its state.
    #[inline(always)]
    pub(crate) fn take_from(&mut self, t: Tid, slot: Slot)
        requires sound { IsSound self.old.threads }
        requires at { slot_of self.old.threads.records t.0 ≡ Some slot.0 }
        ensures shows { (k : Control P P.State P.Shared) → Shows self.old k → Shows self.new (leaves_queue t.0 k) }
        ensures sound { IsSound self.new.threads }
        ensures touches { Touches self.old.threads self.new.threads t.0 (view_placed None) }
        ensures but { WellFormedBut self.old t.0 → WellFormedBut self.new t.0 }
        ensures queues { IfSome (slot_of self.old.threads.records t.0) (λ u. self.new.threads.queues ≡ without u self.old.threads.queues) }
        ensures same { SameButQueues self.old self.new }
    {
        match self.queues().queue_of(slot) {
            Some(_) => {
                self.queues_mut().delete(slot);
            }
            None => {}
        }
    }

    // Takes a ready thread out of its queue as it is dispatched, and leaves its state: with the numbers of its wait.
    #[inline(always)]
    pub(crate) fn take_ready(&mut self, t: Tid, slot: Slot) -> Turn
        requires sound { IsSound self.old.threads }
        requires at { slot_of self.old.threads.records t.0 ≡ Some slot.0 }
        requires stands { IsIn queue.Ready self.old.threads t.0 }
        ensures shows { (k : Control P P.State P.Shared) → Shows self.old k → Shows self.new (leaves_queue t.0 (trails (trail_with t.0 k) k)) }
        ensures numbers { (k : Control P P.State P.Shared) → Shows self.old k
            → AreTakenReady k.threads.trail → length k.threads.trail ≤ most_steps → IsTurnOf k t.0 result }
        ensures sound { IsSound self.new.threads }
        ensures touches { Touches self.old.threads self.new.threads t.0 (view_placed None) }
        ensures queues { IfSome (slot_of self.old.threads.records t.0) (λ u. self.new.threads.queues ≡ without u self.old.threads.queues) }
        ensures same { SameButQueues self.old self.new }
    {
        let by_name = self.named().is_some();
        self.queues_mut().dispatch(slot, by_name)
    }

    /// Raises every rank in the ready queue by one.
    pub fn raise_ready(&mut self)
        requires sound { IsSound self.old.threads }
        requires rise { CanRise self.old.threads.queues.ready }
        ensures shows { (k : Control P P.State P.Shared) → Shows self.old k → Shows self.new (raises_ready k) }
        ensures sound { IsSound self.new.threads }
        ensures views { (u : ℕ) → view self.new.threads u ≡ view self.old.threads u }
        ensures but { (t : ℕ) → WellFormedBut self.old t → WellFormedBut self.new t }
        ensures whole { WellFormed self.old → WellFormed self.new }
        ensures stays { (u : ℕ) → WaitsToRun self.old.threads u → WaitsToRun self.new.threads u }
        ensures same { self.new ≡ record self.old { threads = record self.old.threads { queues = with_rows queue.Ready (increase self.old.threads.queues.ready) self.old.threads.queues } } }
    {
        self.queues_mut().increase(Queue::Ready);
    }
}

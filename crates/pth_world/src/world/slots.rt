//! Threads by the slots at which they are kept, as long as they are in the system.

ghost use Rattle.std.specs.Prelude.{◌≡◌, ◌≢◌, ◌≤◌, Some, All, length, map, vec_capacity};
ghost use Rattle.pth_base.specs.Limits.{thread_limit};
ghost use Rattle.pth_base.specs.declared.ids.Slot.{Slot};
ghost use Rattle.pth_model.specs.RingWaits.{awaited_in as awaited};
ghost use Rattle.pth_model.specs.Changes.{blocked_of};
ghost use Rattle.pth_model.specs.Pass.{waiting};
ghost use Rattle.pth_model.specs.State.{Control};
ghost use Rattle.pth_threads.specs.Threads.{tid_at};
ghost use Rattle.pth_world.specs.Shows.{Shows};
ghost use Rattle.pth_world.specs.Sound.{IsSound, IsKnown};
ghost use Rattle.pth_world.specs.WellFormed.{WellFormed, MayAwait};

use crate::world::World;
use pth_base::ids::{Slot, Tid};
use pth_base::program::Program;
use pth_model::awaits::Awaited;
use pth_queue::queue::Queue;
use pth_threads::entry::Entry;

impl<P: Program> World<P> {
    /// The slots of the waiting threads in their order, in place of what `into` holds, which has room for all. It takes no
    /// memory.
    pub fn waiting(&self, into: &mut Vec<Slot>)
        requires sound { IsSound self.now.threads }
        requires room { thread_limit ≤ vec_capacity into.old }
        ensures waiting { (k : Control P P.State P.Shared) → Shows self.now k → map (λ s. tid_at self.now.threads.records s.0) into.new.items ≡ waiting k }
        ensures used { All (λ s. tid_at self.now.threads.records s.0 ≢ 0) into.new.items }
        ensures few { length into.new.items ≤ thread_limit }
        ensures room { vec_capacity into.old ≤ vec_capacity into.new }
    {
        self.queues().slots(Queue::Waiting, into);
    }

    /// The thread at a slot.
    #[inline(always)]
    pub fn thread_in(&self, s: Slot) -> Tid
        requires sound { IsSound self.now.threads }
        requires used { tid_at self.now.threads.records s.0 ≢ 0 }
        ensures tid { result.0 ≡ tid_at self.now.threads.records s.0 }
        ensures known { IsKnown self.now.threads result.0 }
    {
        self.threads().get(s).tid
    }

    /// The record of the thread at a slot.
    #[inline(always)]
    pub fn entry_at(&self, s: Slot) -> &Entry
        requires sound { IsSound self.now.threads }
        requires used { tid_at self.now.threads.records s.0 ≢ 0 }
        ensures entry { (k : Control P P.State P.Shared) → Shows self.now k → k.threads.known (tid_at self.now.threads.records s.0) ≡ Some result.now }
        ensures tid { result.now.tid.0 ≡ tid_at self.now.threads.records s.0 }
    {
        self.threads().get(s)
    }

    /// What the thread at a slot waits for: nothing where no call blocks it. It reads no call.
    #[inline(always)]
    pub fn awaited_in(&self, s: Slot) -> Awaited
        requires sound { IsSound self.now.threads }
        requires used { tid_at self.now.threads.records s.0 ≢ 0 }
        ensures awaited { (k : Control P P.State P.Shared) → Shows self.now k → result ≡ awaited (blocked_of k (tid_at self.now.threads.records s.0)) }
        ensures may { WellFormed self.now → MayAwait result.what }
    {
        self.progress().awaited(s)
    }
}

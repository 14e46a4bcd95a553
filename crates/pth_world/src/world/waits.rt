//! How long the ready threads wait.

ghost use Rattle.std.specs.Prelude.{◌≡◌, ◌≢◌, true, false, Option, Some, None, IfSome};
ghost use Rattle.pth_queue.specs.Queues.{queue_of};
ghost use Rattle.pth_queue.specs.declared.queue.Queue.TheVariants as queue;
ghost use Rattle.pth_threads.specs.Threads.{slot_of};
ghost use Rattle.pth_model.specs.Allowance.{standing_of};
ghost use Rattle.pth_model.specs.State.{Control, allowance_of, wait_of};
ghost use Rattle.pth_world.specs.Shows.{Shows, IsHistory};
ghost use Rattle.pth_world.specs.Sound.{IsSound};

use crate::world::World;
use pth_base::ids::{Slot, Tid};
use pth_base::program::Program;
use pth_queue::queue::Queue;

// Whether a queue is the ready one.
fn is_ready(q: Option<Queue>) -> bool
    ensures yes { result ≡ true → q ≡ Some queue.Ready }
    ensures no { result ≡ false → q ≢ Some queue.Ready }
{
    match q {
        Some(Queue::Ready) => true,
        _ => false,
    }
}

impl<P: Program> World<P> {
    // The slot of a thread, if it is ready.
    fn ready_slot(&self, t: Tid) -> Option<Slot>
        requires { IsSound self.now.threads }
        ensures at { IfSome result (λ u. slot_of self.now.threads.records t.0 ≡ Some u.0) }
        ensures stands { IfSome result (λ u. queue_of u.0 self.now.threads.queues ≡ Some queue.Ready) }
        ensures none { result ≡ None → (k : Control P P.State P.Shared) → Shows self.now k → standing_of t.0 (k.threads.standing queue.Ready) ≡ None }
    {
        let Some(slot) = self.threads().find(t) else {
            return None;
        };
        if is_ready(self.queues().queue_of(slot)) {
            Some(slot)
        } else {
            None
        }
    }

    /// How often another thread was dispatched since a thread became ready; none if it is not ready.
    pub fn waited(&self, t: Tid) -> Option<u64>
        requires { IsSound self.now.threads }
        ensures { (k : Control P P.State P.Shared) → Shows self.now k → IsHistory k.threads.trail
            → result ≡ wait_of k t.0 }
    {
        match self.ready_slot(t) {
            Some(slot) => Some(self.counted().waited(slot)),
            None => None,
        }
    }

    /// How often another thread may be dispatched at most before a ready thread is, as things stand; none if it is not ready.
    pub fn allowed(&self, t: Tid) -> Option<u64>
        requires { IsSound self.now.threads }
        ensures { (k : Control P P.State P.Shared) → Shows self.now k → IsHistory k.threads.trail
            → result ≡ allowance_of k t.0 }
    {
        match self.ready_slot(t) {
            Some(slot) => Some(self.counted().allowed(slot)),
            None => None,
        }
    }
}

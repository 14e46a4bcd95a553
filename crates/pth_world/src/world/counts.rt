//! How many threads there are.

ghost use Rattle.std.specs.Prelude.{◌≡◌, length};
ghost use Rattle.pth_model.specs.State.{Control, queue, present};
ghost use Rattle.pth_world.specs.Shows.{Shows};
ghost use Rattle.pth_world.specs.Sound.{IsSound};

use crate::world::World;
use pth_base::program::Program;
use pth_queue::queue::Queue;

impl<P: Program> World<P> {
    /// How many threads stand in a queue, in constant time (`pth_pqueue_elements`).
    pub fn count_in(&self, q: Queue) -> u32
        requires { IsSound self.now.threads }
        ensures { (k : Control P P.State P.Shared) → Shows self.now k → result ≡ length (queue k q) }
    {
        self.queues.count(q)
    }

    /// How many threads are in the system, dead ones too (`PTH_CTRL_GETTHREADS`).
    pub fn present(&self) -> u32
        requires { IsSound self.now.threads }
        ensures { (k : Control P P.State P.Shared) → Shows self.now k → result ≡ present k }
    {
        self.threads().count()
    }
}

//! The threads vanish but one.
//!
//! The row of `kill` says what is left. The code empties queue by queue, in an order that no definition sees.

ghost use Rattle.std.specs.Prelude.{◌≡◌, [], Some};
ghost use Rattle.pth_queue.specs.Queues.{rows_of};
ghost use Rattle.pth_model.specs.State.{Control};
ghost use Rattle.pth_model.specs.LibraryControl.{vanish_all_but};
ghost use Rattle.pth_model.specs.Kill.{store_of_only};
ghost use Rattle.pth_world.specs.Ranks.{KeepsRanks};
ghost use Rattle.pth_world.specs.Shows.{Shows};
ghost use Rattle.pth_world.specs.Sound.{IsSound, IsKnown};
ghost use Rattle.pth_world.specs.Store.{store_of};
ghost use Rattle.pth_world.specs.Vanishing.{ReadsAlone, Vanishing};
ghost use Rattle.pth_world.specs.WellFormed.{WellFormed};

use crate::world::World;
use pth_base::ids::Tid;
use pth_base::program::Program;
use pth_queue::queue::Queue;

impl<P: Program> World<P> {
    // Takes all threads of one queue out of the system.
    fn empty_queue(&mut self, q: Queue)
        requires { WellFormed self.old }
        ensures vanishing { Vanishing self.old self.new }
        ensures none { rows_of q self.new.threads.queues ≡ [] }
    {
        while let Some(t) = self.first(q) {
            self.drop_thread(t);
        }
    }

    // The locks count their readers.
    fn count_readers(&self, t: Tid)
        requires sound { IsSound self.now.threads }
        requires known { IsKnown self.now.threads t.0 }
        ensures { ReadsAlone self.now t.0 }
    {
        let _slot = self.slot(t);
        let _counted = self.rw_locks.is_free(0, false);
    }

    /// Takes all threads but the one that runs out of the system, with what they stored. No ring is claimed any more, nobody has a seat
    /// at a condition, and nobody waits at a barrier (`pth_kill`).
    pub fn vanish_all_but(&mut self, t: Tid)
        requires whole { WellFormed self.old }
        requires runs { self.old.scheduler.running ≡ Some t.0 }
        ensures shows { (k : Control P P.State P.Shared) → Shows self.old k → Shows self.new (vanish_all_but t.0 k) }
        ensures whole { WellFormed self.new }
        ensures made { self.new.threads.records.made ≡ self.old.threads.records.made }
        ensures ranks { KeepsRanks 0 self.old.threads self.new.threads }
        ensures events { self.new.events.made ≡ self.old.events.made }
        ensures store { store_of self.new.store ≡ store_of_only t.0 (store_of self.old.store) }
        ensures same { self.new ≡ record self.old { threads = self.new.threads; events = self.new.events; conditions = self.new.conditions; barriers = self.new.barriers; store = self.new.store } }
    {
        self.empty_queue(Queue::New);
        self.empty_queue(Queue::Ready);
        self.empty_queue(Queue::Waiting);
        self.empty_queue(Queue::Suspended);
        self.empty_queue(Queue::Dead);
        self.count_readers(t);
        self.rings_mut().unclaim_all();
        self.conditions_mut().leave_all();
        self.barriers_mut().withdraw_all();
    }
}

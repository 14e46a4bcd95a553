//! The moves of a thread between its states, each with its queue.

ghost use Rattle.std.specs.Prelude.{◌≡◌, ◌≢◌, ◌≤◌, ◌+◌, length, ℕ, ℤ, pos, ◌≤ℤ◌, Option, Some, None, IfSome, min, true, false};
ghost use Rattle.pth_base.specs.Limits.{last_count, most_steps};
ghost use Rattle.pth_base.specs.declared.thread.ThreadState.TheVariants as state;
ghost use Rattle.pth_tables.specs.CountedOf.{IsEntryRank};
ghost use Rattle.pth_queue.specs.Queues.{entered, without};
ghost use Rattle.pth_queue.specs.declared.queue.Queue.TheVariants as queue;
ghost use Rattle.pth_threads.specs.Threads.{slot_of};
ghost use Rattle.pth_threads.specs.declared.entry.Change.TheVariants as change;
ghost use Rattle.pth_model.specs.State.{Control};
ghost use Rattle.pth_model.specs.Changes.{runs_now, removes, enters, sets, leaves_queue, queue_for};
ghost use Rattle.pth_model.specs.ThreadControl.{suspends, resumes};
ghost use Rattle.pth_model.specs.Ending.{is_dead_with, leaves, other_than, stops_running};
ghost use Rattle.pth_model.specs.Pass.{is_ready_at};
ghost use Rattle.pth_model.specs.Part.{is_put_back, is_put_waiting, runs};
ghost use Rattle.pth_model.specs.Allowance.{AreTakenReady};
ghost use Rattle.pth_world.specs.Keeps.{MovesThreads};
ghost use Rattle.pth_world.specs.Ranks.{greatest_return, KeepsRanks, more_new};
ghost use Rattle.pth_world.specs.Shows.{Shows, IsTurnOf};
ghost use Rattle.pth_world.specs.Store.{store_of, HasNothing};
ghost use Rattle.pth_world.specs.Sound.{IsSound, IsPrio, IsKnown};
ghost use Rattle.pth_world.specs.WellFormed.{WellFormed, IsIn, IsBeforeReady, CanSuspend, MayStandIn, WaitsToRun};
ghost use Rattle.pth_world.specs.World.{entry_in};
ghost use Rattle.pth_world.specs.Touches.{SameThreads, KeepsRest};

use crate::world::World;
use pth_base::ids::Tid;
use pth_base::limits::LAST_COUNT;
use pth_base::program::Program;
use pth_base::thread::ThreadState;
use pth_queue::queue::Queue;
use pth_tables::waits::Turn;
use pth_threads::entry::Change;

impl<P: Program> World<P> {
    /// A thread that is new or waits is ready, at a rank. `top` says that it is a new thread that is favoured.
    pub fn make_ready(&mut self, t: Tid, rank: i64, top: bool)
        requires whole { WellFormed self.old }
        requires known { IsKnown self.old.threads t.0 }
        requires before { IsBeforeReady self.old.threads t.0 }
        requires rank { IsEntryRank rank }
        ensures shows { (k : Control P P.State P.Shared) → Shows self.old k → Shows self.new (is_ready_at t.0 rank top k) }
        ensures whole { WellFormed self.new }
        ensures threads { SameThreads self.old.threads self.new.threads }
        ensures scheduler { KeepsRest self.old self.new }
        ensures queues { IfSome (slot_of self.old.threads.records t.0) (λ u. self.new.threads.queues ≡ entered queue.Ready rank u (without u self.old.threads.queues)) }
        ensures ranks { rank ≤ℤ pos greatest_return → KeepsRanks 0 self.old.threads self.new.threads }
        ensures stays { (u : ℕ) → WaitsToRun self.old.threads u → WaitsToRun self.new.threads u }
    {
        let slot = self.slot(t);
        self.take_from(t, slot);
        self.put_ready_at(t, slot, rank, top);
    }

    /// A ready thread is dispatched: it runs, its dispatches are one more, and nobody is named any longer. The answer says how often
    /// another was dispatched in its place since it was ready, and how often at most (in dispatches).
    pub fn dispatch(&mut self, t: Tid) -> Turn
        requires whole { WellFormed self.old }
        requires known { IsKnown self.old.threads t.0 }
        requires stands { IsIn queue.Ready self.old.threads t.0 }
        requires nobody { self.old.scheduler.running ≡ None }
        ensures shows { (k : Control P P.State P.Shared) → Shows self.old k → Shows self.new (runs t.0 k) }
        ensures numbers { (k : Control P P.State P.Shared) → Shows self.old k
            → AreTakenReady k.threads.trail → length k.threads.trail ≤ most_steps → IsTurnOf k t.0 result }
        ensures whole { WellFormed self.new }
        ensures threads { SameThreads self.old.threads self.new.threads }
        ensures queues { IfSome (slot_of self.old.threads.records t.0) (λ u. self.new.threads.queues ≡ without u self.old.threads.queues) }
        ensures ranks { KeepsRanks 0 self.old.threads self.new.threads }
        ensures same { self.new ≡ record self.old { threads = self.new.threads; scheduler = record self.old.scheduler { running = Some t.0; preferred = None } } }
    {
        let slot = self.slot(t);
        let turn = self.take_ready(t, slot);
        let dispatches = self.record_of(t, slot).dispatches;
        self.change_of(t, slot, Change::State(ThreadState::Running));
        self.change_of(t, slot, Change::Dispatches(one_more(dispatches)));
        self.set_running(Some(t));
        self.name_next(None);
        turn
    }

    /// The thread that runs is ready again, at its base priority.
    pub fn put_back(&mut self, t: Tid)
        requires whole { WellFormed self.old }
        requires runs { self.old.scheduler.running ≡ Some t.0 }
        ensures shows { (k : Control P P.State P.Shared) → Shows self.old k → Shows self.new (runs_now None (is_put_back t.0 k)) }
        ensures whole { WellFormed self.new }
        ensures threads { SameThreads self.old.threads self.new.threads }
        ensures queues { IfSome (slot_of self.old.threads.records t.0) (λ u. (prio : ℤ) × IsPrio prio × (self.new.threads.queues ≡ entered queue.Ready prio u self.old.threads.queues)) }
        ensures ranks { KeepsRanks 0 self.old.threads self.new.threads }
        ensures stays { (u : ℕ) → WaitsToRun self.old.threads u → WaitsToRun self.new.threads u }
        ensures same { self.new ≡ record self.old { threads = self.new.threads; scheduler = record self.old.scheduler { running = None } } }
    {
        let slot = self.slot(t);
        let prio = self.prio(t, slot);
        self.set_running(None);
        self.put_ready_at(t, slot, prio, false);
    }

    /// The thread that runs waits, at its base priority.
    pub fn make_waiting(&mut self, t: Tid)
        requires whole { WellFormed self.old }
        requires runs { self.old.scheduler.running ≡ Some t.0 }
        ensures shows { (k : Control P P.State P.Shared) → Shows self.old k → Shows self.new (runs_now None (is_put_waiting t.0 k)) }
        ensures whole { WellFormed self.new }
        ensures threads { SameThreads self.old.threads self.new.threads }
        ensures queues { IfSome (slot_of self.old.threads.records t.0) (λ u. (prio : ℤ) × IsPrio prio × (self.new.threads.queues ≡ entered queue.Waiting prio u self.old.threads.queues)) }
        ensures ranks { KeepsRanks 0 self.old.threads self.new.threads }
        ensures stays { (u : ℕ) → WaitsToRun self.old.threads u → WaitsToRun self.new.threads u }
        ensures same { self.new ≡ record self.old { threads = self.new.threads; scheduler = record self.old.scheduler { running = None } } }
    {
        self.set_running(None);
        self.put_waiting(t);
    }

    // A thread leaves its queue for another, at rank 0, and is suspended from now on, or no longer.
    fn move_to(&mut self, t: Tid, suspended: bool, q: Queue)
        requires whole { WellFormed self.old }
        requires known { IsKnown self.old.threads t.0 }
        requires may { IfSome (entry_in self.old.threads t.0) (λ e. MayStandIn q suspended e.state) }
        ensures shows { (k : Control P P.State P.Shared) → Shows self.old k → Shows self.new (enters t.0 q (pos 0) false (sets t.0 (change.Suspended suspended) (leaves_queue t.0 k))) }
        ensures moves { MovesThreads self.old self.new (more_new q) self.old.scheduler.running }
    {
        self.take_out(t);
        self.change(t, Change::Suspended(suspended));
        self.put_in(t, q, 0);
    }

    /// A thread that is new, ready or waits stands among the suspended ones, at rank 0, and keeps its state (`pth_suspend`).
    pub fn suspend(&mut self, t: Tid)
        requires whole { WellFormed self.old }
        requires known { IsKnown self.old.threads t.0 }
        requires can { IfSome (entry_in self.old.threads t.0) (λ e. CanSuspend e.state) }
        ensures shows { (k : Control P P.State P.Shared) → Shows self.old k → Shows self.new (suspends t.0 k) }
        ensures moves { MovesThreads self.old self.new 0 self.old.scheduler.running }
    {
        self.move_to(t, true, Queue::Suspended);
    }

    // The queue of a thread's state.
    fn queue_of_state(&self, t: Tid) -> Queue
        requires sound { IsSound self.now.threads }
        requires known { IsKnown self.now.threads t.0 }
        requires can { IfSome (entry_in self.now.threads t.0) (λ e. CanSuspend e.state) }
        ensures { IfSome (entry_in self.now.threads t.0) (λ e. Some result ≡ queue_for e.state) }
    {
        match self.entry(t) {
            Some(entry) => match entry.state {
                ThreadState::New => Queue::New,
                ThreadState::Ready => Queue::Ready,
                ThreadState::Waiting => Queue::Waiting,
                ThreadState::Running => unreachable!(),
                ThreadState::Dead => unreachable!(),
            },
            None => unreachable!(),
        }
    }

    /// A suspended thread stands in the queue of its state again, at rank 0 (`pth_resume`).
    pub fn resume(&mut self, t: Tid)
        requires whole { WellFormed self.old }
        requires known { IsKnown self.old.threads t.0 }
        requires suspended { IfSome (entry_in self.old.threads t.0) (λ e. e.suspended ≡ true) }
        ensures shows { (k : Control P P.State P.Shared) → Shows self.old k → Shows self.new (resumes t.0 k) }
        ensures moves { MovesThreads self.old self.new 1 self.old.scheduler.running }
    {
        let q = self.queue_of_state(t);
        self.move_to(t, false, q);
    }

    /// A dead thread is in the system no longer, as one that was joined (`pth_join`). It had nothing stored.
    pub fn remove(&mut self, t: Tid)
        requires whole { WellFormed self.old }
        requires known { IsKnown self.old.threads t.0 }
        requires dead { IsIn queue.Dead self.old.threads t.0 }
        ensures shows { (k : Control P P.State P.Shared) → Shows self.old k → Shows self.new (removes t.0 k) }
        ensures moves { MovesThreads self.old self.new 0 self.old.scheduler.running }
    {
        self.drop_thread(t);
    }

    // A thread that has nothing stored is dead, and keeps a value until it is joined.
    fn make_dead(&mut self, t: Tid, value: i64)
        requires whole { WellFormed self.old }
        requires known { IsKnown self.old.threads t.0 }
        requires nothing { HasNothing (store_of self.old.store) t.0 }
        ensures shows { (k : Control P P.State P.Shared) → Shows self.old k → Shows self.new (stops_running t.0 (is_dead_with t.0 value k)) }
        ensures moves { MovesThreads self.old self.new 0 (other_than t.0 self.old.scheduler.running) }
    {
        self.take_out(t);
        self.change(t, Change::State(ThreadState::Dead));
        self.change(t, Change::Suspended(false));
        self.change(t, Change::Value(value));
        self.put_in(t, Queue::Dead, 0);
        self.stop_running(t);
    }

    // A thread that has nothing stored is gone.
    fn make_gone(&mut self, t: Tid)
        requires whole { WellFormed self.old }
        requires known { IsKnown self.old.threads t.0 }
        requires nothing { HasNothing (store_of self.old.store) t.0 }
        ensures shows { (k : Control P P.State P.Shared) → Shows self.old k → Shows self.new (stops_running t.0 (removes t.0 k)) }
        ensures moves { MovesThreads self.old self.new 0 (other_than t.0 self.old.scheduler.running) }
    {
        self.drop_thread(t);
        self.stop_running(t);
    }

    /// A thread that has nothing stored ends, whoever runs: one that can be joined is dead and keeps a value until it is joined,
    /// and another is gone. It runs no longer.
    pub fn leave(&mut self, t: Tid, value: i64)
        requires whole { WellFormed self.old }
        requires known { IsKnown self.old.threads t.0 }
        requires nothing { HasNothing (store_of self.old.store) t.0 }
        ensures shows { (k : Control P P.State P.Shared) → Shows self.old k → Shows self.new (leaves t.0 value k) }
        ensures moves { MovesThreads self.old self.new 0 (other_than t.0 self.old.scheduler.running) }
    {
        let joinable = match self.entry(t) {
            Some(entry) => entry.joinable,
            None => unreachable!(),
        };
        if joinable {
            self.make_dead(t, value);
        } else {
            self.make_gone(t);
        }
    }
}

// One more, up to where a count of dispatches stands still.
fn one_more(n: u64) -> u64
    ensures { result ≡ min (n + 1) last_count }
{
    n.saturating_add(1).min(LAST_COUNT)
}

//! The program with its threads.

ghost use Rattle.std.specs.Prelude.{◌≡◌, ◌≢◌, ℕ, Option, Some, None, option_map};
ghost use Rattle.std.specs.Borrow.{Lends, sem};
ghost use Rattle.pth_threads.specs.Threads.{slot_of, tid_at};
ghost use Rattle.pth_tables.specs.contracts.counted_queues.CountedQueues.{the_row as queues_row};
ghost use Rattle.pth_tables.specs.contracts.progress_table.ProgressTable.{the_row as progress_row};
ghost use Rattle.pth_world.specs.contracts.world.World.{the_row};
ghost use Rattle.pth_model.specs.State.{Control};
ghost use Rattle.pth_model.specs.Changes.{runs_now, prefers, favours_new, prio_of};
ghost use Rattle.pth_model.specs.Ending.{other_than, stops_running};
ghost use Rattle.pth_world.specs.Shows.{Shows};
ghost use Rattle.pth_world.specs.Sound.{IsSound, IsPrio, HasPrio, IsKnown};
ghost use Rattle.pth_world.specs.WellFormed.{WellFormed, WellFormedBut, IsAbout};
ghost use Rattle.pth_world.specs.World.{entry_in};

mod attributes;
mod barriers;
mod conditions;
mod counts;
mod event_seats;
mod events;
mod handlers;
mod kernel;
mod locks;
mod moves;
mod places;
mod ports;
mod progress;
mod reads;
mod records;
mod slots;
mod store;
mod vanishing;
mod waits;

use pth_base::ids::{Slot, Tid};
use pth_base::program::Program;
use pth_cond::barriers::Barriers;
use pth_cond::conditions::Conds;
use pth_kernel::kernel::Kernel;
use pth_lock::mutexes::Mutexes;
use pth_lock::rwlocks::RwLocks;
use pth_port::ports::Ports;
use pth_queue::queue_set::QueueSet;
use pth_ring::rings::Rings;
use pth_store::cleanups::Cleanups;
use pth_store::keys::Keys;
use pth_tables::counted_queues::CountedQueues;
use pth_tables::progress_table::ProgressTable;
use pth_threads::attrs::Attrs;
use pth_threads::threads::Threads;
use std::alloc::Global;
use std::marker::Model;

/// The program with its threads: their records, their queues and how far each is in its program, their attribute objects,
/// events and rings of them, the conditions, the barriers, the kernel, what they stored and locked, the message ports, the once
/// controls that were used, and what the scheduler keeps of them.
pub struct World<P: Program> {
    alloc: Global,
    program: P,
    shared: P::Shared,
    threads: Threads,
    queues: CountedQueues,
    progress: ProgressTable<P::State>,
    attributes: Attrs,
    events: Rings,
    conditions: Conds,
    barriers: Barriers,
    kernel: Kernel,
    // By slot. What stands at a slot that is not used counts for nothing.
    keys: Keys,
    cleanups: Cleanups,
    mutexes: Mutexes,
    rw_locks: RwLocks,
    ports: Ports,
    used: [bool; 64],
    running: Option<Tid>,
    preferred: Option<Tid>,
    favour_new: bool,
}

// By hand: a derived one is written out, down to each `Vec`, in the proof of each function that may let a world go.
impl<P: Program> Drop for World<P> {
    fn drop(self) {
        let World {
            alloc: _,
            program: _,
            shared: _,
            threads: _,
            queues: _,
            progress: _,
            attributes: _,
            events: _,
            conditions: _,
            barriers: _,
            kernel: _,
            keys: _,
            cleanups: _,
            mutexes: _,
            rw_locks: _,
            ports: _,
            used: _,
            running: _,
            preferred: _,
            favour_new: _,
        } = self;
    }
}

impl<P: Program> Model for World<P> {
    ghost use Rattle.std.specs.Prelude.{option_map};
    ghost use Rattle.pth_threads.specs.Threads.{number_of};
    ghost use Rattle.pth_store.specs.Cleanups.{stacks_of};
    ghost use Rattle.pth_store.specs.Keys.{tables_of};
    ghost use Rattle.pth_lock.specs.Mutexes.{mutexes_of};
    ghost use Rattle.pth_lock.specs.RwLocks.{tables_of as locks_of};
    ghost use Rattle.pth_world.specs.Store.{stored_by};
    ghost use Rattle.pth_world.specs.World.{WorldOf};

    ghost Value = { WorldOf P P.State P.Shared };

    ghost view = { λ w. record {
      program = w.program;
      shared = w.shared;
      threads = record { records = w.threads; queues = w.queues.queues; waits = w.queues.waits; progress = w.progress };
      attributes = w.attributes;
      events = w.events;
      conditions = w.conditions;
      barriers = w.barriers;
      kernel = w.kernel;
      store = stored_by w.threads (tables_of w.keys) (stacks_of w.cleanups) (mutexes_of w.mutexes) (locks_of w.rw_locks) w.ports;
      used = w.used;
      scheduler = record {
        running = option_map number_of w.running;
        preferred = option_map number_of w.preferred;
        favour_new = w.favour_new;
      };
    } };
}

impl<P: Program> World<P> {
    ghost use Rattle.pth_threads.specs.Threads.{number_of};

    /// The records of the threads.
    #[inline(always)]
    pub fn threads(&self) -> &Threads
        ensures { result.now ≡ self.now.threads.records }
    {
        &self.threads
    }

    /// The queues.
    #[inline(always)]
    pub fn queues(&self) -> &QueueSet
        ensures { result.now ≡ self.now.threads.queues }
    {
        self.queues.queues()
    }

    // The queues, with what is kept for waits.
    #[inline(always)]
    fn counted(&self) -> &CountedQueues
        ensures { result.now ≡ record { queues = self.now.threads.queues; waits = self.now.threads.waits } }
    {
        &self.queues
    }

    #[inline(always)]
    fn progress(&self) -> &ProgressTable<P::State>
        ensures { result.now ≡ self.now.threads.progress }
    {
        &self.progress
    }

    #[inline(always)]
    fn queues_mut(&mut self) -> &mut CountedQueues
        ensures* writes_back { sem 𝓛 (Lends (the_row P.row P.State.row P.Shared.row P.Program) queues_row self.entry result (λ x. record self.old { threads = record self.old.threads { queues = x.queues; waits = x.waits } })) }
        ensures value { result.now ≡ record { queues = self.old.threads.queues; waits = self.old.threads.waits } }
    {
        &mut self.queues
    }

    #[inline(always)]
    fn progress_mut(&mut self) -> &mut ProgressTable<P::State>
        ensures* writes_back { sem 𝓛 (Lends (the_row P.row P.State.row P.Shared.row P.Program) (progress_row P.State.row) self.entry result (λ x. record self.old { threads = record self.old.threads { progress = x } })) }
        ensures value { result.now ≡ self.old.threads.progress }
    {
        &mut self.progress
    }

    // The slot of a thread in the system.
    #[inline(always)]
    fn slot(&self, t: Tid) -> Slot
        requires { IsKnown self.now.threads t.0 }
        ensures slot { slot_of self.now.threads.records t.0 ≡ Some result.0 }
        ensures used { tid_at self.now.threads.records result.0 ≢ 0 }
    {
        match self.threads().find(t) {
            Some(slot) => slot,
            None => unreachable!(),
        }
    }

    // The base priority of the thread at a slot.
    #[inline(always)]
    fn prio(&self, t: Tid, slot: Slot) -> i64
        requires sound { IsSound self.now.threads }
        requires at { slot_of self.now.threads.records t.0 ≡ Some slot.0 }
        requires prio { HasPrio (entry_in self.now.threads t.0) }
        ensures prio { (k : Control P P.State P.Shared) → Shows self.now k → result ≡ prio_of k t.0 }
        ensures low { IsPrio result }
    {
        self.threads().get(slot).prio
    }

    /// How many bodies the program has.
    pub fn bodies(&self) -> u32
        ensures { result ≡ (P.functions self.now.program).bodies }
    {
        self.program.bodies()
    }

    /// The thread that runs, and none where no thread runs.
    pub fn running(&self) -> Option<Tid>
        ensures { option_map number_of result ≡ self.now.scheduler.running }
    {
        self.running
    }

    /// Sets the thread that runs.
    pub fn set_running(&mut self, t: Option<Tid>)
        ensures same { self.new ≡ record self.old { scheduler = record self.old.scheduler { running = option_map number_of t } } }
        ensures shows { (k : Control P P.State P.Shared) → Shows self.old k → Shows self.new (runs_now (option_map number_of t) k) }
        ensures but { (u : ℕ) → IsAbout self.old.scheduler.running u → IsAbout self.new.scheduler.running u → WellFormedBut self.old u → WellFormedBut self.new u }
    {
        self.running = t;
    }

    // A thread runs no longer, if it does.
    fn stop_running(&mut self, t: Tid)
        ensures same { self.new ≡ record self.old { scheduler = record self.old.scheduler { running = other_than t.0 self.old.scheduler.running } } }
        ensures shows { (k : Control P P.State P.Shared) → Shows self.old k → Shows self.new (stops_running t.0 k) }
    {
        if let Some(running) = self.running
            && running.0 == t.0
        {
            self.running = None;
        }
    }

    /// The thread that the last yield named, which is dispatched next; none if it named none (`pth_yield`).
    pub fn named(&self) -> Option<Tid>
        ensures { option_map number_of result ≡ self.now.scheduler.preferred }
    {
        self.preferred
    }

    /// Names the thread that is dispatched next, or none (`pth_yield`).
    pub fn name_next(&mut self, t: Option<Tid>)
        ensures same { self.new ≡ record self.old { scheduler = record self.old.scheduler { preferred = option_map number_of t } } }
        ensures shows { (k : Control P P.State P.Shared) → Shows self.old k → Shows self.new (prefers (option_map number_of t) k) }
        ensures whole { WellFormed self.old → WellFormed self.new }
    {
        self.preferred = t;
    }

    /// Whether new threads are favoured (`PTH_CTRL_FAVOURNEW`).
    pub fn favour(&self) -> bool
        ensures { result ≡ self.now.scheduler.favour_new }
    {
        self.favour_new
    }

    /// Sets whether new threads are favoured from now on (`PTH_CTRL_FAVOURNEW`).
    pub fn set_favour(&mut self, on: bool)
        ensures same { self.new ≡ record self.old { scheduler = record self.old.scheduler { favour_new = on } } }
        ensures shows { (k : Control P P.State P.Shared) → Shows self.old k → Shows self.new (favours_new on k) }
        ensures whole { WellFormed self.old → WellFormed self.new }
    {
        self.favour_new = on;
    }
}

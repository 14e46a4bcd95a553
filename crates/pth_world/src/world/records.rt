//! The records of threads: changes, new threads, and threads that are gone.
//!
//! A slot is emptied when a thread is made in it: no contract sees an unused slot, and `kill` would have to scan them all. `new`
//! takes room for 4,096 threads, so moves between queues can't be refused.

ghost use Rattle.std.specs.Prelude.{◌≡◌, ◌≢◌, ◌<◌, ◌+◌, ◌↔◌, ℕ, ℤ, Bool, false, Some, None, IfSome, IfOk, OnOk, OnErr, IsErrOf, nat_lt};
ghost use Rattle.pth_base.specs.Limits.{thread_limit, IsGreatestPriority};
ghost use Rattle.pth_base.specs.Naming.{IsTied};
ghost use Rattle.pth_kernel.specs.Kernel.{kernel_of};
ghost use Rattle.pth_lock.specs.Mutexes.{mutexes_of};
ghost use Rattle.pth_lock.specs.RwLocks.{tables_of};
ghost use Rattle.pth_queue.specs.declared.queue.Queue.TheVariants as queue;
ghost use Rattle.pth_tables.specs.CountedOf.{IsEntryRank, counted};
ghost use Rattle.pth_queue.specs.Queues.{IsNowhere, entered, without};
ghost use Rattle.pth_base.specs.declared.thread.ThreadState.TheVariants as state;
ghost use Rattle.pth_threads.specs.declared.entry.Change.TheVariants as change;
ghost use Rattle.pth_threads.specs.Threads.{slot_of, tid_at, count, made_of, AddsThread, ChangesThread, IsCountable, IsSame, RemovesThread};
ghost use Rattle.pth_model.specs.Resources.{store_without};
ghost use Rattle.pth_model.specs.State.{Control, start, first_thread};
ghost use Rattle.pth_model.specs.Changes.{sets, enters, removes};
ghost use Rattle.pth_model.specs.ThreadControl.{spawns, has_room};
ghost use Rattle.pth_model.specs.Part.{is_put_waiting};
ghost use Rattle.pth_world.specs.Beginnings.{AreEmpty, IsBeforeMain, reserved_for};
ghost use Rattle.pth_world.specs.Numbering.{HasNumbers, no_numbers};
ghost use Rattle.pth_world.specs.Ranks.{KeepsRanks};
ghost use Rattle.pth_world.specs.Shows.{Shows, StandsFor};
ghost use Rattle.pth_world.specs.Store.{store_of, HasNothing};
ghost use Rattle.pth_world.specs.Sound.{IsSound, IsKnown, IsAlive, IsPrio, HasPrio, KeepsPrio};
ghost use Rattle.pth_world.specs.Frame.{Frame};
ghost use Rattle.pth_world.specs.WellFormed.{WellFormed, WellFormedBut, view};
ghost use Rattle.pth_world.specs.Touches.{IsAside, SameButStates, SameThreads, Touches, view_changed, view_placed};
ghost use Rattle.pth_world.specs.World.{entry_in};

use crate::world::World;
use pth_base::answer::Answer;
use pth_base::ids::{BodyId, Slot, Tid};
use pth_base::limits::MOST_THREADS;
use pth_base::memory::OutOfMemory;
use pth_base::name::Name;
use pth_base::program::Program;
use pth_base::thread::ThreadState;
use pth_cond::barriers::Barriers;
use pth_cond::conditions::Conds;
use pth_kernel::kernel::Kernel;
use pth_lock::mutexes::Mutexes;
use pth_lock::rwlocks::RwLocks;
use pth_model::progress::Progress;
use pth_port::ports::Ports;
use pth_queue::queue::Queue;
use pth_ring::rings::Rings;
use pth_store::cleanups::Cleanups;
use pth_store::keys::Keys;
use pth_tables::counted_queues::CountedQueues;
use pth_tables::progress_table::ProgressTable;
use pth_threads::attrs::Attrs;
use pth_threads::entry::{AddErr, Change, Entry, NewThread};
use pth_threads::threads::Threads;
use std::alloc::Global;

// What the main thread is given.
fn main_thread() -> NewThread
    ensures { result ≡ first_thread }
{
    NewThread {
        prio: 0,
        name: Name::cut("main"),
        joinable: true,
        cancel: 1,
    }
}

// The parts of a world that take memory as they are made.
#[derive(Drop)]
struct Room<S> {
    queues: CountedQueues,
    progress: ProgressTable<S>,
    mutexes: Mutexes,
    rw_locks: RwLocks,
}

// The queues, with room for as many threads as there may be.
fn reserved_queues(alloc: Global, top: u8) -> Result<CountedQueues, OutOfMemory>
    requires { IsGreatestPriority top }
    ensures { IfOk result (λ q. counted q ≡ reserved_for top) }
{
    let mut queues = CountedQueues::new(alloc, top);
    queues.reserve(MOST_THREADS)?;
    Ok(queues)
}

// Such parts, which keep nothing yet.
fn make_room<S: Drop>(alloc: Global, top: u8) -> Result<Room<S>, OutOfMemory>
    requires { IsGreatestPriority top }
    ensures { IfOk result (λ r. AreEmpty top r.queues r.progress (mutexes_of r.mutexes) (tables_of r.rw_locks)) }
{
    let queues = reserved_queues(alloc, top)?;
    let progress = ProgressTable::new(alloc)?;
    let mutexes = Mutexes::new(alloc)?;
    let rw_locks = RwLocks::new(alloc)?;
    Ok(Room {
        queues,
        progress,
        mutexes,
        rw_locks,
    })
}

impl<P: Program> World<P> {
    // The program with no threads, over parts that keep nothing and have room for as many as there may be.
    fn over(
        alloc: Global,
        program: P,
        shared: P::Shared,
        kernel: Kernel,
        room: Room<P::State>,
        top: u8,
    ) -> World<P>
        requires shared { shared ≡ (P.functions program).shared }
        requires bodies { 0 < (P.functions program).bodies }
        requires range { IsGreatestPriority top }
        requires empty { AreEmpty top room.queues room.progress (mutexes_of room.mutexes) (tables_of room.rw_locks) }
        ensures { IsBeforeMain P.functions (record { program = program; kernel = kernel_of kernel; top = top }) result }
    {
        let threads = Threads::new(alloc);
        let attributes = Attrs::new(alloc, top);
        let events = Rings::new(alloc);
        let conditions = Conds::new(alloc);
        let barriers = Barriers::new(alloc);
        let keys = Keys::new(alloc);
        let cleanups = Cleanups::new(alloc);
        let ports = Ports::new(alloc);
        World {
            alloc,
            program,
            shared,
            threads,
            attributes,
            events,
            conditions,
            barriers,
            kernel,
            queues: room.queues,
            progress: room.progress,
            keys,
            cleanups,
            mutexes: room.mutexes,
            rw_locks: room.rw_locks,
            ports,
            used: [false; 64],
            running: None,
            preferred: None,
            favour_new: true,
        }
    }

    // The program with no threads, and with room for as many as there may be.
    fn without_threads(
        alloc: Global,
        program: P,
        kernel: Kernel,
        top: u8,
    ) -> Result<World<P>, OutOfMemory>
        requires { IsGreatestPriority top }
        ensures { IfOk result (λ w. IsBeforeMain P.functions (record { program = program; kernel = kernel_of kernel; top = top }) w) }
    {
        let shared = program.shared(alloc)?;
        let _some = program.bodies();
        let room = make_room(alloc, top)?;
        Ok(World::over(alloc, program, shared, kernel, room, top))
    }

    /// The main thread alone, ready at rank 0 (`pth_init`), at the moment of the kernel. Base priorities go from `-top` to `top`,
    /// the greatest, which is from 5 to 20.
    pub fn new(alloc: Global, program: P, kernel: Kernel, top: u8) -> Result<World<P>, OutOfMemory>
        requires { IsGreatestPriority top }
        ensures stands { IfOk result (λ w. StandsFor w
            (start P.functions (record { program = program; kernel = kernel_of kernel; top = top }))) }
        ensures whole { IfOk result (λ w. WellFormed w) }
        ensures one { IfOk result (λ w. w.threads.records.made ≡ 1) }
        ensures no_objects { IfOk result (λ w. w.attributes.objects.made ≡ 0) }
        ensures no_events { IfOk result (λ w. w.events.made ≡ 0) }
        ensures no_ports { IfOk result (λ w. w.store.ports.made ≡ 0) }
    {
        let mut world = World::without_threads(alloc, program, kernel, top)?;
        let main = match world.spawn(BodyId(0), 0, main_thread()) {
            Ok(main) => main,
            Err(AddErr::OutOfMemory) => return Err(OutOfMemory),
            Err(AddErr::TooMany) => unreachable!(),
        };
        world.make_ready(main, 0, false);
        Ok(world)
    }

    // Sets one field of the record at a slot.
    #[inline(always)]
    fn change_at(&mut self, s: Slot, c: Change)
        requires used { tid_at self.old.threads.records s.0 ≢ 0 }
        requires countable { IsCountable c }
        ensures changes { ChangesThread self.old.threads.records self.new.threads.records s.0 c }
        ensures same { self.new ≡ record self.old { threads = record self.old.threads { records = self.new.threads.records } } }
    {
        self.threads.change(s, c);
    }

    /// Sets one field of a thread's record. A changed priority counts from the next entry into a queue.
    pub fn change(&mut self, t: Tid, c: Change)
        requires sound { IsSound self.old.threads }
        requires known { IsKnown self.old.threads t.0 }
        requires countable { IsCountable c }
        ensures shows { (k : Control P P.State P.Shared) → Shows self.old k → Shows self.new (sets t.0 c k) }
        ensures sound { IsSound self.new.threads }
        ensures touches { Touches self.old.threads self.new.threads t.0 (view_changed c) }
        ensures but { WellFormedBut self.old t.0 → WellFormedBut self.new t.0 }
        ensures threads { SameThreads self.old.threads self.new.threads }
        ensures same { self.new ≡ record self.old { threads = record self.old.threads { records = self.new.threads.records } } }
    {
        let slot = self.slot(t);
        self.change_of(t, slot, c);
    }

    // Sets one field of the record of the thread at a slot.
    #[inline(always)]
    pub(crate) fn change_of(&mut self, t: Tid, slot: Slot, c: Change)
        requires sound { IsSound self.old.threads }
        requires at { slot_of self.old.threads.records t.0 ≡ Some slot.0 }
        requires countable { IsCountable c }
        ensures shows { (k : Control P P.State P.Shared) → Shows self.old k → Shows self.new (sets t.0 c k) }
        ensures sound { IsSound self.new.threads }
        ensures touches { Touches self.old.threads self.new.threads t.0 (view_changed c) }
        ensures but { WellFormedBut self.old t.0 → WellFormedBut self.new t.0 }
        ensures threads { SameThreads self.old.threads self.new.threads }
        ensures same { self.new ≡ record self.old { threads = record self.old.threads { records = self.new.threads.records } } }
    {
        self.change_at(slot, c);
    }

    /// Sets a field of a thread's record that says neither its state nor where it stands: what it was given, and whether its end
    /// was asked for.
    pub fn set_field(&mut self, t: Tid, c: Change)
        requires whole { WellFormed self.old }
        requires known { IsKnown self.old.threads t.0 }
        requires prio { KeepsPrio c }
        requires countable { IsCountable c }
        requires aside { IsAside c }
        ensures shows { (k : Control P P.State P.Shared) → Shows self.old k → Shows self.new (sets t.0 c k) }
        ensures touches { Touches self.old.threads self.new.threads t.0 (view_changed c) }
        ensures alive { IsAlive self.old.threads t.0 → IsAlive self.new.threads t.0 }
        ensures frame { Frame self.old self.new no_numbers self.old.scheduler.running false }
        ensures store { self.new.store ≡ self.old.store }
        ensures threads { SameThreads self.old.threads self.new.threads }
    {
        self.change(t, c);
    }

    // Takes the record of a thread out, and so what it stored and locked.
    fn remove_at(&mut self, t: Tid, s: Slot)
        requires tied { IsTied (slot_of self.old.threads.records) (tid_at self.old.threads.records) }
        requires at { slot_of self.old.threads.records t.0 ≡ Some s.0 }
        ensures removes { RemovesThread self.old.threads.records self.new.threads.records s.0 }
        ensures store { store_of self.new.store ≡ store_without t.0 (store_of self.old.store) }
        ensures still { HasNothing (store_of self.old.store) t.0 → self.new.store ≡ self.old.store }
        ensures same { self.new
            ≡ record self.old { threads = record self.old.threads { records = self.new.threads.records }; store = self.new.store } }
    {
        self.mutexes.release_all(s);
        self.rw_locks.release_all(s);
        self.threads.remove(s);
    }

    /// Takes a thread out of the system, with its place, its program and what it stored.
    pub fn drop_thread(&mut self, t: Tid)
        requires sound { IsSound self.old.threads }
        requires known { IsKnown self.old.threads t.0 }
        ensures shows { (k : Control P P.State P.Shared) → Shows self.old k → Shows self.new (removes t.0 k) }
        ensures sound { IsSound self.new.threads }
        ensures others { (u : ℕ) → tid_at self.old.threads.records u ≢ t.0 → view self.new.threads u ≡ view self.old.threads u }
        ensures but { WellFormedBut self.old t.0 → WellFormedBut self.new t.0 }
        ensures threads { IfSome (slot_of self.old.threads.records t.0)
            (λ u. RemovesThread self.old.threads.records self.new.threads.records u) }
        ensures queues { IfSome (slot_of self.old.threads.records t.0) (λ u. self.new.threads.queues ≡ without u self.old.threads.queues) }
        ensures store { store_of self.new.store ≡ store_without t.0 (store_of self.old.store) }
        ensures still { HasNothing (store_of self.old.store) t.0 → self.new.store ≡ self.old.store }
        ensures same { self.new ≡ record self.old { threads = self.new.threads; store = self.new.store } }
    {
        let slot = self.slot(t);
        self.take_out(t);
        self.progress_mut().set(slot, None);
        self.remove_at(t, slot);
    }

    // The first state of a thread.
    fn start(&self, body: BodyId, arg: i64) -> Result<P::State, OutOfMemory>
        requires { body.0 < (P.functions self.now.program).bodies }
        ensures { IfOk result (λ state. state ≡ (P.functions self.now.program).start body.0 arg) }
    {
        self.program.start(self.alloc, body, arg)
    }

    /// Whether another thread can be made: at most thread_limit are in the system, dead ones too.
    pub fn has_room(&self) -> bool
        requires { IsSound self.now.threads }
        ensures count { result ≡ nat_lt (count self.now.threads.records) thread_limit }
        ensures room { (k : Control P P.State P.Shared) → Shows self.now k → result ≡ has_room k }
    {
        self.threads().count() < MOST_THREADS
    }

    // A new thread, which has stored nothing: what was left at its slot is forgotten.
    fn add(&mut self, of: NewThread) -> Result<(Tid, Slot), AddErr>
        requires sound { IsSound self.old.threads }
        requires few { self.old.threads.records.made < 4294967295 }
        requires spare { HasNothing (store_of self.old.store) 0 }
        ensures tid { IfOk result (λ p. p.0.0 ≡ self.old.threads.records.made + 1) }
        ensures made { OnOk result (self.new.threads.records.made ≡ self.old.threads.records.made + 1) }
        ensures ok { IfOk result (λ p. AddsThread self.old.threads.records self.new.threads.records p.1.0 (made_of of p.0.0)) }
        ensures too_many { IsErrOf result AddErr.TooMany ↔ (count self.old.threads.records ≡ thread_limit) }
        ensures err { OnErr result (IsSame self.old.threads.records self.new.threads.records) }
        ensures same { self.new ≡ record self.old { threads = record self.old.threads { records = self.new.threads.records } } }
    {
        let (t, slot) = self.threads.add(of)?;
        self.keys.forget(slot);
        self.cleanups.forget(slot);
        Ok((t, slot))
    }

    /// A new thread of this body, with this argument and these values, which enters the new queue at its base priority.
    /// A refused call changes nothing.
    pub fn spawn(&mut self, body: BodyId, arg: i64, of: NewThread) -> Result<Tid, AddErr>
        requires whole { WellFormed self.old }
        requires bodies { body.0 < (P.functions self.old.program).bodies }
        requires prio { IsPrio of.prio }
        requires few { HasNumbers self.old }
        ensures tid { IfOk result (λ t. t.0 ≡ self.old.threads.records.made + 1) }
        ensures made { OnOk result (self.new.threads.records.made ≡ self.old.threads.records.made + 1) }
        ensures queues { IfOk result (λ t. IfSome (slot_of self.new.threads.records t.0)
            (λ u. self.new.threads.queues ≡ entered queue.New of.prio u self.old.threads.queues)) }
        ensures ranks { OnOk result (KeepsRanks 1 self.old.threads self.new.threads) }
        ensures shows { IfOk result (λ t. (k : Control P P.State P.Shared) → Shows self.old k
            → Shows self.new (spawns P.functions body.0 arg of k)) }
        ensures whole { OnOk result (WellFormed self.new) }
        ensures others { OnOk result ((t : ℕ) → IsKnown self.old.threads t → IsKnown self.new.threads t) }
        ensures same { OnOk result (self.new ≡ record self.old { threads = self.new.threads }) }
        ensures too_many { IsErrOf result AddErr.TooMany ↔ (count self.old.threads.records ≡ thread_limit) }
        ensures refused { OnErr result ((k : Control P P.State P.Shared) → Shows self.old k → Shows self.new k) }
        ensures whole_still { OnErr result (WellFormed self.new) }
        ensures still { OnErr result (self.new
            ≡ record self.old { threads = record self.old.threads { records = self.new.threads.records } }
            × IsSame self.old.threads.records self.new.threads.records) }
    {
        if self.threads().count() == MOST_THREADS {
            return Err(AddErr::TooMany);
        }
        let state = self.start(body, arg)?;
        let prio = of.prio;
        let (t, slot) = self.add(of)?;
        self.progress_mut().set(
            slot,
            Some(Progress {
                state,
                owed: Answer::None,
                blocked: None,
            }),
        );
        self.queues_mut().insert(Queue::New, prio, slot, false);
        Ok(t)
    }

    /// Makes a thread ready, and puts it into the ready queue at a rank.
    pub fn put_ready(&mut self, t: Tid, rank: i64)
        requires sound { IsSound self.old.threads }
        requires known { IsKnown self.old.threads t.0 }
        requires nowhere { IfSome (slot_of self.old.threads.records t.0) (λ u. IsNowhere u self.old.threads.queues) }
        requires rank { IsEntryRank rank }
        ensures shows { (k : Control P P.State P.Shared) → Shows self.old k
            → Shows self.new (enters t.0 queue.Ready rank false (sets t.0 (change.State state.Ready) k)) }
        ensures sound { IsSound self.new.threads }
        ensures touches { Touches self.old.threads self.new.threads t.0
            (λ v. view_placed (Some queue.Ready) (view_changed (change.State state.Ready) v)) }
        ensures but { WellFormedBut self.old t.0 → WellFormedBut self.new t.0 }
        ensures threads { SameThreads self.old.threads self.new.threads }
        ensures queues { IfSome (slot_of self.old.threads.records t.0)
            (λ u. self.new.threads.queues ≡ entered queue.Ready rank u self.old.threads.queues) }
        ensures same { SameButStates self.old self.new }
    {
        let slot = self.slot(t);
        self.put_ready_at(t, slot, rank, false);
    }

    // Makes the thread at a slot ready, and puts it into the ready queue at a rank. `top` says that it is a new thread that is
    // favoured.
    #[inline(always)]
    pub(crate) fn put_ready_at(&mut self, t: Tid, slot: Slot, rank: i64, top: bool)
        requires sound { IsSound self.old.threads }
        requires at { slot_of self.old.threads.records t.0 ≡ Some slot.0 }
        requires nowhere { IfSome (slot_of self.old.threads.records t.0) (λ u. IsNowhere u self.old.threads.queues) }
        requires rank { IsEntryRank rank }
        ensures shows { (k : Control P P.State P.Shared) → Shows self.old k
            → Shows self.new (enters t.0 queue.Ready rank top (sets t.0 (change.State state.Ready) k)) }
        ensures sound { IsSound self.new.threads }
        ensures touches { Touches self.old.threads self.new.threads t.0
            (λ v. view_placed (Some queue.Ready) (view_changed (change.State state.Ready) v)) }
        ensures but { WellFormedBut self.old t.0 → WellFormedBut self.new t.0 }
        ensures threads { SameThreads self.old.threads self.new.threads }
        ensures queues { IfSome (slot_of self.old.threads.records t.0)
            (λ u. self.new.threads.queues ≡ entered queue.Ready rank u self.old.threads.queues) }
        ensures same { SameButStates self.old self.new }
    {
        self.change_of(t, slot, Change::State(ThreadState::Ready));
        self.put_at(t, slot, Queue::Ready, rank, top);
    }

    /// Makes a thread wait, and puts it into the waiting queue at its base priority.
    pub fn put_waiting(&mut self, t: Tid)
        requires sound { IsSound self.old.threads }
        requires known { IsKnown self.old.threads t.0 }
        requires nowhere { IfSome (slot_of self.old.threads.records t.0) (λ u. IsNowhere u self.old.threads.queues) }
        requires prio { HasPrio (entry_in self.old.threads t.0) }
        ensures shows { (k : Control P P.State P.Shared) → Shows self.old k → Shows self.new (is_put_waiting t.0 k) }
        ensures sound { IsSound self.new.threads }
        ensures touches { Touches self.old.threads self.new.threads t.0
            (λ v. view_placed (Some queue.Waiting) (view_changed (change.State state.Waiting) v)) }
        ensures but { WellFormedBut self.old t.0 → WellFormedBut self.new t.0 }
        ensures threads { SameThreads self.old.threads self.new.threads }
        ensures queues { IfSome (slot_of self.old.threads.records t.0)
            (λ u. (prio : ℤ) × IsPrio prio × (self.new.threads.queues ≡ entered queue.Waiting prio u self.old.threads.queues)) }
        ensures same { SameButStates self.old self.new }
    {
        let slot = self.slot(t);
        let prio = self.prio(t, slot);
        self.change_of(t, slot, Change::State(ThreadState::Waiting));
        self.put_at(t, slot, Queue::Waiting, prio, false);
    }
}

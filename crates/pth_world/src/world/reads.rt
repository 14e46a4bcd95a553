//! Reads of threads by their numbers.

ghost use Rattle.std.specs.Prelude.{◌≡◌, ◌≢◌, ℕ, ◌+◌, ◌^◌, ◌<◌, pos, neg_ℤ, ◌≤ℤ◌, true, List, [], ◌∷◌, ◌++◌, Option, Some, None, IsSome, IfSome, option_map, option_copied};
ghost use Rattle.pth_queue.specs.declared.queue.Queue.TheVariants as queue;
ghost use Rattle.pth_queue.specs.declared.ranked.Ranked.{Ranked};
ghost use Rattle.pth_queue.specs.Ranking.{holds, head_of, last_of, place_in, favour_top};
ghost use Rattle.pth_queue.specs.Queues.{rows_of};
ghost use Rattle.pth_threads.specs.Threads.{slot_of, tid_at, number_of};
ghost use Rattle.pth_model.specs.State.{Control, queue};
ghost use Rattle.pth_model.specs.Changes.{holders, is_empty};
ghost use Rattle.pth_model.specs.Part.{rank_by};
ghost use Rattle.pth_model.specs.ThreadEnds.{only, is_alone};
ghost use Rattle.pth_numbered.specs.Operands.{named};
ghost use Rattle.pth_world.specs.World.{entry_in};
ghost use Rattle.pth_world.specs.Walks.{behind};
ghost use Rattle.pth_world.specs.Placed.{place};
ghost use Rattle.pth_world.specs.Shows.{Shows};
ghost use Rattle.pth_world.specs.Sound.{IsSound, IsKnown, IsPrio};
ghost use Rattle.pth_world.specs.WellFormed.{WellFormed, IsIn};

use crate::world::World;
use pth_base::ids::{Slot, Tid};
use pth_base::program::Program;
use pth_queue::queue::Queue;
use pth_threads::entry::Entry;

impl<P: Program> World<P> {
    /// The record of a thread; none where it is not in the system.
    #[inline(always)]
    pub fn entry(&self, t: Tid) -> Option<&Entry>
        requires { IsSound self.now.threads }
        ensures entry { (k : Control P P.State P.Shared) → Shows self.now k → option_copied result ≡ k.threads.known t.0 }
        ensures here { option_copied result ≡ entry_in self.now.threads t.0 }
        ensures tid { IfSome result (λ e. e.now.tid.0 ≡ t.0) }
        ensures known { IsSome result → IsKnown self.now.threads t.0 }
        ensures some { IsKnown self.now.threads t.0 → IsSome result }
        ensures prio { WellFormed self.now → IfSome result (λ e. IsPrio e.now.prio) }
    {
        match self.threads().find(t) {
            Some(slot) => Some(self.threads().get(slot)),
            None => None,
        }
    }

    // The record of the thread at a slot.
    #[inline(always)]
    pub(crate) fn record_of(&self, t: Tid, slot: Slot) -> &Entry
        requires sound { IsSound self.now.threads }
        requires at { slot_of self.now.threads.records t.0 ≡ Some slot.0 }
        ensures { (k : Control P P.State P.Shared) → Shows self.now k → Some result.now ≡ k.threads.known t.0 }
    {
        self.threads().get(slot)
    }

    /// The record of the thread in the system that an operand names; none if no thread in the system has this number.
    #[inline(always)]
    pub fn known(&self, n: i64) -> Option<&Entry>
        requires { IsSound self.now.threads }
        ensures entry { (k : Control P P.State P.Shared) → Shows self.now k → option_copied result ≡ named k.threads.known n }
        ensures here { IfSome result (λ e. Some e.now ≡ entry_in self.now.threads e.now.tid.0) }
        ensures number { IfSome result (λ e. n ≡ pos e.now.tid.0) }
        ensures known { IfSome result (λ e. IsKnown self.now.threads e.now.tid.0) }
        ensures prio { WellFormed self.now → IfSome result (λ e. IsPrio e.now.prio) }
    {
        if n < 0 {
            return None;
        }
        if n > i64::from(self.threads().made()) {
            return None;
        }
        self.entry(Tid(n as u32))
    }

    // The thread whose slot stands in a queue.
    #[inline(always)]
    fn thread_at(&self, slot: Option<Slot>, q: Queue) -> Option<Tid>
        requires sound { IsSound self.now.threads }
        requires holds { IfSome slot (λ u. holds u.0 (rows_of q self.now.threads.queues) ≡ true) }
        ensures tid { option_map number_of result ≡ option_map (λ u. tid_at self.now.threads.records u.0) slot }
        ensures known { IfSome result (λ t. IsKnown self.now.threads t.0) }
        ensures stands { IfSome result (λ t. IsIn q self.now.threads t.0) }
    {
        match slot {
            Some(slot) => Some(self.threads().get(slot).tid),
            None => None,
        }
    }

    /// The first thread of a queue (`pth_pqueue_head`).
    #[inline(always)]
    pub fn first(&self, q: Queue) -> Option<Tid>
        requires sound { IsSound self.now.threads }
        ensures none { result ≡ None → rows_of q self.now.threads.queues ≡ [] }
        ensures first { (k : Control P P.State P.Shared) → Shows self.now k → option_map number_of result ≡ head_of (queue k q) }
        ensures known { IfSome result (λ t. IsKnown self.now.threads t.0) }
        ensures stands { IfSome result (λ t. IsIn q self.now.threads t.0) }
    {
        self.thread_at(self.queues().head(q), q)
    }

    /// The last thread of a queue (`pth_pqueue_tail`).
    #[inline(always)]
    pub fn last(&self, q: Queue) -> Option<Tid>
        requires sound { IsSound self.now.threads }
        ensures none { result ≡ None → rows_of q self.now.threads.queues ≡ [] }
        ensures last { (k : Control P P.State P.Shared) → Shows self.now k → option_map number_of result ≡ last_of (queue k q) }
        ensures known { IfSome result (λ t. IsKnown self.now.threads t.0) }
        ensures stands { IfSome result (λ t. IsIn q self.now.threads t.0) }
    {
        self.thread_at(self.queues().tail(q), q)
    }

    /// The rank at which a thread enters the ready queue in front of all others (`pth_pqueue_favorite_prio`).
    pub fn top(&self) -> i64
        requires sound { IsSound self.now.threads }
        ensures top { (k : Control P P.State P.Shared) → Shows self.now k → result ≡ favour_top k.top (queue k queue.Ready) }
        ensures value { result ≡ favour_top self.now.threads.queues.top self.now.threads.queues.ready }
        ensures low { neg_ℤ (pos 20) ≤ℤ result }
        ensures high { result ≤ℤ pos (2 ^ 40 + 1) }
    {
        self.counted().favour_top()
    }

    /// Whether no thread stands in a queue.
    #[inline(always)]
    pub fn is_empty(&self, q: Queue) -> bool
        requires { IsSound self.now.threads }
        ensures empty { (k : Control P P.State P.Shared) → Shows self.now k → result ≡ is_empty (queue k q) }
        ensures rows { result ≡ is_empty (rows_of q self.now.threads.queues) }
    {
        self.queues().head(q).is_none()
    }

    /// The rank of a ready thread, in constant time.
    pub fn ready_rank(&self, t: Tid) -> i64
        requires sound { IsSound self.now.threads }
        requires known { IsKnown self.now.threads t.0 }
        requires stands { IsIn queue.Ready self.now.threads t.0 }
        ensures { (k : Control P P.State P.Shared) → Shows self.now k → result ≡ rank_by (place_in t.0 (queue k queue.Ready)) }
    {
        let slot = self.slot(t);
        self.queues.rank_of(slot)
    }

    /// The thread that follows one in its queue; none after the last (`pth_pqueue_walk`). Fewer threads stand behind it.
    pub fn after(&self, t: Tid, q: Queue) -> Option<Tid>
        requires sound { IsSound self.now.threads }
        requires known { IsKnown self.now.threads t.0 }
        requires stands { IsIn q self.now.threads t.0 }
        ensures less { IfSome result (λ u. behind self.now.threads q u.0 < behind self.now.threads q t.0) }
        ensures after { (k : Control P P.State P.Shared) (front back : List Ranked) (r : Ranked) → Shows self.now k → queue k q ≡ front ++ r ∷ back → r.holder ≡ t.0 → option_map number_of result ≡ head_of back }
        ensures known { IfSome result (λ t. IsKnown self.now.threads t.0) }
        ensures stands { IfSome result (λ t. IsIn q self.now.threads t.0) }
    {
        let slot = self.slot(t);
        self.thread_at(self.queues().after(slot), q)
    }

    /// The queue in which a thread stands, its rank there, and how many stand before it; none if it stands in no queue. Those before it
    /// are counted from the head.
    pub fn place(&self, t: Tid) -> Option<(Queue, i64, u32)>
        requires { IsSound self.now.threads }
        ensures { (k : Control P P.State P.Shared) → Shows self.now k → result ≡ place k t.0 }
    {
        match self.threads().find(t) {
            Some(slot) => self.queues().place_of(slot),
            None => None,
        }
    }

    // Whether no other thread than t stands in a queue.
    #[inline(always)]
    fn is_only(&self, t: Tid, q: Queue) -> bool
        requires { IsSound self.now.threads }
        ensures { (k : Control P P.State P.Shared) → Shows self.now k → result ≡ only t.0 (holders (queue k q)) }
    {
        match (self.first(q), self.last(q)) {
            (Some(first), Some(last)) => first.0 == t.0 && last.0 == t.0,
            _ => true,
        }
    }

    /// Whether no other thread than t is new, ready, waiting or suspended.
    #[inline(always)]
    pub fn is_alone(&self, t: Tid) -> bool
        requires { IsSound self.now.threads }
        ensures { (k : Control P P.State P.Shared) → Shows self.now k → result ≡ is_alone k t.0 }
    {
        self.is_only(t, Queue::New)
            && self.is_only(t, Queue::Ready)
            && self.is_only(t, Queue::Waiting)
            && self.is_only(t, Queue::Suspended)
    }
}

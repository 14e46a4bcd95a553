//! One barrier.

ghost use Rattle.std.specs.Prelude.{◌≡◌, ◌<◌, ◌≤◌, Some, true, IfOk, []};
ghost use Rattle.pth_cond.specs.Barriers.{BarrierIsSound, arrival_limit, takes_more, arrival_at, arrived, waits_among, without_thread, is_past, answer_in, answered};

use super::Arrival;
use crate::barriers::arrivals::{Waiter, count, has, is_first, mark_behind, take_out};
use pth_base::ids::Tid;
use pth_base::memory::OutOfMemory;
use std::alloc::Global;
use std::marker::Model;

// How many threads may make a round, and how many arrivals may wait at a barrier.
pub(crate) const MOST_ARRIVALS: usize = 4096;

// Threads arrive only in rounds that are numbered below this.
const ROUNDS_END: u64 = 4_611_686_018_427_387_904;

// What the thread is answered whose arrival is the first of its round that was not taken back (`PTH_BARRIER_HEADLIGHT`).
const HEADLIGHT: i64 = -1;

// What a thread is answered that came neither first in its round nor last.
pub(crate) const BETWEEN: i64 = 1;

// A barrier that is initialised. Its memory has room for as many arrivals as may wait.
pub(crate) struct OneBarrier {
    // How many threads make a round.
    size: usize,
    round: u64,
    // How many wait for this round.
    count: usize,
    entries: Vec<Waiter>,
}

impl Model for OneBarrier {
    ghost use Rattle.std.specs.Prelude.{vec_capacity};
    ghost use Rattle.pth_cond.specs.Barriers.{Barrier};
    ghost use Rattle.pth_cond.specs.Kept.{arrivals_of, BarrierIsKept};

    ghost Value = { Barrier };

    ghost view = { λ g. record { size = g.size; round = g.round; arrivals = arrivals_of g.entries.items } };

    ghost invariant = { λ g. BarrierIsKept g.count (vec_capacity g.entries) (record { size = g.size; round = g.round; arrivals = arrivals_of g.entries.items }) };
}

// By hand, so that letting one go is one call in each proof.
impl Drop for OneBarrier {
    fn drop(self) {
        let OneBarrier {
            size: _,
            round: _,
            count: _,
            entries: _,
        } = self;
    }
}

impl OneBarrier {
    // Nobody waits, and the rounds are numbered from 1.
    pub(crate) fn new(alloc: Global, size: usize) -> Result<OneBarrier, OutOfMemory>
        requires some { 0 < size }
        requires many { size ≤ arrival_limit }
        ensures empty { IfOk result (λ y. y ≡ record { size = size; round = 1; arrivals = [] }) }
        ensures sound { IfOk result BarrierIsSound }
    {
        let entries = Vec::with_capacity(alloc, MOST_ARRIVALS)?;
        Ok(OneBarrier {
            size,
            round: 1,
            count: 0,
            entries,
        })
    }

    // Whether one more may arrive.
    pub(crate) fn has_room(&self) -> bool
        ensures { result ≡ takes_more (Some self.now) }
    {
        self.entries.len() < MOST_ARRIVALS && self.round < ROUNDS_END
    }

    // A thread arrives.
    pub(crate) fn arrive(&mut self, t: Tid) -> Arrival
        requires { takes_more (Some self.old) ≡ true }
        ensures answer { result ≡ arrival_at self.old }
        ensures changes { self.new ≡ arrived t.0 self.old }
        ensures sound { BarrierIsSound self.new }
    {
        if self.count + 1 == self.size {
            self.round += 1;
            self.count = 0;
            return Arrival::Tail;
        }
        self.count += 1;
        self.entries.push_reserved(Waiter {
            tid: t,
            round: self.round,
            late: false,
        });
        Arrival::Incomplete(self.round)
    }

    // Takes the arrival of a thread back, and tells whether there was one.
    pub(crate) fn withdraw(&mut self, t: Tid) -> bool
        ensures there { result ≡ waits_among t.0 self.old.arrivals }
        ensures changes { self.new ≡ record self.old { arrivals = without_thread t.0 self.old.arrivals } }
        ensures sound { BarrierIsSound self.new }
    {
        let there = has(&self.entries, t);
        self.forget(t);
        there
    }

    // Takes the arrivals of all threads back.
    pub(crate) fn clear(&mut self)
        ensures changes { self.new ≡ record self.old { arrivals = [] } }
        ensures sound { BarrierIsSound self.new }
    {
        self.entries.clear();
        self.count = 0;
    }

    // Whether a round has passed.
    pub(crate) fn has_passed(&self, round: u64) -> bool
        ensures { result ≡ is_past round (Some self.now) }
    {
        round < self.round
    }

    // Answers the arrival of a thread.
    pub(crate) fn answer(&mut self, round: u64, t: Tid) -> i64
        ensures answer { result ≡ answer_in t.0 round (Some self.old) }
        ensures changes { self.new ≡ record self.old { arrivals = answered t.0 round self.old.arrivals } }
        ensures sound { BarrierIsSound self.new }
    {
        let first = is_first(&self.entries, round, t);
        mark_behind(&mut self.entries, round, t);
        self.forget(t);
        if first { HEADLIGHT } else { BETWEEN }
    }

    // The arrivals of a thread are gone.
    fn forget(&mut self, t: Tid)
        ensures changes { self.new ≡ record self.old { arrivals = without_thread t.0 self.old.arrivals } }
        ensures sound { BarrierIsSound self.new }
    {
        take_out(&mut self.entries, t);
        self.count = count(&self.entries, self.round);
    }
}

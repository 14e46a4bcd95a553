//! Barriers.

ghost use Rattle.std.specs.Prelude.{◌≡◌, ◌<◌, true, length, IfSome, OnOk, OnErr, is_some, option_copied};
ghost use Rattle.pth_lock.specs.Objects.{object_limit, object_named};
ghost use Rattle.pth_store.specs.Storing.{AnswersWithMemory};
ghost use Rattle.pth_cond.specs.Barriers.{barriers_of, BarriersAreSound, barrier_init_answer, arrival_answer, has_room, waits_at, has_passed, round_answer, no_barriers, barrier_initialised, barrier_reached, withdrawn, all_withdrawn, round_answered};

mod arrivals;
mod barrier;

use crate::barriers::barrier::{BETWEEN, MOST_ARRIVALS, OneBarrier};
use pth_base::errno::Errno;
use pth_base::ids::Tid;
use pth_base::memory::OutOfMemory;
use pth_base::refusal::Refusal;
use pth_lock::objects::{MOST_OBJECTS, place_of};
use std::alloc::Global;
use std::array;
use std::marker::Model;

/// What the thread is answered that came last in its round (`PTH_BARRIER_TAILLIGHT`).
pub const TAILLIGHT: i64 = -2;

/// What an arrival comes to.
#[derive(Clone, Copy)]
pub enum Arrival {
    /// It waits until the round of this number has passed.
    Incomplete(u64),
    /// It was the last of its round, which has passed.
    Tail,
}

/// The barriers (`pth_barrier_t`), from 0 to 63. Only `init` takes memory.
pub struct Barriers {
    alloc: Global,
    barriers: [Option<OneBarrier>; MOST_OBJECTS],
}

impl Model for Barriers {
    ghost use Rattle.std.specs.Prelude.{List, Option};
    ghost use Rattle.pth_cond.specs.Barriers.{Barrier};
    ghost use Rattle.pth_cond.specs.Kept.{BarriersAreKept};

    ghost Value = { List (Option Barrier) };

    ghost view = { λ a. a.barriers };

    ghost invariant = { λ a. BarriersAreKept a.barriers };
}

// By hand, so that letting one go is one call in each proof.
impl Drop for Barriers {
    fn drop(self) {
        let Barriers {
            alloc: _,
            barriers: _,
        } = self;
    }
}

impl Barriers {
    /// No barrier is initialised.
    pub fn new(alloc: Global) -> Barriers
        ensures { barriers_of result ≡ no_barriers }
    {
        Barriers {
            alloc,
            barriers: array::from_fn(|_| None),
        }
    }

    /// `pth_barrier_init`: a barrier, from 0 to 63, of which `n` threads make a round, from 1 to 4,096. Its rounds are numbered
    /// from 1. EINVAL where there is no such barrier or no such size, EBUSY where it is initialised already.
    pub fn init(&mut self, b: i64, n: i64) -> Result<(), Refusal>
        ensures answer { AnswersWithMemory (barrier_init_answer (barriers_of self.old) b n) result }
        ensures changes { OnOk result (barriers_of self.new ≡ barrier_initialised b n (barriers_of self.old)) }
        ensures refused { OnErr result (self.new ≡ self.old) }
    {
        let Some(place) = place_of(b) else {
            return Err(Refusal::Fail(Errno::EINVAL));
        };
        if n < 1 || n > MOST_ARRIVALS as i64 {
            return Err(Refusal::Fail(Errno::EINVAL));
        }
        if self.barriers[place].is_some() {
            return Err(Refusal::Fail(Errno::EBUSY));
        }
        let barrier = OneBarrier::new(self.alloc, n as usize)?;
        self.barriers[place] = Some(barrier);
        Ok(())
    }

    /// Whether a barrier can take one more arrival: fewer than 4,096 wait there, and its round is numbered below 2^62. A barrier
    /// that is not initialised has room, since an arrival there is refused.
    pub fn has_room(&self, b: i64) -> bool
        ensures { result ≡ has_room (barriers_of self.now) b }
    {
        match barrier_at(&self.barriers, b) {
            Some(barrier) => barrier.has_room(),
            None => true,
        }
    }

    /// `pth_barrier_reach`, up to where the thread waits: the last of a round lets it pass. EINVAL where the barrier is not
    /// initialised.
    pub fn arrive(&mut self, b: i64, t: Tid) -> Result<Arrival, Errno>
        requires { has_room (barriers_of self.old) b ≡ true }
        ensures answer { result ≡ arrival_answer (barriers_of self.old) b }
        ensures changes { OnOk result (barriers_of self.new ≡ barrier_reached b t.0 (barriers_of self.old)) }
        ensures refused { OnErr result (self.new ≡ self.old) }
    {
        let barriers = &mut self.barriers;
        let Some(place) = place_of(b) else {
            return Err(Errno::EINVAL);
        };
        match &mut barriers[place] {
            Some(barrier) => Ok(barrier.arrive(t)),
            None => Err(Errno::EINVAL),
        }
    }

    /// Takes the arrival of a thread at a barrier back, as that of a thread that ends while it waits. The answer is the barrier's
    /// number, `None` where no arrival of the thread waits there.
    pub fn withdraw(&mut self, b: i64, t: Tid) -> Option<u8>
        ensures there { is_some result ≡ waits_at (barriers_of self.old) b t.0 }
        ensures number { IfSome result (λ n. n ≡ object_named b) }
        ensures changes { barriers_of self.new ≡ withdrawn b t.0 (barriers_of self.old) }
    {
        let barriers = &mut self.barriers;
        let Some(place) = place_of(b) else {
            return None;
        };
        match &mut barriers[place] {
            Some(barrier) => barrier.withdraw(t).then_some(place as u8),
            None => None,
        }
    }

    /// No arrival waits any more. Which barriers are initialised stays, and so do the numbers of their rounds.
    pub fn withdraw_all(&mut self)
        ensures { barriers_of self.new ≡ all_withdrawn (barriers_of self.old) }
    {
        clear_each(&mut self.barriers);
    }

    /// Whether a round has passed. None has where the barrier is not initialised.
    pub fn passed(&self, b: i64, round: u64) -> bool
        ensures answer { result ≡ has_passed (barriers_of self.now) b round }
        ensures sound { BarriersAreSound (barriers_of self.now) }
    {
        match barrier_at(&self.barriers, b) {
            Some(barrier) => barrier.has_passed(round),
            None => false,
        }
    }

    /// Answers the arrival of a thread whose round has passed: `PTH_BARRIER_HEADLIGHT` (-1) for the first of the round that was not
    /// taken back, and 1 for any other. The arrival waits no more, and those of the round behind it are late. 1 also where the thread
    /// has no arrival there.
    pub fn answer(&mut self, b: i64, round: u64, t: Tid) -> i64
        ensures answer { result ≡ round_answer (barriers_of self.old) b round t.0 }
        ensures changes { barriers_of self.new ≡ round_answered b round t.0 (barriers_of self.old) }
    {
        let barriers = &mut self.barriers;
        let Some(place) = place_of(b) else {
            return BETWEEN;
        };
        match &mut barriers[place] {
            Some(barrier) => barrier.answer(round, t),
            None => BETWEEN,
        }
    }
}

// The barrier that an operand names, if it is initialised.
fn barrier_at(barriers: &[Option<OneBarrier>], b: i64) -> Option<&OneBarrier>
    requires { length barriers.now ≡ object_limit }
    ensures { option_copied result ≡ barriers_of barriers.now (object_named b) }
{
    let place = place_of(b)?;
    barriers[place].as_ref()
}

// No arrival waits at any of them.
fn clear_each(barriers: &mut [Option<OneBarrier>])
    requires { length barriers.old ≡ object_limit }
    ensures long { length barriers.new ≡ object_limit }
    ensures changes { barriers_of barriers.new ≡ all_withdrawn (barriers_of barriers.old) }
{
    for place in 0..barriers.len() {
        if let Some(barrier) = &mut barriers[place] {
            barrier.clear();
        }
    }
}

//! The queues, with the length of each, the rank of each slot, and the waits of the ready threads beside them. That these are
//! read without a walk no clause says.

ghost use Rattle.std.specs.Prelude.{◌≡◌, ◌-◌, ◌<◌, ◌≤◌, ◌≤ℤ◌, ◌++◌, pos, neg_ℤ, max, true, Some, IsSome, IsSomeAnd, OnOk, OnErr, length, replicate};
ghost use Rattle.pth_queue.specs.Arena.{slots_of};
ghost use Rattle.pth_base.specs.Limits.{IsGreatestPriority};
ghost use Rattle.pth_queue.specs.Ranking.{favour_top, increase};
ghost use Rattle.pth_queue.specs.Queues.{rows_of, with_rows, queue_of, IsNowhere, place_of, CanRise};

use crate::mark::Mark;
use crate::waits::{Turn, Waits};
use crate::{dispatching, due, mark};
use pth_base::ids::Slot;
use pth_base::memory::OutOfMemory;
use pth_queue::queue::Queue;
use pth_queue::queue_set::QueueSet;
use std::alloc::{AllocError, Global};
use std::marker::Model;

/// One value for each queue.
#[derive(Drop)]
struct PerQueue<T> {
    new: T,
    ready: T,
    waiting: T,
    suspended: T,
    dead: T,
}

impl<T: Copy> PerQueue<T> {
    ghost use Rattle.pth_tables.specs.Counted.{kept_of, with_kept};

    // That of one queue.
    fn of(&self, q: Queue) -> T
        ensures { result ≡ kept_of q self.now }
    {
        match q {
            Queue::New => self.new,
            Queue::Ready => self.ready,
            Queue::Waiting => self.waiting,
            Queue::Suspended => self.suspended,
            Queue::Dead => self.dead,
        }
    }

    // Sets that of one queue.
    fn set(&mut self, q: Queue, x: T)
        ensures { self.exit.now ≡ with_kept q x self.entry.now }
    {
        match q {
            Queue::New => self.new = x,
            Queue::Ready => self.ready = x,
            Queue::Waiting => self.waiting = x,
            Queue::Suspended => self.suspended = x,
            Queue::Dead => self.dead = x,
        }
    }
}

// Adds heights until there are so many.
fn grow(heights: &mut Vec<i64>, wanted: usize) -> Result<(), AllocError>
    ensures ok { OnOk result (heights.new.items ≡ heights.old.items ++ replicate (wanted - length heights.old.items) (pos 0)) }
    ensures err { OnErr result (heights.new.items ≡ heights.old.items) }
{
    if heights.len() < wanted {
        return heights.resize(wanted, 0);
    }
    Ok(())
}

/// The five queues of threads, which know how many threads stand in each, the rank of each slot, and how long each ready thread
/// waits.
///
/// A rank is the slot's height and the raises of its queue, so a raise changes one number. The height is the rank on entry,
/// less the raises before it. Both wrap at 64 bits, which hold every rank: so their sum is the rank, however often the queue
/// was raised.
pub struct CountedQueues {
    queues: QueueSet,
    lengths: PerQueue<u32>,
    raises: PerQueue<i64>,
    // By slot, for those that stand in a queue.
    heights: Vec<i64>,
    waits: Waits,
    // By dispatch modulo 64: how many of the ready threads come at it to the point after their grace.
    due: [u32; 64],
    // Who came to it last, while the place is known.
    mark: Option<Mark>,
}

impl Model for CountedQueues {
    ghost use Rattle.pth_tables.specs.CountedOf.{KeptQueues};

    ghost Value = { KeptQueues };

    ghost use Rattle.pth_tables.specs.Counted.{AreKeptBeside};

    ghost view = { λ s. record { queues = s.queues; waits = s.waits } };

    ghost invariant = { λ s. AreKeptBeside s.queues s.lengths s.raises s.heights.items s.waits s.due s.mark };
}

// By hand, so that letting one go is one call in each proof.
impl Drop for CountedQueues {
    fn drop(self) {
        let CountedQueues {
            queues: _,
            lengths: _,
            raises: _,
            heights: _,
            waits: _,
            due: _,
            mark: _,
        } = self;
    }
}

impl CountedQueues {
    ghost use Rattle.pth_tables.specs.Waits.{waited_by, allowed_by, TellsTurn};
    ghost use Rattle.pth_tables.specs.CountedOf.{counted, nothing_counted, enters_counted, leaves_counted, takes_counted, MayEnter};

    /// Five empty queues, no dispatch, and no slot that may be used (`pth_pqueue_init`). Base priorities go up to `top`, which is from 5 to 20.
    pub fn new(alloc: Global, top: u8) -> CountedQueues
        requires { IsGreatestPriority top }
        ensures { counted result ≡ nothing_counted top }
    {
        CountedQueues {
            queues: QueueSet::new(alloc, top),
            lengths: PerQueue {
                new: 0,
                ready: 0,
                waiting: 0,
                suspended: 0,
                dead: 0,
            },
            raises: PerQueue {
                new: 0,
                ready: 0,
                waiting: 0,
                suspended: 0,
                dead: 0,
            },
            heights: Vec::new(alloc),
            waits: Waits::new(alloc, top),
            due: due::nobody(),
            mark: None,
        }
    }

    /// Lets the slots below `slots` be used. A refusal changes nothing that can be seen.
    pub fn reserve(&mut self, slots: u32) -> Result<(), OutOfMemory>
        requires { slots ≤ 4096 }
        ensures ok { OnOk result (counted self.new ≡ record (counted self.old) { queues = record self.old.queues { room = max self.old.queues.room slots } }) }
        ensures err { OnErr result (counted self.new ≡ counted self.old) }
    {
        grow(&mut self.heights, slots as usize)?;
        self.waits.reserve(slots)?;
        self.queues.reserve(slots)?;
        Ok(())
    }

    /// Puts a slot behind every one of an equal or greater rank (`pth_pqueue_insert`), at Top as that of a new thread or not. Its
    /// place is found from the nearer end.
    pub fn insert(&mut self, q: Queue, rank: i64, s: Slot, top: bool)
        requires reserved { s.0 < self.old.queues.room }
        requires nowhere { IsNowhere s.0 self.old.queues }
        requires rank { MayEnter q rank }
        ensures { counted self.new ≡ enters_counted q rank s.0 top (counted self.old) }
    {
        let _home = self.queues.queue_of(s);
        let n = self.lengths.of(q);
        self.queues.insert(q, rank, s);
        self.lengths.set(q, n + 1);
        self.heights[s.0 as usize] = rank.wrapping_sub(self.raises.of(q));
        due::enter(q, rank, s, top, &mut self.waits, &mut self.due);
        self.mark = mark::after_entry(self.mark, &self.queues, q, s);
    }

    /// Takes a slot out of the queue in which it stands (`pth_pqueue_delete`). Its thread is not dispatched.
    pub fn delete(&mut self, s: Slot) -> Queue
        requires { IsSome (queue_of s.0 self.old.queues) }
        ensures queue { Some result ≡ queue_of s.0 self.old.queues }
        ensures rows { counted self.new ≡ leaves_counted s.0 (counted self.old) }
    {
        let home = self.queues.queue_of(s);
        self.mark = mark::after_leaving(self.mark, &self.queues, home, s);
        let q = self.queues.delete(s);
        let n = self.lengths.of(q);
        self.lengths.set(q, n - 1);
        due::leave(q, s, &mut self.waits, &mut self.due);
        q
    }

    /// Takes the slot of a thread that is dispatched, by name or not, out of the ready queue, and tells how long it waited. Once
    /// dispatches are counted no more, it tells nothing.
    pub fn dispatch(&mut self, s: Slot, by_name: bool) -> Turn
        requires ready { queue_of s.0 self.old.queues ≡ Some Queue.Ready }
        ensures value { counted self.new ≡ takes_counted s.0 by_name (counted self.old) }
        ensures turn { TellsTurn s.0 (slots_of self.old.queues.ready) (counted self.old).waits result }
        ensures brief { ((counted self.old).waits.waits s.0).grace < 64 }
    {
        let home = self.queues.queue_of(s);
        let n = self.lengths.ready;
        let turn = dispatching::take(
            &self.queues,
            &mut self.waits,
            &mut self.due,
            &mut self.mark,
            n,
            s,
            by_name,
        );
        self.mark = mark::after_leaving(self.mark, &self.queues, home, s);
        let _queue = self.queues.delete(s);
        self.lengths.ready = n - 1;
        turn
    }

    /// Raises every rank in a queue by one (`pth_pqueue_increase`). The head's, and so each, is below 2^40 before.
    pub fn increase(&mut self, q: Queue)
        requires { CanRise (rows_of q self.old.queues) }
        ensures { self.new ≡ record self.old { queues = with_rows q (increase (rows_of q self.old.queues)) self.old.queues } }
    {
        self.queues.increase(q);
        let raises = self.raises.of(q);
        self.raises.set(q, raises.wrapping_add(1));
    }

    /// The queues alone.
    pub fn queues(&self) -> &QueueSet
        ensures { result.now ≡ self.now.queues }
    {
        &self.queues
    }

    /// How many threads stand in a queue, in constant time (`pth_pqueue_elements`).
    pub fn count(&self, q: Queue) -> u32
        ensures { result ≡ length (rows_of q self.now.queues) }
    {
        self.lengths.of(q)
    }

    /// The rank of a slot that stands in a queue, in constant time.
    pub fn rank_of(&self, s: Slot) -> i64
        requires { IsSome (queue_of s.0 self.now.queues) }
        ensures { IsSomeAnd (place_of s.0 self.now.queues) (λ p. result ≡ p.1) }
    {
        let q = self.queues.queue_of(s).unwrap();
        self.heights[s.0 as usize].wrapping_add(self.raises.of(q))
    }

    /// The rank at which a thread enters the ready queue in front of all others (`pth_pqueue_favorite_prio`).
    pub fn favour_top(&self) -> i64
        ensures value { result ≡ favour_top self.now.queues.top self.now.queues.ready }
        ensures low { neg_ℤ (pos 20) ≤ℤ result }
    {
        self.queues.favour_top(Queue::Ready)
    }

    /// The dispatches since the thread of a slot became ready, in constant time.
    pub fn waited(&self, s: Slot) -> u64
        requires { queue_of s.0 self.now.queues ≡ Some Queue.Ready }
        ensures { result ≡ waited_by s.0 (counted self.now).waits }
    {
        let _home = self.queues.queue_of(s);
        self.waits.waited(s)
    }

    /// How many of them there may be at most, in constant time.
    pub fn allowed(&self, s: Slot) -> u64
        requires { queue_of s.0 self.now.queues ≡ Some Queue.Ready }
        ensures value { result ≡ allowed_by s.0 (counted self.now).waits }
        ensures brief { ((counted self.now).waits.waits s.0).grace < 64 }
    {
        let _home = self.queues.queue_of(s);
        self.waits.allowed(s)
    }
}

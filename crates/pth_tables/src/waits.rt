//! How long the ready threads wait.

ghost use Rattle.std.specs.Prelude.{◌≡◌, ◌-◌, ◌%◌, ◌<◌, ◌++◌, true, nat_le, [], length, replicate, OnOk, OnErr};
ghost use Rattle.pth_model.specs.Allowance.{grace};
ghost use Rattle.pth_tables.specs.CountedOf.{IsEntryRank};

use pth_base::ids::Slot;
use pth_base::limits::LAST_COUNT;
use std::alloc::{AllocError, Global};
use std::marker::Model;

/// What is kept for the wait of one ready thread.
#[derive(Clone, Copy)]
pub struct Wait {
    /// The dispatches before it entered.
    pub entered: u64,
    /// So many dispatches of its wait come first.
    pub grace: u64,
    /// From the dispatch after the grace on: with both totals, what may come before it besides.
    pub number: u64,
    /// Whether it entered as a new thread at Top.
    pub top: bool,
}

impl Wait {
    /// What is kept where no thread ever was.
    pub const NONE: Wait = Wait {
        entered: 0,
        grace: 0,
        number: 0,
        top: false,
    };
}

/// The wait that ends with a dispatch, of the thread that is dispatched.
#[derive(Clone, Copy)]
pub struct Turn {
    /// The dispatches of other threads while it was ready.
    pub waited: u64,
    /// How many of them there may be at most.
    pub allowed: u64,
}

// max(0, top + 1 - rank)
#[tactic(auto, unfolding(pth_model::specs::Allowance::grace))]
fn grace_of(top: u8, rank: i64) -> u64
    requires { IsEntryRank rank }
    ensures { result ≡ grace top rank }
{
    let first = top as i64 + 1;
    if rank < first {
        (first - rank) as u64
    } else {
        0
    }
}

/// The counts of dispatches, and by slot what is kept for the waits of the ready threads.
pub struct Waits {
    // The greatest base priority.
    top: u8,
    dispatches: u64,
    // Those by name, modulo 2^64.
    named: u64,
    // The new threads at Top that stood ready at some dispatch, modulo 2^64.
    tops: u64,
    // Those that entered since the last dispatch and are ready, modulo 2^64.
    pending: u64,
    slots: Vec<Wait>,
}

impl Model for Waits {
    ghost use Rattle.pth_tables.specs.Waits.{KeptWaits};

    ghost Value = { KeptWaits };

    ghost view = { λ x. record {
      top = x.top;
      dispatches = x.dispatches;
      named = x.named;
      tops = x.tops;
      pending = x.pending;
      slots = x.slots.items;
    } };
}

// By hand, so that letting one go is one call in each proof.
impl Drop for Waits {
    fn drop(self) {
        let Waits {
            top: _,
            dispatches: _,
            named: _,
            tops: _,
            pending: _,
            slots: _,
        } = self;
    }
}

impl Waits {
    ghost use Rattle.pth_tables.specs.Waits.{waits_of, no_wait, no_waits, enters_ready, leaves_ready, seen_at_top, reached, dispatched, waited_by, is_due, is_counting, allowed_by, allowed_taken, late_by};
    ghost use Rattle.pth_tables.specs.DueTable.{due_of};

    /// No dispatch, and room for no slot. Base priorities go up to `top`.
    pub fn new(alloc: Global, top: u8) -> Waits
        ensures value { waits_of result ≡ no_waits top }
        ensures room { result.slots ≡ [] }
    {
        Waits {
            top,
            dispatches: 0,
            named: 0,
            tops: 0,
            pending: 0,
            slots: Vec::new(alloc),
        }
    }

    /// Makes room for the slots below `slots`. A refusal changes nothing.
    pub fn reserve(&mut self, slots: u32) -> Result<(), AllocError>
        ensures ok { OnOk result (self.new ≡ record self.old { slots = self.old.slots ++ replicate (slots - length self.old.slots) no_wait }) }
        ensures err { OnErr result (self.new ≡ self.old) }
    {
        if self.slots.len() < slots as usize {
            return self.slots.resize(slots as usize, Wait::NONE);
        }
        Ok(())
    }

    /// A thread enters the ready queue, at Top as a new one or not.
    #[tactic(auto, using(pth_base::proofs::Lists::table_set), unfolding(crate::specs::Waits::enters_ready))]
    pub fn enter(&mut self, s: Slot, rank: i64, top: bool)
        requires room { s.0 < length self.old.slots }
        requires rank { IsEntryRank rank }
        ensures value { waits_of self.new ≡ enters_ready s.0 rank top (waits_of self.old) }
        ensures room { length self.new.slots ≡ length self.old.slots }
    {
        self.slots[s.0 as usize] = Wait {
            entered: self.dispatches,
            grace: grace_of(self.top, rank),
            number: 0,
            top,
        };
        if top {
            self.pending = self.pending.wrapping_add(1);
        }
    }

    /// A thread leaves the ready queue without a dispatch.
    #[tactic(auto, unfolding(crate::specs::Waits::leaves_ready))]
    pub fn leave(&mut self, s: Slot)
        requires { s.0 < length self.old.slots }
        ensures value { waits_of self.new ≡ leaves_ready s.0 (waits_of self.old) }
        ensures room { length self.new.slots ≡ length self.old.slots }
    {
        let wait = self.slots[s.0 as usize];
        if wait.top && wait.entered == self.dispatches {
            self.pending = self.pending.wrapping_sub(1);
        }
    }

    /// A dispatch sees the new threads at Top that entered since the last.
    #[tactic(auto, unfolding(crate::specs::Waits::seen_at_top))]
    pub fn see_at_top(&mut self)
        ensures value { waits_of self.new ≡ seen_at_top (waits_of self.old) }
        ensures room { length self.new.slots ≡ length self.old.slots }
    {
        self.tops = self.tops.wrapping_add(self.pending);
        self.pending = 0;
    }

    /// The thread of a slot comes to the point after its grace, with so many before it.
    #[tactic(auto, using(pth_base::proofs::Lists::table_set), unfolding(crate::specs::Waits::reached))]
    pub fn reach(&mut self, s: Slot, place: u32)
        requires { s.0 < length self.old.slots }
        ensures value { waits_of self.new ≡ reached s.0 place (waits_of self.old) }
        ensures room { length self.new.slots ≡ length self.old.slots }
    {
        let both = self.named.wrapping_add(self.tops);
        self.slots[s.0 as usize].number = (place as u64).wrapping_sub(both);
    }

    /// A dispatch is over.
    #[tactic(auto, unfolding(crate::specs::Waits::dispatched))]
    pub fn dispatch(&mut self, by_name: bool)
        requires { is_counting (waits_of self.old) ≡ true }
        ensures value { waits_of self.new ≡ dispatched by_name (waits_of self.old) }
        ensures room { length self.new.slots ≡ length self.old.slots }
    {
        self.dispatches += 1;
        if by_name {
            self.named = self.named.wrapping_add(1);
        }
    }

    /// Whether dispatches are still counted.
    #[inline(always)]
    pub fn is_counting(&self) -> bool
        ensures { result ≡ is_counting (waits_of self.now) }
    {
        self.dispatches < LAST_COUNT
    }

    /// Whether the thread of a slot comes to the point after its grace at the dispatch that follows.
    #[inline(always)]
    pub fn is_due(&self, s: Slot) -> bool
        requires { s.0 < length self.now.slots }
        ensures { result ≡ is_due (waits_of self.now) s.0 }
    {
        self.waited(s) == self.slots[s.0 as usize].grace
    }

    /// Whether it comes to it then, or later.
    #[inline(always)]
    pub fn is_to_come(&self, s: Slot) -> bool
        requires { s.0 < length self.now.slots }
        ensures { result ≡ nat_le (waited_by s.0 (waits_of self.now)) ((waits_of self.now).waits s.0).grace }
    {
        self.waited(s) <= self.slots[s.0 as usize].grace
    }

    /// The dispatch at which it comes to it, modulo 64.
    #[inline(always)]
    pub fn due_cell(&self, s: Slot) -> usize
        requires { s.0 < length self.now.slots }
        ensures { result ≡ due_of (waits_of self.now).waits s.0 % 64 }
    {
        let wait = self.slots[s.0 as usize];
        ((wait.entered % 64 + wait.grace % 64) % 64) as usize
    }

    /// The dispatch that follows, modulo 64.
    #[inline(always)]
    pub fn now_cell(&self) -> usize
        ensures { result ≡ self.now.dispatches % 64 }
    {
        (self.dispatches % 64) as usize
    }

    /// The dispatches since the thread of a slot entered, in constant time.
    #[inline(always)]
    pub fn waited(&self, s: Slot) -> u64
        requires { s.0 < length self.now.slots }
        ensures { result ≡ waited_by s.0 (waits_of self.now) }
    {
        self.dispatches
            .saturating_sub(self.slots[s.0 as usize].entered)
    }

    /// How many dispatches the thread of a slot may wait so far, in constant time.
    pub fn allowed(&self, s: Slot) -> u64
        requires { s.0 < length self.now.slots }
        ensures { result ≡ allowed_by s.0 (waits_of self.now) }
    {
        let grace = self.slots[s.0 as usize].grace;
        if self.waited(s) <= grace {
            grace
        } else {
            self.late(s)
        }
    }

    /// The wait of the thread of a slot that is dispatched now, before this dispatch is over.
    pub fn turn(&self, s: Slot) -> Turn
        requires { s.0 < length self.now.slots }
        ensures waited { result.waited ≡ waited_by s.0 (waits_of self.now) }
        ensures allowed { result.allowed ≡ allowed_taken s.0 (waits_of self.now) }
    {
        let grace = self.slots[s.0 as usize].grace;
        let waited = self.waited(s);
        let allowed = if waited < grace { grace } else { self.late(s) };
        Turn { waited, allowed }
    }

    // The grace, the number and both totals.
    #[inline(always)]
    fn late(&self, s: Slot) -> u64
        requires { s.0 < length self.now.slots }
        ensures { result ≡ late_by s.0 (waits_of self.now) }
    {
        let wait = self.slots[s.0 as usize];
        wait.grace.wrapping_add(wait.number.wrapping_add(self.named.wrapping_add(self.tops)))
    }
}

//! How many of the ready threads come to the point after their grace, by dispatch, for the next 64 dispatches.
//!
//! A grace is at most 41, so each ready thread that is still to come to it is told by the cell of its dispatch, modulo 64.

ghost use Rattle.std.specs.Prelude.{◌≡◌, ◌<◌, length, replicate};
ghost use Rattle.pth_tables.specs.CountedOf.{IsEntryRank, waits_with, waits_without};
ghost use Rattle.pth_tables.specs.DueTable.{cell, more_at, none_at, left_due, due_of, due_with, due_without};
ghost use Rattle.pth_tables.specs.Waits.{waits_of};

use crate::waits::Waits;
use pth_base::ids::Slot;
use pth_queue::queue::Queue;

/// Nobody is waited for.
pub fn nobody() -> [u32; 64]
    ensures { result ≡ replicate 64 0 }
{
    [0; 64]
}

/// A thread enters a queue.
pub fn enter(q: Queue, rank: i64, s: Slot, top: bool, waits: &mut Waits, due: &mut [u32; 64])
    requires room { s.0 < length waits.old.slots }
    requires rank { q ≡ Queue.Ready → IsEntryRank rank }
    ensures value { waits_of waits.new ≡ waits_with q s.0 rank top (waits_of waits.old) }
    ensures room { length waits.new.slots ≡ length waits.old.slots }
    ensures due { due.new ≡ due_with q s.0 (waits_of waits.new) due.old }
{
    match q {
        Queue::Ready => {
            waits.enter(s, rank, top);
            remember(due, waits, s);
        }
        Queue::New | Queue::Waiting | Queue::Suspended | Queue::Dead => {}
    }
}

/// A thread leaves its queue, and is not dispatched.
pub fn leave(q: Queue, s: Slot, waits: &mut Waits, due: &mut [u32; 64])
    requires { s.0 < length waits.old.slots }
    ensures value { waits_of waits.new ≡ waits_without (Some q) s.0 (waits_of waits.old) }
    ensures room { length waits.new.slots ≡ length waits.old.slots }
    ensures due { due.new ≡ due_without q s.0 (waits_of waits.old) due.old }
{
    match q {
        Queue::Ready => {
            forget(due, waits, s);
            waits.leave(s);
        }
        Queue::New | Queue::Waiting | Queue::Suspended | Queue::Dead => {}
    }
}

// One more at the dispatch at which the thread of a slot comes to the point after its grace.
fn remember(due: &mut [u32; 64], waits: &Waits, s: Slot)
    requires { s.0 < length waits.now.slots }
    ensures { due.new ≡ more_at (due_of (waits_of waits.now).waits s.0) due.old }
{
    let at = waits.due_cell(s);
    due[at] = due[at].wrapping_add(1);
}

/// One less there, where it is still to come.
pub fn forget(due: &mut [u32; 64], waits: &Waits, s: Slot)
    requires { s.0 < length waits.now.slots }
    ensures { due.new ≡ left_due s.0 (waits_of waits.now) due.old }
{
    if waits.is_to_come(s) {
        let at = waits.due_cell(s);
        due[at] = due[at].saturating_sub(1);
    }
}

/// How many come to it at the dispatch that follows.
#[inline(always)]
pub fn due_now(due: &[u32; 64], waits: &Waits) -> u32
    ensures { result ≡ cell due.now waits.now.dispatches }
{
    due[waits.now_cell()]
}

/// None is left for that dispatch: its cell is free for the one that is 64 later.
#[inline(always)]
pub fn clear(due: &mut [u32; 64], waits: &Waits)
    ensures { due.new ≡ none_at waits.now.dispatches due.old }
{
    due[waits.now_cell()] = 0;
}

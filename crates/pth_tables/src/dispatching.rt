//! What a dispatch makes of the waits of the ready threads.

ghost use Rattle.std.specs.Prelude.{◌≡◌, ◌+◌, ◌-◌, ◌<◌, ◌≤◌, Some, IfSome, true, false, length};
ghost use Rattle.pth_queue.specs.Arena.{slots_of};
ghost use Rattle.pth_queue.specs.Queues.{queue_of, IsOrderly};
ghost use Rattle.pth_queue.specs.Ranking.{delete};
ghost use Rattle.pth_tables.specs.DueTable.{dues, one_if, IsTable};
ghost use Rattle.pth_tables.specs.Marks.{IsMarked, Reaches, StandsAt, up_to};
ghost use Rattle.pth_tables.specs.Waits.{waits_of, is_due, reached_if, reached_all, met, takes_ready, TellsTurn};

use crate::due::{clear, due_now, forget};
use crate::mark::Mark;
use crate::waits::{Turn, Waits};
use pth_base::ids::Slot;
use pth_queue::queue::Queue;
use pth_queue::queue_set::QueueSet;

// The head, if its thread is due.
fn due_head(queues: &QueueSet, waits: &Waits) -> Option<Mark>
    requires orderly { IsOrderly queues.now }
    requires room { queues.now.room ≤ length waits.now.slots }
    ensures at { IfSome result (StandsAt (slots_of queues.now.ready)) }
    ensures first { IfSome result (λ m. m.place ≡ 0) }
    ensures due { IfSome result (λ m. is_due (waits_of waits.now) m.slot.0 ≡ true) }
{
    let slot = queues.head(Queue::Ready)?;
    if waits.is_due(slot) {
        Some(Mark { slot, place: 0 })
    } else {
        None
    }
}

// The slot behind one, if its thread is due.
fn due_behind(queues: &QueueSet, waits: &Waits, at: Mark) -> Option<Mark>
    requires orderly { IsOrderly queues.now }
    requires room { queues.now.room ≤ length waits.now.slots }
    requires at { StandsAt (slots_of queues.now.ready) at }
    ensures at { IfSome result (StandsAt (slots_of queues.now.ready)) }
    ensures next { IfSome result (λ m. m.place ≡ at.place + 1) }
    ensures due { IfSome result (λ m. is_due (waits_of waits.now) m.slot.0 ≡ true) }
{
    let slot = queues.after(at.slot)?;
    if waits.is_due(slot) {
        Some(Mark {
            slot,
            place: at.place + 1,
        })
    } else {
        None
    }
}

// The last of those that are due in front of all that are not, of whom new threads at Top are: the first `due` are looked at.
fn due_in_front(queues: &QueueSet, waits: &Waits, due: u32) -> Option<Mark>
    requires orderly { IsOrderly queues.now }
    requires room { queues.now.room ≤ length waits.now.slots }
    requires some { 0 < due }
    ensures at { IfSome result (StandsAt (slots_of queues.now.ready)) }
    ensures due { IfSome result (λ m. dues (waits_of waits.now) (up_to m.place (slots_of queues.now.ready)) ≡ m.place + 1) }
    ensures few { IfSome result (λ m. m.place < due) }
{
    let mut last = due_head(queues, waits)?;
    while last.place + 1 < due {
        match due_behind(queues, waits, last) {
            Some(next) => last = next,
            None => return Some(last),
        }
    }
    Some(last)
}

// The thread at a place gets its number, if it is due. So many are left of those that are looked for.
#[inline(always)]
fn settle(waits: &mut Waits, at: Mark, left: u32) -> u32
    requires room { at.slot.0 < length waits.old.slots }
    requires some { 0 < left }
    ensures value { waits_of waits.new ≡ reached_if at.slot.0 at.place (waits_of waits.old) }
    ensures left { result ≡ left - one_if (is_due (waits_of waits.old) at.slot.0) }
    ensures room { length waits.new.slots ≡ length waits.old.slots }
{
    if waits.is_due(at.slot) {
        waits.reach(at.slot, at.place);
        left - 1
    } else {
        left
    }
}

// From a place on towards the head, each thread that is due gets its number, until there were so many. The last of them is told.
fn walk(queues: &QueueSet, waits: &mut Waits, from: Mark, due: u32) -> Mark
    requires orderly { IsOrderly queues.now }
    requires room { queues.now.room ≤ length waits.old.slots }
    requires from { StandsAt (slots_of queues.now.ready) from }
    requires some { 0 < due }
    requires told { due ≤ dues (waits_of waits.old) (up_to from.place (slots_of queues.now.ready)) }
    ensures at { StandsAt (slots_of queues.now.ready) result }
    ensures value { Reaches (up_to from.place (slots_of queues.now.ready)) result.place due (waits_of waits.old) (waits_of waits.new) }
    ensures room { length waits.new.slots ≡ length waits.old.slots }
{
    let mut at = from;
    let mut left = due;
    'places: loop {
        left = settle(waits, at, left);
        if left == 0 {
            return at;
        }
        at = Mark {
            slot: queues.before(at.slot),
            place: at.place - 1,
        };
    }
}

// The same from the tail on.
fn walk_from_tail(queues: &QueueSet, waits: &mut Waits, count: u32, due: u32) -> Mark
    requires orderly { IsOrderly queues.now }
    requires counted { count ≡ length queues.now.ready }
    requires room { queues.now.room ≤ length waits.old.slots }
    requires some { 0 < due }
    requires told { due ≤ dues (waits_of waits.old) (slots_of queues.now.ready) }
    ensures at { StandsAt (slots_of queues.now.ready) result }
    ensures value { Reaches (slots_of queues.now.ready) result.place due (waits_of waits.old) (waits_of waits.new) }
    ensures room { length waits.new.slots ≡ length waits.old.slots }
{
    let slot = queues.tail(Queue::Ready).unwrap();
    let tail = Mark {
        slot,
        place: count - 1,
    };
    walk(queues, waits, tail, due)
}

// All that are due get their numbers: those in front from the head on, and the others from the tail on, near which they stand.
#[inline(never)]
fn meet_all(queues: &QueueSet, waits: &mut Waits, mark: &mut Option<Mark>, count: u32, due: u32)
    requires orderly { IsOrderly queues.now }
    requires counted { count ≡ length queues.now.ready }
    requires room { queues.now.room ≤ length waits.old.slots }
    requires marked { IsMarked (slots_of queues.now.ready) mark.old }
    requires some { 0 < due }
    requires told { due ≡ dues (waits_of waits.old) (slots_of queues.now.ready) }
    ensures value { waits_of waits.new ≡ reached_all 0 (slots_of queues.now.ready) (waits_of waits.old) }
    ensures marked { IsMarked (slots_of queues.now.ready) mark.new }
    ensures room { length waits.new.slots ≡ length waits.old.slots }
{
    match due_in_front(queues, waits, due) {
        Some(last) => {
            let front = last.place + 1;
            if front < due {
                *mark = Some(walk_from_tail(queues, waits, count, due - front));
            }
            let _head = walk(queues, waits, last, front);
        }
        None => *mark = Some(walk_from_tail(queues, waits, count, due)),
    }
}

// The only thread that is due gets its number, if it stands behind the mark, and is marked then.
fn meet_next(queues: &QueueSet, waits: &mut Waits, mark: &mut Option<Mark>, due: u32) -> bool
    requires orderly { IsOrderly queues.now }
    requires room { queues.now.room ≤ length waits.old.slots }
    requires marked { IsMarked (slots_of queues.now.ready) mark.old }
    requires told { due ≡ dues (waits_of waits.old) (slots_of queues.now.ready) }
    ensures met { result ≡ true → waits_of waits.new ≡ reached_all 0 (slots_of queues.now.ready) (waits_of waits.old) }
    ensures not_met { result ≡ false → waits.new ≡ waits.old }
    ensures marked { IsMarked (slots_of queues.now.ready) mark.new }
    ensures room { length waits.new.slots ≡ length waits.old.slots }
{
    if due != 1 {
        return false;
    }
    let Some(at) = *mark else {
        return false;
    };
    let Some(next) = due_behind(queues, waits, at) else {
        return false;
    };
    waits.reach(next.slot, next.place);
    *mark = Some(next);
    true
}

// The waits as a dispatch finds them: it sees the new threads at Top, and so many are due.
fn meet(queues: &QueueSet, waits: &mut Waits, mark: &mut Option<Mark>, count: u32, due: u32)
    requires orderly { IsOrderly queues.now }
    requires counted { count ≡ length queues.now.ready }
    requires room { queues.now.room ≤ length waits.old.slots }
    requires marked { IsMarked (slots_of queues.now.ready) mark.old }
    requires told { due ≡ dues (waits_of waits.old) (slots_of queues.now.ready) }
    ensures value { waits_of waits.new ≡ met (slots_of queues.now.ready) (waits_of waits.old) }
    ensures marked { IsMarked (slots_of queues.now.ready) mark.new }
    ensures room { length waits.new.slots ≡ length waits.old.slots }
{
    waits.see_at_top();
    if due == 0 {
        return;
    }
    if !meet_next(queues, waits, mark, due) {
        meet_all(queues, waits, mark, count, due);
    }
}

/// A dispatch of the thread of a slot, by name or not, before it leaves the ready queue. No more dispatches are counted after
/// `LAST_COUNT`: the answer is 0 and 0 from then on.
pub fn take(
    queues: &QueueSet,
    waits: &mut Waits,
    due: &mut [u32; 64],
    mark: &mut Option<Mark>,
    count: u32,
    s: Slot,
    by_name: bool,
) -> Turn
    requires orderly { IsOrderly queues.now }
    requires ready { queue_of s.0 queues.now ≡ Some Queue.Ready }
    requires counted { count ≡ length queues.now.ready }
    requires room { queues.now.room ≤ length waits.old.slots }
    requires table { IsTable (slots_of queues.now.ready) waits.old.dispatches (waits_of waits.old).waits due.old }
    requires marked { IsMarked (slots_of queues.now.ready) mark.old }
    ensures value { waits_of waits.new ≡ takes_ready by_name (slots_of queues.now.ready) (waits_of waits.old) }
    ensures room { length waits.new.slots ≡ length waits.old.slots }
    ensures table { IsTable (slots_of (delete s.0 queues.now.ready)) waits.new.dispatches (waits_of waits.new).waits due.new }
    ensures marked { IsMarked (slots_of queues.now.ready) mark.new }
    ensures turn { TellsTurn s.0 (slots_of queues.now.ready) (waits_of waits.old) result }
{
    let left = due_now(due, waits);
    forget(due, waits, s);
    if !waits.is_counting() {
        return Turn {
            waited: 0,
            allowed: 0,
        };
    }
    meet(queues, waits, mark, count, left);
    clear(due, waits);
    let turn = waits.turn(s);
    waits.dispatch(by_name);
    turn
}

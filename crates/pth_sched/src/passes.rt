//! Passes over the waiting threads.

ghost use Rattle.std.specs.Prelude.{◌≡◌, ◌≢◌, ◌<◌, ℕ, true, false, pos, neg_ℤ, ◌+ℤ◌, ◌≤ℤ◌, [], length, map, Some, OnOk, OnErr};
ghost use Rattle.pth_threads.specs.Threads.{number_of};
ghost use Rattle.pth_model.specs.Changes.{entry_of, prio_of};
ghost use Rattle.pth_model.specs.Pass.{pass, to_wake, woken, all_woken};
ghost use Rattle.pth_model.specs.State.{Control, State, now_of};
ghost use Rattle.pth_world.specs.Leading.{LedTo};
ghost use Rattle.pth_world.specs.Ranks.{greatest_return};
ghost use Rattle.pth_world.specs.Shows.{Shows, StandsFor};
ghost use Rattle.pth_world.specs.Sound.{IsKnown};
ghost use Rattle.pth_world.specs.WellFormed.{WellFormed};
ghost use Rattle.pth_end.specs.Whole.{Whole};
ghost use Rattle.pth_waits.specs.Dormant.{IsDormant, after_now};
ghost use Rattle.pth_sched.specs.Quiescence.{AreDormant, IsKnownQuiescent, IsKnownQuiescentBut, is_among_waiting};
ghost use Rattle.pth_sched.specs.Passing.{IsWaiting, OnlyWakes, WaitOnce};

use crate::pass_room::PassRoom;
use crate::quiescence::Quiescence;
use pth_base::ids::{MAIN, Micros, Tid};
use pth_base::mark::Mark;
use pth_base::marks::Marks;
use pth_base::memory::OutOfMemory;
use pth_base::program::Program;
use pth_base::thread::ThreadState;
use pth_threads::entry::Entry;
use pth_waits::dormant::{dormant_until, never};
use pth_world::world::World;

// The rank at which a woken thread is ready: one above its base priority.
fn woken_rank<P: Program>(w: &World<P>, t: Tid) -> i64
    requires whole { WellFormed w.now }
    requires known { IsKnown w.now.threads t.0 }
    ensures rank { (k : Control P P.State P.Shared) → Shows w.now k → result ≡ prio_of k t.0 +ℤ pos 1 }
    ensures low { neg_ℤ (pos 20) ≤ℤ result }
    ensures high { result ≤ℤ pos greatest_return }
{
    match w.entry(t) {
        Some(entry) => entry.prio + 1,
        None => unreachable!(),
    }
}

// A waiting thread is ready.
fn wake<P: Program>(w: &mut World<P>, t: Tid, marks: &mut Marks) -> Result<(), OutOfMemory>
    requires whole { WellFormed w.old }
    requires waits { IsWaiting w.old t.0 }
    ensures goes { LedTo (StandsFor w.old) (woken t.0) w.new marks.old marks.new result }
    ensures only_wakes { OnlyWakes w.old w.new }
    ensures others { (u : ℕ) → u ≢ t.0 → IsWaiting w.old u → IsWaiting w.new u }
{
    let rank = woken_rank(w, t);
    w.make_ready(t, rank, false);
    marks.push(Mark::Woke { tid: t, rank })
}

// These threads, which wait, are woken in this order.
fn wake_all<P: Program>(
    w: &mut World<P>,
    list: &[Tid],
    marks: &mut Marks,
) -> Result<(), OutOfMemory>
    requires whole { WellFormed w.old }
    requires wait { WaitOnce w.old (map number_of list.now) }
    ensures goes { LedTo (StandsFor w.old) (all_woken (map number_of list.now)) w.new marks.old marks.new result }
    ensures only_wakes { OnOk result (OnlyWakes w.old w.new) }
    ensures wanted { OnErr result (0 < length list.now) }
{
    for t in list {
        wake(w, *t, marks)?;
    }
    Ok(())
}

/// A pass over the waiting threads: the events for which they wait are looked at, and which threads wake is told by the state as it
/// begins. `room` is where they are kept meanwhile. Memory is wanted only if a thread wakes.
pub fn pass<P: Program>(
    w: &mut World<P>,
    room: &mut PassRoom,
    marks: &mut Marks,
) -> Result<(), OutOfMemory>
    requires whole { WellFormed w.old }
    ensures goes { LedTo (StandsFor w.old) (pass P.functions) w.new marks.old marks.new result }
    ensures only_wakes { OnOk result (OnlyWakes w.old w.new) }
    ensures keeps { OnOk result (Whole w.old → Whole w.new) }
    ensures wanted { OnErr result ((s : State P P.State P.Shared) → StandsFor w.old s → to_wake P.functions s ≢ []) }
{
    room.go_over(w);
    wake_all(w, room.waking(), marks)
}

// Whether a thread waits, and is not suspended.
fn is_waiting(entry: &Entry) -> bool
    ensures { result ≡ is_among_waiting (Some entry.now) }
{
    match entry.state {
        ThreadState::Waiting => !entry.suspended,
        _ => false,
    }
}

// Before this moment a thread, if it waits, is not to wake, if nothing changes but time.
fn own_dormant_until<P: Program>(w: &World<P>, t: Tid) -> Micros
    requires whole { WellFormed w.now }
    ensures dormant { (s : State P P.State P.Shared) → StandsFor w.now s → 0 < result → is_among_waiting (entry_of s.control t.0) ≡ true → IsDormant s result t.0 }
    ensures later { (s : State P P.State P.Shared) → StandsFor w.now s → IsDormant s (after_now s.control) t.0 → now_of s.control < result }
{
    match w.threads().find(t) {
        Some(slot) => {
            if !is_waiting(w.entry_at(slot)) {
                return never(w);
            }
            dormant_until(w, slot)
        }
        None => never(w),
    }
}

// Until when no thread that waits is to wake, as far as it is known once thread t has given up control: of the others by what was
// known, and else, unless `dirty`, by a look at all.
fn known_until<P: Program>(
    w: &World<P>,
    room: &mut PassRoom,
    quiescence: Quiescence,
    t: Tid,
) -> Micros
    requires whole { WellFormed w.now }
    requires quiescence { IsKnownQuiescentBut t.0 w.now quiescence.until }
    ensures dormant { (s : State P P.State P.Shared) → StandsFor w.now s → 0 < result → AreDormant s result }
    ensures asked { (s : State P P.State P.Shared) → StandsFor w.now s → quiescence.until ≡ 0 → quiescence.dirty ≡ false → AreDormant s (after_now s.control) → now_of s.control < result }
    ensures later { (s : State P P.State P.Shared) → StandsFor w.now s → now_of s.control < quiescence.until → IsDormant s (after_now s.control) t.0 → now_of s.control < result }
    ensures same { room.new ≡ room.old }
{
    if quiescence.until == 0 {
        return if quiescence.dirty {
            0
        } else {
            room.dormant_until(w)
        };
    }
    quiescence.until.min(own_dormant_until(w, t))
}

/// A pass at the end of the turn of thread t. If it is known that no thread is to wake, no thread is scanned. If the search for such a
/// moment was in vain, the end of the next turn does not search.
pub fn pass_unless_quiescent<P: Program>(
    w: &mut World<P>,
    room: &mut PassRoom,
    quiescence: &mut Quiescence,
    t: Tid,
    marks: &mut Marks,
) -> Result<(), OutOfMemory>
    requires whole { WellFormed w.old }
    requires quiescence { IsKnownQuiescentBut t.0 w.old quiescence.old.until }
    ensures goes { LedTo (StandsFor w.old) (pass P.functions) w.new marks.old marks.new result }
    ensures only_wakes { OnOk result (OnlyWakes w.old w.new) }
    ensures quiescence { IsKnownQuiescent w.new quiescence.new.until }
{
    let until = known_until(w, room, *quiescence, t);
    if w.time() < until && !w.is_alone(Tid(MAIN)) {
        *quiescence = Quiescence {
            until,
            dirty: false,
        };
        return Ok(());
    }
    *quiescence = Quiescence {
        until: 0,
        dirty: quiescence.until == 0 && !quiescence.dirty,
    };
    pass(w, room, marks)
}

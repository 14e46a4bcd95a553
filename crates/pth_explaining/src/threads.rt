//! The last mark about each thread, and who lives.

ghost use Rattle.std.specs.Prelude.{◌≡◌, ◌++◌, IfOk, OnOk, slice_get};
ghost use Rattle.std.specs.List.{cons_option};
ghost use Rattle.std.specs.Option.{option_to_list};
ghost use Rattle.pth_laws.specs.Marks.{thread_of};
ghost use Rattle.pth_explaining.specs.Threads.{alive_by, living_in, places_after, places_of, spawned_by, with_place};

use crate::clock::Clock;
use pth_base::answer::Answer;
use pth_base::call::Call;
use pth_base::mark::Mark;
use pth_base::memory::OutOfMemory;
use std::alloc::Global;
use std::collections::BTreeMap;

/// Where a mark stands, counted from 0, and the turn and the moment of it.
#[derive(Clone, Copy)]
pub(crate) struct Place {
    pub(crate) index: usize,
    pub(crate) clock: Clock,
}

/// The place of the last mark about each thread.
pub(crate) type Places = BTreeMap<u64, Place>;

// The thread of a mark.
fn thread_of(mark: &Mark) -> Option<u64>
    ensures { result ≡ thread_of mark.now }
{
    match mark {
        Mark::Dispatch { tid, .. }
        | Mark::Answered { tid, .. }
        | Mark::Waits { tid, .. }
        | Mark::Retakes { tid, .. }
        | Mark::Canceled { tid, .. }
        | Mark::Took { tid, .. }
        | Mark::Withdrew { tid, .. }
        | Mark::Handler { tid, .. }
        | Mark::Destructor { tid, .. }
        | Mark::Acted { tid, .. }
        | Mark::GaveMutex { tid, .. }
        | Mark::GaveLock { tid, .. }
        | Mark::Ended { tid, .. }
        | Mark::Noted { tid, .. }
        | Mark::Woke { tid, .. } => Some(u64::from(tid.0)),
        Mark::Moved { .. } => None,
    }
}

// The thread that a mark spawns.
fn spawned_by(mark: &Mark) -> Option<u64>
    ensures { result ≡ spawned_by mark.now }
{
    match mark {
        Mark::Answered {
            call: Call::Spawn { .. },
            answer: Answer::Int(n),
            ..
        } => u64::try_from(*n).ok(),
        _ => None,
    }
}

// A place about a thread, if there is one.
fn add_place(places: &mut Places, place: Place, thread: Option<u64>) -> Result<(), OutOfMemory>
    ensures { OnOk result (places.new.entries ≡ with_place place thread places.old.entries) }
{
    if let Some(t) = thread {
        let _earlier = places.insert(t, place)?;
    }
    Ok(())
}

// After a mark.
fn add_places(places: &mut Places, place: Place, mark: &Mark) -> Result<(), OutOfMemory>
    ensures { OnOk result (places.new.entries ≡ places_after place mark.now places.old.entries) }
{
    add_place(places, place, spawned_by(mark))?;
    add_place(places, place, thread_of(mark))
}

/// The place of the last mark about each thread.
pub(crate) fn places_of(alloc: Global, marks: &[Mark]) -> Result<Places, OutOfMemory>
    ensures { IfOk result (λ places. places.entries ≡ places_of marks.now) }
{
    let mut places = BTreeMap::new(alloc);
    let mut clock = Clock::start();
    for (index, mark) in marks.iter().enumerate() {
        clock = clock.after(mark);
        add_places(&mut places, Place { index, clock }, mark)?;
    }
    Ok(places)
}

// A thread, unless the last mark about it is its end.
fn alive_by(t: u64, marks: &[Mark], index: usize) -> Option<u64>
    ensures { result ≡ alive_by t (slice_get marks.now index) }
{
    match marks.get(index) {
        Some(Mark::Ended { .. }) => None,
        _ => Some(t),
    }
}

// A thread more, if there is one.
fn push_thread(threads: &mut Vec<u64>, thread: Option<u64>) -> Result<(), OutOfMemory>
    ensures { OnOk result (threads.new.items ≡ threads.old.items ++ option_to_list thread) }
{
    if let Some(t) = thread {
        threads.push(t)?;
    }
    Ok(())
}

/// The threads that live, by rising number.
pub(crate) fn living(
    alloc: Global,
    marks: &[Mark],
    places: &Places,
) -> Result<Vec<u64>, OutOfMemory>
    ensures { IfOk result (λ threads. threads.items ≡ living_in marks.now places.now.entries) }
{
    let mut threads = Vec::new(alloc);
    for (t, place) in places {
        push_thread(&mut threads, alive_by(*t, marks, place.index))?;
    }
    Ok(threads)
}

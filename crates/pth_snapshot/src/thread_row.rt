//! The lines of threads.

ghost use Rattle.std.specs.Prelude.{◌≡◌, ◌≤◌, ◌+◌, ◌*◌, ◌++◌, length, IfOk, Some, pos};
ghost use Rattle.pth_base.specs.Limits.{thread_limit};
ghost use Rattle.pth_threads.specs.Attributes.{state_number};
ghost use Rattle.pth_model.specs.State.{State};
ghost use Rattle.pth_world.specs.Placed.{place};
ghost use Rattle.pth_world.specs.Shows.{StandsFor};
ghost use Rattle.pth_world.specs.Sound.{IsSound};
ghost use Rattle.pth_snapshot.specs.Dump.{numbers, stand, thread_numbers, thread_row, thread_rows, value_of};

use crate::number::{Number, add_numbers};
use pth_base::ids::Tid;
use pth_base::memory::OutOfMemory;
use pth_base::program::Program;
use pth_base::thread::ThreadState;
use pth_queue::queue::Queue;
use pth_text::text::Text;
use pth_threads::entry::Entry;
use pth_world::world::World;
use std::alloc::Global;

// The rank of a thread that is new, ready or waiting, and how many stand before it.
fn stand(place: Option<(Queue, i64, u32)>) -> (i64, u32)
    ensures { (result.0, pos result.1) ≡ stand place }
{
    match place {
        Some((Queue::New | Queue::Ready | Queue::Waiting, rank, before)) => (rank, before),
        _ => (0, 0),
    }
}

fn state_number(state: ThreadState) -> u64
    ensures { pos result ≡ state_number state }
{
    match state {
        ThreadState::New => 0,
        ThreadState::Ready => 1,
        ThreadState::Running => 2,
        ThreadState::Waiting => 3,
        ThreadState::Dead => 4,
    }
}

// What a thread ended with, if it is dead.
fn value_of(entry: &Entry) -> i64
    ensures { result ≡ value_of entry.now }
{
    match entry.state {
        ThreadState::Dead => entry.value,
        _ => 0,
    }
}

// Adds the numbers of a thread.
fn add_thread_numbers(
    entry: &Entry,
    rank: i64,
    before: u32,
    out: &mut Text,
) -> Result<(), OutOfMemory>
    ensures { IfOk result (λ _. out.new ≡ out.old ++ numbers (thread_numbers entry.now.tid.0 entry.now (rank, pos before))) }
{
    add_numbers(
        &[
            Number::Natural(u64::from(entry.tid.0)),
            Number::Natural(state_number(entry.state)),
            Number::Signed(rank),
            Number::Natural(u64::from(before)),
            Number::Signed(entry.prio),
            Number::flag(entry.joinable),
            Number::Natural(u64::from(entry.cancel)),
            Number::flag(entry.request),
            Number::flag(entry.suspended),
            Number::Natural(entry.dispatches),
            Number::Signed(value_of(entry)),
        ],
        out,
    )
}

// Adds the line of a thread with this record and this place.
fn add_entry(
    entry: &Entry,
    place: Option<(Queue, i64, u32)>,
    out: &mut Text,
) -> Result<(), OutOfMemory>
    ensures row { IfOk result (λ _. out.new ≡ out.old ++ thread_row entry.now.tid.0 (Some entry.now) place) }
    ensures short { IfOk result (λ _. length entry.now.name ≤ 40) }
{
    let (rank, before) = stand(place);
    out.push(b"thread")?;
    add_thread_numbers(entry, rank, before, out)?;
    out.push(b" ")?;
    out.push(entry.name.as_str().as_bytes())?;
    out.push(b"\n")
}

// Adds the line of a thread, if it is in the system.
fn add_thread<P: Program>(w: &World<P>, t: Tid, out: &mut Text) -> Result<(), OutOfMemory>
    requires { IsSound w.now.threads }
    ensures row { IfOk result (λ _. (s : State P P.State P.Shared) → StandsFor w.now s
        → out.new ≡ out.old ++ thread_row t.0 (s.control.threads.known t.0) (place s.control t.0)) }
    ensures few { IfOk result (λ _. length out.new ≤ length out.old + 800) }
{
    match w.entry(t) {
        Some(entry) => add_entry(entry, w.place(t), out),
        None => Ok(()),
    }
}

/// Adds the lines of the threads in the system: at most 4,096, of at most 800 bytes each.
pub fn add_threads<P: Program>(
    w: &World<P>,
    alloc: Global,
    out: &mut Text,
) -> Result<(), OutOfMemory>
    requires { IsSound w.now.threads }
    ensures rows { IfOk result (λ _. (s : State P P.State P.Shared) → StandsFor w.now s
        → out.new ≡ out.old ++ thread_rows s.control) }
    ensures few { IfOk result (λ _. length out.new ≤ length out.old + 800 * thread_limit) }
{
    let tids = w.threads().tids(alloc)?;
    for t in &tids {
        add_thread(w, *t, out)?;
    }
    Ok(())
}

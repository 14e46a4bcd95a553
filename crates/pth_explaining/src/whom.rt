//! What is said of a wait.

ghost use Rattle.std.specs.Prelude.{◌≡◌, ◌++◌, IfOk, OnOk, codes};
ghost use Rattle.pth_explaining.specs.Holders.{holders};
ghost use Rattle.pth_explaining.specs.Whom.{are_beside, cause_text, lockers_text, named_text, number_text, others, owners_text, readers_text};
ghost use Rattle.pth_explaining.specs.Whom.{ring_text, threads_text, waiters, whom_text};

use crate::cause::{Cause, number_in, words_of};
use crate::holders::{Hold, holders};
use crate::piece::Piece::{Natural, Number, Plain};
use crate::piece::add_pieces;
use crate::waits::Wait;
use pth_base::mark::Mark;
use pth_base::memory::OutOfMemory;
use pth_text::text::Text;
use std::alloc::Global;

/// Adds threads, each after a space.
pub(crate) fn add_threads(threads: &[u64], out: &mut Text) -> Result<(), OutOfMemory>
    ensures { OnOk result (out.new ≡ out.old ++ threads_text threads.now) }
{
    for t in threads {
        add_pieces(&[Plain(b" t"), Natural(*t)], out)?;
    }
    Ok(())
}

// Adds words, and threads behind them, if there are any.
fn add_named(words: &[u8], threads: &[u64], out: &mut Text) -> Result<(), OutOfMemory>
    ensures { OnOk result (out.new ≡ out.old ++ named_text words.now threads.now) }
{
    if threads.is_empty() {
        return Ok(());
    }
    out.push(words)?;
    add_threads(threads, out)
}

// Adds who has a mutex.
fn add_owners(owners: &[u64], out: &mut Text) -> Result<(), OutOfMemory>
    ensures { OnOk result (out.new ≡ out.old ++ owners_text owners.now) }
{
    if owners.is_empty() {
        return out.push(b", which no thread holds");
    }
    add_named(b", held by", owners, out)
}

// Adds who reads under a lock that nobody writes.
fn add_readers(readers: &[u64], out: &mut Text) -> Result<(), OutOfMemory>
    ensures { OnOk result (out.new ≡ out.old ++ readers_text readers.now) }
{
    if readers.is_empty() {
        return out.push(b", which no thread holds");
    }
    add_named(b", read by", readers, out)
}

// Adds who writes and who reads under a lock.
fn add_lockers(writers: &[u64], readers: &[u64], out: &mut Text) -> Result<(), OutOfMemory>
    ensures { OnOk result (out.new ≡ out.old ++ lockers_text writers.now readers.now) }
{
    if writers.is_empty() {
        return add_readers(readers, out);
    }
    add_named(b", written by", writers, out)?;
    add_named(b", read by", readers, out)
}

// The threads without one.
fn others(alloc: Global, t: u64, threads: &[u64]) -> Result<Vec<u64>, OutOfMemory>
    ensures { IfOk result (λ found. found.items ≡ others t threads.now) }
{
    let mut found = Vec::new(alloc);
    for u in threads {
        if *u != t {
            found.push(*u)?;
        }
    }
    Ok(found)
}

// Adds who has a mutex.
fn add_owners_of(
    alloc: Global,
    marks: &[Mark],
    alive: &[u64],
    m: i64,
    out: &mut Text,
) -> Result<(), OutOfMemory>
    ensures { OnOk result (out.new ≡ out.old ++ owners_text (holders marks.now alive.now (Hold.Owns m))) }
{
    let owners = holders(alloc, marks, alive, Hold::Owns(m))?;
    add_owners(owners.as_slice(), out)
}

// Adds who holds a lock.
fn add_lockers_of(
    alloc: Global,
    marks: &[Mark],
    alive: &[u64],
    l: i64,
    out: &mut Text,
) -> Result<(), OutOfMemory>
    ensures { OnOk result (out.new ≡ out.old ++ lockers_text (holders marks.now alive.now (Hold.Writes l))
        (holders marks.now alive.now (Hold.Reads l))) }
{
    let writers = holders(alloc, marks, alive, Hold::Writes(l))?;
    let readers = holders(alloc, marks, alive, Hold::Reads(l))?;
    add_lockers(writers.as_slice(), readers.as_slice(), out)
}

// Adds the other threads.
fn add_others(alloc: Global, alive: &[u64], t: u64, out: &mut Text) -> Result<(), OutOfMemory>
    ensures { OnOk result (out.new ≡ out.old ++ named_text (codes ":") (others t alive.now)) }
{
    let others = others(alloc, t, alive)?;
    add_named(b":", others.as_slice(), out)
}

// Two threads wait at the same condition or barrier.
fn are_beside(one: Cause, other: Cause) -> bool
    ensures { result ≡ are_beside one other }
{
    match (one, other) {
        (Cause::Condition(c), Cause::Condition(d)) => c == d,
        (Cause::Barrier(b), Cause::Barrier(d)) => b == d,
        _ => false,
    }
}

// The threads that wait at the same one.
fn waiters(alloc: Global, cause: Cause, waits: &[Wait]) -> Result<Vec<u64>, OutOfMemory>
    ensures { IfOk result (λ found. found.items ≡ waiters cause waits.now) }
{
    let mut found = Vec::new(alloc);
    for wait in waits {
        if are_beside(cause, wait.cause) {
            found.push(wait.thread)?;
        }
    }
    Ok(found)
}

// Adds the other threads that wait at the same one.
fn add_waiters(
    alloc: Global,
    waits: &[Wait],
    t: u64,
    cause: Cause,
    out: &mut Text,
) -> Result<(), OutOfMemory>
    ensures { OnOk result (out.new ≡ out.old ++ named_text (codes ", like") (others t (waiters cause waits.now))) }
{
    let waiters = waiters(alloc, cause, waits)?;
    let others = others(alloc, t, waiters.as_slice())?;
    add_named(b", like", others.as_slice(), out)
}

// Adds which threads a thread waits for, or waits with.
fn add_whom(
    alloc: Global,
    marks: &[Mark],
    alive: &[u64],
    waits: &[Wait],
    wait: &Wait,
    out: &mut Text,
) -> Result<(), OutOfMemory>
    ensures { OnOk result (out.new ≡ out.old ++ whom_text marks.now alive.now waits.now wait.now.thread wait.now.cause) }
{
    let cause = wait.cause;
    match cause {
        Cause::Mutex(m) => add_owners_of(alloc, marks, alive, m, out),
        Cause::Retaken(m) => add_owners_of(alloc, marks, alive, m, out),
        Cause::Lock(l) => add_lockers_of(alloc, marks, alive, l, out),
        Cause::Condition(_) => add_waiters(alloc, waits, wait.thread, cause, out),
        Cause::Barrier(_) => add_waiters(alloc, waits, wait.thread, cause, out),
        Cause::AllEnds => add_others(alloc, alive, wait.thread, out),
        _ => Ok(()),
    }
}

// Adds the number of a cause.
fn add_number(number: Option<i64>, out: &mut Text) -> Result<(), OutOfMemory>
    ensures { OnOk result (out.new ≡ out.old ++ number_text number) }
{
    match number {
        Some(n) => out.number(n),
        None => Ok(()),
    }
}

/// Adds what a thread waits for.
pub(crate) fn add_cause(
    alloc: Global,
    marks: &[Mark],
    alive: &[u64],
    waits: &[Wait],
    wait: &Wait,
    out: &mut Text,
) -> Result<(), OutOfMemory>
    ensures { OnOk result (out.new ≡ out.old ++ cause_text marks.now alive.now waits.now wait.now.thread wait.now.cause) }
{
    out.push(words_of(wait.cause))?;
    add_number(number_in(wait.cause), out)?;
    add_whom(alloc, marks, alive, waits, wait, out)
}

/// Adds an extra ring.
pub(crate) fn add_ring(ring: Option<i64>, out: &mut Text) -> Result<(), OutOfMemory>
    ensures { OnOk result (out.new ≡ out.old ++ ring_text ring) }
{
    match ring {
        Some(e) => add_pieces(&[Plain(b" or an event of ring "), Number(e)], out),
        None => Ok(()),
    }
}

//! Circles of threads that wait for each other.

ghost use Rattle.std.specs.Prelude.{◌≡◌, ◌∷◌, ◌++◌, IfOk, OnOk, flat_map, Some, None, length, slice_get, option_map};
ghost use Rattle.std.specs.Option.{option_to_list};
ghost use Rattle.pth_audit.specs.Blocking.{another};
ghost use Rattle.pth_explaining.specs.Circles.{block_of, blocker_by, blocks_of, circle_from, circle_line, circle_lines, if_least, is_least, on_whom};
ghost use Rattle.pth_explaining.specs.Holders.{holders};

use crate::cause::Cause;
use crate::holders::{Hold, holders};
use crate::waits::Wait;
use crate::whom::add_threads;
use pth_base::mark::Mark;
use pth_base::memory::OutOfMemory;
use pth_text::text::Text;
use std::alloc::Global;

/// A thread, and the other thread on which the thread blocks.
#[derive(Clone, Copy)]
pub(crate) struct Block {
    pub(crate) thread: u64,
    pub(crate) on: u64,
}

// The first thread that has something.
fn first_holder(
    alloc: Global,
    marks: &[Mark],
    alive: &[u64],
    hold: Hold,
) -> Result<Option<u64>, OutOfMemory>
    ensures { IfOk result (λ t. t ≡ slice_get (holders marks.now alive.now hold) 0) }
{
    let found = holders(alloc, marks, alive, hold)?;
    Ok(found.first().copied())
}

// The first thread that holds a lock.
fn first_locker(
    alloc: Global,
    marks: &[Mark],
    alive: &[u64],
    l: i64,
) -> Result<Option<u64>, OutOfMemory>
    ensures { IfOk result (λ t. t ≡ slice_get (holders marks.now alive.now (Hold.Writes l)
        ++ holders marks.now alive.now (Hold.Reads l)) 0) }
{
    let writer = first_holder(alloc, marks, alive, Hold::Writes(l))?;
    if writer.is_some() {
        return Ok(writer);
    }
    first_holder(alloc, marks, alive, Hold::Reads(l))
}

// Who has to give a mutex or a lock up, or to end, before a wait ends.
fn blocker(
    alloc: Global,
    marks: &[Mark],
    alive: &[u64],
    wait: &Wait,
) -> Result<Option<u64>, OutOfMemory>
    ensures { IfOk result (λ t. t ≡ blocker_by marks.now alive.now wait.now.ring wait.now.cause) }
{
    match (wait.ring, wait.cause) {
        (None, Cause::Mutex(m)) => first_holder(alloc, marks, alive, Hold::Owns(m)),
        (None, Cause::Retaken(m)) => first_holder(alloc, marks, alive, Hold::Owns(m)),
        (None, Cause::Lock(l)) => first_locker(alloc, marks, alive, l),
        (None, Cause::End(t)) => Ok(u64::try_from(t).ok()),
        _ => Ok(None),
    }
}

// Another thread than this one.
fn another(t: u64, other: Option<u64>) -> Option<u64>
    ensures { result ≡ another t other }
{
    match other {
        Some(u) if u != t => Some(u),
        _ => None,
    }
}

// A block more, if there is one.
fn push_block(blocks: &mut Vec<Block>, thread: u64, on: Option<u64>) -> Result<(), OutOfMemory>
    ensures { OnOk result (blocks.new.items ≡ blocks.old.items
        ++ option_to_list (option_map (λ t. record { thread = thread; on = t }) on)) }
{
    if let Some(on) = on {
        blocks.push(Block { thread, on })?;
    }
    Ok(())
}

/// Which thread blocks on which.
pub(crate) fn blocks(
    alloc: Global,
    marks: &[Mark],
    alive: &[u64],
    waits: &[Wait],
) -> Result<Vec<Block>, OutOfMemory>
    ensures { IfOk result (λ blocks. blocks.items ≡ blocks_of marks.now alive.now waits.now) }
{
    let mut blocks = Vec::new(alloc);
    for wait in waits {
        let on = another(wait.thread, blocker(alloc, marks, alive, wait)?);
        push_block(&mut blocks, wait.thread, on)?;
    }
    Ok(blocks)
}

// The thread on which a thread blocks.
fn on_whom(blocks: &[Block], t: u64) -> Option<u64>
    ensures { result ≡ on_whom blocks.now t }
{
    for block in blocks {
        if block.thread == t {
            return Some(block.on);
        }
    }
    None
}

// The circle in which a thread stands, from the thread on.
fn circle_from(alloc: Global, blocks: &[Block], t: u64) -> Result<Option<Vec<u64>>, OutOfMemory>
    ensures { IfOk result (λ c. option_map (λ v. v.items) c ≡ circle_from (on_whom blocks.now) (length blocks.now) t) }
{
    let mut found = Vec::new(alloc);
    let mut at = t;
    for _ in 0..blocks.len() {
        found.push(at)?;
        match on_whom(blocks, at) {
            None => return Ok(None),
            Some(next) if next == t => return Ok(Some(found)),
            Some(next) => at = next,
        }
    }
    Ok(None)
}

// Whether a thread is no later than each of these.
fn is_least(t: u64, threads: &[u64]) -> bool
    ensures { result ≡ is_least t threads.now }
{
    for u in threads {
        if t > *u {
            return false;
        }
    }
    true
}

// Adds the line of a circle.
fn add_circle(threads: &[u64], out: &mut Text) -> Result<(), OutOfMemory>
    ensures { OnOk result (out.new ≡ out.old ++ circle_line threads.now) }
{
    out.push(b"circle:")?;
    add_threads(threads, out)?;
    out.push(b"\n")
}

// Adds the line of a circle, if it begins with its least thread.
fn add_if_least(t: u64, circle: Option<Vec<u64>>, out: &mut Text) -> Result<(), OutOfMemory>
    ensures { OnOk result (out.new ≡ out.old ++ flat_map circle_line (option_to_list (if_least t (option_map (λ v. v.items) circle)))) }
{
    match circle {
        Some(threads) if is_least(t, threads.as_slice()) => add_circle(threads.as_slice(), out),
        _ => Ok(()),
    }
}

/// Adds a line for each circle.
pub(crate) fn add_circles(
    alloc: Global,
    blocks: &[Block],
    out: &mut Text,
) -> Result<(), OutOfMemory>
    ensures { OnOk result (out.new ≡ out.old ++ circle_lines blocks.now) }
{
    for block in blocks {
        let circle = circle_from(alloc, blocks, block.thread)?;
        add_if_least(block.thread, circle, out)?;
    }
    Ok(())
}

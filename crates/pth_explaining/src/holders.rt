//! Who holds a mutex or a read-write lock.

ghost use Rattle.std.specs.Prelude.{◌≡◌, IfOk};
ghost use Rattle.pth_explaining.specs.Holders.{holders, holds};

use crate::holding::{is_held, levels};
use pth_base::mark::Mark;
use pth_base::memory::OutOfMemory;
use std::alloc::Global;

/// What a thread may have: a level of a mutex, or a lock, to write or to read.
#[derive(Clone, Copy)]
pub(crate) enum Hold {
    Owns(i64),
    Writes(i64),
    Reads(i64),
}

// Whether a thread has it.
fn holds(marks: &[Mark], hold: Hold, t: u64) -> bool
    ensures { result ≡ holds marks.now hold t }
{
    match hold {
        Hold::Owns(m) => levels(t, m, marks) > 0,
        Hold::Writes(l) => is_held(t, l, true, marks),
        Hold::Reads(l) => is_held(t, l, false, marks),
    }
}

/// The threads of these that have it.
#[tactic(auto, unfolding(crate::specs::Holders::holders))]
pub(crate) fn holders(
    alloc: Global,
    marks: &[Mark],
    threads: &[u64],
    hold: Hold,
) -> Result<Vec<u64>, OutOfMemory>
    ensures { IfOk result (λ found. found.items ≡ holders marks.now threads.now hold) }
{
    let mut found = Vec::new(alloc);
    for t in threads {
        if holds(marks, hold, *t) {
            found.push(*t)?;
        }
    }
    Ok(found)
}

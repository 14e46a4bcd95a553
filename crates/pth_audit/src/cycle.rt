//! The stall report: threads that wait in a circle for each other's mutexes.
//!
//! Each thread is walked from: a chain has at most 65 threads, so marking visited ones would not pay.

ghost use Rattle.std.specs.Prelude.{◌≡◌, ◌≤◌, ◌<◌, ℕ, Option, IfOk, Some, option_map, map, length, get_or};
ghost use Rattle.pth_audit.specs.Blocking.{wanted, blocks_on, along, IsBack, IsFirstCircle};
ghost use Rattle.pth_model.specs.State.{State};
ghost use Rattle.pth_threads.specs.Threads.{number_of};
ghost use Rattle.pth_world.specs.Shows.{StandsFor};
ghost use Rattle.pth_world.specs.WellFormed.{WellFormed};

use crate::tids::Tids;
use pth_base::ids::Tid;
use pth_base::memory::OutOfMemory;
use pth_base::program::Program;
use pth_model::awaits::{Awaited, Awaits};
use pth_world::world::World;
use std::alloc::Global;

// The mutex that is wanted, and without which its thread can't go on.
fn wanted(awaited: Awaited) -> Option<i64>
    ensures { result ≡ wanted awaited }
{
    match (awaited.what, awaited.ring) {
        (Awaits::Mutex(m), None) => Some(m),
        (Awaits::Retaking { m, .. }, _) => Some(m),
        _ => None,
    }
}

// The other thread that has the mutex which a thread wants.
fn blocks_on<P: Program>(w: &World<P>, t: Tid) -> Option<Tid>
    requires { WellFormed w.now }
    ensures { (s : State P P.State P.Shared) → StandsFor w.now s → option_map number_of result ≡ blocks_on s t.0 }
{
    match w.mutex_owner(wanted(w.awaited(t))?) {
        Ok(Some(u)) if u != t => Some(u),
        _ => None,
    }
}

// After how many steps along who blocks on whom a thread is reached again, none if not within so many.
fn steps_back<P: Program>(w: &World<P>, t: Tid, most: usize) -> Option<usize>
    requires { WellFormed w.now }
    ensures { (s : State P P.State P.Shared) → StandsFor w.now s → IsBack (blocks_on s) most t.0 result }
{
    let mut at = t;
    for n in 0..most {
        match blocks_on(w, at) {
            None => return None,
            Some(next) if next == t => return Some(n + 1),
            Some(next) => at = next,
        }
    }
    None
}

// The threads along so many steps, from a thread on.
fn along<P: Program>(alloc: Global, w: &World<P>, t: Tid, steps: usize) -> Result<Tids, OutOfMemory>
    requires { WellFormed w.now }
    ensures { IfOk result (λ ts. (s : State P P.State P.Shared) → StandsFor w.now s → along (blocks_on s) steps t.0 ≡ Some t.0
        → (length ts ≡ steps) × ((k : ℕ) → k < steps → along (blocks_on s) k t.0 ≡ Some (get_or (map number_of ts) k 0))) }
{
    let mut tids = Tids::new(alloc);
    let mut at = t;
    for _ in 0..steps {
        tids.push(at)?;
        match blocks_on(w, at) {
            Some(next) => at = next,
            None => return Ok(tids),
        }
    }
    Ok(tids)
}

/// Threads that wait in a circle, if there are any: each wants a mutex that the next has, and the last wants one of the first. Each has
/// called `pth_mutex_acquire` without an event that may end the wait, or takes its mutex back in `pth_cond_await`. No thread of a circle
/// can go on unless another thread cancels or aborts one of them. Of several circles it is the one with the least thread, from that
/// thread on. pth(3) has no call for it.
pub fn cycle<P: Program>(alloc: Global, w: &World<P>) -> Result<Option<Tids>, OutOfMemory>
    requires { WellFormed w.now }
    ensures { IfOk result (λ circle. (s : State P P.State P.Shared) → StandsFor w.now s → IsFirstCircle (blocks_on s) circle) }
{
    let tids = w.threads().tids(alloc)?;
    for t in &tids {
        if let Some(steps) = steps_back(w, *t, tids.len()) {
            return Ok(Some(along(alloc, w, *t, steps)?));
        }
    }
    Ok(None)
}

//! What a thread gives up as it ends: its mutexes, and the read-write locks that it holds.

ghost use Rattle.std.specs.Prelude.{◌≡◌, ◌<◌, ◌++◌, OnOk, OnErr};
ghost use Rattle.pth_base.specs.Cut.{IsCut};
ghost use Rattle.pth_end.specs.Giving.{given as gives, all_given};
ghost use Rattle.pth_end.specs.Handling.{IsHandled};
ghost use Rattle.pth_lock.specs.Objects.{object_limit};
ghost use Rattle.pth_lock.specs.Sets.{contains};
ghost use Rattle.pth_model.specs.Ending.{gives_all};
ghost use Rattle.pth_world.specs.Leading.{LedTo};
ghost use Rattle.pth_world.specs.Shows.{StandsFor};
ghost use Rattle.pth_world.specs.Sound.{IsAlive};
ghost use Rattle.pth_world.specs.WellFormed.{WellFormed};

use pth_base::ids::Tid;
use pth_base::mark::Mark;
use pth_base::marks::Marks;
use pth_base::memory::OutOfMemory;
use pth_base::program::Program;
use pth_lock::sets::{first, without};
use pth_world::world::World;

// What a thread may have as it ends.
#[derive(Clone, Copy)]
enum Held {
    Mutex,
    RwLock,
}

// That a thread gives one up.
fn given(held: Held, t: Tid, k: usize) -> Mark
    requires { k < object_limit }
    ensures { result ≡ gives held t k }
{
    match held {
        Held::Mutex => Mark::GaveMutex {
            tid: t,
            mutex: k as u8,
        },
        Held::RwLock => Mark::GaveLock {
            tid: t,
            lock: k as u8,
        },
    }
}

// Tells of each of a set that a thread gives it up, the least first.
fn tell_given(held: Held, t: Tid, set: u64, marks: &mut Marks) -> Result<(), OutOfMemory>
    ensures ok { OnOk result (marks.new ≡ marks.old ++ all_given held t (contains set)) }
    ensures err { OnErr result (IsCut marks.old marks.new (all_given held t (contains set))) }
{
    if set == 0 {
        return Ok(());
    }
    let k = first(set);
    marks.push(given(held, t, k))?;
    tell_given(held, t, without(set, k), marks)
}

/// A thread that ends gives up its mutexes, the least first, each with all its levels, and then so the read-write locks that it
/// holds. After an error the world may only be dropped.
pub fn give_all<P: Program>(w: &mut World<P>, t: Tid, marks: &mut Marks) -> Result<(), OutOfMemory>
    requires whole { WellFormed w.old }
    requires alive { IsAlive w.old.threads t.0 }
    ensures goes { LedTo (StandsFor w.old) (gives_all t.0) w.new marks.old marks.new result }
    ensures handled { OnOk result (IsHandled w.old w.new) }
{
    let mutexes = w.release_mutexes(t);
    tell_given(Held::Mutex, t, mutexes, marks)?;
    let locks = w.release_locks(t);
    tell_given(Held::RwLock, t, locks, marks)
}

//! What calls that may block their thread come to: as they begin, and as they are tried again.

ghost use Rattle.std.specs.Prelude.{◌≡◌, true, false, is_some, Some, None, IfOk, IfSome, OnOk};
ghost use Rattle.pth_model.specs.declared.blocked.Blocked.{Blocked};
ghost use Rattle.pth_model.specs.Changes.{blocked_of};
ghost use Rattle.pth_model.specs.Rows.{row_of};
ghost use Rattle.pth_model.specs.State.{Control, State};
ghost use Rattle.pth_waits.specs.Verdicts.{AwaitsNone, Begins, NeverBlocks, is_called};
ghost use Rattle.pth_world.specs.Frame.{Frame};
ghost use Rattle.pth_world.specs.Leading.{Tries};
ghost use Rattle.pth_world.specs.Numbering.{no_numbers};
ghost use Rattle.pth_world.specs.Shows.{Shows};
ghost use Rattle.pth_world.specs.WellFormed.{WellFormed};

use crate::barriers::{reach_barrier, reach_barrier_again};
use crate::conditions::await_condition;
use crate::io::{begin_io, io_again};
use crate::joins::join;
use crate::mutexes::{acquire_mutex, acquire_mutex_again};
use crate::rests::{rest, rest_again};
use crate::ring_waits::{wait, wait_again};
use crate::rwlocks::{acquire_lock, acquire_lock_again};
use crate::thread_ends::exit;
use pth_base::call::Call;
use pth_base::ids::Tid;
use pth_base::memory::OutOfMemory;
use pth_base::program::Program;
use pth_model::times::{micros, seconds};
use pth_model::verdict::Verdict;
use pth_world::world::World;

/// What a call comes to as it begins; none of a call that never blocks its thread. After an error the world
/// may only be dropped.
pub fn attempt<P: Program>(
    w: &mut World<P>,
    t: Tid,
    call: &Call,
) -> Result<Option<Verdict>, OutOfMemory>
    requires whole { WellFormed w.old }
    requires runs { w.old.scheduler.running ≡ Some t.0 }
    ensures attempts { IfOk result (λ o. IfSome o (λ x. Begins w.old w.new t.0 call.now (λ s. row_of P.functions s t.0 call.now) x)) }
    ensures called { IfOk result (λ o. IfSome o (λ x. is_called call.now ≡ true)) }
    ensures never { IfOk result (λ o. o ≡ None → NeverBlocks P P.State P.Shared call.now) }
    ensures same { IfOk result (λ o. o ≡ None → w.new ≡ w.old) }
    ensures frame { OnOk result (Frame w.old w.new no_numbers w.old.scheduler.running false) }
{
    match call {
        Call::Join(n) => Ok(Some(join(w, t, *n))),
        Call::Exit(value) => Ok(Some(exit(w, t, *value))),
        Call::Nap(n) => Ok(Some(rest(w, *n, micros(*n), 1))),
        Call::Usleep(n) => Ok(Some(rest(w, *n, micros(*n), 0))),
        Call::Sleep(n) => Ok(Some(rest(w, *n, seconds(*n), 0))),
        Call::Wait(e) => Ok(Some(wait(w, t, *e)?)),
        Call::MutexAcquire { m, v, e } => Ok(Some(acquire_mutex(w, t, *m, *v, *e)?)),
        Call::RwAcquire { l, write, v, e } => Ok(Some(acquire_lock(w, t, *l, *write, *v, *e)?)),
        Call::CondAwait { c, m, e } => Ok(Some(await_condition(w, t, *c, *m, *e)?)),
        Call::BarrierReach(b) => Ok(Some(reach_barrier(w, t, *b)?)),
        _ => begin_io(w, t, call),
    }
}

/// What the call that blocks the thread that runs comes to as it is tried again; none if no call blocks it. A wait at a condition is
/// not tried again. After an error the world may only be dropped.
pub(crate) fn attempt_again<P: Program>(
    w: &mut World<P>,
    t: Tid,
) -> Result<Option<Verdict>, OutOfMemory>
    requires whole { WellFormed w.old }
    requires runs { w.old.scheduler.running ≡ Some t.0 }
    requires other { AwaitsNone w.old t.0 }
    ensures tries { IfOk result (λ o. IfSome o (λ x. (k : Control P P.State P.Shared) (b : Blocked) → Shows w.old k → blocked_of k t.0 ≡ Some b → Tries w.old w.new t.0 b (λ s. (row_of P.functions s t.0 b.call).again b.awaits) x)) }
    ensures blocked { IfOk result (λ o. (k : Control P P.State P.Shared) → Shows w.old k → is_some o ≡ is_some (blocked_of k t.0)) }
    ensures same { IfOk result (λ o. o ≡ None → w.new ≡ w.old) }
    ensures frame { OnOk result (Frame w.old w.new no_numbers w.old.scheduler.running false) }
{
    let Some(blocked) = w.blocked(t) else {
        return Ok(None);
    };
    let awaits = blocked.awaits;
    match blocked.call {
        Call::Join(n) => Ok(Some(join(w, t, n))),
        Call::Exit(value) => Ok(Some(exit(w, t, value))),
        Call::Nap(_) => Ok(Some(rest_again(w, awaits, 1))),
        Call::Usleep(_) => Ok(Some(rest_again(w, awaits, 0))),
        Call::Sleep(_) => Ok(Some(rest_again(w, awaits, 0))),
        Call::Wait(e) => Ok(Some(wait_again(w, t, e))),
        Call::MutexAcquire { m, .. } => Ok(Some(acquire_mutex_again(w, t, m))),
        Call::RwAcquire { l, write, .. } => Ok(Some(acquire_lock_again(w, t, l, write))),
        Call::BarrierReach(b) => Ok(Some(reach_barrier_again(w, t, b, awaits.round()))),
        _ => Ok(Some(io_again(w, t, awaits)?)),
    }
}

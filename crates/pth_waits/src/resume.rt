//! How a thread that a call blocks goes on: it is canceled in the call, or the call is tried again.
//!
//! `resume` here is not `pth_resume`, which takes back a `pth_suspend` and stands in `thread_control.rt` of `pth_calls`.

ghost use Rattle.std.specs.Prelude.{◌≡◌, Some, IfOk, OnOk};
ghost use Rattle.pth_model.specs.Calls.{canceled_by, gone_on, gone_on_where, tried_again};
ghost use Rattle.pth_model.specs.Cancellation.{may_be_canceled as may_be_canceled_in};
ghost use Rattle.pth_model.specs.Changes.{blocked_of};
ghost use Rattle.pth_model.specs.RingWaits.{has_settled, ring_given};
ghost use Rattle.pth_model.specs.State.{State};
ghost use Rattle.pth_model.specs.declared.blocked.Blocked.{Blocked as BlockedCall};
ghost use Rattle.pth_end.specs.Whole.{Whole};
ghost use Rattle.pth_waits.specs.Verdicts.{AwaitsNone};
ghost use Rattle.pth_world.specs.Frame.{Frame, runs_after, yields_after};
ghost use Rattle.pth_world.specs.Leading.{Goes, StandsRightly};
ghost use Rattle.pth_world.specs.Numbering.{no_numbers};
ghost use Rattle.pth_world.specs.Shows.{StandsFor};
ghost use Rattle.pth_world.specs.Sound.{IsSound};
ghost use Rattle.pth_world.specs.WellFormed.{WellFormed};

use crate::attempts::attempt_again;
use crate::cancellation::may_be_canceled;
use crate::conditions::resume_await;
use crate::ring_waits::has_settled;
use crate::verdicts::{carry_on, unless_settled};
use pth_base::call::Call;
use pth_base::ids::Tid;
use pth_base::marks::Marks;
use pth_base::memory::OutOfMemory;
use pth_base::program::Program;
use pth_end::cancellation::{CANCELED, cancel_within};
use pth_model::awaits::ring_given;
pub use pth_model::next::Next;
use pth_world::world::World;

// Whether an event is not pending of the ring that was given to the call that blocks a thread.
fn ring_has_settled<P: Program>(w: &World<P>, t: Tid) -> bool
    requires { IsSound w.now.threads }
    ensures { (s : State P P.State P.Shared) (b : BlockedCall) → StandsFor w.now s → blocked_of s.control t.0 ≡ Some b → result ≡ has_settled s.control.events (ring_given b.call) }
{
    match w.blocked(t) {
        Some(blocked) => has_settled(w.rings(), ring_given(&blocked.call)),
        None => false,
    }
}

// Tries the call that blocks the thread that runs again, and carries out what it comes to: if it would block on and an event of its
// ring is settled, it is interrupted.
fn try_again<P: Program>(w: &mut World<P>, t: Tid, marks: &mut Marks) -> Result<Next, OutOfMemory>
    requires whole { WellFormed w.old }
    requires runs { w.old.scheduler.running ≡ Some t.0 }
    requires other { AwaitsNone w.old t.0 }
    ensures goes { Goes (StandsRightly w.old t.0) (tried_again P.functions t.0) w.new marks.old marks.new result }
    ensures frame { IfOk result (λ n. Frame w.old w.new no_numbers (runs_after t.0 n) (yields_after n)) }
{
    let settled = ring_has_settled(w, t);
    match attempt_again(w, t)? {
        Some(verdict) => carry_on(w, t, unless_settled(verdict, settled), marks),
        None => Ok(Next::Blocks),
    }
}

// Cancels the thread that runs in the call that blocks it.
fn cancel_blocked<P: Program>(
    w: &mut World<P>,
    t: Tid,
    marks: &mut Marks,
) -> Result<Next, OutOfMemory>
    requires whole { WellFormed w.old }
    requires runs { w.old.scheduler.running ≡ Some t.0 }
    ensures goes { Goes (StandsFor w.old) (λ (s : State P P.State P.Shared). canceled_by P.functions t.0 (blocked_of s.control t.0) s) w.new marks.old marks.new result }
    ensures frame { IfOk result (λ n. Frame w.old w.new no_numbers (runs_after t.0 n) (yields_after n)) }
{
    let Some(blocked) = w.blocked(t) else {
        return Ok(Next::Blocks);
    };
    let call = blocked.call.copy()?;
    cancel_within(w, t, call, marks)?;
    Ok(Next::Ended(CANCELED))
}

// Goes on with the thread that runs, which a call blocks other than a wait at a condition: it is canceled in the call if it may be,
// and else the call is tried again.
fn resume_call<P: Program>(w: &mut World<P>, t: Tid, marks: &mut Marks) -> Result<Next, OutOfMemory>
    requires whole { WellFormed w.old }
    requires runs { w.old.scheduler.running ≡ Some t.0 }
    requires other { AwaitsNone w.old t.0 }
    ensures goes { Goes (StandsRightly w.old t.0) (λ (s : State P P.State P.Shared). gone_on_where P.functions t.0 (may_be_canceled_in s.control t.0) s) w.new marks.old marks.new result }
    ensures frame { IfOk result (λ n. Frame w.old w.new no_numbers (runs_after t.0 n) (yields_after n)) }
{
    if may_be_canceled(w, t) {
        return cancel_blocked(w, t, marks);
    }
    try_again(w, t, marks)
}

/// Goes on with the thread that runs, which a call blocks. A wait at a condition goes on by itself; in any other call the thread is
/// canceled if it may be ([`may_be_canceled`]), and else the call is tried again. After an error the world may only be dropped.
pub fn resume<P: Program>(w: &mut World<P>, t: Tid, marks: &mut Marks) -> Result<Next, OutOfMemory>
    requires whole { WellFormed w.old }
    requires runs { w.old.scheduler.running ≡ Some t.0 }
    ensures goes { Goes (StandsRightly w.old t.0) (gone_on P.functions t.0) w.new marks.old marks.new result }
    ensures frame { IfOk result (λ n. Frame w.old w.new no_numbers (runs_after t.0 n) (yields_after n)) }
    ensures keeps { OnOk result (Whole w.old → Whole w.new) }
{
    let Some(blocked) = w.blocked(t) else {
        return Ok(Next::Blocks);
    };
    let awaits = blocked.awaits;
    match blocked.call {
        Call::CondAwait { c, m, e } => resume_await(w, t, c, m, e, awaits, marks),
        _ => resume_call(w, t, marks),
    }
}

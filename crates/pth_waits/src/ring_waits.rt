//! Waiting for the events of a ring: `pth_wait`, and the rings that other calls were given beside what else they wait for.

ghost use Rattle.std.specs.Prelude.{◌≡◌, false, Some, Ok, Err, IfOk, OnOk, if◌then◌else◌};
ghost use Rattle.pth_base.specs.declared.call.Call.{Call};
ghost use Rattle.pth_base.specs.declared.call.Call.TheVariants.{Wait};
ghost use Rattle.pth_base.specs.declared.errno.Errno.{Errno};
ghost use Rattle.pth_base.specs.declared.errno.Errno.TheVariants.{EBUSY};
ghost use Rattle.pth_base.specs.declared.refusal.Refusal.TheVariants.{Fail};
ghost use Rattle.pth_model.specs.EventHandling.{wait};
ghost use Rattle.pth_model.specs.Awaits.{is_await};
ghost use Rattle.pth_model.specs.RingWaits.{claims, has_settled, is_claimed_ring, is_no_ring};
ghost use Rattle.pth_model.specs.State.{Control, State};
ghost use Rattle.pth_model.specs.Verdict.{refused};
ghost use Rattle.pth_numbered.specs.Clauses.{◌when◌otherwise◌};
ghost use Rattle.pth_model.specs.declared.verdict.Verdict.TheVariants.{Blocks};
ghost use Rattle.pth_ring.specs.Arena.{events_of};
ghost use Rattle.pth_store.specs.Storing.{AnswersWithMemory};
ghost use Rattle.pth_waits.specs.Verdicts.{Begins, TriesAgain};
ghost use Rattle.pth_world.specs.Frame.{Frame};
ghost use Rattle.pth_world.specs.Leading.{IsReady};
ghost use Rattle.pth_world.specs.Numbering.{no_numbers};
ghost use Rattle.pth_world.specs.Shows.{Shows, StandsFor};
ghost use Rattle.pth_world.specs.WellFormed.{WellFormed};

use pth_base::answer::Answer;
use pth_base::ids::Tid;
use pth_base::memory::OutOfMemory;
use pth_base::program::Program;
use pth_base::refusal::Refusal;
use pth_model::awaits::Awaits;
use pth_model::verdict::Verdict;
use pth_ring::rings::Rings;
use pth_world::world::World;

/// Whether an event that a call was given is none.
pub(crate) fn is_no_ring<P: Program>(w: &World<P>, ring: Option<i64>) -> bool
    ensures { (s : State P P.State P.Shared) → StandsFor w.now s → result ≡ is_no_ring s ring }
{
    match ring {
        Some(e) => w.rings().find(e).is_none(),
        None => false,
    }
}

/// Whether the ring that a call was given is claimed.
pub(crate) fn is_claimed_ring<P: Program>(w: &World<P>, ring: Option<i64>) -> bool
    ensures { (s : State P P.State P.Shared) → StandsFor w.now s → result ≡ is_claimed_ring s ring }
{
    match ring {
        Some(e) => w.rings().is_claimed(e),
        None => false,
    }
}

/// Whether an event of a ring is not pending.
pub(crate) fn has_settled(rings: &Rings, ring: Option<i64>) -> bool
    ensures { result ≡ has_settled (events_of rings.now) ring }
{
    match ring {
        Some(e) => rings.settled(e) > 0,
        None => false,
    }
}

/// Claims the ring that a call was given, if any: EBUSY if it is claimed. Without memory the world may only be dropped.
pub(crate) fn claim_given<P: Program>(
    w: &mut World<P>,
    t: Tid,
    ring: Option<i64>,
) -> Result<(), Refusal>
    requires { WellFormed w.old }
    ensures answer { (s : State P P.State P.Shared) → StandsFor w.old s → is_no_ring s ring ≡ false → AnswersWithMemory (if is_claimed_ring s ring then Err EBUSY else Ok tt) result }
    ensures shows { OnOk result ((k : Control P P.State P.Shared) → Shows w.old k → Shows w.new (claims t.0 ring k)) }
    ensures store { w.new.store ≡ w.old.store }
    ensures refused { (errno : Errno) → result ≡ Err (Fail errno) → w.new ≡ w.old }
    ensures frame { Frame w.old w.new no_numbers w.old.scheduler.running false }
{
    match ring {
        Some(e) => w.claim(t, e),
        None => Ok(()),
    }
}

/// What a call that is to wait comes to: it claims the ring that it was given, and waits; EBUSY if the ring is claimed.
pub(crate) fn wait_beside<P: Program>(
    w: &mut World<P>,
    t: Tid,
    ring: Option<i64>,
    awaits: Awaits,
) -> Result<Verdict, OutOfMemory>
    requires { WellFormed w.old }
    ensures verdict { IfOk result (λ x. (s : State P P.State P.Shared) → StandsFor w.old s → is_no_ring s ring ≡ false → (refused EBUSY when is_claimed_ring s ring otherwise Blocks awaits) ≡ x) }
    ensures ready { IfOk result (λ x. (c : Call) (s : State P P.State P.Shared) → is_await c ≡ false → StandsFor w.old s → IsReady w.new t.0 c ring x s) }
    ensures frame { Frame w.old w.new no_numbers w.old.scheduler.running false }
{
    match claim_given(w, t, ring) {
        Ok(()) => Ok(Verdict::Blocks(awaits)),
        Err(Refusal::Fail(errno)) => Ok(Verdict::Says(Answer::Fail(errno))),
        Err(Refusal::OutOfMemory) => Err(OutOfMemory),
    }
}

/// `pth_wait`: claims the ring of an event, and waits until an event of it is not pending, also if one was found before. EINVAL if
/// there is no such event, and EBUSY if its ring is claimed.
pub(crate) fn wait<P: Program>(w: &mut World<P>, t: Tid, e: i64) -> Result<Verdict, OutOfMemory>
    requires whole { WellFormed w.old }
    ensures attempts { IfOk result (λ x. Begins w.old w.new t.0 (Wait e) (λ s. wait s e) x) }
    ensures frame { Frame w.old w.new no_numbers w.old.scheduler.running false }
{
    match w.claim(t, e) {
        Ok(()) => Ok(Verdict::Blocks(Awaits::Ring(e))),
        Err(Refusal::Fail(errno)) => Ok(Verdict::Says(Answer::Fail(errno))),
        Err(Refusal::OutOfMemory) => Err(OutOfMemory),
    }
}

/// Such a wait, tried again: answered with the number of the events of the ring that are not pending, if there are any.
pub(crate) fn wait_again<P: Program>(w: &World<P>, t: Tid, e: i64) -> Verdict
    ensures tries { TriesAgain w.now w.now t.0 (Wait e) (λ s. wait s e) result }
{
    let settled = w.rings().settled(e);
    if settled > 0 {
        Verdict::Says(Answer::Int(i64::from(settled)))
    } else {
        Verdict::Blocks(Awaits::Ring(e))
    }
}

//! Waiting at a barrier: `pth_barrier_reach`.

ghost use Rattle.std.specs.Prelude.{◌≡◌, false, Some, IfOk, OnOk, OnErr};
ghost use Rattle.pth_base.specs.declared.call.Call.TheVariants.{BarrierReach};
ghost use Rattle.pth_cond.specs.Barriers.{barriers_of, has_passed};
ghost use Rattle.pth_end.specs.Whole.{Whole, IsUnblocked};
ghost use Rattle.pth_model.specs.Awaits.{round_in};
ghost use Rattle.pth_model.specs.Barriers.{arrived_as, barrier_reach};
ghost use Rattle.pth_model.specs.State.{Control, State};
ghost use Rattle.pth_model.specs.Verdict.{by_result};
ghost use Rattle.pth_model.specs.declared.awaits.Awaits.{Awaits as AwaitsOf};
ghost use Rattle.pth_waits.specs.Room.{AreRoundsOver};
ghost use Rattle.pth_waits.specs.Verdicts.{Begins};
ghost use Rattle.pth_world.specs.Frame.{Frame};
ghost use Rattle.pth_world.specs.Leading.{Tries};
ghost use Rattle.pth_world.specs.Numbering.{no_numbers};
ghost use Rattle.pth_world.specs.Shows.{Shows};
ghost use Rattle.pth_world.specs.WellFormed.{WellFormed};

use pth_base::answer::Answer;
use pth_base::errno::Errno;
use pth_base::ids::Tid;
use pth_base::memory::OutOfMemory;
use pth_base::program::Program;
use pth_cond::barriers::{Arrival, TAILLIGHT};
use pth_model::awaits::Awaits;
use pth_model::verdict::Verdict;
use pth_world::world::World;

// What an arrival at a barrier comes to.
fn arrived_as(b: i64, arrival: Result<Arrival, Errno>) -> Verdict
    ensures { result ≡ by_result (arrived_as b) arrival }
{
    match arrival {
        Ok(Arrival::Incomplete(round)) => Verdict::Blocks(Awaits::Round { b, round }),
        Ok(Arrival::Tail) => Verdict::Says(Answer::Int(TAILLIGHT)),
        Err(errno) => Verdict::Says(Answer::Fail(errno)),
    }
}

/// `pth_barrier_reach` of barrier `b`: the last thread of its round lets the round pass, and any other waits until it has passed.
/// EINVAL if the barrier is not initialised. `OutOfMemory` only if its rounds have no number left: from a whole world there is always
/// room for the arrival of a thread that no call blocks, since those that wait there are of others, one of each.
pub(crate) fn reach_barrier<P: Program>(
    w: &mut World<P>,
    t: Tid,
    b: i64,
) -> Result<Verdict, OutOfMemory>
    requires whole { WellFormed w.old }
    requires runs { w.old.scheduler.running ≡ Some t.0 }
    ensures attempts { IfOk result (λ x. Begins w.old w.new t.0 (BarrierReach b) (λ s. barrier_reach s t.0 b) x) }
    ensures frame { OnOk result (Frame w.old w.new no_numbers w.old.scheduler.running false) }
    ensures wanted { OnErr result (IsUnblocked w.old t.0 → Whole w.old → AreRoundsOver (barriers_of w.old.barriers) b) }
{
    if !w.barriers().has_room(b) {
        return Err(OutOfMemory);
    }
    let arrival = w.barriers_mut().arrive(b, t);
    Ok(arrived_as(b, arrival))
}

/// Such a call, tried again: it is answered once its round has passed.
pub(crate) fn reach_barrier_again<P: Program>(
    w: &mut World<P>,
    t: Tid,
    b: i64,
    round: u64,
) -> Verdict
    requires whole { WellFormed w.old }
    requires runs { w.old.scheduler.running ≡ Some t.0 }
    ensures tries { (a : AwaitsOf) → round_in a ≡ round → Tries w.old w.new t.0 (record { call = BarrierReach b; awaits = a }) (λ s. (barrier_reach s t.0 b).again a) result }
    ensures frame { Frame w.old w.new no_numbers w.old.scheduler.running false }
{
    if !w.barriers().passed(b, round) {
        return Verdict::Blocks(Awaits::Round { b, round });
    }
    let answer = w.barriers_mut().answer(b, round, t);
    Verdict::Says(Answer::Int(answer))
}

/// Whether the round of this number has passed at barrier `b`.
pub(crate) fn has_passed<P: Program>(w: &World<P>, b: i64, round: u64) -> bool
    ensures { (k : Control P P.State P.Shared) → Shows w.now k → result ≡ has_passed k.barriers b round }
{
    w.barriers().passed(b, round)
}

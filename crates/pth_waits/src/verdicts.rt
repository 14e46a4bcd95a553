//! How the verdict on a call that may block is carried out: it is answered, blocks its thread, or ends it.

ghost use Rattle.std.specs.Prelude.{◌≡◌, Some, None, IfOk, IfSome, IsSome};
ghost use Rattle.pth_model.specs.declared.blocked.Blocked.{Blocked};
ghost use Rattle.pth_model.specs.Calls.{begun_by, tried_by};
ghost use Rattle.pth_model.specs.Changes.{blocked_of};
ghost use Rattle.pth_model.specs.RingWaits.{ring_given};
ghost use Rattle.pth_model.specs.State.{Control, State};
ghost use Rattle.pth_waits.specs.Verdicts.{IsCounted, interrupted_if};
ghost use Rattle.pth_world.specs.Frame.{Frame, runs_after, yields_after};
ghost use Rattle.pth_world.specs.Leading.{Goes, IsReady, MayComeTo};
ghost use Rattle.pth_world.specs.Numbering.{no_numbers};
ghost use Rattle.pth_world.specs.Shows.{Shows};
ghost use Rattle.pth_world.specs.WellFormed.{WellFormed};

use crate::blocks::{answer_blocked, block, block_on};
use crate::trials::count_or;
use pth_base::answer::Answer;
use pth_base::call::Call;
use pth_base::errno::Errno;
use pth_base::ids::Tid;
use pth_base::marks::Marks;
use pth_base::memory::OutOfMemory;
use pth_base::program::Program;
use pth_end::answering::answer_call;
use pth_end::ending::end_thread;
use pth_model::next::Next;
use pth_model::verdict::Verdict;
use pth_world::world::World;

/// Carries out the verdict on a call that begins: it is answered, blocks its thread from now on, or ends it. After an error the world
/// may only be dropped.
pub fn carry_out<P: Program>(
    w: &mut World<P>,
    t: Tid,
    call: Call,
    verdict: Verdict,
    marks: &mut Marks,
) -> Result<Next, OutOfMemory>
    requires whole { WellFormed w.old }
    requires runs { w.old.scheduler.running ≡ Some t.0 }
    requires may { MayComeTo t.0 call verdict }
    ensures goes { Goes (IsReady w.old t.0 call (ring_given call) verdict) (begun_by P.functions t.0 call verdict) w.new marks.old marks.new result }
    ensures frame { IfOk result (λ n. Frame w.old w.new no_numbers (runs_after t.0 n) (yields_after n)) }
{
    match verdict {
        Verdict::Says(answer) => {
            let answer = answer_call(t, &call, answer, marks)?;
            Ok(Next::Done(answer))
        }
        Verdict::Yields(answer) => {
            let answer = answer_call(t, &call, answer, marks)?;
            Ok(Next::Yields(answer))
        }
        Verdict::Blocks(awaits) => {
            block(w, t, call, awaits, marks)?;
            Ok(Next::Blocks)
        }
        Verdict::Ends(value) => {
            end_thread(w, t, value, marks)?;
            Ok(Next::Ended(value))
        }
        Verdict::Kills => {
            answer_call(t, &call, Answer::Int(1), marks)?;
            Ok(Next::Killed)
        }
    }
}

/// What blocks on is answered if an event of its ring is settled: with the count if a part was written, else with EINTR.
pub(crate) fn unless_settled(verdict: Verdict, settled: bool) -> Verdict
    requires { IsCounted verdict }
    ensures { result ≡ interrupted_if settled verdict }
{
    match verdict {
        Verdict::Blocks(awaits) if settled => Verdict::Says(count_or(
            awaits.written(),
            Errno::EINTR,
        )),
        verdict => verdict,
    }
}

/// Carries out the verdict on the call that blocks the thread that runs, as it is tried again: it is answered, blocks its thread on, or
/// ends it. After an error the world may only be dropped.
pub(crate) fn carry_on<P: Program>(
    w: &mut World<P>,
    t: Tid,
    verdict: Verdict,
    marks: &mut Marks,
) -> Result<Next, OutOfMemory>
    requires whole { WellFormed w.old }
    requires runs { w.old.scheduler.running ≡ Some t.0 }
    requires some { (k : Control P P.State P.Shared) → Shows w.old k → IsSome (blocked_of k t.0) }
    requires may { (k : Control P P.State P.Shared) → Shows w.old k → IfSome (blocked_of k t.0) (λ b. MayComeTo t.0 b.call verdict) }
    ensures goes { (b : Blocked) → Goes (λ (s : State P P.State P.Shared). (blocked_of s.control t.0 ≡ Some b) × IsReady w.old t.0 b.call None verdict s) (tried_by P.functions t.0 b verdict) w.new marks.old marks.new result }
    ensures frame { IfOk result (λ n. Frame w.old w.new no_numbers (runs_after t.0 n) (yields_after n)) }
{
    match verdict {
        Verdict::Says(answer) => {
            let answer = answer_blocked(w, t, answer, marks)?;
            Ok(Next::Done(answer))
        }
        Verdict::Yields(answer) => {
            let answer = answer_blocked(w, t, answer, marks)?;
            Ok(Next::Yields(answer))
        }
        Verdict::Blocks(awaits) => {
            block_on(w, t, awaits, marks)?;
            Ok(Next::Blocks)
        }
        Verdict::Ends(value) => {
            end_thread(w, t, value, marks)?;
            Ok(Next::Ended(value))
        }
        Verdict::Kills => {
            answer_blocked(w, t, Answer::Int(1), marks)?;
            Ok(Next::Killed)
        }
    }
}

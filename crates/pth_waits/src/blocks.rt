//! How a call blocks its thread, blocks it on, and is answered then.

ghost use Rattle.std.specs.Prelude.{◌≡◌, false, Some, IfOk, IfSome, IsSome, OnOk, OnErr};
ghost use Rattle.pth_base.specs.declared.mark.Mark.TheVariants.{Answered, Waits};
ghost use Rattle.pth_model.specs.declared.blocked.Blocked.{Blocked as BlockedCall};
ghost use Rattle.pth_model.specs.declared.verdict.Verdict.TheVariants.{Blocks};
ghost use Rattle.pth_model.specs.Calls.{answers, tried_by, waits_by};
ghost use Rattle.pth_model.specs.Changes.{blocked_of};
ghost use Rattle.pth_model.specs.RingWaits.{ring_given};
ghost use Rattle.pth_model.specs.State.{Control, State};
ghost use Rattle.pth_world.specs.Frame.{Frame};
ghost use Rattle.pth_world.specs.Leading.{IsReady, Leads, StandsOnce};
ghost use Rattle.pth_world.specs.Numbering.{no_numbers};
ghost use Rattle.pth_world.specs.Shows.{Shows};
ghost use Rattle.pth_world.specs.WellFormed.{MayAwaitAs, WellFormed};

use pth_base::answer::Answer;
use pth_base::call::Call;
use pth_base::ids::Tid;
use pth_base::mark::Mark;
use pth_base::marks::Marks;
use pth_base::memory::OutOfMemory;
use pth_base::program::Program;
use pth_end::answering::answer_call;
use pth_model::awaits::Awaits;
use pth_model::blocked::Blocked;
use pth_world::world::World;

/// A call blocks the thread that runs from now on, which waits for this. The ring that it was given is claimed already. After an error
/// the world may only be dropped.
pub(crate) fn block<P: Program>(
    w: &mut World<P>,
    t: Tid,
    call: Call,
    awaits: Awaits,
    marks: &mut Marks,
) -> Result<(), OutOfMemory>
    requires whole { WellFormed w.old }
    requires runs { w.old.scheduler.running ≡ Some t.0 }
    requires may { MayAwaitAs t.0 call awaits }
    ensures ok { OnOk result ((s : State P P.State P.Shared) → IsReady w.old t.0 call (ring_given call) (Blocks awaits) s → Leads w.new marks.old marks.new (waits_by t.0 call awaits s)) }
    ensures err { OnErr result (marks.new ≡ marks.old) }
    ensures frame { OnOk result (Frame w.old w.new no_numbers (Some t.0) false) }
{
    let mark = Mark::Waits {
        tid: t,
        call: call.copy()?,
    };
    w.block(t, Blocked { call, awaits });
    marks.push(mark)
}

/// The call that blocks the thread that runs is answered, and blocks it no longer; its claim is given back. What threads have is
/// already as the answer tells. After an error the world may only be dropped.
pub(crate) fn answer_blocked<P: Program>(
    w: &mut World<P>,
    t: Tid,
    answer: Answer,
    marks: &mut Marks,
) -> Result<Answer, OutOfMemory>
    requires whole { WellFormed w.old }
    requires runs { w.old.scheduler.running ≡ Some t.0 }
    requires some { (k : Control P P.State P.Shared) → Shows w.old k → IsSome (blocked_of k t.0) }
    ensures value { IfOk result (λ a. a ≡ answer) }
    ensures ok { OnOk result ((s : State P P.State P.Shared) (b : BlockedCall) → blocked_of s.control t.0 ≡ Some b → StandsOnce w.old (Answered t b.call answer) s → Leads w.new marks.old marks.new (answers P.functions t.0 b.call answer s)) }
    ensures err { OnErr result (marks.new ≡ marks.old) }
    ensures frame { OnOk result (Frame w.old w.new no_numbers (Some t.0) false) }
{
    match w.unblock(t) {
        Some(blocked) => answer_call(t, &blocked.call, answer, marks),
        None => unreachable!(),
    }
}

/// The call that blocks the thread that runs blocks it on, and the thread waits for this from now on. After an error the world may
/// only be dropped.
pub(crate) fn block_on<P: Program>(
    w: &mut World<P>,
    t: Tid,
    awaits: Awaits,
    marks: &mut Marks,
) -> Result<(), OutOfMemory>
    requires whole { WellFormed w.old }
    requires runs { w.old.scheduler.running ≡ Some t.0 }
    requires some { (k : Control P P.State P.Shared) → Shows w.old k → IsSome (blocked_of k t.0) }
    requires may { (k : Control P P.State P.Shared) → Shows w.old k → IfSome (blocked_of k t.0) (λ b. MayAwaitAs t.0 b.call awaits) }
    ensures ok { OnOk result ((s : State P P.State P.Shared) (b : BlockedCall) → blocked_of s.control t.0 ≡ Some b → StandsOnce w.old (Waits t b.call) s → Leads w.new marks.old marks.new (tried_by P.functions t.0 b (Blocks awaits) s).told) }
    ensures err { OnErr result (marks.new ≡ marks.old) }
    ensures frame { OnOk result (Frame w.old w.new no_numbers (Some t.0) false) }
{
    let mut blocked = match w.take_blocked(t) {
        Some(blocked) => blocked,
        None => unreachable!(),
    };
    let mark = Mark::Waits {
        tid: t,
        call: blocked.call.copy()?,
    };
    blocked.awaits = awaits;
    w.block(t, blocked);
    marks.push(mark)
}

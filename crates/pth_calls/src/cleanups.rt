//! Thread cleanups: `pth_cleanup_push`, `pth_cleanup_pop`.

ghost use Rattle.std.specs.Prelude.{◌≡◌, not, true, Some, IfOk, OnOk, false};
ghost use Rattle.pth_base.specs.Facilities.{facility_of};
ghost use Rattle.pth_base.specs.declared.call.Call.TheVariants.{CleanupPop};
ghost use Rattle.pth_base.specs.declared.facility.Facility.TheVariants as facility;
ghost use Rattle.pth_base.specs.declared.mark.Mark.TheVariants.{Answered};
ghost use Rattle.pth_calls.specs.Plain.{is_plain};
ghost use Rattle.pth_end.specs.Handling.{IsHandled};
ghost use Rattle.pth_model.specs.Acts.{runs_handler};
ghost use Rattle.pth_model.specs.Calls.{begun};
ghost use Rattle.pth_model.specs.Rows.{row_of};
ghost use Rattle.pth_model.specs.State.{State};
ghost use Rattle.pth_model.specs.Transition.{where_so};
ghost use Rattle.pth_numbered.specs.Operands.{is_zero};
ghost use Rattle.pth_world.specs.Frame.{Frame, runs_after, yields_after};
ghost use Rattle.pth_world.specs.Leading.{Goes, LedTo, IsTold};
ghost use Rattle.pth_world.specs.Numbering.{no_numbers};
ghost use Rattle.pth_world.specs.Shows.{StandsFor};
ghost use Rattle.pth_world.specs.Sound.{IsAlive};
ghost use Rattle.pth_world.specs.WellFormed.{WellFormed};

use crate::handler_numbers::handler_named;
use pth_base::answer::Answer;
use pth_base::call::Call;
use pth_base::errno::Errno;
use pth_base::ids::{HandlerId, Tid};
use pth_base::marks::Marks;
use pth_base::memory::OutOfMemory;
use pth_base::program::Program;
use pth_end::answering::done;
use pth_end::handlers::run_told_handler;
use pth_end::saying::refused;
use pth_model::next::Next;
use pth_world::world::World;

/// The answer of `pth_cleanup_push`: a handler comes on top of the thread's stack. EAGAIN where that has 256.
pub(crate) fn answer_cleanups<P: Program>(
    w: &mut World<P>,
    t: Tid,
    call: &Call,
) -> Result<Answer, OutOfMemory>
    requires whole { WellFormed w.old }
    requires runs { w.old.scheduler.running ≡ Some t.0 }
    requires plain { is_plain call.now ≡ true }
    requires cleanups { facility_of call.now ≡ Some facility.Cleanups }
    ensures told { IfOk result (λ a. IsTold w.old w.new (Answered t call.now a) a (λ (s : State P P.State P.Shared). (row_of P.functions s t.0 call.now).begin)) }
    ensures frame { OnOk result (Frame w.old w.new no_numbers (Some t.0) false) }
{
    let Call::CleanupPush { h, v } = call else {
        unreachable!()
    };
    match w.push_cleanup(t, handler_named(*h), *v) {
        Ok(()) => Ok(Answer::Int(1)),
        Err(refusal) => refused(refusal),
    }
}

// A handler that is popped runs, unless the operand is 0.
fn run_popped<P: Program>(
    w: &mut World<P>,
    t: Tid,
    v: i64,
    h: HandlerId,
    arg: i64,
    marks: &mut Marks,
) -> Result<(), OutOfMemory>
    requires whole { WellFormed w.old }
    requires alive { IsAlive w.old.threads t.0 }
    ensures goes { LedTo (StandsFor w.old) (where_so (not (is_zero v)) (runs_handler P.functions t.0 h arg)) w.new marks.old marks.new result }
    ensures handled { OnOk result (IsHandled w.old w.new) }
{
    if v == 0 {
        return Ok(());
    }
    run_told_handler(w, t, h, arg, marks)
}

/// `pth_cleanup_pop`: takes the handler that was pushed last, which runs first unless the operand is 0. EINVAL where none was pushed.
/// After an error the world may only be dropped.
pub fn pop_cleanup<P: Program>(
    w: &mut World<P>,
    t: Tid,
    call: &Call,
    v: i64,
    marks: &mut Marks,
) -> Result<Next, OutOfMemory>
    requires whole { WellFormed w.old }
    requires runs { w.old.scheduler.running ≡ Some t.0 }
    requires call { call.now ≡ CleanupPop v }
    ensures goes { Goes (StandsFor w.old) (begun P.functions t.0 call.now) w.new marks.old marks.new result }
    ensures frame { IfOk result (λ n. Frame w.old w.new no_numbers (runs_after t.0 n) (yields_after n)) }
{
    let Some((h, arg)) = w.cleanup_below(t, 0) else {
        return done(t, call, Answer::Fail(Errno::EINVAL), marks);
    };
    run_popped(w, t, v, h, arg, marks)?;
    w.pop_cleanup(t);
    done(t, call, Answer::Int(1), marks)
}

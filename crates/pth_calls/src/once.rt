//! What is done once: `pth_once`.

ghost use Rattle.std.specs.Prelude.{◌≡◌, Some, IfOk, OnOk, false};
ghost use Rattle.pth_base.specs.declared.call.Call.TheVariants.{Once};
ghost use Rattle.pth_model.specs.Calls.{begun};
ghost use Rattle.pth_model.specs.Cleanups.{once as once_row};
ghost use Rattle.pth_model.specs.Row.{effect_of};
ghost use Rattle.pth_model.specs.State.{State};
ghost use Rattle.pth_model.specs.declared.verdict.Verdict.TheVariants.{Says};
ghost use Rattle.pth_world.specs.Frame.{Frame, runs_after, yields_after};
ghost use Rattle.pth_world.specs.Leading.{Goes, LedTo};
ghost use Rattle.pth_world.specs.Numbering.{no_numbers};
ghost use Rattle.pth_world.specs.Shows.{StandsFor};
ghost use Rattle.pth_world.specs.WellFormed.{WellFormed};

use crate::handler_numbers::handler_named;
use pth_base::answer::Answer;
use pth_base::call::Call;
use pth_base::ids::Tid;
use pth_base::marks::Marks;
use pth_base::memory::OutOfMemory;
use pth_base::program::Program;
use pth_end::answering::done;
use pth_end::handlers::run_told_handler;
use pth_model::next::Next;
use pth_world::world::World;

// Whether it is the first time for a control, and then the handler runs: the answer of the call.
fn use_control<P: Program>(
    w: &mut World<P>,
    t: Tid,
    o: i64,
    h: i64,
    v: i64,
    marks: &mut Marks,
) -> Result<Answer, OutOfMemory>
    requires whole { WellFormed w.old }
    requires runs { w.old.scheduler.running ≡ Some t.0 }
    ensures verdict { IfOk result (λ a. (s : State P P.State P.Shared) → StandsFor w.old s → (once_row P.functions s t.0 o h v).begin.verdict ≡ Says a) }
    ensures goes { LedTo (StandsFor w.old) (λ (s : State P P.State P.Shared). effect_of (once_row P.functions s t.0 o h v).begin s) w.new marks.old marks.new result }
    ensures frame { OnOk result (Frame w.old w.new no_numbers (Some t.0) false) }
{
    match w.once(o) {
        Ok(true) => {
            run_told_handler(w, t, handler_named(h), v, marks)?;
            Ok(Answer::Int(1))
        }
        Ok(false) => Ok(Answer::Int(1)),
        Err(e) => Ok(Answer::Fail(e)),
    }
}

/// `pth_once`: the thread runs a handler, the first time that this is called for a control. EINVAL where the control is not one of 0
/// to 63. After an error the world may only be dropped.
pub fn once<P: Program>(
    w: &mut World<P>,
    t: Tid,
    call: &Call,
    o: i64,
    h: i64,
    v: i64,
    marks: &mut Marks,
) -> Result<Next, OutOfMemory>
    requires whole { WellFormed w.old }
    requires runs { w.old.scheduler.running ≡ Some t.0 }
    requires call { call.now ≡ Once o h v }
    ensures goes { Goes (StandsFor w.old) (begun P.functions t.0 call.now) w.new marks.old marks.new result }
    ensures frame { IfOk result (λ n. Frame w.old w.new no_numbers (runs_after t.0 n) (yields_after n)) }
{
    let answer = use_control(w, t, o, h, v, marks)?;
    done(t, call, answer, marks)
}

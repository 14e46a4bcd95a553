//! Conditions: `pth_cond_init`, `pth_cond_notify`. `pth_cond_await` may block its thread, and stands with the calls that do.

ghost use Rattle.std.specs.Prelude.{◌≡◌, true, false, Some};
ghost use Rattle.pth_base.specs.Facilities.{facility_of};
ghost use Rattle.pth_base.specs.declared.facility.Facility.TheVariants as facility;
ghost use Rattle.pth_base.specs.declared.mark.Mark.TheVariants.{Answered};
ghost use Rattle.pth_calls.specs.Plain.{is_plain};
ghost use Rattle.pth_model.specs.Conditions.{cond_init as init_row};
ghost use Rattle.pth_model.specs.Rows.{row_of};
ghost use Rattle.pth_model.specs.State.{State};
ghost use Rattle.pth_world.specs.Frame.{Frame};
ghost use Rattle.pth_world.specs.Leading.{IsAnswered, IsQuiet};
ghost use Rattle.pth_world.specs.Numbering.{no_numbers};
ghost use Rattle.pth_world.specs.WellFormed.{WellFormed};

use pth_base::answer::Answer;
use pth_base::call::Call;
use pth_base::ids::Tid;
use pth_base::program::Program;
use pth_end::acts::notify;
use pth_end::saying::answer_of;
use pth_world::world::World;

// pth_cond_init: a condition can be awaited and notified from now on.
fn init_condition<P: Program>(w: &mut World<P>, c: i64) -> Answer
    requires whole { WellFormed w.old }
    ensures answered { IsAnswered w.old w.new result (λ (s : State P P.State P.Shared). (init_row s c).begin) }
    ensures frame { Frame w.old w.new no_numbers w.old.scheduler.running false }
{
    answer_of(w.conditions_mut().init(c))
}

/// The answer of a call on conditions that does not block its thread.
pub(crate) fn answer_conditions<P: Program>(w: &mut World<P>, t: Tid, call: &Call) -> Answer
    requires whole { WellFormed w.old }
    requires runs { w.old.scheduler.running ≡ Some t.0 }
    requires conditions { facility_of call.now ≡ Some facility.Conditions }
    requires plain { is_plain call.now ≡ true }
    ensures answered { IsAnswered w.old w.new result (λ (s : State P P.State P.Shared). (row_of P.functions s t.0 call.now).begin) }
    ensures quiet { IsQuiet (Answered t call.now result) }
    ensures frame { Frame w.old w.new no_numbers (Some t.0) false }
{
    match call {
        Call::CondInit(c) => init_condition(w, *c),
        Call::CondNotify { c, v } => notify(w, *c, *v),
        _ => unreachable!(),
    }
}

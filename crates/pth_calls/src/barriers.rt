//! Barriers: `pth_barrier_init`.

ghost use Rattle.std.specs.Prelude.{◌≡◌, true, false, Some, IfOk, OnOk};
ghost use Rattle.pth_base.specs.Facilities.{facility_of};
ghost use Rattle.pth_base.specs.declared.facility.Facility.TheVariants as facility;
ghost use Rattle.pth_base.specs.declared.mark.Mark.TheVariants.{Answered};
ghost use Rattle.pth_calls.specs.Plain.{is_plain};
ghost use Rattle.pth_model.specs.Barriers.{barrier_init as init_row};
ghost use Rattle.pth_model.specs.Rows.{row_of};
ghost use Rattle.pth_model.specs.State.{State};
ghost use Rattle.pth_world.specs.Frame.{Frame};
ghost use Rattle.pth_world.specs.Leading.{IsAnswered, IsQuiet};
ghost use Rattle.pth_world.specs.Numbering.{no_numbers};
ghost use Rattle.pth_world.specs.WellFormed.{WellFormed};

use pth_base::answer::Answer;
use pth_base::call::Call;
use pth_base::ids::Tid;
use pth_base::memory::OutOfMemory;
use pth_base::program::Program;
use pth_end::saying::refused;
use pth_world::world::World;

// pth_barrier_init: a barrier lets so many threads pass together.
fn init_barrier<P: Program>(w: &mut World<P>, b: i64, n: i64) -> Result<Answer, OutOfMemory>
    requires whole { WellFormed w.old }
    ensures answered { IfOk result (λ a. IsAnswered w.old w.new a (λ (s : State P P.State P.Shared). (init_row s b n).begin)) }
    ensures frame { OnOk result (Frame w.old w.new no_numbers w.old.scheduler.running false) }
{
    match w.barriers_mut().init(b, n) {
        Ok(()) => Ok(Answer::Int(1)),
        Err(refusal) => refused(refusal),
    }
}

/// The answer of a call on barriers that never blocks its thread.
pub(crate) fn answer_barriers<P: Program>(
    w: &mut World<P>,
    t: Tid,
    call: &Call,
) -> Result<Answer, OutOfMemory>
    requires whole { WellFormed w.old }
    requires runs { w.old.scheduler.running ≡ Some t.0 }
    requires barriers { facility_of call.now ≡ Some facility.Barriers }
    requires plain { is_plain call.now ≡ true }
    ensures answered { IfOk result (λ a. IsAnswered w.old w.new a (λ (s : State P P.State P.Shared). (row_of P.functions s t.0 call.now).begin)) }
    ensures quiet { IfOk result (λ a. IsQuiet (Answered t call.now a)) }
    ensures frame { OnOk result (Frame w.old w.new no_numbers (Some t.0) false) }
{
    match call {
        Call::BarrierInit { b, n } => init_barrier(w, *b, *n),
        _ => unreachable!(),
    }
}

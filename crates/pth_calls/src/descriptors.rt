//! Descriptors: `close`.

ghost use Rattle.std.specs.Prelude.{◌≡◌, ℕ, true, false, Some};
ghost use Rattle.pth_base.specs.Facilities.{facility_of};
ghost use Rattle.pth_base.specs.declared.facility.Facility.TheVariants as facility;
ghost use Rattle.pth_base.specs.declared.mark.Mark.TheVariants.{Answered};
ghost use Rattle.pth_calls.specs.Plain.{is_plain};
ghost use Rattle.pth_model.specs.Io.{close as close_row};
ghost use Rattle.pth_model.specs.Rows.{row_of};
ghost use Rattle.pth_model.specs.State.{State};
ghost use Rattle.pth_model.specs.Transition.{tid};
ghost use Rattle.pth_world.specs.Frame.{Frame};
ghost use Rattle.pth_world.specs.Leading.{IsAnswered, IsQuiet};
ghost use Rattle.pth_world.specs.Numbering.{no_numbers};
ghost use Rattle.pth_world.specs.WellFormed.{WellFormed};

use pth_base::answer::Answer;
use pth_base::call::Call;
use pth_base::program::Program;
use pth_end::saying::answer_of;
use pth_world::world::World;

// close: a descriptor is live never again.
fn close<P: Program>(w: &mut World<P>, f: i64) -> Answer
    requires { WellFormed w.old }
    ensures answered { IsAnswered w.old w.new result (λ (s : State P P.State P.Shared). (close_row s f).begin) }
    ensures frame { Frame w.old w.new no_numbers w.old.scheduler.running false }
{
    answer_of(w.kernel_mut().close(f))
}

/// The answer of a call on descriptors that does not block its thread.
pub(crate) fn answer_descriptors<P: Program>(w: &mut World<P>, call: &Call) -> Answer
    requires whole { WellFormed w.old }
    requires plain { is_plain call.now ≡ true }
    requires io { facility_of call.now ≡ Some facility.Io }
    ensures answered { (t : ℕ) → IsAnswered w.old w.new result (λ (s : State P P.State P.Shared). (row_of P.functions s t call.now).begin) }
    ensures quiet { (t : ℕ) → IsQuiet (Answered (tid t) call.now result) }
    ensures frame { Frame w.old w.new no_numbers w.old.scheduler.running false }
{
    match call {
        Call::Close(f) => close(w, *f),
        _ => unreachable!(),
    }
}

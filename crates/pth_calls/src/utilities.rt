//! Utilities: `pth_fdmode`, `pth_timeout`.

ghost use Rattle.std.specs.Prelude.{◌≡◌, ℕ, Some, false};
ghost use Rattle.pth_base.specs.Facilities.{facility_of};
ghost use Rattle.pth_base.specs.declared.facility.Facility.TheVariants as facility;
ghost use Rattle.pth_base.specs.declared.mark.Mark.TheVariants.{Answered};
ghost use Rattle.pth_model.specs.Io.{fdmode as fdmode_row};
ghost use Rattle.pth_model.specs.Rows.{row_of};
ghost use Rattle.pth_model.specs.State.{State};
ghost use Rattle.pth_model.specs.Times.{timeout as timeout_row};
ghost use Rattle.pth_model.specs.Transition.{tid};
ghost use Rattle.pth_world.specs.Frame.{Frame};
ghost use Rattle.pth_world.specs.Leading.{IsAnswered, IsQuiet};
ghost use Rattle.pth_world.specs.Numbering.{no_numbers};
ghost use Rattle.pth_world.specs.WellFormed.{WellFormed};

use pth_base::answer::Answer;
use pth_base::call::Call;
use pth_base::errno::Errno;
use pth_base::program::Program;
use pth_model::times::{micros, moment_after};
use pth_world::world::World;

// pth_fdmode: whether a descriptor blocks from now on, and the mode until now.
fn fdmode<P: Program>(w: &mut World<P>, f: i64, m: i64) -> Answer
    requires { WellFormed w.old }
    ensures answered { IsAnswered w.old w.new result (λ (s : State P P.State P.Shared). (fdmode_row s f m).begin) }
    ensures frame { Frame w.old w.new no_numbers w.old.scheduler.running false }
{
    match w.kernel_mut().mode(f, m) {
        Ok(mode) => Answer::Int(mode),
        Err(e) => Answer::Fail(e),
    }
}

// pth_timeout: the moment that lies so many microseconds ahead.
fn timeout<P: Program>(w: &World<P>, n: i64) -> Answer
    requires { WellFormed w.now }
    ensures { IsAnswered w.now w.now result (λ (s : State P P.State P.Shared). (timeout_row s n).begin) }
{
    if n < 0 {
        return Answer::Fail(Errno::EINVAL);
    }
    Answer::Int(moment_after(w.time(), micros(n)) as i64)
}

/// The answer of a call of the utilities.
pub(crate) fn answer_utilities<P: Program>(w: &mut World<P>, call: &Call) -> Answer
    requires whole { WellFormed w.old }
    requires utilities { facility_of call.now ≡ Some facility.Utilities }
    ensures answered { (t : ℕ) → IsAnswered w.old w.new result (λ (s : State P P.State P.Shared). (row_of P.functions s t call.now).begin) }
    ensures quiet { (t : ℕ) → IsQuiet (Answered (tid t) call.now result) }
    ensures frame { Frame w.old w.new no_numbers w.old.scheduler.running false }
{
    match call {
        Call::Fdmode { f, m } => fdmode(w, *f, *m),
        Call::Timeout(n) => timeout(w, *n),
        _ => unreachable!(),
    }
}

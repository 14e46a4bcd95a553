//! Waiting for a length of time: `pth_nap`, `pth_usleep`, `pth_sleep`.

ghost use Rattle.std.specs.Prelude.{◌≡◌, ℕ, ℤ};
ghost use Rattle.pth_model.specs.State.{State};
ghost use Rattle.pth_model.specs.Times.{length_of, rest};
ghost use Rattle.pth_waits.specs.Rests.{IsRestVerdict};
ghost use Rattle.pth_world.specs.Shows.{StandsFor};
ghost use Rattle.pth_world.specs.WellFormed.{MayAwait};

use pth_base::answer::Answer;
use pth_base::errno::Errno;
use pth_base::ids::Micros;
use pth_base::program::Program;
use pth_model::awaits::Awaits;
use pth_model::times::moment_after;
use pth_model::verdict::Verdict;
use pth_world::world::World;

/// A call waits for a length of time, in microseconds, that its operand gives; it is answered then, or at once if the operand is 0.
/// EINVAL if the operand is negative.
pub(crate) fn rest<P: Program>(w: &World<P>, operand: i64, length: Micros, answer: u32) -> Verdict
    ensures verdict { (s : State P P.State P.Shared) (unit : ℕ) → StandsFor w.now s → length ≡ length_of unit operand → (rest s unit operand answer).begin.verdict ≡ result }
    ensures rests { IsRestVerdict result }
{
    if operand < 0 {
        return Verdict::Says(Answer::Fail(Errno::EINVAL));
    }
    if operand == 0 {
        return Verdict::Says(Answer::Int(i64::from(answer)));
    }
    Verdict::Blocks(Awaits::Moment(moment_after(w.time(), length)))
}

/// Such a call, tried again: it is answered once its moment has come.
pub(crate) fn rest_again<P: Program>(w: &World<P>, awaits: Awaits, answer: u32) -> Verdict
    requires { MayAwait awaits }
    ensures verdict { (s : State P P.State P.Shared) (unit : ℕ) (n : ℤ) → StandsFor w.now s → ((rest s unit n answer).again awaits).verdict ≡ result }
    ensures rests { IsRestVerdict result }
{
    let moment = awaits.moment();
    if moment <= w.time() {
        Verdict::Says(Answer::Int(i64::from(answer)))
    } else {
        Verdict::Blocks(Awaits::Moment(moment))
    }
}

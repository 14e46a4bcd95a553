//! How calls say what a part gave them.

ghost use Rattle.std.specs.Prelude.{◌≡◌, IfOk};
ghost use Rattle.pth_end.specs.Saying.{SaysRefusal};
ghost use Rattle.pth_model.specs.declared.verdict.Verdict.TheVariants.{Says};
ghost use Rattle.pth_model.specs.Verdict.{by_result, done};

use pth_base::answer::Answer;
use pth_base::errno::Errno;
use pth_base::memory::OutOfMemory;
use pth_base::refusal::Refusal;

/// The answer of a call that takes memory and was refused.
pub fn refused(refusal: Refusal) -> Result<Answer, OutOfMemory>
    ensures { IfOk result (λ a. SaysRefusal refusal a) }
{
    match refusal {
        Refusal::Fail(e) => Ok(Answer::Fail(e)),
        Refusal::OutOfMemory => Err(OutOfMemory),
    }
}

/// The answer of a call that has nothing to say.
pub fn answer_of(outcome: Result<(), Errno>) -> Answer
    ensures { by_result done outcome ≡ Says result }
{
    match outcome {
        Ok(()) => Answer::Int(1),
        Err(e) => Answer::Fail(e),
    }
}

//! What all calls tell: their answers.

ghost use Rattle.std.specs.Prelude.{◌≡◌, IfOk, OnOk, OnErr, [], ◌∷◌, ◌++◌};
ghost use Rattle.pth_base.specs.declared.mark.Mark.TheVariants.{Answered};
ghost use Rattle.pth_model.specs.declared.next.Next.TheVariants.{Done};

use pth_base::answer::Answer;
use pth_base::call::Call;
use pth_base::ids::Tid;
use pth_base::mark::Mark;
use pth_base::marks::Marks;
use pth_base::memory::OutOfMemory;
use pth_model::next::Next;

/// Answers a call, and tells of it.
pub fn answer_call(
    t: Tid,
    call: &Call,
    answer: Answer,
    marks: &mut Marks,
) -> Result<Answer, OutOfMemory>
    ensures value { IfOk result (λ a. a ≡ answer) }
    ensures ok { OnOk result (marks.new ≡ marks.old ++ Answered t call.now answer ∷ []) }
    ensures err { OnErr result (marks.new ≡ marks.old) }
{
    marks.push(Mark::Answered {
        tid: t,
        call: call.copy()?,
        answer: answer.copy()?,
    })?;
    Ok(answer)
}

/// Answers a call, and tells of it. Its thread goes on.
pub fn done(t: Tid, call: &Call, answer: Answer, marks: &mut Marks) -> Result<Next, OutOfMemory>
    ensures next { IfOk result (λ n. n ≡ Done answer) }
    ensures ok { OnOk result (marks.new ≡ marks.old ++ Answered t call.now answer ∷ []) }
    ensures err { OnErr result (marks.new ≡ marks.old) }
{
    let answer = answer_call(t, call, answer, marks)?;
    Ok(Next::Done(answer))
}

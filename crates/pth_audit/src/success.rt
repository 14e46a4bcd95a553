//! Calls and acts that are answered with their success.

ghost use Rattle.std.specs.Prelude.{◌≡◌};
ghost use Rattle.pth_audit.specs.Success.{is_one};

use pth_base::answer::Answer;

/// Whether an answer is 1.
pub(crate) fn is_one(answer: &Answer) -> bool
    ensures { result ≡ is_one answer.now }
{
    match answer {
        Answer::Int(n) => *n == 1,
        _ => false,
    }
}

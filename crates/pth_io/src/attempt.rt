//! What an attempt comes to.

ghost use Rattle.std.specs.Prelude.{◌≡◌, ◌<◌, ◌^◌, Some};
ghost use Rattle.pth_io.specs.Answered.{answered};
ghost use Rattle.pth_io.specs.Attempts.{fails, counts};
ghost use Rattle.pth_numbered.specs.Clauses.{count_or};

use pth_base::answer::Answer;
use pth_base::errno::Errno;

/// An answer, or that the call is not to be answered yet.
#[derive(Drop)]
pub enum Attempt {
    Done(Answer),
    NotYet,
}

impl Attempt {
    ghost use Rattle.std.specs.Prelude.{◌≡◌};
    ghost use Rattle.pth_io.specs.Answered.{answered};

    /// The answer, where there is one.
    pub fn answer(self) -> Option<Answer>
        ensures { result ≡ answered self }
    {
        match self {
            Attempt::Done(answer) => Some(answer),
            Attempt::NotYet => None,
        }
    }
}

pub(crate) fn fails(e: Errno) -> Attempt
    ensures { answered result ≡ fails e }
{
    Attempt::Done(Answer::Fail(e))
}

pub(crate) fn counts(n: usize) -> Attempt
    requires { n < 2 ^ 63 }
    ensures { answered result ≡ counts n }
{
    Attempt::Done(Answer::Int(n as i64))
}

// The count where a part was done, else an error.
pub(crate) fn counts_or(n: usize, e: Errno) -> Attempt
    requires { n < 2 ^ 63 }
    ensures { answered result ≡ Some (count_or n e) }
{
    if n > 0 { counts(n) } else { fails(e) }
}

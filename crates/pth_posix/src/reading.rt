//! How the answers of calls of Pth are read.

ghost use Rattle.std.specs.Prelude.{◌≡◌};
ghost use Rattle.pth_posix.specs.Plan.{value, zero, barrier_answer, as_eperm, as_einval, as_value_0, as_timed_out};

use crate::panswer::PAnswer;
use pth_base::answer::Answer;
use pth_base::errno::Errno;

/// A number as the value, an error as it is, and any other answer as none.
pub(crate) fn value(answer: &Answer) -> PAnswer
    ensures { result ≡ value answer.now }
{
    match answer {
        Answer::Int(n) => PAnswer::Value(*n),
        Answer::Fail(e) => PAnswer::Fail(*e),
        _ => PAnswer::None,
    }
}

/// A number as 0, an error as it is, and any other answer as none.
pub(crate) fn zero(answer: &Answer) -> PAnswer
    ensures { result ≡ zero answer.now }
{
    match answer {
        Answer::Int(_) => PAnswer::Value(0),
        Answer::Fail(e) => PAnswer::Fail(*e),
        _ => PAnswer::None,
    }
}

/// The same, but -2 as -1: that of the last of a barrier's round.
pub(crate) fn barrier_answer(answer: &Answer) -> PAnswer
    ensures { result ≡ barrier_answer answer.now }
{
    match answer {
        Answer::Int(-2) => PAnswer::Value(-1),
        _ => zero(answer),
    }
}

/// EPERM in place of EDEADLK and EACCES: a thread gives up what it does not have.
pub(crate) fn as_eperm(answer: PAnswer) -> PAnswer
    ensures { result ≡ as_eperm answer }
{
    match answer {
        PAnswer::Fail(Errno::EDEADLK | Errno::EACCES) => PAnswer::Fail(Errno::EPERM),
        _ => answer,
    }
}

/// EINVAL in place of ENOENT: a key is not live.
pub(crate) fn as_einval(answer: PAnswer) -> PAnswer
    ensures { result ≡ as_einval answer }
{
    match answer {
        PAnswer::Fail(Errno::ENOENT) => PAnswer::Fail(Errno::EINVAL),
        _ => answer,
    }
}

/// The value 0 in place of ENOENT: a key is not live.
pub(crate) fn as_value_0(answer: PAnswer) -> PAnswer
    ensures { result ≡ as_value_0 answer }
{
    match answer {
        PAnswer::Fail(Errno::ENOENT) => PAnswer::Value(0),
        _ => answer,
    }
}

/// The end of a wait by its moment in place of EINTR.
pub(crate) fn as_timed_out(answer: PAnswer) -> PAnswer
    ensures { result ≡ as_timed_out answer }
{
    match answer {
        PAnswer::Fail(Errno::EINTR) => PAnswer::TimedOut,
        _ => answer,
    }
}

//! The cancel state of Pth, taken apart.

ghost use Rattle.std.specs.Prelude.{◌≡◌, true};
ghost use Rattle.pth_posix.specs.Plan.{cancel_state, is_cancel_state, is_flag, old, state_in, type_in};

use crate::panswer::PAnswer;
use crate::reading::value;
use pth_base::answer::Answer;

/// Whether it is 0 or 1.
pub(crate) fn is_flag(n: i64) -> bool
    ensures { result ≡ is_flag n }
{
    0 <= n && n <= 1
}

/// Whether it is a cancel state of Pth.
pub(crate) fn is_cancel_state(n: i64) -> bool
    ensures { result ≡ is_cancel_state n }
{
    1 <= n && n <= 4
}

/// The cancel state of Pth for a state and a type of POSIX.
pub(crate) fn cancel_state(state: i64, kind: i64) -> i64
    requires state { is_flag state ≡ true }
    requires kind { is_flag kind ≡ true }
    ensures { result ≡ cancel_state state kind }
{
    1 + state + 2 * kind
}

/// The type of POSIX in a cancel state.
pub(crate) fn type_in(n: i64) -> i64
    ensures value { result ≡ type_in n }
    ensures flag { is_flag result ≡ true }
{
    if n <= 2 { 0 } else { 1 }
}

/// The state of POSIX in a cancel state.
pub(crate) fn state_in(n: i64) -> i64
    requires { is_cancel_state n ≡ true }
    ensures value { result ≡ state_in n }
    ensures flag { is_flag result ≡ true }
{
    n - cancel_state(0, type_in(n))
}

/// The old state.
pub(crate) fn old_state(answer: &Answer) -> PAnswer
    ensures { result ≡ old state_in answer.now }
{
    match answer {
        Answer::Int(n) if is_cancel_state(*n) => PAnswer::Value(state_in(*n)),
        Answer::Int(_) => PAnswer::None,
        _ => value(answer),
    }
}

/// The old type.
pub(crate) fn old_type(answer: &Answer) -> PAnswer
    ensures { result ≡ old type_in answer.now }
{
    match answer {
        Answer::Int(n) if is_cancel_state(*n) => PAnswer::Value(type_in(*n)),
        Answer::Int(_) => PAnswer::None,
        _ => value(answer),
    }
}

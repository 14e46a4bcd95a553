//! Answers as numbers.

ghost use Rattle.std.specs.Prelude.{◌≡◌};
ghost use Rattle.pth_operand.specs.LastAnswer.{error_of, number_of_answer, message_number};

use pth_base::answer::Answer;

/// What `err` becomes.
pub(crate) fn error_of(answer: &Answer) -> i64
    ensures { result ≡ error_of answer.now }
{
    match answer {
        Answer::Fail(e) => e.number(),
        _ => 0,
    }
}

/// The number that goes to a register.
pub(crate) fn number_of(answer: &Answer) -> i64
    ensures { result ≡ number_of_answer answer.now }
{
    match answer {
        Answer::None => 0,
        Answer::Int(n) => *n,
        Answer::Bytes(bytes) => bytes.as_slice().len() as i64,
        Answer::Sets { count, .. } => *count,
        Answer::Text(name) => name.as_str().len() as i64,
        Answer::Msg { value, .. } => *value,
        Answer::Fail(_) => -1,
    }
}

/// The number of a message, and the greatest number of 64 bits where it is beyond that.
pub(crate) fn message_number(id: u64) -> i64
    ensures { result ≡ message_number id }
{
    i64::try_from(id).unwrap_or(i64::MAX)
}

//! Answers as words.

ghost use Rattle.pth_print.specs.Adding.{AddsText};
ghost use Rattle.pth_print.specs.SpacedWords.{spaced};
ghost use Rattle.pth_print.specs.WordTexts.{phrase_of};
ghost use Rattle.pth_print.specs.AnswerWords.{answer_words, errno_word};
ghost use Rattle.std.specs.Prelude.{◌≡◌, ◌∷◌, ◌++◌, codes};

use crate::word::Word::{Hex, Natural, Number, Plain, Set};
use crate::word::{Word, add_words};
use pth_base::answer::Answer;
use pth_base::errno::Errno;
use pth_base::memory::OutOfMemory;
use pth_text::text::Text;

/// The name of an error.
fn errno_word(e: Errno) -> &'static [u8]
    ensures { result.now ≡ errno_word e }
{
    match e {
        Errno::EPERM => b"EPERM",
        Errno::ENOENT => b"ENOENT",
        Errno::ESRCH => b"ESRCH",
        Errno::EINTR => b"EINTR",
        Errno::EIO => b"EIO",
        Errno::EBADF => b"EBADF",
        Errno::EAGAIN => b"EAGAIN",
        Errno::EACCES => b"EACCES",
        Errno::EBUSY => b"EBUSY",
        Errno::EEXIST => b"EEXIST",
        Errno::EINVAL => b"EINVAL",
        Errno::EDEADLK => b"EDEADLK",
        Errno::ECONNREFUSED => b"ECONNREFUSED",
    }
}

/// Adds the words of an answer, each after a space.
fn add_answer(answer: &Answer, out: &mut Text) -> Result<(), OutOfMemory>
    ensures { AddsText out.old out.new result (spaced (answer_words answer.now)) }
{
    let word = match answer {
        Answer::None => Plain(b"none"),
        Answer::Int(n) => Number(n),
        Answer::Bytes(bytes) => Hex(bytes.as_slice()),
        Answer::Text(name) => Plain(name.as_str().as_bytes()),
        Answer::Fail(e) => Plain(errno_word(*e)),
        Answer::Sets { count, r, w, x } => {
            return add_words(
                &[Number(count), Plain(b"sets"), Set(*r), Set(*w), Set(*x)],
                out,
            );
        }
        Answer::Msg { id, value } => {
            return add_words(
                &[Plain(b"msg"), Natural(id.0), Plain(b"value"), Number(value)],
                out,
            );
        }
    };
    add_words(&[word], out)
}

/// Adds `=` and the words of an answer, each after a space.
pub fn add_equals(answer: &Answer, out: &mut Text) -> Result<(), OutOfMemory>
    ensures { AddsText out.old out.new result (spaced (codes "=" ∷ answer_words answer.now)) }
{
    out.push(b" =")?;
    add_answer(answer, out)
}

/// Adds words and those of an answer, each after a space.
pub fn add_answer_after(
    words: &[Word<'_>],
    answer: &Answer,
    out: &mut Text,
) -> Result<(), OutOfMemory>
    ensures { AddsText out.old out.new result (phrase_of words.now ++ spaced (answer_words answer.now)) }
{
    add_words(words, out)?;
    add_answer(answer, out)
}

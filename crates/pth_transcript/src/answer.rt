//! Answers, read.

ghost use Rattle.std.specs.Prelude.{◌≡◌, ◌<◌, ℕ, List, [], ◌∷◌, All, Some, IfOk, IfSome, option_map, slice_index};
ghost use Rattle.pth_base.specs.declared.answer.Answer.{Answer};
ghost use Rattle.pth_base.specs.declared.answer.Answer.TheVariants as answer;
ghost use Rattle.pth_text.specs.Hex.{hex_of};
ghost use Rattle.pth_spelling.specs.Texts.{texts};
ghost use Rattle.pth_spelling.specs.WordMeanings.{name_of};
ghost use Rattle.pth_print.specs.WordTexts.{hex_word};
ghost use Rattle.pth_transcript.specs.AnswerMeanings.{errno_of, refusal_of, message_of, sets_of, IsPlainAnswerBack, IsNameAnswerBack};
ghost use Rattle.pth_transcript.specs.ReadableAnswers.{IsReadablePlainAnswer, IsReadableNameAnswer};

use crate::number::natural;
use pth_base::answer::Answer;
use pth_base::bytes::Bytes;
use pth_base::errno::Errno;
use pth_base::ids::MsgId;
use pth_base::memory::OutOfMemory;
use pth_spelling::named::named;
use pth_spelling::words::{name, set};
use pth_text::hex::read_hex;
use pth_text::number::read_number;
use std::alloc::Global;

static ERRORS: [(&str, Errno); 13] = [
    ("EPERM", Errno::EPERM),
    ("ENOENT", Errno::ENOENT),
    ("ESRCH", Errno::ESRCH),
    ("EINTR", Errno::EINTR),
    ("EIO", Errno::EIO),
    ("EBADF", Errno::EBADF),
    ("EAGAIN", Errno::EAGAIN),
    ("EACCES", Errno::EACCES),
    ("EBUSY", Errno::EBUSY),
    ("EEXIST", Errno::EEXIST),
    ("EINVAL", Errno::EINVAL),
    ("EDEADLK", Errno::EDEADLK),
    ("ECONNREFUSED", Errno::ECONNREFUSED),
];

/// The error of a name.
#[tactic(auto, unfolding(crate::specs::AnswerMeanings::errno_of))]
fn errno(word: &[u8]) -> Option<Errno>
    ensures { result ≡ errno_of word.now }
{
    named(&ERRORS, word)
}

/// A call's refusal, by the error's name.
#[tactic(auto, unfolding(crate::specs::AnswerMeanings::refusal_of))]
fn refusal(word: &[u8]) -> Option<Answer>
    ensures { result ≡ refusal_of word.now }
{
    let e = errno(word)?;
    Some(Answer::Fail(e))
}

/// The most digits that `read_hex` reads at once.
const PIECE: usize = 4096;

/// The bytes that any number of pairs of digits spell.
fn joined(alloc: Global, digits: &[u8]) -> Result<Option<Bytes>, OutOfMemory>
    ensures back { IfOk result
        (λ found. (bs : List ℕ) → All (λ b. b < 256) bs → digits.now ≡ hex_of bs → found ≡ Some bs) }
    ensures readable { IfOk result (λ found. IfSome found (λ bs. All (λ b. b < 256) bs)) }
{
    let mut bytes = Vec::new(alloc);
    for piece in digits.chunks(PIECE) {
        let Some(more) = read_hex(alloc, piece)? else {
            return Ok(None);
        };
        bytes.extend_from_slice(more.as_slice())?;
    }
    Ok(Some(Bytes::from_slice(alloc, bytes.as_slice())?))
}

/// The bytes that `hex:` and any number of pairs of digits spell.
pub fn bytes(alloc: Global, word: &[u8]) -> Result<Option<Bytes>, OutOfMemory>
    ensures back { IfOk result
        (λ found. (bs : List ℕ) → All (λ b. b < 256) bs → word.now ≡ hex_word bs → found ≡ Some bs) }
    ensures readable { IfOk result (λ found. IfSome found (λ bs. All (λ b. b < 256) bs)) }
{
    match word {
        [b'h', b'e', b'x', b':', digits @ ..] => joined(alloc, digits),
        _ => Ok(None),
    }
}

/// Bytes that were read.
fn read_bytes(alloc: Global, word: &[u8]) -> Result<Option<Answer>, OutOfMemory>
    ensures back { IfOk result
        (λ found. (bs : List ℕ) → All (λ b. b < 256) bs → word.now ≡ hex_word bs
        → found ≡ Some (answer.Bytes bs)) }
    ensures readable { IfOk result (λ found. IfSome found IsReadablePlainAnswer) }
{
    Ok(bytes(alloc, word)?.map(|bytes| Answer::Bytes(bytes)))
}

/// An answer of one word, by its first byte. A word that begins with `n` is taken for `none`.
fn by_first(alloc: Global, first: u8, word: &[u8]) -> Result<Option<Answer>, OutOfMemory>
    requires { first ≡ slice_index word.now 0 }
    ensures back { IfOk result (λ found. IsPlainAnswerBack (word.now ∷ []) found) }
    ensures readable { IfOk result (λ found. IfSome found IsReadablePlainAnswer) }
{
    if first == b'E' {
        return Ok(refusal(word));
    }
    if first == b'h' {
        return read_bytes(alloc, word);
    }
    if first == b'n' {
        return Ok(Some(Answer::None));
    }
    Ok(read_number(word).map(|n| Answer::Int(n)))
}

/// The first byte of a word, 0 if there is none.
fn first_byte(word: &[u8]) -> u8
    ensures { result ≡ slice_index word.now 0 }
{
    if word.is_empty() { 0 } else { word[0] }
}

/// An answer of one word.
fn one_word(alloc: Global, word: &[u8]) -> Result<Option<Answer>, OutOfMemory>
    ensures back { IfOk result (λ found. IsPlainAnswerBack (word.now ∷ []) found) }
    ensures readable { IfOk result (λ found. IfSome found IsReadablePlainAnswer) }
{
    by_first(alloc, first_byte(word), word)
}

/// A message that was got.
#[tactic(auto, unfolding(crate::specs::AnswerMeanings::message_of))]
fn message(id: &[u8], value: &[u8]) -> Option<Answer>
    ensures { result ≡ message_of id.now value.now }
{
    let id = natural(id)?;
    let Some(value) = read_number(value) else {
        return None;
    };
    Some(Answer::Msg {
        id: MsgId(id),
        value,
    })
}

/// How many descriptors are ready, and which.
#[tactic(auto, unfolding(crate::specs::AnswerMeanings::sets_of))]
fn sets(count: &[u8], r: &[u8], w: &[u8], x: &[u8]) -> Option<Answer>
    ensures { result ≡ sets_of count.now r.now w.now x.now }
{
    let Some(count) = read_number(count) else {
        return None;
    };
    let r = set(r)?;
    let w = set(w)?;
    let x = set(x)?;
    Some(Answer::Sets { count, r, w, x })
}

/// An answer that is no text.
pub fn plain_answer(alloc: Global, words: &[&[u8]]) -> Result<Option<Answer>, OutOfMemory>
    ensures back { IfOk result (λ found. IsPlainAnswerBack (texts words.now) found) }
    ensures readable { IfOk result (λ found. IfSome found IsReadablePlainAnswer) }
{
    match words {
        [word] => one_word(alloc, word),
        [_, id, _, value] => Ok(message(id, value)),
        [count, _, r, w, x] => Ok(sets(count, r, w, x)),
        _ => Ok(None),
    }
}

/// A name.
fn text(word: &[u8]) -> Option<Answer>
    ensures { result ≡ option_map (λ name. answer.Text name) (name_of word.now) }
{
    let name = name(word)?;
    Some(Answer::Text(name))
}

/// An answer that is a name or an error, as that of a call which asks for a name.
pub fn name_answer(words: &[&[u8]]) -> Option<Answer>
    ensures back { IsNameAnswerBack (texts words.now) result }
    ensures readable { IfSome result IsReadableNameAnswer }
{
    match words {
        [word] => match refusal(word) {
            Some(answer) => Some(answer),
            None => text(word),
        },
        _ => None,
    }
}

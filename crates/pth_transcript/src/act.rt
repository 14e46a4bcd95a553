//! Acts of handlers, read.

ghost use Rattle.std.specs.Prelude.{◌≡◌, Some, IfOk, IfSome};
ghost use Rattle.pth_base.specs.declared.act.Act.{Act};
ghost use Rattle.pth_base.specs.declared.answer.Answer.{Answer};
ghost use Rattle.pth_spelling.specs.Texts.{texts};
ghost use Rattle.pth_print.specs.AnswerWords.{answer_words};
ghost use Rattle.pth_transcript.specs.AnswerMeanings.{release_of, pair_of, calling_of, note_of, set_act_of, silent_of, IsActedBack, IsReadableActed};
ghost use Rattle.pth_transcript.specs.ReadableAnswers.{IsReadablePlainAnswer};

use crate::answer::plain_answer;
use crate::number::cell;
use crate::split::at_equals;
use pth_base::act::Act;
use pth_base::answer::Answer;
use pth_base::memory::OutOfMemory;
use pth_text::number::read_number;
use std::alloc::Global;

/// An act of a handler and its answer.
#[derive(Drop)]
pub struct Acted {
    pub act: Act,
    pub answer: Answer,
}

/// A mutex that is released.
#[tactic(auto, unfolding(crate::specs::AnswerMeanings::release_of))]
fn release(word: &[u8], m: &[u8]) -> Option<Act>
    ensures { result ≡ release_of word.now m.now }
{
    if word != b"release".as_slice() {
        return None;
    }
    let Some(m) = read_number(m) else {
        return None;
    };
    Some(Act::Release(m))
}

/// An act of two operands that makes a call.
#[tactic(auto, unfolding(crate::specs::AnswerMeanings::pair_of))]
fn pair(word: &[u8], first: &[u8], second: &[u8]) -> Option<Act>
    ensures { result ≡ pair_of word.now first.now second.now }
{
    let Some(x) = read_number(first) else {
        return None;
    };
    let Some(y) = read_number(second) else {
        return None;
    };
    if word == b"notify".as_slice() {
        Some(Act::Notify(x, y))
    } else if word == b"put".as_slice() {
        Some(Act::Put(x, y))
    } else if word == b"setkey".as_slice() {
        Some(Act::SetKey(x, y))
    } else {
        None
    }
}

/// An act that makes a call.
fn calling(words: &[&[u8]]) -> Option<Act>
    ensures { result ≡ calling_of (texts words.now) }
{
    match words {
        [word, m] => release(word, m),
        [word, first, second] => pair(word, first, second),
        _ => None,
    }
}

/// An act that makes a call, with its answer.
fn answered(alloc: Global, act: &[&[u8]], answer: &[&[u8]]) -> Result<Option<Acted>, OutOfMemory>
    ensures back { IfOk result
        (λ found. (x : Act) (a : Answer) → calling_of (texts act.now) ≡ Some x
        → IsReadablePlainAnswer a → texts answer.now ≡ answer_words a
        → found ≡ Some (record { act = x; answer = a })) }
    ensures readable { IfOk result (λ found. IfSome found IsReadableActed) }
{
    let Some(act) = calling(act) else {
        return Ok(None);
    };
    Ok(plain_answer(alloc, answer)?.map(|answer| Acted { act, answer }))
}

/// A note.
#[tactic(auto, unfolding(crate::specs::AnswerMeanings::note_of))]
fn note(word: &[u8], v: &[u8]) -> Option<Acted>
    ensures { result ≡ note_of word.now v.now }
{
    if word != b"note".as_slice() {
        return None;
    }
    let Some(v) = read_number(v) else {
        return None;
    };
    Some(Acted {
        act: Act::Note(v),
        answer: Answer::None,
    })
}

/// A shared value that is set.
#[tactic(auto, unfolding(crate::specs::AnswerMeanings::set_act_of))]
fn set(word: &[u8], v: &[u8], n: &[u8]) -> Option<Acted>
    ensures { result ≡ set_act_of word.now v.now n.now }
{
    if word != b"set".as_slice() {
        return None;
    }
    let v = cell(v)?;
    let Some(n) = read_number(n) else {
        return None;
    };
    Some(Acted {
        act: Act::Set(v, n),
        answer: Answer::None,
    })
}

/// An act that makes no call.
fn silent(words: &[&[u8]]) -> Option<Acted>
    ensures { result ≡ silent_of (texts words.now) }
{
    match words {
        [word, v] => note(word, v),
        [word, v, n] => set(word, v, n),
        _ => None,
    }
}

/// An act of a handler.
pub fn handler_act(alloc: Global, words: &[&[u8]]) -> Result<Option<Acted>, OutOfMemory>
    ensures back { IfOk result (λ found. IsActedBack (texts words.now) found) }
    ensures readable { IfOk result (λ found. IfSome found IsReadableActed) }
{
    match at_equals(words) {
        Some((act, answer)) => answered(alloc, act, answer),
        None => Ok(silent(words)),
    }
}

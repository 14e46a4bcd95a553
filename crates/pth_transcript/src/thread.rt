//! Marks of a thread, read.

ghost use Rattle.std.specs.Prelude.{◌≡◌, Some, IfOk, IfSome, false};
ghost use Rattle.pth_base.specs.declared.act.Act.{Act};
ghost use Rattle.pth_base.specs.declared.answer.Answer.{Answer};
ghost use Rattle.pth_base.specs.declared.mark.Mark.TheVariants as mark;
ghost use Rattle.pth_print.specs.MarkLines.{acted_words};
ghost use Rattle.pth_spelling.specs.Texts.{texts};
ghost use Rattle.pth_transcript.specs.AnswerMeanings.{IsAnswerBack};
ghost use Rattle.pth_transcript.specs.MarkMeanings.{valued_of, taken_of, given_of, held_of, run_of, plain_of, unanswered_of};
ghost use Rattle.pth_transcript.specs.ReadableAnswers.{asks_name, IsReadableAnswer, IsReadableAct};
ghost use Rattle.pth_transcript.specs.ReadableMarks.{IsReadableMark, IsAnsweredBack, IsMarkBack, IsThreadMarkBack, IsUnansweredBack};

use crate::act::handler_act;
use crate::answer::{name_answer, plain_answer};
use crate::call::call;
use crate::number::{index, object, thread};
use crate::split::at_equals;
use pth_base::answer::Answer;
use pth_base::attr::AttrField;
use pth_base::call::Call;
use pth_base::ids::{HandlerId, Tid};
use pth_base::mark::Mark;
use pth_base::memory::OutOfMemory;
use pth_base::query::Query;
use pth_text::number::read_number;
use std::alloc::Global;

/// What a thread tells with one number: its end, a note, or a barrier that it leaves.
fn valued(tid: Tid, word: &[u8], number: &[u8]) -> Option<Mark>
    ensures { result ≡ valued_of tid word.now number.now }
{
    if word == b"ends".as_slice() {
        let value = read_number(number)?;
        return Some(Mark::Ended { tid, value });
    }
    if word == b"note".as_slice() {
        let value = read_number(number)?;
        return Some(Mark::Noted { tid, value });
    }
    if word == b"withdraws".as_slice() {
        let barrier = object(number)?;
        return Some(Mark::Withdrew { tid, barrier });
    }
    None
}

/// A mutex that a thread takes.
fn taken(tid: Tid, kind: &[u8], number: &[u8]) -> Option<Mark>
    ensures { result ≡ taken_of tid kind.now number.now }
{
    if kind == b"mutex".as_slice() {
        let mutex = object(number)?;
        return Some(Mark::Took { tid, mutex });
    }
    None
}

/// A mutex or a read-write lock that a thread gives up.
fn given(tid: Tid, kind: &[u8], number: &[u8]) -> Option<Mark>
    ensures { result ≡ given_of tid kind.now number.now }
{
    if kind == b"mutex".as_slice() {
        let mutex = object(number)?;
        return Some(Mark::GaveMutex { tid, mutex });
    }
    if kind == b"rwlock".as_slice() {
        let lock = object(number)?;
        return Some(Mark::GaveLock { tid, lock });
    }
    None
}

/// A mutex that a thread takes, or a mutex or a read-write lock that it gives up.
fn held(tid: Tid, word: &[u8], kind: &[u8], number: &[u8]) -> Option<Mark>
    ensures { result ≡ held_of tid word.now kind.now number.now }
{
    if word == b"takes".as_slice() {
        return taken(tid, kind, number);
    }
    if word == b"gives".as_slice() {
        return given(tid, kind, number);
    }
    None
}

/// A handler or a destructor that runs with an argument.
fn run(tid: Tid, word: &[u8], number: &[u8], arg: &[u8]) -> Option<Mark>
    ensures { result ≡ run_of tid word.now number.now arg.now }
{
    if word == b"handler".as_slice() {
        let handler = HandlerId(index(number)?);
        let arg = read_number(arg)?;
        return Some(Mark::Handler { tid, handler, arg });
    }
    if word == b"destructor".as_slice() {
        let key = object(number)?;
        let arg = read_number(arg)?;
        return Some(Mark::Destructor { tid, key, arg });
    }
    None
}

/// A mark that tells no call and no act.
fn plain(tid: Tid, words: &[&[u8]]) -> Option<Mark>
    ensures { result ≡ plain_of tid (texts words.now) }
{
    match words {
        [word] if *word == b"canceled".as_slice() => Some(Mark::Canceled { tid, call: None }),
        [word, number] => valued(tid, word, number),
        [word, kind, number] => held(tid, word, kind, number),
        [word, number, _, arg] => run(tid, word, number, arg),
        _ => None,
    }
}

/// An act of a handler that the thread runs.
fn act(alloc: Global, tid: Tid, words: &[&[u8]]) -> Result<Option<Mark>, OutOfMemory>
    ensures back { IfOk result
        (λ found. (x : Act) (a : Answer) → IsReadableAct x a → texts words.now ≡ acted_words x a
        → found ≡ Some (mark.Acted tid x a)) }
    ensures readable { IfOk result (λ found. IfSome found (IsReadableMark false)) }
{
    Ok(handler_act(alloc, words)?.map(|told| Mark::Acted {
        tid,
        act: told.act,
        answer: told.answer,
    }))
}

/// Whether a call asks for a name.
fn asks_name(call: &Call) -> bool
    ensures { result ≡ asks_name call.now }
{
    match call {
        Call::Ctrl(Query::Name(_))
        | Call::AttrGet {
            f: AttrField::Name,
            ..
        } => true,
        _ => false,
    }
}

/// The answer to a call.
fn answer(alloc: Global, call: &Call, words: &[&[u8]]) -> Result<Option<Answer>, OutOfMemory>
    ensures back { IfOk result (λ found. IsAnswerBack call.now (texts words.now) found) }
    ensures readable { IfOk result (λ found. IfSome found (IsReadableAnswer call.now)) }
{
    if asks_name(call) {
        return Ok(name_answer(words));
    }
    plain_answer(alloc, words)
}

/// A call and its answer.
fn answered(
    alloc: Global,
    tid: Tid,
    words: &[&[u8]],
    answer_texts: &[&[u8]],
) -> Result<Option<Mark>, OutOfMemory>
    ensures back { IfOk result
        (λ found. IsAnsweredBack tid (texts words.now) (texts answer_texts.now) found) }
    ensures readable { IfOk result (λ found. IfSome found (IsReadableMark false)) }
{
    let Some(call) = call(alloc, words)? else {
        return Ok(None);
    };
    Ok(answer(alloc, &call, answer_texts)?.map(|answer| Mark::Answered { tid, call, answer }))
}

/// A mark with a call that is not answered, by its last word.
#[tactic(auto, unfolding(crate::specs::MarkMeanings::unanswered_of))]
fn unfinished(tid: Tid, last: &[u8], call: Call) -> Option<Mark>
    ensures { result ≡ unanswered_of tid last.now call }
{
    if last == b"waits".as_slice() {
        Some(Mark::Waits { tid, call })
    } else if last == b"retakes".as_slice() {
        Some(Mark::Retakes { tid, call })
    } else if last == b"canceled".as_slice() {
        Some(Mark::Canceled {
            tid,
            call: Some(call),
        })
    } else {
        None
    }
}

/// A call that suspends its thread, or in which the thread is canceled.
fn unanswered(alloc: Global, tid: Tid, words: &[&[u8]]) -> Result<Option<Mark>, OutOfMemory>
    ensures back { IfOk result (λ found. IsUnansweredBack tid (texts words.now) found) }
    ensures readable { IfOk result (λ found. IfSome found (IsReadableMark false)) }
{
    let [words @ .., last] = words else {
        return Ok(None);
    };
    let Some(call) = call(alloc, words)? else {
        return Ok(None);
    };
    Ok(unfinished(tid, last, call))
}

/// A mark of a thread, by the words behind it.
fn mark_of(alloc: Global, tid: Tid, words: &[&[u8]]) -> Result<Option<Mark>, OutOfMemory>
    ensures back { IfOk result (λ found. IsMarkBack tid (texts words.now) found) }
    ensures readable { IfOk result (λ found. IfSome found (IsReadableMark false)) }
{
    let [first, rest @ ..] = words else {
        return Ok(None);
    };
    if *first == b"act".as_slice() {
        return act(alloc, tid, rest);
    }
    if let Some((call, answer)) = at_equals(words) {
        return answered(alloc, tid, call, answer);
    }
    if let Some(mark) = plain(tid, words) {
        return Ok(Some(mark));
    }
    unanswered(alloc, tid, words)
}

/// A mark of a thread, by its line's words.
pub fn thread_mark(alloc: Global, words: &[&[u8]]) -> Result<Option<Mark>, OutOfMemory>
    ensures back { IfOk result (λ found. IsThreadMarkBack (texts words.now) found) }
    ensures readable { IfOk result (λ found. IfSome found (IsReadableMark false)) }
{
    let [first, rest @ ..] = words else {
        return Ok(None);
    };
    match thread(first) {
        Some(tid) => mark_of(alloc, tid, rest),
        None => Ok(None),
    }
}

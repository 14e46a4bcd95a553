//! Marks as lines.

ghost use Rattle.std.specs.Prelude.{◌≡◌, [], ◌∷◌, ◌++◌, OnOk, OnErr, codes};
ghost use Rattle.pth_base.specs.Cut.{IsCut};
ghost use Rattle.pth_print.specs.Adding.{AddsText};
ghost use Rattle.pth_print.specs.SpacedWords.{spaced, joined_words};
ghost use Rattle.pth_print.specs.WordTexts.{tid_word};
ghost use Rattle.pth_print.specs.CallWords.{call_words};
ghost use Rattle.pth_print.specs.AnswerWords.{answer_words};
ghost use Rattle.pth_print.specs.MarkLines.{acted_words, mark_words, mark_line};

use crate::act::add_act;
use crate::answer::add_equals;
use crate::call::add_call;
use crate::mark_shape::{
    add_audit, add_moved, add_object, add_run, add_thread_and, add_turn, add_value, add_withdrew,
    add_woke,
};
use crate::word::Word::{Plain, Thread};
use crate::word::{add_line, add_word, add_words};
use pth_base::act::Act;
use pth_base::answer::Answer;
use pth_base::call::Call;
use pth_base::ids::Tid;
use pth_base::mark::Mark;
use pth_base::memory::OutOfMemory;
use pth_text::text::Text;

/// Adds a thread and a call.
fn add_call_of(tid: Tid, call: &Call, out: &mut Text) -> Result<(), OutOfMemory>
    ensures { AddsText out.old out.new result (tid_word tid.0 ++ spaced (call_words call.now)) }
{
    add_word(&Thread(tid), out)?;
    add_call(call, out)
}

/// Adds a thread, its call and what became of it.
fn add_call_and(tid: Tid, call: &Call, word: &[u8], out: &mut Text) -> Result<(), OutOfMemory>
    ensures { AddsText out.old out.new result (joined_words (tid_word tid.0 ∷ (call_words call.now ++ word.now ∷ []))) }
{
    add_call_of(tid, call, out)?;
    add_words(&[Plain(word)], out)
}

/// Adds a thread, its call and the answer.
fn add_answered(tid: Tid, call: &Call, answer: &Answer, out: &mut Text) -> Result<(), OutOfMemory>
    ensures { AddsText out.old out.new result (joined_words (tid_word tid.0 ∷ (call_words call.now ++ codes "=" ∷ answer_words answer.now))) }
{
    add_call_of(tid, call, out)?;
    add_equals(answer, out)
}

/// Adds the thread that runs a handler, with an act of the handler.
fn add_acted(tid: Tid, act: &Act, answer: &Answer, out: &mut Text) -> Result<(), OutOfMemory>
    ensures { AddsText out.old out.new result (joined_words (tid_word tid.0 ∷ codes "act" ∷ acted_words act.now answer.now)) }
{
    add_line(&Thread(tid), &[Plain(b"act")], out)?;
    add_act(act, answer, out)
}

/// Adds the words of a mark, with single spaces between them.
fn add_mark(mark: &Mark, audit: bool, out: &mut Text) -> Result<(), OutOfMemory>
    ensures { AddsText out.old out.new result (joined_words (mark_words audit mark.now)) }
{
    match mark {
        Mark::Dispatch {
            turn,
            at,
            tid,
            rank,
            waited,
            allowed,
        } => {
            add_turn(*turn, *at, *tid, rank, out)?;
            add_audit(audit, *waited, *allowed, out)
        }
        Mark::Answered { tid, call, answer } => add_answered(*tid, call, answer, out),
        Mark::Waits { tid, call } => add_call_and(*tid, call, b"waits", out),
        Mark::Retakes { tid, call } => add_call_and(*tid, call, b"retakes", out),
        Mark::Canceled {
            tid,
            call: Some(call),
        } => add_call_and(*tid, call, b"canceled", out),
        Mark::Canceled { tid, call: None } => add_thread_and(*tid, b"canceled", out),
        Mark::Took { tid, mutex } => add_object(*tid, b"takes", b"mutex", *mutex, out),
        Mark::Withdrew { tid, barrier } => add_withdrew(*tid, *barrier, out),
        Mark::Handler { tid, handler, arg } => add_run(*tid, b"handler", handler.0, arg, out),
        Mark::Destructor { tid, key, arg } => add_run(
            *tid,
            b"destructor",
            u32::from(*key),
            arg,
            out,
        ),
        Mark::Acted { tid, act, answer } => add_acted(*tid, act, answer, out),
        Mark::GaveMutex { tid, mutex } => add_object(*tid, b"gives", b"mutex", *mutex, out),
        Mark::GaveLock { tid, lock } => add_object(*tid, b"gives", b"rwlock", *lock, out),
        Mark::Ended { tid, value } => add_value(*tid, b"ends", value, out),
        Mark::Noted { tid, value } => add_value(*tid, b"note", value, out),
        Mark::Woke { tid, rank } => add_woke(*tid, rank, out),
        Mark::Moved { at } => add_moved(*at, out),
    }
}

/// Adds the line of a mark. With `audit` a dispatch tells how long the thread has waited, and how long it may wait.
pub fn mark_line(m: &Mark, audit: bool, out: &mut Text) -> Result<(), OutOfMemory>
    ensures ok { OnOk result (out.new ≡ out.old ++ mark_line audit m.now) }
    ensures err { OnErr result (IsCut out.old out.new (mark_line audit m.now)) }
{
    add_mark(m, audit, out)?;
    out.push(b"\n")
}

//! Words of marks, by what marks tell, with single spaces between them.

ghost use Rattle.std.specs.Prelude.{[], ◌∷◌, codes, decimal};
ghost use Rattle.pth_print.specs.Adding.{AddsText};
ghost use Rattle.pth_print.specs.MarkLines.{audit_words};
ghost use Rattle.pth_print.specs.WordTexts.{number_word, tid_word};
ghost use Rattle.pth_print.specs.SpacedWords.{spaced, joined_words};

use crate::word::Word::{Natural, Number, Plain, Thread};
use crate::word::{add_line, add_words};
use pth_base::ids::{Micros, Tid};
use pth_base::memory::OutOfMemory;
use pth_text::text::Text;

/// Adds a turn, its moment, and the thread that is dispatched at its rank.
pub fn add_turn(
    turn: u64,
    at: Micros,
    tid: Tid,
    rank: &i64,
    out: &mut Text,
) -> Result<(), OutOfMemory>
    ensures { AddsText out.old out.new result (joined_words (codes "turn" ∷ decimal turn ∷ codes "at" ∷ decimal at ∷ tid_word tid.0 ∷ codes "rank" ∷ number_word rank.now ∷ [])) }
{
    add_line(
        &Plain(b"turn"),
        &[
            Natural(turn),
            Plain(b"at"),
            Natural(at),
            Thread(tid),
            Plain(b"rank"),
            Number(rank),
        ],
        out,
    )
}

/// Adds what an audit tells of a dispatch, where it is asked for.
pub fn add_audit(audit: bool, waited: u64, allowed: u64, out: &mut Text) -> Result<(), OutOfMemory>
    ensures { AddsText out.old out.new result (spaced (audit_words audit waited allowed)) }
{
    if !audit {
        return Ok(());
    }
    add_words(
        &[
            Plain(b"waited"),
            Natural(waited),
            Plain(b"allowed"),
            Natural(allowed),
        ],
        out,
    )
}

/// Adds a thread and a word.
pub fn add_thread_and(tid: Tid, word: &[u8], out: &mut Text) -> Result<(), OutOfMemory>
    ensures { AddsText out.old out.new result (joined_words (tid_word tid.0 ∷ word.now ∷ [])) }
{
    add_line(&Thread(tid), &[Plain(word)], out)
}

/// Adds a thread, and a value after a word.
pub fn add_value<'a>(
    tid: Tid,
    word: &'a [u8],
    value: &'a i64,
    out: &mut Text,
) -> Result<(), OutOfMemory>
    ensures { AddsText out.old out.new result (joined_words (tid_word tid.0 ∷ word.now ∷ number_word value.now ∷ [])) }
{
    add_line(&Thread(tid), &[Plain(word), Number(value)], out)
}

/// Adds a thread, and what it does to an object.
pub fn add_object<'a>(
    tid: Tid,
    word: &'a [u8],
    kind: &'a [u8],
    object: u8,
    out: &mut Text,
) -> Result<(), OutOfMemory>
    ensures { AddsText out.old out.new result (joined_words (tid_word tid.0 ∷ word.now ∷ kind.now ∷ decimal object ∷ [])) }
{
    add_line(
        &Thread(tid),
        &[Plain(word), Plain(kind), Natural(u64::from(object))],
        out,
    )
}

/// Adds a thread, and what it runs with an argument.
pub fn add_run<'a>(
    tid: Tid,
    word: &'a [u8],
    which: u32,
    arg: &'a i64,
    out: &mut Text,
) -> Result<(), OutOfMemory>
    ensures { AddsText out.old out.new result (joined_words (tid_word tid.0 ∷ word.now ∷ decimal which ∷ codes "arg" ∷ number_word arg.now ∷ [])) }
{
    add_line(
        &Thread(tid),
        &[
            Plain(word),
            Natural(u64::from(which)),
            Plain(b"arg"),
            Number(arg),
        ],
        out,
    )
}

/// Adds a thread, and the barrier that it leaves.
pub fn add_withdrew(tid: Tid, barrier: u8, out: &mut Text) -> Result<(), OutOfMemory>
    ensures { AddsText out.old out.new result (joined_words (tid_word tid.0 ∷ codes "withdraws" ∷ decimal barrier ∷ [])) }
{
    add_line(
        &Thread(tid),
        &[Plain(b"withdraws"), Natural(u64::from(barrier))],
        out,
    )
}

/// Adds a thread that is ready again, and its rank.
pub fn add_woke(tid: Tid, rank: &i64, out: &mut Text) -> Result<(), OutOfMemory>
    ensures { AddsText out.old out.new result (joined_words (codes "wake" ∷ tid_word tid.0 ∷ codes "rank" ∷ number_word rank.now ∷ [])) }
{
    add_line(
        &Plain(b"wake"),
        &[Thread(tid), Plain(b"rank"), Number(rank)],
        out,
    )
}

/// Adds the moment to which time moved.
pub fn add_moved(at: Micros, out: &mut Text) -> Result<(), OutOfMemory>
    ensures { AddsText out.old out.new result (joined_words (codes "idle" ∷ codes "to" ∷ decimal at ∷ [])) }
{
    add_line(&Plain(b"idle"), &[Plain(b"to"), Natural(at)], out)
}

//! The last line of a transcript, read.

ghost use Rattle.std.specs.Prelude.{◌≡◌, ◌++◌, ◌∷◌, List, All, IfOk, OnOk, IfSome, IsSomeAnd, IsTrue, codes, map};
ghost use Rattle.pth_base.specs.declared.ids.Tid.{Tid};
ghost use Rattle.pth_print.specs.WordTexts.{tid_word};
ghost use Rattle.pth_spelling.specs.Texts.{texts};
ghost use Rattle.pth_text.specs.LineWords.{words_of};
ghost use Rattle.pth_transcript.specs.MarkMeanings.{ending_of};
ghost use Rattle.pth_transcript.specs.ReadableMarks.{IsReadableTid, IsReadableEnding, IsEndingBack, IsEndingLineBack};
ghost use Rattle.pth_transcript.specs.Transcript.{ending_line};

use crate::number::{natural, thread};
use crate::printed::is_line;
use pth_base::ids::Tid;
use pth_base::memory::OutOfMemory;
use pth_base::outcome::Outcome;
use pth_print::end_line::end_line;
use pth_text::number::read_number;
use pth_text::text::Text;
use pth_text::words::words;
use std::alloc::Global;

/// How a run ended, as the last line of its transcript tells.
#[derive(Drop)]
pub enum Ending {
    /// Main ended with this value.
    Ended(i64),
    /// `pth_kill` ended it.
    Killed,
    /// Nothing can ever be ready again; these threads are not dead.
    Stalled(Vec<Tid>),
    /// It was cut after so many steps.
    StepLimit(u64),
}

/// Threads by their words.
fn threads(alloc: Global, words: &[&[u8]]) -> Result<Option<Vec<Tid>>, OutOfMemory>
    ensures back { IfOk result
        (λ found. (ts : List Tid) → All IsReadableTid ts
        → texts words.now ≡ map tid_word (map (λ t. t.0) ts)
        → IsSomeAnd found (λ live. live.items ≡ ts)) }
    ensures readable { IfOk result (λ found. IfSome found (λ live. All IsReadableTid live.items)) }
{
    let mut live = Vec::new(alloc);
    for word in words {
        let Some(tid) = thread(word) else {
            return Ok(None);
        };
        live.push(tid)?;
    }
    Ok(Some(live))
}

/// A stall, by the threads that are not dead.
fn stalled(alloc: Global, words: &[&[u8]]) -> Result<Option<Ending>, OutOfMemory>
    ensures back { IfOk result (λ found. IsEndingBack (codes "stalled" ∷ texts words.now) found) }
    ensures readable { IfOk result (λ found. IfSome found IsReadableEnding) }
{
    let Some(live) = threads(alloc, words)? else {
        return Ok(None);
    };
    Ok(Some(Ending::Stalled(live)))
}

/// An ending that is no stall.
fn other(words: &[&[u8]]) -> Option<Ending>
    ensures { result ≡ ending_of (texts words.now) }
{
    match words {
        [word] if *word == b"killed".as_slice() => Some(Ending::Killed),
        [word, v] if *word == b"ended".as_slice() => {
            let value = read_number(v)?;
            Some(Ending::Ended(value))
        }
        [word, _, n] if *word == b"step".as_slice() => {
            let steps = natural(n)?;
            Some(Ending::StepLimit(steps))
        }
        _ => None,
    }
}

/// The ending that words tell.
fn ending_by(alloc: Global, words: &[&[u8]]) -> Result<Option<Ending>, OutOfMemory>
    ensures back { IfOk result (λ found. IsEndingBack (texts words.now) found) }
    ensures readable { IfOk result (λ found. IfSome found IsReadableEnding) }
{
    let [first, live @ ..] = words else {
        return Ok(None);
    };
    if *first == b"stalled".as_slice() {
        return stalled(alloc, live);
    }
    Ok(other(words))
}

/// The ending that a line tells, read loosely: it may be printed otherwise.
fn read_loosely(alloc: Global, line: &[u8]) -> Result<Option<Ending>, OutOfMemory>
    ensures back { IfOk result (λ found. IsEndingBack (words_of line.now) found) }
    ensures readable { IfOk result (λ found. IfSome found IsReadableEnding) }
{
    let words = words(alloc, line)?;
    ending_by(alloc, words.as_slice())
}

/// Adds the line of an ending.
fn add_ending(ending: &Ending, out: &mut Text) -> Result<(), OutOfMemory>
    ensures { OnOk result (out.new ≡ out.old ++ ending_line ending.now) }
{
    match ending {
        Ending::Ended(v) => end_line(&Outcome::Ended(*v), 0, &[], out),
        Ending::Killed => end_line(&Outcome::Killed, 0, &[], out),
        Ending::Stalled(live) => end_line(&Outcome::Stalled, 0, live.as_slice(), out),
        Ending::StepLimit(n) => end_line(&Outcome::Running, *n, &[], out),
    }
}

/// Whether a line is printed so.
fn is_printed(alloc: Global, ending: &Ending, line: &[u8]) -> Result<bool, OutOfMemory>
    ensures spelled { IfOk result (λ b. IsTrue b → line.now ++ codes "\n" ≡ ending_line ending.now) }
    ensures printed { IfOk result (λ b. line.now ++ codes "\n" ≡ ending_line ending.now → IsTrue b) }
{
    let mut text = Text::new(alloc);
    add_ending(ending, &mut text)?;
    Ok(is_line(text.as_slice(), line))
}

/// The ending that a line tells, without its LF, and `None` if no ending is printed so.
pub fn read_ending(alloc: Global, line: &[u8]) -> Result<Option<Ending>, OutOfMemory>
    ensures spelled { IfOk result (λ found. IfSome found (λ ending. line.now ++ codes "\n" ≡ ending_line ending)) }
    ensures readable { IfOk result (λ found. IfSome found IsReadableEnding) }
    ensures back { IfOk result (λ found. IsEndingLineBack line.now found) }
{
    let Some(ending) = read_loosely(alloc, line)? else {
        return Ok(None);
    };
    if is_printed(alloc, &ending, line)? {
        Ok(Some(ending))
    } else {
        Ok(None)
    }
}

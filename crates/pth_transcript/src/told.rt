//! Lines of marks, read.

ghost use Rattle.std.specs.Prelude.{◌≡◌, ◌++◌, IfOk, IfSome, IsTrue, codes, option_map};
ghost use Rattle.pth_spelling.specs.Texts.{texts};
ghost use Rattle.pth_text.specs.LineWords.{words_of};
ghost use Rattle.pth_transcript.specs.MarkMeanings.{told_plain};
ghost use Rattle.pth_transcript.specs.ReadableMarks.{IsReadableTold, IsToldBack, IsLineBack};
ghost use Rattle.pth_transcript.specs.Transcript.{told_line};

use crate::printed::is_line;
use crate::thread::thread_mark;
use crate::turn::{moved, turn, woke};
use pth_base::mark::Mark;
use pth_base::memory::OutOfMemory;
use pth_print::mark_line::mark_line;
use pth_text::text::Text;
use pth_text::words::words;
use std::alloc::Global;

/// A line of a transcript: the mark that it tells, and whether it tells of a dispatch how long its thread has waited (`--audit`).
#[derive(Drop)]
pub struct Told {
    pub mark: Mark,
    pub audit: bool,
}

/// A mark whose line tells of no audit.
fn unaudited(mark: Option<Mark>) -> Option<Told>
    ensures { result ≡ option_map told_plain mark }
{
    Some(Told {
        mark: mark?,
        audit: false,
    })
}

/// What the words of a line tell.
fn told_by(alloc: Global, words: &[&[u8]]) -> Result<Option<Told>, OutOfMemory>
    ensures back { IfOk result (λ found. IsToldBack (texts words.now) found) }
    ensures readable { IfOk result (λ found. IfSome found IsReadableTold) }
{
    let [first, rest @ ..] = words else {
        return Ok(None);
    };
    if *first == b"turn".as_slice() {
        return Ok(turn(rest));
    }
    if *first == b"wake".as_slice() {
        return Ok(unaudited(woke(rest)));
    }
    if *first == b"idle".as_slice() {
        return Ok(unaudited(moved(rest)));
    }
    Ok(unaudited(thread_mark(alloc, words)?))
}

/// What a line tells, read loosely: it may be printed otherwise.
fn read_loosely(alloc: Global, line: &[u8]) -> Result<Option<Told>, OutOfMemory>
    ensures back { IfOk result (λ found. IsToldBack (words_of line.now) found) }
    ensures readable { IfOk result (λ found. IfSome found IsReadableTold) }
{
    let words = words(alloc, line)?;
    told_by(alloc, words.as_slice())
}

/// Whether a line is printed so.
fn is_printed(alloc: Global, told: &Told, line: &[u8]) -> Result<bool, OutOfMemory>
    ensures spelled { IfOk result (λ b. IsTrue b → line.now ++ codes "\n" ≡ told_line told.now) }
    ensures printed { IfOk result (λ b. line.now ++ codes "\n" ≡ told_line told.now → IsTrue b) }
{
    let mut text = Text::new(alloc);
    mark_line(&told.mark, told.audit, &mut text)?;
    Ok(is_line(text.as_slice(), line))
}

/// The mark that a line tells, without its LF, and `None` if no mark of a script's run is printed so. If a dispatch does not tell
/// how long its thread has waited, it waited 0 turns and may wait 0.
pub fn read_line(alloc: Global, line: &[u8]) -> Result<Option<Told>, OutOfMemory>
    ensures spelled { IfOk result (λ found. IfSome found (λ told. line.now ++ codes "\n" ≡ told_line told)) }
    ensures readable { IfOk result (λ found. IfSome found IsReadableTold) }
    ensures back { IfOk result (λ found. IsLineBack line.now found) }
{
    let Some(told) = read_loosely(alloc, line)? else {
        return Ok(None);
    };
    if is_printed(alloc, &told, line)? {
        Ok(Some(told))
    } else {
        Ok(None)
    }
}

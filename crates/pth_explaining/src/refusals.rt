//! The calls that were refused.

ghost use Rattle.std.specs.Prelude.{◌≡◌, ◌++◌, ◌∷◌, [], ◌+◌, ◌<◌, ◌^◌, true, false, IfOk, OnOk, if◌then◌else◌, length};
ghost use Rattle.std.specs.List.{count_by, list_any};
ghost use Rattle.pth_explaining.specs.Refusals.{is_like, is_refused, refusal_line, refusal_lines, refusals_of, times_text};
ghost use Rattle.pth_print.specs.MarkLines.{mark_line};

use crate::piece::Piece::{Natural, Plain};
use crate::piece::add_pieces;
use pth_base::answer::Answer;
use pth_base::mark::Mark;
use pth_base::memory::OutOfMemory;
use pth_print::mark_line::mark_line;
use pth_text::text::Text;
use std::alloc::Global;

/// A refused call: its line, counted from 1, and the text of the line.
#[derive(Drop)]
pub(crate) struct Refusal {
    line: u64,
    text: Text,
}

// Whether a call of a thread or of a handler is answered by an error.
fn is_refused(mark: &Mark) -> bool
    ensures { result ≡ is_refused mark.now }
{
    match mark {
        Mark::Answered {
            answer: Answer::Fail(_),
            ..
        } => true,
        Mark::Acted {
            answer: Answer::Fail(_),
            ..
        } => true,
        _ => false,
    }
}

// A refusal more.
fn push_refusal(
    alloc: Global,
    refusals: &mut Vec<Refusal>,
    line: u64,
    mark: &Mark,
) -> Result<(), OutOfMemory>
    ensures { OnOk result (refusals.new.items
        ≡ refusals.old.items ++ record { line = line; text = mark_line false mark.now } ∷ []) }
{
    let mut text = Text::new(alloc);
    mark_line(mark, false, &mut text)?;
    refusals.push(Refusal { line, text })?;
    Ok(())
}

/// The refused calls, in order.
pub(crate) fn refusals_of(alloc: Global, marks: &[Mark]) -> Result<Vec<Refusal>, OutOfMemory>
    ensures { IfOk result (λ found. found.items ≡ refusals_of marks.now) }
{
    let mut found = Vec::new(alloc);
    for (i, mark) in marks.iter().enumerate() {
        if is_refused(mark) {
            push_refusal(alloc, &mut found, i as u64 + 1, mark)?;
        }
    }
    Ok(found)
}

// Whether two refusals have the same line.
fn is_like(r: &Refusal, other: &Refusal) -> bool
    ensures { result ≡ is_like r.now other.now }
{
    other.text.as_slice() == r.text.as_slice()
}

// Whether one of these is like a refusal.
fn has_like(r: &Refusal, before: &[Refusal]) -> bool
    ensures { result ≡ list_any (is_like r.now) before.now }
{
    for other in before {
        if is_like(r, other) {
            return true;
        }
    }
    false
}

// How many of these are like a refusal.
fn count_like(r: &Refusal, rest: &[Refusal]) -> u64
    ensures { result ≡ count_by (is_like r.now) rest.now }
{
    let mut count = 0;
    for other in rest {
        if is_like(r, other) {
            count += 1;
        }
    }
    count
}

// Adds how often a call was refused.
fn add_times(times: u64, out: &mut Text) -> Result<(), OutOfMemory>
    ensures { OnOk result (out.new ≡ out.old ++ times_text times) }
{
    match times {
        1 => out.push(b" time"),
        _ => out.push(b" times"),
    }
}

// Adds the line of a kind of refusals, of which this is the first.
fn add_refusal(times: u64, r: &Refusal, out: &mut Text) -> Result<(), OutOfMemory>
    ensures { OnOk result (out.new ≡ out.old ++ refusal_line times r.now) }
{
    add_pieces(&[Plain(b"refused "), Natural(times)], out)?;
    add_times(times, out)?;
    add_pieces(
        &[Plain(b", first at line "), Natural(r.line), Plain(b": ")],
        out,
    )?;
    out.push(r.text.as_slice())
}

// Adds the line of a refusal, if none of those before it is like it.
fn add_first(
    before: &[Refusal],
    r: &Refusal,
    rest: &[Refusal],
    out: &mut Text,
) -> Result<(), OutOfMemory>
    ensures { OnOk result (out.new ≡ out.old ++ (if list_any (is_like r.now) before.now
        then [] else refusal_line (count_by (is_like r.now) rest.now) r.now)) }
{
    if has_like(r, before) {
        return Ok(());
    }
    add_refusal(count_like(r, rest), r, out)
}

/// Adds a line for each kind of refusals.
pub(crate) fn add_refusals(refusals: &[Refusal], out: &mut Text) -> Result<(), OutOfMemory>
    ensures { OnOk result (out.new ≡ out.old ++ refusal_lines [] refusals.now) }
{
    for (i, r) in refusals.iter().enumerate() {
        add_first(&refusals[..i], r, &refusals[i..], out)?;
    }
    Ok(())
}

//! Which threads wait, and how a wait is said.

ghost use Rattle.std.specs.Prelude.{◌≡◌, ◌++◌, false, IfOk, OnOk, slice_get};
ghost use Rattle.std.specs.Option.{option_to_list};
ghost use Rattle.pth_print.specs.MarkLines.{mark_words};
ghost use Rattle.pth_print.specs.SpacedWords.{joined_words};
ghost use Rattle.pth_explaining.specs.Waits.{mark_text, since_text, wait_at, wait_line, wait_of, waits_in};

use crate::cause::{Cause, cause_of, retaken_by, ring_of};
use crate::clock::Clock;
use crate::piece::Piece::{Natural, Plain};
use crate::piece::add_pieces;
use crate::threads::{Place, Places};
use crate::whom::{add_cause, add_ring};
use pth_base::mark::Mark;
use pth_base::memory::OutOfMemory;
use pth_print::mark_line::mark_line;
use pth_text::text::Text;
use std::alloc::Global;

/// A thread that waits: where its wait stands, and what the thread waits for.
#[derive(Clone, Copy)]
pub(crate) struct Wait {
    pub(crate) thread: u64,
    pub(crate) place: Place,
    pub(crate) cause: Cause,
    pub(crate) ring: Option<i64>,
}

// The wait of a thread that a mark tells of.
fn wait_of(thread: u64, place: Place, mark: &Mark) -> Option<Wait>
    ensures { result ≡ wait_of thread place mark.now }
{
    match mark {
        Mark::Waits { call, .. } => Some(Wait {
            thread,
            place,
            cause: cause_of(call),
            ring: ring_of(call),
        }),
        Mark::Retakes { call, .. } => Some(Wait {
            thread,
            place,
            cause: retaken_by(call),
            ring: None,
        }),
        _ => None,
    }
}

fn wait_at(thread: u64, place: Place, marks: &[Mark]) -> Option<Wait>
    ensures { result ≡ wait_at thread place (slice_get marks.now place.index) }
{
    match marks.get(place.index) {
        Some(mark) => wait_of(thread, place, mark),
        None => None,
    }
}

// A wait more, if there is one.
fn push_wait(waits: &mut Vec<Wait>, wait: Option<Wait>) -> Result<(), OutOfMemory>
    ensures { OnOk result (waits.new.items ≡ waits.old.items ++ option_to_list wait) }
{
    if let Some(w) = wait {
        waits.push(w)?;
    }
    Ok(())
}

/// The threads that wait, by rising number.
pub(crate) fn waits(
    alloc: Global,
    marks: &[Mark],
    places: &Places,
) -> Result<Vec<Wait>, OutOfMemory>
    ensures { IfOk result (λ waits. waits.items ≡ waits_in marks.now places.now.entries) }
{
    let mut waits = Vec::new(alloc);
    for (t, place) in places {
        push_wait(&mut waits, wait_at(*t, *place, marks))?;
    }
    Ok(waits)
}

// Adds the line of a mark, without its LF.
fn add_mark(alloc: Global, mark: &Mark, out: &mut Text) -> Result<(), OutOfMemory>
    ensures { OnOk result (out.new ≡ out.old ++ joined_words (mark_words false mark.now)) }
{
    let mut line = Text::new(alloc);
    mark_line(mark, false, &mut line)?;
    match line.as_slice().split_last() {
        Some((_, text)) => out.push(text),
        None => Ok(()),
    }
}

fn add_mark_at(
    alloc: Global,
    marks: &[Mark],
    index: usize,
    out: &mut Text,
) -> Result<(), OutOfMemory>
    ensures { OnOk result (out.new ≡ out.old ++ mark_text (slice_get marks.now index)) }
{
    match marks.get(index) {
        Some(mark) => add_mark(alloc, mark, out),
        None => Ok(()),
    }
}

// Adds since when a thread waits.
fn add_since(clock: Clock, out: &mut Text) -> Result<(), OutOfMemory>
    ensures { OnOk result (out.new ≡ out.old ++ since_text clock) }
{
    add_pieces(
        &[
            Plain(b" (since turn "),
            Natural(clock.turn),
            Plain(b" at "),
            Natural(clock.at),
            Plain(b")\n"),
        ],
        out,
    )
}

/// Adds the line of a wait, with these threads alive, and of these waits.
#[tactic(auto, unfolding(crate::specs::Waits::wait_line))]
pub(crate) fn add_wait(
    alloc: Global,
    marks: &[Mark],
    alive: &[u64],
    waits: &[Wait],
    wait: &Wait,
    out: &mut Text,
) -> Result<(), OutOfMemory>
    ensures { OnOk result (out.new ≡ out.old ++ wait_line marks.now alive.now waits.now wait.now) }
{
    add_mark_at(alloc, marks, wait.place.index, out)?;
    add_cause(alloc, marks, alive, waits, wait, out)?;
    add_ring(wait.ring, out)?;
    add_since(wait.place.clock, out)
}

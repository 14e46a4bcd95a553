//! The explanation of how a run ends.

ghost use Rattle.std.specs.Prelude.{◌≡◌, ◌++◌, OnOk, flat_map};
ghost use Rattle.pth_explaining.specs.Explanation.{ending_text, explanation, head_line, lines_with, wait_lines};
ghost use Rattle.pth_explaining.specs.Threads.{places_of};
ghost use Rattle.pth_explaining.specs.Waits.{wait_line};

use crate::circles::{add_circles, blocks};
use crate::clock::{Clock, clock_of};
use crate::piece::Piece::{Natural, Number, Plain};
use crate::piece::add_pieces;
use crate::refusals::{add_refusals, refusals_of};
use crate::threads::{Places, living, places_of};
use crate::waits::{Wait, add_wait, waits};
use pth_base::mark::Mark;
use pth_base::memory::OutOfMemory;
use pth_text::text::Text;
use pth_transcript::ending::Ending;
use std::alloc::Global;

// Adds how a run ended.
fn add_ending(ending: &Ending, out: &mut Text) -> Result<(), OutOfMemory>
    ensures { OnOk result (out.new ≡ out.old ++ ending_text ending.now) }
{
    match ending {
        Ending::Ended(v) => add_pieces(&[Plain(b"ended "), Number(*v)], out),
        Ending::Killed => out.push(b"killed"),
        Ending::Stalled(_) => out.push(b"stalled"),
        Ending::StepLimit(n) => add_pieces(&[Plain(b"step limit "), Natural(*n)], out),
    }
}

// Adds how and when a run ended.
fn add_head(ending: &Ending, clock: Clock, out: &mut Text) -> Result<(), OutOfMemory>
    ensures { OnOk result (out.new ≡ out.old ++ head_line ending.now clock) }
{
    add_ending(ending, out)?;
    add_pieces(
        &[
            Plain(b" after turn "),
            Natural(clock.turn),
            Plain(b" at "),
            Natural(clock.at),
            Plain(b"\n"),
        ],
        out,
    )
}

// Adds a line for each of these waits.
fn add_each(
    alloc: Global,
    marks: &[Mark],
    alive: &[u64],
    waits: &[Wait],
    out: &mut Text,
) -> Result<(), OutOfMemory>
    ensures { OnOk result (out.new ≡ out.old ++ flat_map (wait_line marks.now alive.now waits.now) waits.now) }
{
    for wait in waits {
        add_wait(alloc, marks, alive, waits, wait, out)?;
    }
    Ok(())
}

// Adds a line for each of these waits, and one for each circle.
fn add_lines(
    alloc: Global,
    marks: &[Mark],
    alive: &[u64],
    waits: &[Wait],
    out: &mut Text,
) -> Result<(), OutOfMemory>
    ensures { OnOk result (out.new ≡ out.old ++ lines_with marks.now alive.now waits.now) }
{
    let blocks = blocks(alloc, marks, alive, waits)?;
    add_each(alloc, marks, alive, waits, out)?;
    add_circles(alloc, blocks.as_slice(), out)
}

// Adds a line for each thread that waits, and one for each circle.
fn add_waits(
    alloc: Global,
    marks: &[Mark],
    places: &Places,
    out: &mut Text,
) -> Result<(), OutOfMemory>
    ensures { OnOk result (out.new ≡ out.old ++ wait_lines marks.now places.now.entries) }
{
    let alive = living(alloc, marks, places)?;
    let waits = waits(alloc, marks, places)?;
    add_lines(alloc, marks, alive.as_slice(), waits.as_slice(), out)
}

/// Adds the explanation of a run by its marks and its ending.
#[tactic(auto, unfolding(crate::specs::Explanation::explanation))]
pub fn add_explanation(
    alloc: Global,
    marks: &[Mark],
    ending: &Ending,
    out: &mut Text,
) -> Result<(), OutOfMemory>
    ensures { OnOk result (out.new ≡ out.old ++ explanation marks.now ending.now) }
{
    let places = places_of(alloc, marks)?;
    let refusals = refusals_of(alloc, marks)?;
    add_head(ending, clock_of(marks), out)?;
    add_waits(alloc, marks, &places, out)?;
    add_refusals(refusals.as_slice(), out)
}

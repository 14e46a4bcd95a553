//! A machine run for a number of steps, and its transcript written piece by piece.
//!
//! A summary makes the same marks and no lines, so one loop with one invariant serves both.

ghost use Rattle.std.specs.Prelude.{◌≡◌, ◌≢◌, ◌<◌, ◌≤◌, ◌-◌, ◌+◌, ◌++◌, ◌⊎◌, ℕ, IsFalse, IsTrue, OnOk};
ghost use Rattle.pth_base.specs.Limits.{most_steps};
ghost use Rattle.pth_model.specs.Course.{Course};
ghost use Rattle.pth_model.specs.State.{Given};
ghost use Rattle.pth_sched.specs.Running.{GoesOn, Stands, StandsAt};
ghost use Rattle.pth_command.specs.CommandLine.{asked_of};
ghost use Rattle.pth_player.specs.Drive.{Drives, TellsFewer};
ghost use Rattle.pth_streams.specs.Pieces.{received};
ghost use Rattle.pth_streams.specs.Pieces.{WritesPiece};
ghost use Rattle.pth_player.specs.Transcript.{counts_of, ending_of, lines_of, shown_of};

use pth_base::mark::Mark;
use pth_base::marks::Marks;
use pth_base::memory::OutOfMemory;
use pth_base::outcome::Outcome;
use pth_base::program::Program;
use pth_command::choice::Choice;
use pth_print::end_line::end_line;
use pth_print::mark_line::mark_line;
use pth_print::summary_line::summary_line;
use pth_sched::machine::Machine;
use pth_streams::sink::{Sink, SinkErr};
use pth_streams::write_all::write_all;
use pth_text::text::Text;
use std::alloc::Global;

/// Fewer marks than these are told before they are written, but for those of the last `STRIDE` steps: one step may tell 83,000.
const MOST_MARKS: usize = 4096;

/// How many steps are made before the marks are counted.
const STRIDE: u64 = 4;

/// Adds the lines of marks, with what an audit tells of dispatches if one is asked for.
fn add_lines(marks: &[Mark], audit: bool, text: &mut Text) -> Result<(), OutOfMemory>
    ensures { OnOk result (text.new ≡ text.old ++ lines_of audit marks.now) }
{
    for mark in marks {
        mark_line(mark, audit, text)?;
    }
    Ok(())
}

/// Writes the lines of marks, and nothing for a summary. `text` is where they are made.
fn write_marks<O: Sink>(
    marks: &[Mark],
    choice: &Choice<'_>,
    text: &mut Text,
    out: &mut O,
) -> Result<(), SinkErr>
    ensures { WritesPiece
        (received (O.written out.old) (O.faults out.old))
        (received (O.written out.new) (O.faults out.new))
        (shown_of (asked_of choice.now) marks.now) result }
{
    text.clear();
    if !choice.summary {
        add_lines(marks, choice.audit, text)?;
    }
    write_all(out, text.as_slice())
}

/// Adds the line of counts if a summary is asked for.
fn add_counts<P: Program>(
    machine: &Machine<P>,
    choice: &Choice<'_>,
    text: &mut Text,
) -> Result<(), OutOfMemory>
    ensures { OnOk result ((c : Course P P.State P.Shared) → Stands machine.now c → text.new ≡ text.old ++ counts_of (asked_of choice.now) c) }
{
    if !choice.summary {
        return Ok(());
    }
    summary_line(
        machine.made(),
        machine.turns(),
        machine.steps(),
        machine.now(),
        text,
    )
}

/// Writes how the run stands: the line of its outcome, for a summary after the line of counts. `text` is where they are made.
fn write_ending<P: Program, O: Sink>(
    alloc: Global,
    machine: &Machine<P>,
    outcome: Outcome,
    choice: &Choice<'_>,
    text: &mut Text,
    out: &mut O,
) -> Result<(), SinkErr>
    requires memory { outcome ≢ Outcome.OutOfMemory }
    requires outcome { outcome ≡ machine.now.turn.outcome }
    ensures { (c : Course P P.State P.Shared) → Stands machine.now c → WritesPiece
        (received (O.written out.old) (O.faults out.old))
        (received (O.written out.new) (O.faults out.new))
        (ending_of (asked_of choice.now) c) result }
{
    let live = machine.live(alloc)?;
    text.clear();
    add_counts(machine, choice, text)?;
    end_line(&outcome, choice.steps, &live, text)?;
    write_all(out, text.as_slice())
}

/// No step is left, or none begins.
fn is_over(left: u64, outcome: Outcome) -> bool
    ensures over { IsTrue result → (left ≡ 0) ⊎ (outcome ≢ Outcome.Running) }
    ensures last { left ≡ 0 → IsTrue result }
    ensures going { IsFalse result → outcome ≡ Outcome.Running }
{
    match outcome {
        Outcome::Running => left == 0,
        _ => true,
    }
}

/// Makes some of the machine's next steps: at most `n`. Before the last `STRIDE` of them fewer than `MOST_MARKS` marks were told.
/// The answer has the outcome, and how many steps the machine was asked for.
fn some_steps<P: Program>(machine: &mut Machine<P>, n: u64, marks: &mut Marks) -> (Outcome, u64)
    requires few { machine.old.turn.steps + n ≤ most_steps }
    ensures within { result.1 ≤ n }
    ensures some { 1 ≤ n → 1 ≤ result.1 }
    ensures goes_on { result.0 ≢ Outcome.OutOfMemory → (g : Given P) (i : ℕ) → StandsAt P.functions g i machine.old → GoesOn P.functions g (machine.old.turn.steps + result.1) i machine.new marks.old marks.new }
    // `STRIDE` steps before the end of a longer piece fewer than `MOST_MARKS` marks were told
    ensures few_marks { STRIDE < result.1
        → (g : Given P) (i : ℕ) → StandsAt P.functions g i machine.old
        → TellsFewer P.functions g (machine.old.turn.steps + (result.1 - STRIDE)) i
        marks.old MOST_MARKS }
    ensures running { result.0 ≡ Outcome.Running → machine.new.turn.steps ≡ machine.old.turn.steps + result.1 }
    ensures outcome { result.0 ≡ machine.new.turn.outcome }
{
    let mut asked = n.min(STRIDE);
    let mut outcome = machine.advance(asked, marks);
    'strides: loop {
        if is_over(n - asked, outcome) || marks.as_slice().len() >= MOST_MARKS {
            return (outcome, asked);
        }
        let more = (n - asked).min(STRIDE);
        outcome = machine.advance(more, marks);
        asked += more;
    }
}

/// Makes as many of the machine's next steps as the choice asks for, fewer if its run ends before, and writes what the
/// choice asks for: its transcript, or a summary.
///
/// Between two writes `some_steps` makes at most `piece` steps, and tells fewer than 4,096 marks and those of four steps more.
/// The marks and the text of so many are kept at a time. The clauses of `some_steps` say so, and none of `drive`, which
/// speaks of all that is written.
///
/// From any part of a run on, the rest of the run's text is written: at the start of a run, the whole text to so many steps.
/// If the sink fails or memory ends, a beginning of the rest is written.
pub fn drive<P: Program, O: Sink>(
    alloc: Global,
    machine: &mut Machine<P>,
    choice: &Choice<'_>,
    piece: u64,
    out: &mut O,
) -> Result<Outcome, SinkErr>
    requires nonzero { 1 ≤ piece }
    requires few { machine.old.turn.steps + choice.now.steps ≤ most_steps }
    ensures written { (g : Given P) (i : ℕ) → StandsAt P.functions g i machine.old
        → Drives P.functions g (asked_of choice.now) i
        (received (O.written out.old) (O.faults out.old))
        (received (O.written out.new) (O.faults out.new)) result }
{
    let mut marks = Marks::new(alloc);
    let mut text = Text::new(alloc);
    let mut left = choice.steps;
    'pieces: loop {
        marks.clear();
        let (outcome, asked) = some_steps(machine, left.min(piece), &mut marks);
        match outcome {
            Outcome::OutOfMemory => return Err(SinkErr::OutOfMemory),
            _ => {}
        }
        write_marks(marks.as_slice(), choice, &mut text, out)?;
        left -= asked;
        if is_over(left, outcome) {
            write_ending(alloc, machine, outcome, choice, &mut text, out)?;
            return Ok(outcome);
        }
    }
}

//! The line that sums up a run.

ghost use Rattle.std.specs.Prelude.{◌≡◌, ◌++◌, OnOk, OnErr};
ghost use Rattle.pth_base.specs.Cut.{IsCut};
ghost use Rattle.pth_print.specs.Adding.{AddsText};
ghost use Rattle.pth_print.specs.EndLines.{summary_words, summary_line};
ghost use Rattle.pth_print.specs.SpacedWords.{joined_words};

use crate::word::Word::{Natural, Plain};
use crate::word::add_line;
use pth_base::ids::Micros;
use pth_base::memory::OutOfMemory;
use pth_text::text::Text;

/// Adds the words of the counts.
fn add_summary(
    threads: u64,
    turns: u64,
    steps: u64,
    time: Micros,
    out: &mut Text,
) -> Result<(), OutOfMemory>
    ensures { AddsText out.old out.new result (joined_words (summary_words threads turns steps time)) }
{
    add_line(
        &Plain(b"summary"),
        &[
            Plain(b"threads"),
            Natural(threads),
            Plain(b"turns"),
            Natural(turns),
            Plain(b"steps"),
            Natural(steps),
            Plain(b"time"),
            Natural(time),
        ],
        out,
    )
}

/// Adds the line that sums up a run: the threads ever made, main among them, the turns begun, the steps made, and the
/// moment at the end, in microseconds from the start of the run.
pub fn summary_line(
    threads: u64,
    turns: u64,
    steps: u64,
    time: Micros,
    out: &mut Text,
) -> Result<(), OutOfMemory>
    ensures ok { OnOk result (out.new ≡ out.old ++ summary_line threads turns steps time) }
    ensures err { OnErr result (IsCut out.old out.new (summary_line threads turns steps time)) }
{
    add_summary(threads, turns, steps, time, out)?;
    out.push(b"\n")
}

//! The last line of a run.

ghost use Rattle.std.specs.Prelude.{◌≡◌, ◌≢◌, ◌++◌, OnOk, OnErr, codes, flat_map, map};
ghost use Rattle.pth_base.specs.declared.outcome.Outcome.TheVariants as outcome;
ghost use Rattle.pth_base.specs.Cut.{IsCut};
ghost use Rattle.pth_print.specs.Adding.{AddsText};
ghost use Rattle.pth_print.specs.EndLines.{end_words, end_line};
ghost use Rattle.pth_print.specs.WordTexts.{tid_word};
ghost use Rattle.pth_print.specs.SpacedWords.{joined_words};

use crate::word::Word::{Natural, Number, Plain, Thread};
use crate::word::{add_line, add_words};
use pth_base::ids::Tid;
use pth_base::memory::OutOfMemory;
use pth_base::outcome::Outcome;
use pth_text::text::Text;

/// Adds threads, each after a space.
fn add_threads(threads: &[Tid], out: &mut Text) -> Result<(), OutOfMemory>
    ensures { AddsText out.old out.new result (flat_map (λ t. codes " " ++ tid_word t.0) threads.now) }
{
    for tid in threads {
        add_words(&[Thread(*tid)], out)?;
    }
    Ok(())
}

/// Adds the words of an outcome.
fn add_end(o: &Outcome, n: u64, live: &[Tid], out: &mut Text) -> Result<(), OutOfMemory>
    requires { o.now ≢ outcome.OutOfMemory }
    ensures { AddsText out.old out.new result (joined_words (end_words o.now n (map (λ t. t.0) live.now))) }
{
    match o {
        Outcome::Running => add_line(&Plain(b"step"), &[Plain(b"limit"), Natural(n)], out),
        Outcome::Ended(value) => add_line(&Plain(b"ended"), &[Number(value)], out),
        Outcome::Killed => out.push(b"killed"),
        Outcome::Stalled => {
            out.push(b"stalled")?;
            add_threads(live, out)
        }
        Outcome::OutOfMemory => unreachable!(),
    }
}

/// Adds the line of an outcome after at most `n` steps. Where the run is stalled it names the threads that are not dead,
/// which `live` has in rising order.
pub fn end_line(o: &Outcome, n: u64, live: &[Tid], out: &mut Text) -> Result<(), OutOfMemory>
    requires { o.now ≢ outcome.OutOfMemory }
    ensures ok { OnOk result (out.new ≡ out.old ++ end_line o.now n (map (λ t. t.0) live.now)) }
    ensures err { OnErr result (IsCut out.old out.new (end_line o.now n (map (λ t. t.0) live.now))) }
{
    add_end(o, n, live, out)?;
    out.push(b"\n")
}

//! The place that a snapshot names.

ghost use Rattle.std.specs.Prelude.{◌≡◌, ℕ, List, Option, option_map, option_and_then};
ghost use Rattle.pth_base.specs.Limits.{most_steps};
ghost use Rattle.pth_snapshot.specs.Place.{cut, behind, number_behind, not_negative, heads, steps_in, kind_in, moment_in, few_steps, named_place, is_step};

use pth_base::limits::MOST_STEPS;
use pth_text::line::line_end;
use pth_text::number::read_number;

/// What comes next at a place.
#[derive(Clone, Copy)]
pub enum Kind {
    /// A step of the thread that runs.
    Step,
    /// No turn is open.
    Open,
}

impl Kind {
    pub fn is_step(self) -> bool
        ensures { result ≡ is_step self }
    {
        matches!(self, Kind::Step)
    }
}

/// A place between two parts of a run: behind so many steps, and no earlier than a moment, in microseconds, if no turn is open.
#[derive(Clone, Copy)]
pub struct Place {
    pub steps: u64,
    pub kind: Kind,
    pub now: u64,
}

// The first line without its LF, none if no LF ends it, and what follows it.
fn cut(text: &[u8]) -> (Option<&[u8]>, &[u8])
    ensures { (option_map (λ line. line.now) result.0, result.1.now) ≡ cut text.now }
{
    match line_end(text, 0) {
        Some(at) => (Some(&text[..at]), &text[at + 1..]),
        None => (None, &[]),
    }
}

// The number behind a word with its space.
fn number_behind(word: &[u8], line: &[u8]) -> Option<u64>
    ensures { result ≡ number_behind word.now line.now }
{
    let n = read_number(line.strip_prefix(word)?)?;
    if n < 0 { None } else { Some(n as u64) }
}

fn heads(line: Option<&[u8]>) -> bool
    ensures { result ≡ heads (option_map (λ line. line.now) line.entry) }
{
    match line {
        Some(line) => line == b"pthsnap 1".as_slice(),
        None => false,
    }
}

fn steps_in(line: Option<&[u8]>) -> Option<u64>
    ensures { result ≡ option_and_then steps_in (option_map (λ line. line.now) line.entry) }
{
    let steps = number_behind(b"steps ", line?)?;
    if steps <= MOST_STEPS {
        Some(steps)
    } else {
        None
    }
}

fn kind_in(line: Option<&[u8]>) -> Option<Kind>
    ensures { result ≡ option_and_then kind_in (option_map (λ line. line.now) line.entry) }
{
    let line = line?;
    if line == b"place step".as_slice() {
        Some(Kind::Step)
    } else if line == b"place open".as_slice() {
        Some(Kind::Open)
    } else {
        None
    }
}

fn moment_in(line: Option<&[u8]>) -> Option<u64>
    ensures { result ≡ option_and_then moment_in (option_map (λ line. line.now) line.entry) }
{
    number_behind(b"now ", line?)
}

/// The place that the first four lines of a snapshot name, or the number of the first of them that has not its form.
pub fn named_place(snap: &[u8]) -> Result<Place, u32>
    ensures { result ≡ named_place snap.now }
{
    let (heading, rest) = cut(snap);
    let (steps, rest) = cut(rest);
    let (kind, rest) = cut(rest);
    let (moment, _) = cut(rest);
    if !heads(heading) {
        return Err(1);
    }
    let steps = steps_in(steps).ok_or(2_u32)?;
    let kind = kind_in(kind).ok_or(3_u32)?;
    let now = moment_in(moment).ok_or(4_u32)?;
    Ok(Place { steps, kind, now })
}

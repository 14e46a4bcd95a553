//! What the words of the command line ask for.

ghost use Rattle.std.specs.Prelude.{◌≡◌, ◌≤◌, IfOk, false, map, string_bytes};
ghost use Rattle.clap.specs.Words.{app_of, found_of, rows_of, rule_of};
ghost use Rattle.pth_drawing.specs.Bounds.{most_turns};
ghost use Rattle.pth_drawing.specs.Words.{Chooses, agreed, asked_by, asked_in, asked_of, bare, file_rule, number_rule, picture};

use clap::error::ErrorKind;
use clap::{Arg, ArgMatches, Command, value_parser};
use pth_print::fault_line::Fault;
use std::alloc::{AllocError, Global};

/// How many turns are drawn at most.
pub const MOST_TURNS: u64 = 2_000;

// How many turns are drawn at most if the words do not say it.
const DEFAULT_TURNS: u64 = 400;

/// What the words of the command line ask for.
#[derive(Clone, Copy)]
pub struct Choice<'a> {
    /// The first turn that is drawn (`--from`), counted from 1: 1 and more, and 1 if the words do not say it.
    pub from: u64,
    /// How many turns are drawn at most (`--turns`): 1 to 2,000, and 400 if the words do not say it.
    pub turns: u64,
    /// The name that stands for the transcript (FILE), as it was given.
    pub file: Option<&'a str>,
}

// An option with a number.
fn number<'a>(alloc: Global, name: &'a str) -> Arg<'a>
    ensures rule { rule_of result ≡ number_rule name.now }
    ensures local { result.global ≡ false }
{
    Arg::new(alloc, name)
        .long(name)
        .value_parser(value_parser!(u64))
}

fn file<'a>(alloc: Global) -> Arg<'a>
    ensures rule { rule_of result ≡ file_rule }
    ensures local { result.global ≡ false }
{
    Arg::new(alloc, "FILE")
}

// The command before it has options.
fn bare<'a>(alloc: Global) -> Command<'a>
    ensures { app_of result ≡ bare }
{
    Command::new(alloc, "pth_picture")
        .no_binary_name(true)
        .disable_help_flag(true)
}

// The command with its options. It is handed the words after the program's name.
fn command<'a>(alloc: Global) -> Result<Command<'a>, AllocError>
    ensures { IfOk result (λ c. app_of c ≡ picture) }
{
    bare(alloc)
        .arg(number(alloc, "from"))?
        .arg(number(alloc, "turns"))?
        .arg(file(alloc))
}

// The choice that a parse found.
fn found<'a>(matches: &ArgMatches<'a>) -> Choice<'a>
    ensures { asked_of result ≡ asked_in (rows_of (found_of matches.now)) }
{
    Choice {
        from: matches.get_one::<u64>("from").unwrap_or(1),
        turns: matches.get_one::<u64>("turns").unwrap_or(DEFAULT_TURNS),
        file: matches.get_str("FILE"),
    }
}

// The choice, if what it asks for may be.
fn agreed(choice: Choice<'_>) -> Result<Choice<'_>, Fault>
    ensures answers { Chooses (agreed (asked_of choice.entry)) result }
    ensures turns { IfOk result (λ c. c.turns ≤ most_turns) }
{
    if choice.from == 0 || choice.turns == 0 || choice.turns > MOST_TURNS {
        return Err(Fault::Words);
    }
    Ok(choice)
}

/// What the words after the program's name ask for. They are refused exactly if the command's definition refuses them, or what they ask
/// for may not be, but for want of memory.
pub fn read_words<'a>(alloc: Global, words: &'a Vec<String>) -> Result<Choice<'a>, Fault>
    ensures answers { Chooses (asked_by (map string_bytes words.now.items)) result }
    ensures turns { IfOk result (λ choice. choice.turns ≤ most_turns) }
{
    let Ok(command) = command(alloc) else {
        return Err(Fault::OutOfMemory);
    };
    match command.try_get_matches_from(words.as_slice()) {
        Ok(matches) => agreed(found(&matches)),
        Err(error) => match error.kind() {
            ErrorKind::OutOfMemory => Err(Fault::OutOfMemory),
            _ => Err(Fault::Words),
        },
    }
}

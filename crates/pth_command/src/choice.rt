//! The choice that the words make.
//!
//! Without a default of 1,000,000 steps an endless loop would never return.

ghost use Rattle.std.specs.Prelude.{◌≡◌};
ghost use Rattle.clap.specs.Words.{found_of, rows_of};
ghost use Rattle.pth_command.specs.CommandLine.{asked_in, asked_of};

use clap::ArgMatches;

/// How many steps a run makes at most if the words do not say it.
const DEFAULT_STEPS: u64 = 1_000_000;

/// What the words of the command line ask for.
#[derive(Clone, Copy, Debug, PartialEq, Eq)]
pub struct Choice<'a> {
    /// How many steps the run makes at most (`--steps`): 1 to 1,000,000,000, and 1,000,000 if the words do not say it.
    pub steps: u64,
    /// Whether a dispatch tells how long its thread has waited, and how long it may wait (`--audit`).
    pub audit: bool,
    /// Whether a line of counts stands in place of the transcript (`--summary`).
    pub summary: bool,
    /// Whether the text in version 2 is written and nothing is run (`--upgrade`).
    pub upgrade: bool,
    /// How many threads the workload has that stands in place of a script (`--generate`), from 1 to 1,000, if the words ask for one.
    pub generate: Option<u64>,
    /// The name that stands for the script (FILE), as it was given.
    pub file: Option<&'a str>,
}

/// The choice that a parse found.
pub fn found<'a>(matches: &ArgMatches<'a>) -> Choice<'a>
    ensures { asked_of result ≡ asked_in (rows_of (found_of matches.now)) }
{
    // The command has this number of steps as a default, so one is always found.
    Choice {
        steps: matches.get_one::<u64>("steps").unwrap_or(DEFAULT_STEPS),
        audit: matches.get_one::<bool>("audit").unwrap_or(false),
        summary: matches.get_one::<bool>("summary").unwrap_or(false),
        upgrade: matches.get_one::<bool>("upgrade").unwrap_or(false),
        generate: matches.get_one::<u64>("generate"),
        file: matches.get_str("FILE"),
    }
}

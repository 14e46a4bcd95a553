//! The words of the command line, read by the command's definition.
//!
//! The number of steps is in its range by what `clap` says of a parse.

ghost use Rattle.std.specs.Prelude.{◌≡◌, ◌≤◌, IfOk, IfSome, map, option_map, string_bytes};
ghost use Rattle.pth_base.specs.Limits.{most_steps};
ghost use Rattle.pth_command.specs.CommandLine.{Chooses, IsWorkload, agreed, asked_by, asked_of, is_no_workload};

use crate::choice::{Choice, found};
use crate::command::command;
use clap::error::ErrorKind;
use std::alloc::Global;
use thiserror::Error;

/// Why the words make no choice: the command refuses them, or memory ran out.
#[derive(Clone, Copy, Debug, PartialEq, Eq, Error)]
pub enum WordsErr {
    #[error("Refused")]
    Refused,
    #[error("OutOfMemory")]
    OutOfMemory,
}

/// How many threads a workload has at most.
const MOST_WORKERS: u64 = 1000;

/// Whether a workload is asked for that has too few threads or too many, or beside which a FILE is named.
fn is_no_workload(choice: &Choice<'_>) -> bool
    ensures { result ≡ is_no_workload choice.now.generate (option_map (λ name. name.now) choice.now.file) }
{
    match choice.generate {
        Some(n) => choice.file.is_some() || n == 0 || n > MOST_WORKERS,
        None => false,
    }
}

/// The choice, if what it asks for goes together.
fn agreed(choice: Choice<'_>) -> Result<Choice<'_>, WordsErr>
    ensures answers { Chooses (agreed (asked_of choice.entry)) result }
    ensures same { IfOk result (λ c. c ≡ choice.entry) }
    ensures threads { IfOk result (λ c. IfSome c.generate IsWorkload) }
{
    if choice.upgrade && (choice.audit || choice.summary) || is_no_workload(&choice) {
        return Err(WordsErr::Refused);
    }
    Ok(choice)
}

/// What the words after the program's name ask for. They are refused exactly if the command's definition refuses them, or what they ask
/// for does not go together, but for want of memory.
pub fn read_words<'a>(alloc: Global, words: &'a Vec<String>) -> Result<Choice<'a>, WordsErr>
    ensures answers { Chooses (asked_by (map string_bytes words.now.items)) result }
    ensures steps { IfOk result (λ choice. (1 ≤ choice.steps) × (choice.steps ≤ most_steps)) }
    ensures threads { IfOk result (λ choice. IfSome choice.generate IsWorkload) }
{
    let Ok(command) = command(alloc) else {
        return Err(WordsErr::OutOfMemory);
    };
    match command.try_get_matches_from(words.as_slice()) {
        Ok(matches) => agreed(found(&matches)),
        Err(error) => match error.kind() {
            ErrorKind::OutOfMemory => Err(WordsErr::OutOfMemory),
            _ => Err(WordsErr::Refused),
        },
    }
}

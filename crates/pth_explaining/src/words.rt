//! The words of the command line, read by the command's definition.

ghost use Rattle.std.specs.Prelude.{◌≡◌, IfOk, false, map, string_bytes};
ghost use Rattle.clap.specs.Words.{app_of, rule_of};
ghost use Rattle.pth_explaining.specs.Words.{Names, asked_by, bare, explainer, file_rule};

use clap::error::ErrorKind;
use clap::{Arg, Command};
use pth_print::fault_line::Fault;
use std::alloc::{AllocError, Global};

// The command before it has operands.
fn bare<'a>(alloc: Global) -> Command<'a>
    ensures { app_of result ≡ bare }
{
    Command::new(alloc, "pth_why")
        .no_binary_name(true)
        .disable_help_flag(true)
}

fn file<'a>(alloc: Global) -> Arg<'a>
    ensures rule { rule_of result ≡ file_rule }
    ensures local { result.global ≡ false }
{
    Arg::new(alloc, "FILE")
}

// `pth_why [FILE]`, with no flags for help and version. It is handed the words after the program's name.
fn command<'a>(alloc: Global) -> Result<Command<'a>, AllocError>
    ensures { IfOk result (λ c. app_of c ≡ explainer) }
{
    bare(alloc).arg(file(alloc))
}

/// The name that the words after the program's name give, if they give one.
pub(crate) fn read_words<'a>(
    alloc: Global,
    words: &'a Vec<String>,
) -> Result<Option<&'a str>, Fault>
    ensures { Names (asked_by (map string_bytes words.now.items)) result }
{
    let Ok(command) = command(alloc) else {
        return Err(Fault::OutOfMemory);
    };
    match command.try_get_matches_from(words.as_slice()) {
        Ok(matches) => Ok(matches.get_str("FILE")),
        Err(error) => match error.kind() {
            ErrorKind::OutOfMemory => Err(Fault::OutOfMemory),
            _ => Err(Fault::Words),
        },
    }
}

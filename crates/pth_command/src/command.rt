//! The command and its options.

ghost use Rattle.std.specs.Prelude.{◌≡◌, IfOk, false};
ghost use Rattle.clap.specs.Words.{app_of, rule_of};
ghost use Rattle.pth_command.specs.Command.{bare, file_rule, flag_rule, generate_rule, play, steps_rule};

use clap::{Arg, ArgAction, Command, value_parser};
use pth_base::limits::MOST_STEPS;
use std::alloc::{AllocError, Global};

/// How many steps a run makes at most if the words do not say it, as a word.
const DEFAULT_TEXT: &str = "1000000";

fn steps<'a>(alloc: Global) -> Arg<'a>
    ensures rule { rule_of result ≡ steps_rule }
    ensures local { result.global ≡ false }
{
    Arg::new(alloc, "steps")
        .long("steps")
        .value_parser(value_parser!(u64).range(1..=MOST_STEPS as i64))
        .default_value(DEFAULT_TEXT)
}

// An option that is given or not.
fn flag<'a>(alloc: Global, name: &'a str) -> Arg<'a>
    ensures rule { rule_of result ≡ flag_rule name.now }
    ensures local { result.global ≡ false }
{
    Arg::new(alloc, name).long(name).action(ArgAction::SetTrue)
}

fn generate<'a>(alloc: Global) -> Arg<'a>
    ensures rule { rule_of result ≡ generate_rule }
    ensures local { result.global ≡ false }
{
    Arg::new(alloc, "generate")
        .long("generate")
        .value_parser(value_parser!(u64))
}

fn file<'a>(alloc: Global) -> Arg<'a>
    ensures rule { rule_of result ≡ file_rule }
    ensures local { result.global ≡ false }
{
    Arg::new(alloc, "FILE")
}

// The command before it has options.
fn bare<'a>(alloc: Global) -> Command<'a>
    ensures { app_of result ≡ bare }
{
    Command::new(alloc, "pth_play")
        .no_binary_name(true)
        .disable_help_flag(true)
}

/// `pth_play [--steps N] [--audit] [--summary] [--upgrade] [--generate N] [FILE]`, with no flags for help and version. It is handed the words after the
/// program's name.
pub fn command<'a>(alloc: Global) -> Result<Command<'a>, AllocError>
    ensures { IfOk result (λ c. app_of c ≡ play) }
{
    bare(alloc)
        .arg(steps(alloc))?
        .arg(flag(alloc, "audit"))?
        .arg(flag(alloc, "summary"))?
        .arg(flag(alloc, "upgrade"))?
        .arg(generate(alloc))?
        .arg(file(alloc))
}

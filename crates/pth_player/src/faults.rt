//! The fault that an error of a part is.

ghost use Rattle.std.specs.Prelude.{◌≡◌};
ghost use Rattle.pth_player.specs.FaultsOfErrors.{fault_of_script, fault_of_words};

use pth_command::command_line::WordsErr;
use pth_print::fault_line::{Fault, Flaw};
use pth_script::read::ReadErr;
use pth_text::rule::Breach;

pub fn fault_of_words(e: WordsErr) -> Fault
    ensures { result ≡ fault_of_words e }
{
    match e {
        WordsErr::Refused => Fault::Words,
        WordsErr::OutOfMemory => Fault::OutOfMemory,
    }
}

pub fn fault_of_script(e: ReadErr) -> Fault
    ensures { result ≡ fault_of_script e }
{
    match e {
        ReadErr::Refused { line, rule } => Fault::Input {
            line: u64::from(line),
            flaw: Flaw::Breaks(Breach::Of(rule)),
        },
        ReadErr::TooLarge { line } => Fault::Input {
            line: u64::from(line),
            flaw: Flaw::Breaks(Breach::Limit),
        },
        ReadErr::OutOfMemory => Fault::OutOfMemory,
    }
}

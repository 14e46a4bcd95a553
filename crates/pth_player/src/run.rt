//! The words, the script and the run.
//!
//! The result is a value, `Done`, from which the status follows.

ghost use Rattle.std.specs.Prelude.{◌≡◌, ◌≤◌, IfOk, IfSome, Some, true, false, map, string_bytes};
ghost use Rattle.pth_base.specs.Limits.{most_steps, IsGreatestPriority};
ghost use Rattle.pth_line.specs.Script.{functions_of};
ghost use Rattle.pth_command.specs.CommandLine.{IsWorkload, asked_by, asked_of};
ghost use Rattle.pth_sched.specs.Running.{StandsAt};
ghost use Rattle.pth_streams.specs.Inputs.{inputs};
ghost use Rattle.pth_streams.specs.Scene.{scene};
ghost use Rattle.pth_filter.specs.Objects.{OthersUntouched};
ghost use Rattle.pth_player.specs.Objects.{asked_object};
ghost use Rattle.pth_player.specs.Output.{given_script};
ghost use Rattle.pth_player.specs.Play.{Played, PlayedFor};
ghost use Rattle.pth_streams.specs.Pieces.{received};

use crate::done::Done;
use crate::drive::drive;
use crate::faults::fault_of_words;
use crate::script::{read_script, read_upgrade};
use pth_base::memory::OutOfMemory;
use pth_command::choice::Choice;
use pth_command::command_line::read_words;
use pth_filter::faults::fault_of_write;
use pth_kernel::kernel::Kernel;
use pth_line::script::Script;
use pth_print::fault_line::Fault;
use pth_sched::machine::Machine;
use pth_streams::files::Files;
use pth_streams::sink::Sink;
use pth_streams::source::Source;
use pth_streams::write_all::write_all;
use std::alloc::Global;

// How many steps are made between two writes.
const PIECE: u64 = 1000;

// The machine of a script on its kernel.
fn machine_of(alloc: Global, read: (Script, Kernel, u8)) -> Result<Machine<Script>, OutOfMemory>
    requires { IsGreatestPriority read.2 }
    ensures stands { IfOk result (λ m. StandsAt functions_of (given_script read) 0 m) }
    ensures steps { IfOk result (λ m. m.turn.steps ≡ 0) }
{
    let (script, kernel, top) = read;
    Machine::new(alloc, script, kernel, top)
}

// The script that the words ask for is run, and what they ask for of the run is written.
fn run_script<S: Source, F: Files, O: Sink>(
    alloc: Global,
    choice: &Choice<'_>,
    input: &mut S,
    files: &mut F,
    out: &mut O,
) -> Result<Done, Fault>
    requires runs { choice.now.upgrade ≡ false }
    requires few { choice.now.steps ≤ most_steps }
    requires workload { IfSome choice.now.generate IsWorkload }
    ensures ran { PlayedFor (asked_of choice.now)
        (scene (inputs (S.left input.old) (S.faults input.old)
        (F.left files.old) (F.held files.old) (F.faults files.old))
        (received (O.written out.old) (O.faults out.old)))
        (scene (inputs (S.left input.new) (S.faults input.new)
        (F.left files.new) (F.held files.new) (F.faults files.new))
        (received (O.written out.new) (O.faults out.new)))
        result }
    ensures others { OthersUntouched (asked_object (Some (asked_of choice.now))) input.old input.new files.old files.new }
{
    let read = read_script(alloc, choice, input, files)?;
    let Ok(mut machine) = machine_of(alloc, read) else {
        return Err(Fault::OutOfMemory);
    };
    match drive(alloc, &mut machine, choice, PIECE, out) {
        Ok(outcome) => Ok(Done::Ran(outcome)),
        Err(e) => Err(fault_of_write(e)),
    }
}

// The text that the words ask for is written in version 2.
fn upgrade_script<S: Source, F: Files, O: Sink>(
    alloc: Global,
    choice: &Choice<'_>,
    input: &mut S,
    files: &mut F,
    out: &mut O,
) -> Result<Done, Fault>
    requires upgrades { choice.now.upgrade ≡ true }
    requires workload { IfSome choice.now.generate IsWorkload }
    ensures ran { PlayedFor (asked_of choice.now)
        (scene (inputs (S.left input.old) (S.faults input.old)
        (F.left files.old) (F.held files.old) (F.faults files.old))
        (received (O.written out.old) (O.faults out.old)))
        (scene (inputs (S.left input.new) (S.faults input.new)
        (F.left files.new) (F.held files.new) (F.faults files.new))
        (received (O.written out.new) (O.faults out.new)))
        result }
    ensures others { OthersUntouched (asked_object (Some (asked_of choice.now))) input.old input.new files.old files.new }
{
    let text = read_upgrade(alloc, choice, input, files)?;
    match write_all(out, text.as_slice()) {
        Ok(()) => Ok(Done::Upgraded),
        Err(e) => Err(fault_of_write(e)),
    }
}

/// All that the program does, but for what it tells of a fault.
pub fn run<S: Source, F: Files, O: Sink>(
    alloc: Global,
    words: &Vec<String>,
    input: &mut S,
    files: &mut F,
    out: &mut O,
) -> Result<Done, Fault>
    ensures ran { Played (asked_by (map string_bytes words.now.items))
        (scene (inputs (S.left input.old) (S.faults input.old)
        (F.left files.old) (F.held files.old) (F.faults files.old))
        (received (O.written out.old) (O.faults out.old)))
        (scene (inputs (S.left input.new) (S.faults input.new)
        (F.left files.new) (F.held files.new) (F.faults files.new))
        (received (O.written out.new) (O.faults out.new)))
        result }
    ensures others { OthersUntouched (asked_object (asked_by (map string_bytes words.now.items)))
        input.old input.new files.old files.new }
{
    let choice = read_words(alloc, words).map_err(fault_of_words)?;
    if choice.upgrade {
        upgrade_script(alloc, &choice, input, files, out)
    } else {
        run_script(alloc, &choice, input, files, out)
    }
}

//! The top call.

ghost use Rattle.std.specs.Prelude.{◌≡◌, ◌≤◌, map, string_bytes};
ghost use Rattle.pth_command.specs.CommandLine.{asked_by};
ghost use Rattle.pth_streams.specs.Inputs.{inputs};
ghost use Rattle.pth_streams.specs.Scene.{scene};
ghost use Rattle.pth_filter.specs.Objects.{OthersUntouched};
ghost use Rattle.pth_player.specs.Objects.{asked_object};
ghost use Rattle.pth_player.specs.Play.{Plays, answer_of};
ghost use Rattle.pth_streams.specs.Pieces.{received};

use crate::done::Done;
use crate::run::run;
use pth_base::outcome::Outcome;
use pth_filter::finish::finish;
use pth_print::fault_line::Fault;
use pth_streams::files::Files;
use pth_streams::sink::Sink;
use pth_streams::source::Source;
use std::alloc::Global;

/// The name of the program, as the lines of its faults tell it.
pub const PROGRAM: &str = "pth_play";

/// The status of what was done, or its fault.
fn answer(ran: Result<Done, Fault>) -> Result<u8, Fault>
    ensures { result ≡ answer_of ran }
{
    match ran {
        Ok(Done::Upgraded) => Ok(0),
        Ok(Done::Ran(Outcome::Ended(_))) => Ok(0),
        Ok(Done::Ran(Outcome::Killed)) => Ok(0),
        Ok(Done::Ran(Outcome::Stalled)) => Ok(1),
        Ok(Done::Ran(Outcome::Running)) => Ok(6),
        // No run comes back with it: want of memory is a fault.
        Ok(Done::Ran(Outcome::OutOfMemory)) => Err(Fault::OutOfMemory),
        Err(fault) => Err(fault),
    }
}

/// All that the program does, over the objects that are handed in: `words` are those after the program's name, and the
/// result is the exit status.
///
/// `asked_by` says what the words ask for, and which are refused. The script is that of a workload if they ask for one. Else it is
/// read from the file that they name, or from `input` if they name none or `-`. The transcript, the summary or the text in version 2
/// is written to `out`, and the line of a fault to `err`.
///
/// `IsOutput` says what the output is for what is asked and the bytes of the script: the text of what the script's run tells,
/// with a status; the text of the script in version 2, if an upgrade is asked for; or a refusal. With status 0, 1, 2, 3 and 6
/// exactly the text of this output was written, and the status and the fault's line are the output's. It comes to another status
/// only if the object read or `out` failed, or memory ran out. `Plays` says this and what else holds by the status, fact by fact.
///
/// The text of a run, or the beginning of it that was written, is that of marks which are in time, orderly, exclusive, initialised and in
/// order (`laws` of `Plays`).
pub fn play<S: Source, F: Files, O: Sink, E: Sink>(
    alloc: Global,
    words: &Vec<String>,
    input: &mut S,
    files: &mut F,
    out: &mut O,
    err: &mut E,
) -> u8
    ensures status { result ≤ 7 }
    ensures others { OthersUntouched (asked_object (asked_by (map string_bytes words.now.items)))
        input.old input.new files.old files.new }
    ensures plays { Plays (record {
      words = map string_bytes words.now.items;
      old = scene (inputs (S.left input.old) (S.faults input.old)
          (F.left files.old) (F.held files.old) (F.faults files.old))
          (received (O.written out.old) (O.faults out.old));
      new = scene (inputs (S.left input.new) (S.faults input.new)
          (F.left files.new) (F.held files.new) (F.faults files.new))
          (received (O.written out.new) (O.faults out.new));
      err_old = received (E.written err.old) (E.faults err.old);
      err_new = received (E.written err.new) (E.faults err.new);
      status = result;
    }) }
{
    let ran = run(alloc, words, input, files, out);
    finish(alloc, PROGRAM, answer(ran), err)
}

//! The top call.

ghost use Rattle.std.specs.Prelude.{map, string_bytes};
ghost use Rattle.pth_streams.specs.Inputs.{inputs};
ghost use Rattle.pth_streams.specs.Pieces.{received};
ghost use Rattle.pth_streams.specs.Scene.{scene};
ghost use Rattle.pth_explaining.specs.Why.{why};
ghost use Rattle.pth_explaining.specs.Words.{asked_by};
ghost use Rattle.pth_filter.specs.Answers.{Answers, object_for};
ghost use Rattle.pth_filter.specs.Objects.{OthersUntouched};

use crate::run::run;
use pth_filter::finish::finish;
use pth_streams::files::Files;
use pth_streams::sink::Sink;
use pth_streams::source::Source;
use std::alloc::Global;

/// The name of the program, as the lines of its faults tell it.
pub const PROGRAM: &str = "pth_why";

/// All that the program does, over the objects that are handed in: `words` are those after the program's name, `[FILE]`, and the result
/// is the exit status. What stands under FILE is a transcript, read from `input` if the words give no name or `-`.
///
/// The explanation of the run is written to `out`, and the line of a fault to `err`. With status 0 exactly the explanation was written.
/// `IsOutput` says what the output is, and `Answers` what holds by the status.
pub fn explain<S: Source, F: Files, O: Sink, E: Sink>(
    alloc: Global,
    words: &Vec<String>,
    input: &mut S,
    files: &mut F,
    out: &mut O,
    err: &mut E,
) -> u8
    ensures others { OthersUntouched (object_for why (asked_by (map string_bytes words.now.items)))
        input.old input.new files.old files.new }
    ensures answers { Answers why (record {
      words = map string_bytes words.now.items;
      old = scene (inputs (S.left input.old) (S.faults input.old)
          (F.left files.old) (F.held files.old) (F.faults files.old))
          (received (O.written out.old) (O.faults out.old));
      new = scene (inputs (S.left input.new) (S.faults input.new)
          (F.left files.new) (F.held files.new) (F.faults files.new))
          (received (O.written out.new) (O.faults out.new));
      err_old = received (E.written err.old) (E.faults err.old);
      err_new = received (E.written err.new) (E.faults err.new);
      status = result;
    }) }
{
    let ran = run(alloc, words, input, files, out);
    finish(alloc, PROGRAM, ran, err)
}

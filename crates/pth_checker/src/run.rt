//! The words, the verdict and its line.

ghost use Rattle.std.specs.Prelude.{Some, map, string_bytes};
ghost use Rattle.pth_checker.specs.Check.{check};
ghost use Rattle.pth_checker.specs.Session.{ComesTo};
ghost use Rattle.pth_checker.specs.VerdictLines.{verdict_line};
ghost use Rattle.pth_checker.specs.Words.{asked_by, name_of};
ghost use Rattle.pth_streams.specs.Inputs.{inputs};
ghost use Rattle.pth_streams.specs.Pieces.{WritesPiece, received};
ghost use Rattle.pth_streams.specs.Scene.{scene};
ghost use Rattle.pth_transcript.specs.Reading.{CountsFault};
ghost use Rattle.pth_filter.specs.Answers.{Ran, object_for};
ghost use Rattle.pth_filter.specs.Objects.{OtherStays, OthersUntouched, content_under, is_file, of_read};

use crate::session::Session;
use crate::verdict::Verdict;
use crate::words::read_words;
use pth_filter::faults::fault_of_write;
use pth_print::fault_line::Fault;
use pth_streams::files::Files;
use pth_streams::sink::{Sink, SinkErr};
use pth_streams::source::Source;
use pth_streams::write_all::write_all;
use pth_text::text::Text;
use std::alloc::Global;

// The verdict on what stands under a name.
fn judged<S: Source, F: Files>(
    alloc: Global,
    name: Option<&str>,
    input: &mut S,
    files: &mut F,
) -> Result<Verdict, Fault>
    ensures comes_to { ComesTo (content_under (name_of name.entry)
        (inputs (S.left input.old) (S.faults input.old) (F.left files.old) (F.held files.old) (F.faults files.old))) result }
    ensures counts { CountsFault (of_read (is_file (name_of name.entry)) (S.faults input.old) (F.faults files.old))
        (of_read (is_file (name_of name.entry)) (S.faults input.new) (F.faults files.new)) result }
    ensures other { OtherStays (is_file (name_of name.entry)) input.old input.new files.old files.new }
{
    let mut session = Session::open(alloc, name, files)?;
    session.judge(alloc, input, files)
}

// Writes the line of a verdict.
fn write_verdict<O: Sink>(alloc: Global, verdict: &Verdict, out: &mut O) -> Result<(), SinkErr>
    ensures { WritesPiece (received (O.written out.old) (O.faults out.old))
        (received (O.written out.new) (O.faults out.new)) (verdict_line verdict.now) result }
{
    let mut text = Text::new(alloc);
    verdict.add_line(&mut text)?;
    write_all(out, text.as_slice())
}

// The verdict on what stands under a name, written. The answer is its status.
fn run_for<S: Source, F: Files, O: Sink>(
    alloc: Global,
    name: Option<&str>,
    input: &mut S,
    files: &mut F,
    out: &mut O,
) -> Result<u8, Fault>
    ensures ran { Ran check (Some (name_of name.entry))
        (scene (inputs (S.left input.old) (S.faults input.old)
        (F.left files.old) (F.held files.old) (F.faults files.old))
        (received (O.written out.old) (O.faults out.old)))
        (scene (inputs (S.left input.new) (S.faults input.new)
        (F.left files.new) (F.held files.new) (F.faults files.new))
        (received (O.written out.new) (O.faults out.new)))
        result }
    ensures other { OtherStays (is_file (name_of name.entry)) input.old input.new files.old files.new }
{
    let verdict = judged(alloc, name, input, files)?;
    match write_verdict(alloc, &verdict, out) {
        Ok(()) => Ok(verdict.status()),
        Err(e) => Err(fault_of_write(e)),
    }
}

/// All that the program does, but for what it tells of a fault.
pub(crate) fn run<S: Source, F: Files, O: Sink>(
    alloc: Global,
    words: &Vec<String>,
    input: &mut S,
    files: &mut F,
    out: &mut O,
) -> Result<u8, Fault>
    ensures ran { Ran check (asked_by (map string_bytes words.now.items))
        (scene (inputs (S.left input.old) (S.faults input.old)
        (F.left files.old) (F.held files.old) (F.faults files.old))
        (received (O.written out.old) (O.faults out.old)))
        (scene (inputs (S.left input.new) (S.faults input.new)
        (F.left files.new) (F.held files.new) (F.faults files.new))
        (received (O.written out.new) (O.faults out.new)))
        result }
    ensures others { OthersUntouched (object_for check (asked_by (map string_bytes words.now.items)))
        input.old input.new files.old files.new }
{
    let name = read_words(alloc, words)?;
    run_for(alloc, name, input, files, out)
}

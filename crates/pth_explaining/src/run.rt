//! The transcript read, and its explanation written.

ghost use Rattle.std.specs.Prelude.{◌≡◌, ◌∷◌, ◌++◌, [], IfErr, IfOk, OnOk, Some, map, string_bytes};
ghost use Rattle.pth_streams.specs.Inputs.{inputs};
ghost use Rattle.pth_streams.specs.Pieces.{received};
ghost use Rattle.pth_streams.specs.Scene.{scene};
ghost use Rattle.pth_transcript.specs.Reading.{ComesTo, CountsFault};
ghost use Rattle.pth_filter.specs.Answers.{Ran, object_for};
ghost use Rattle.pth_filter.specs.Objects.{OtherStays, OthersUntouched, content_under, faults_under, is_file, of_read};
ghost use Rattle.pth_transcript.specs.Taking.{HasMore, IsOver, IsStarted, ahead};
ghost use Rattle.pth_explaining.specs.Explanation.{explanation};
ghost use Rattle.pth_explaining.specs.Taken.{HasTaken};
ghost use Rattle.pth_explaining.specs.Why.{Makes, StopsAt, why};
ghost use Rattle.pth_explaining.specs.Words.{asked_by, name_of};

use crate::explanation::add_explanation;
use crate::words::read_words;
use pth_base::mark::Mark;
use pth_base::memory::OutOfMemory;
use pth_filter::faults::fault_of_write;
use pth_print::fault_line::{Fault, Flaw};
use pth_streams::files::Files;
use pth_streams::sink::Sink;
use pth_streams::source::{Failed, Source};
use pth_streams::write_all::write_all;
use pth_text::text::Text;
use pth_transcript::ending::Ending;
use pth_transcript::reader::{Part, Reader};
use std::alloc::Global;

// What a transcript tells.
#[derive(Drop)]
struct Transcript {
    marks: Vec<Mark>,
    ending: Ending,
}

// A mark more.
fn push_mark(marks: &mut Vec<Mark>, mark: Mark) -> Result<(), OutOfMemory>
    ensures { OnOk result (marks.new.items ≡ marks.old.items ++ mark ∷ []) }
{
    marks.push(mark)?;
    Ok(())
}

// The marks up to the line of the ending, and the ending.
fn take_lines<S: Source, F: Files>(
    alloc: Global,
    reader: &mut Reader,
    input: &mut S,
    files: &mut F,
) -> Result<Transcript, Fault>
    requires started { IsStarted reader.old.of_file (F.started files.old) }
    requires fresh { (reader.old.unread ≡ []) × (reader.old.lines ≡ 0) }
    ensures started { IsStarted reader.new.of_file (F.started files.new) }
    ensures same { reader.new.of_file ≡ reader.old.of_file }
    ensures taken { IfOk result (λ r. HasTaken r.marks.items r.ending
        (ahead [] (of_read reader.old.of_file (S.left input.old) (F.left files.old)))
        (ahead reader.new.unread (of_read reader.old.of_file (S.left input.new) (F.left files.new)))
        reader.new.lines) }
    ensures fault { IfErr result
        (StopsAt (of_read reader.old.of_file (S.left input.old) (F.left files.old))) }
    ensures counts { CountsFault
        (of_read reader.old.of_file (S.faults input.old) (F.faults files.old))
        (of_read reader.old.of_file (S.faults input.new) (F.faults files.new)) result }
    ensures other { OtherStays reader.old.of_file input.old input.new files.old files.new }
{
    let mut marks = Vec::new(alloc);
    'lines: loop {
        match reader.next(alloc, input, files)? {
            Part::Ending(ending) => return Ok(Transcript { marks, ending }),
            Part::Mark(told) => {
                let Ok(()) = push_mark(&mut marks, told.mark) else {
                    return Err(Fault::OutOfMemory);
                };
            }
        }
    }
}

// Nothing comes behind the line of the ending.
fn expect_end<S: Source, F: Files>(
    reader: &mut Reader,
    input: &mut S,
    files: &mut F,
) -> Result<(), Fault>
    requires started { IsStarted reader.old.of_file (F.started files.old) }
    ensures over { IfOk result (λ _. IsOver
        (ahead reader.old.unread (of_read reader.old.of_file (S.left input.old) (F.left files.old)))
        (ahead reader.new.unread (of_read reader.old.of_file (S.left input.new) (F.left files.new)))) }
    ensures fault { IfErr result (ComesTo reader.old.lines (HasMore
        (ahead reader.old.unread (of_read reader.old.of_file (S.left input.old) (F.left files.old)))
        (ahead reader.new.unread (of_read reader.old.of_file (S.left input.new) (F.left files.new))))) }
    ensures counts { CountsFault
        (of_read reader.old.of_file (S.faults input.old) (F.faults files.old))
        (of_read reader.old.of_file (S.faults input.new) (F.faults files.new)) result }
    ensures other { OtherStays reader.old.of_file input.old input.new files.old files.new }
{
    if reader.is_over(input, files)? {
        return Ok(());
    }
    Err(Fault::Input {
        line: reader.lines().saturating_add(1),
        flaw: Flaw::NoTranscript,
    })
}

// The explanation of a run.
fn explained(alloc: Global, transcript: &Transcript) -> Result<Text, OutOfMemory>
    ensures { IfOk result (λ t. t ≡ explanation transcript.now.marks.items transcript.now.ending) }
{
    let mut text = Text::new(alloc);
    add_explanation(
        alloc,
        transcript.marks.as_slice(),
        &transcript.ending,
        &mut text,
    )?;
    Ok(text)
}

// The explanation of the transcript that is read.
fn explain_reader<S: Source, F: Files>(
    alloc: Global,
    reader: &mut Reader,
    input: &mut S,
    files: &mut F,
) -> Result<Text, Fault>
    requires started { IsStarted reader.old.of_file (F.started files.old) }
    requires fresh { (reader.old.unread ≡ []) × (reader.old.lines ≡ 0) }
    ensures made { Makes (λ marks ending t. t ≡ explanation marks ending)
        (of_read reader.old.of_file (S.left input.old) (F.left files.old)) result }
    ensures counts { CountsFault
        (of_read reader.old.of_file (S.faults input.old) (F.faults files.old))
        (of_read reader.old.of_file (S.faults input.new) (F.faults files.new)) result }
    ensures other { OtherStays reader.old.of_file input.old input.new files.old files.new }
{
    let transcript = take_lines(alloc, reader, input, files)?;
    expect_end(reader, input, files)?;
    match explained(alloc, &transcript) {
        Ok(text) => Ok(text),
        Err(OutOfMemory) => Err(Fault::OutOfMemory),
    }
}

// The explanation of the transcript that stands under the name.
fn explain_named<S: Source, F: Files>(
    alloc: Global,
    name: Option<&str>,
    input: &mut S,
    files: &mut F,
) -> Result<Text, Fault>
    ensures made { Makes (λ marks ending t. t ≡ explanation marks ending)
        (content_under (name_of name.entry)
        (inputs (S.left input.old) (S.faults input.old)
        (F.left files.old) (F.held files.old) (F.faults files.old))) result }
    ensures counts { CountsFault
        (faults_under (name_of name.entry)
        (inputs (S.left input.old) (S.faults input.old)
        (F.left files.old) (F.held files.old) (F.faults files.old)))
        (faults_under (name_of name.entry)
        (inputs (S.left input.new) (S.faults input.new)
        (F.left files.new) (F.held files.new) (F.faults files.new))) result }
    ensures other { OtherStays (is_file (name_of name.entry)) input.old input.new files.old files.new }
{
    match Reader::open(alloc, name, files) {
        Ok(mut reader) => explain_reader(alloc, &mut reader, input, files),
        Err(Failed) => Err(Fault::ReadFault),
    }
}

// Writes the explanation of what stands under the name. The answer is the status.
fn write_explanation<S: Source, F: Files, O: Sink>(
    alloc: Global,
    name: Option<&str>,
    input: &mut S,
    files: &mut F,
    out: &mut O,
) -> Result<u8, Fault>
    ensures ran { Ran why (Some (name_of name.entry))
        (scene (inputs (S.left input.old) (S.faults input.old)
        (F.left files.old) (F.held files.old) (F.faults files.old))
        (received (O.written out.old) (O.faults out.old)))
        (scene (inputs (S.left input.new) (S.faults input.new)
        (F.left files.new) (F.held files.new) (F.faults files.new))
        (received (O.written out.new) (O.faults out.new)))
        result }
    ensures other { OtherStays (is_file (name_of name.entry)) input.old input.new files.old files.new }
{
    let text = explain_named(alloc, name, input, files)?;
    match write_all(out, text.as_slice()) {
        Ok(()) => Ok(0),
        Err(e) => Err(fault_of_write(e)),
    }
}

/// All that the program does, but for what it tells of a fault.
pub(crate) fn run<S: Source, F: Files, O: Sink>(
    alloc: Global,
    words: &Vec<String>,
    input: &mut S,
    files: &mut F,
    out: &mut O,
) -> Result<u8, Fault>
    ensures ran { Ran why (asked_by (map string_bytes words.now.items))
        (scene (inputs (S.left input.old) (S.faults input.old)
        (F.left files.old) (F.held files.old) (F.faults files.old))
        (received (O.written out.old) (O.faults out.old)))
        (scene (inputs (S.left input.new) (S.faults input.new)
        (F.left files.new) (F.held files.new) (F.faults files.new))
        (received (O.written out.new) (O.faults out.new)))
        result }
    ensures others { OthersUntouched (object_for why (asked_by (map string_bytes words.now.items)))
        input.old input.new files.old files.new }
{
    let name = read_words(alloc, words)?;
    write_explanation(alloc, name, input, files, out)
}

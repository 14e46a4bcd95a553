//! The transcript read, and its picture written.

ghost use Rattle.std.specs.Prelude.{◌≡◌, ◌≤◌, [], IfErr, IfOk, Some, map, string_bytes};
ghost use Rattle.pth_streams.specs.Inputs.{inputs};
ghost use Rattle.pth_streams.specs.Pieces.{received};
ghost use Rattle.pth_streams.specs.Scene.{scene};
ghost use Rattle.pth_transcript.specs.Reading.{ComesTo, CountsFault};
ghost use Rattle.pth_filter.specs.Answers.{Ran, object_for};
ghost use Rattle.pth_filter.specs.Objects.{OtherStays, OthersUntouched, content_under, faults_under, is_file, of_read};
ghost use Rattle.pth_transcript.specs.Taking.{HasMore, IsOver, IsStarted, ahead};
ghost use Rattle.pth_drawing.specs.Bounds.{most_turns};
ghost use Rattle.pth_drawing.specs.Charts.{chart_seen};
ghost use Rattle.pth_drawing.specs.Draw.{Makes, StopsAt, draw, picture};
ghost use Rattle.pth_drawing.specs.Drawing.{chart};
ghost use Rattle.pth_drawing.specs.Ends.{end_of};
ghost use Rattle.pth_drawing.specs.Taken.{HasDrawn};
ghost use Rattle.pth_drawing.specs.Words.{asked_by, asked_of};

use crate::chart::{Chart, End};
use crate::drawing::Drawing;
use crate::end::end_of;
use crate::svg::add_picture;
use crate::words::{Choice, read_words};
use pth_base::memory::OutOfMemory;
use pth_filter::faults::fault_of_write;
use pth_print::fault_line::{Fault, Flaw};
use pth_streams::files::Files;
use pth_streams::sink::Sink;
use pth_streams::source::{Failed, Source};
use pth_streams::write_all::write_all;
use pth_text::text::Text;
use pth_transcript::reader::{Part, Reader};
use std::alloc::Global;

// Draws the marks up to the line of the ending, which shows how the run ended.
fn draw_marks<S: Source, F: Files>(
    alloc: Global,
    choice: &Choice<'_>,
    reader: &mut Reader,
    input: &mut S,
    files: &mut F,
) -> Result<(Drawing, End), Fault>
    requires started { IsStarted reader.old.of_file (F.started files.old) }
    requires fresh { (reader.old.unread ≡ []) × (reader.old.lines ≡ 0) }
    ensures started { IsStarted reader.new.of_file (F.started files.new) }
    ensures same { reader.new.of_file ≡ reader.old.of_file }
    ensures drawn { IfOk result (λ r. HasDrawn r.0 r.1 choice.now.from choice.now.turns
        (ahead [] (of_read reader.old.of_file (S.left input.old) (F.left files.old)))
        (ahead reader.new.unread (of_read reader.old.of_file (S.left input.new) (F.left files.new)))
        reader.new.lines) }
    ensures fault { IfErr result
        (StopsAt (of_read reader.old.of_file (S.left input.old) (F.left files.old))) }
    ensures counts { CountsFault
        (of_read reader.old.of_file (S.faults input.old) (F.faults files.old))
        (of_read reader.old.of_file (S.faults input.new) (F.faults files.new)) result }
    ensures other { OtherStays reader.old.of_file input.old input.new files.old files.new }
{
    let mut drawing = Drawing::new(alloc, choice.from, choice.turns);
    'lines: loop {
        let told = match reader.next(alloc, input, files)? {
            Part::Mark(told) => told,
            Part::Ending(ending) => return Ok((drawing, end_of(&ending))),
        };
        let Ok(()) = drawing.add(&told.mark) else {
            return Err(Fault::OutOfMemory);
        };
    }
}

// Nothing comes behind the line of the ending.
fn expect_end<S: Source, F: Files>(
    reader: &mut Reader,
    input: &mut S,
    files: &mut F,
) -> Result<(), Fault>
    requires started { IsStarted reader.old.of_file (F.started files.old) }
    ensures over { IfOk result (λ _. IsOver
        (ahead reader.old.unread (of_read reader.old.of_file (S.left input.old) (F.left files.old)))
        (ahead reader.new.unread (of_read reader.old.of_file (S.left input.new) (F.left files.new)))) }
    ensures fault { IfErr result (ComesTo reader.old.lines (HasMore
        (ahead reader.old.unread (of_read reader.old.of_file (S.left input.old) (F.left files.old)))
        (ahead reader.new.unread (of_read reader.old.of_file (S.left input.new) (F.left files.new))))) }
    ensures counts { CountsFault
        (of_read reader.old.of_file (S.faults input.old) (F.faults files.old))
        (of_read reader.old.of_file (S.faults input.new) (F.faults files.new)) result }
    ensures other { OtherStays reader.old.of_file input.old input.new files.old files.new }
{
    if reader.is_over(input, files)? {
        return Ok(());
    }
    Err(Fault::Input {
        line: reader.lines().saturating_add(1),
        flaw: Flaw::NoTranscript,
    })
}

// The chart of the transcript that is read.
fn chart_of<S: Source, F: Files>(
    alloc: Global,
    choice: &Choice<'_>,
    reader: &mut Reader,
    input: &mut S,
    files: &mut F,
) -> Result<Chart, Fault>
    requires started { IsStarted reader.old.of_file (F.started files.old) }
    requires fresh { (reader.old.unread ≡ []) × (reader.old.lines ≡ 0) }
    requires few { choice.now.turns ≤ most_turns }
    ensures made { Makes (λ marks ending c. chart_seen c ≡ chart choice.now.from choice.now.turns (end_of ending) marks)
        (of_read reader.old.of_file (S.left input.old) (F.left files.old)) result }
    ensures counts { CountsFault
        (of_read reader.old.of_file (S.faults input.old) (F.faults files.old))
        (of_read reader.old.of_file (S.faults input.new) (F.faults files.new)) result }
    ensures other { OtherStays reader.old.of_file input.old input.new files.old files.new }
{
    let (drawing, end) = draw_marks(alloc, choice, reader, input, files)?;
    expect_end(reader, input, files)?;
    match drawing.chart(choice.from, end) {
        Ok(chart) => Ok(chart),
        Err(OutOfMemory) => Err(Fault::OutOfMemory),
    }
}

// The chart of the transcript that stands under the name.
fn read_chart<S: Source, F: Files>(
    alloc: Global,
    choice: &Choice<'_>,
    input: &mut S,
    files: &mut F,
) -> Result<Chart, Fault>
    requires few { choice.now.turns ≤ most_turns }
    ensures made { Makes (λ marks ending c. chart_seen c ≡ chart choice.now.from choice.now.turns (end_of ending) marks)
        (content_under (asked_of choice.now).file
        (inputs (S.left input.old) (S.faults input.old)
        (F.left files.old) (F.held files.old) (F.faults files.old))) result }
    ensures counts { CountsFault
        (faults_under (asked_of choice.now).file
        (inputs (S.left input.old) (S.faults input.old)
        (F.left files.old) (F.held files.old) (F.faults files.old)))
        (faults_under (asked_of choice.now).file
        (inputs (S.left input.new) (S.faults input.new)
        (F.left files.new) (F.held files.new) (F.faults files.new))) result }
    ensures other { OtherStays (is_file (asked_of choice.now).file)
        input.old input.new files.old files.new }
{
    match Reader::open(alloc, choice.file, files) {
        Ok(mut reader) => chart_of(alloc, choice, &mut reader, input, files),
        Err(Failed) => Err(Fault::ReadFault),
    }
}

// The picture of the transcript that stands under the name.
fn read_picture<S: Source, F: Files>(
    alloc: Global,
    choice: &Choice<'_>,
    input: &mut S,
    files: &mut F,
) -> Result<Text, Fault>
    requires few { choice.now.turns ≤ most_turns }
    ensures made { Makes (λ marks ending t. t ≡ picture choice.now.from choice.now.turns marks ending)
        (content_under (asked_of choice.now).file
        (inputs (S.left input.old) (S.faults input.old)
        (F.left files.old) (F.held files.old) (F.faults files.old))) result }
    ensures counts { CountsFault
        (faults_under (asked_of choice.now).file
        (inputs (S.left input.old) (S.faults input.old)
        (F.left files.old) (F.held files.old) (F.faults files.old)))
        (faults_under (asked_of choice.now).file
        (inputs (S.left input.new) (S.faults input.new)
        (F.left files.new) (F.held files.new) (F.faults files.new))) result }
    ensures other { OtherStays (is_file (asked_of choice.now).file)
        input.old input.new files.old files.new }
{
    let chart = read_chart(alloc, choice, input, files)?;
    let mut text = Text::new(alloc);
    match add_picture(&chart, &mut text) {
        Ok(()) => Ok(text),
        Err(OutOfMemory) => Err(Fault::OutOfMemory),
    }
}

// Writes the picture that the words ask for. The answer is the status.
fn write_picture<S: Source, F: Files, O: Sink>(
    alloc: Global,
    choice: &Choice<'_>,
    input: &mut S,
    files: &mut F,
    out: &mut O,
) -> Result<u8, Fault>
    requires few { choice.now.turns ≤ most_turns }
    ensures ran { Ran draw (Some (asked_of choice.now))
        (scene (inputs (S.left input.old) (S.faults input.old)
        (F.left files.old) (F.held files.old) (F.faults files.old))
        (received (O.written out.old) (O.faults out.old)))
        (scene (inputs (S.left input.new) (S.faults input.new)
        (F.left files.new) (F.held files.new) (F.faults files.new))
        (received (O.written out.new) (O.faults out.new)))
        result }
    ensures other { OtherStays (is_file (asked_of choice.now).file)
        input.old input.new files.old files.new }
{
    let text = read_picture(alloc, choice, input, files)?;
    match write_all(out, text.as_slice()) {
        Ok(()) => Ok(0),
        Err(e) => Err(fault_of_write(e)),
    }
}

/// All that the program does, but for what it tells of a fault.
pub(crate) fn run<S: Source, F: Files, O: Sink>(
    alloc: Global,
    words: &Vec<String>,
    input: &mut S,
    files: &mut F,
    out: &mut O,
) -> Result<u8, Fault>
    ensures ran { Ran draw (asked_by (map string_bytes words.now.items))
        (scene (inputs (S.left input.old) (S.faults input.old)
        (F.left files.old) (F.held files.old) (F.faults files.old))
        (received (O.written out.old) (O.faults out.old)))
        (scene (inputs (S.left input.new) (S.faults input.new)
        (F.left files.new) (F.held files.new) (F.faults files.new))
        (received (O.written out.new) (O.faults out.new)))
        result }
    ensures others { OthersUntouched (object_for draw (asked_by (map string_bytes words.now.items)))
        input.old input.new files.old files.new }
{
    let choice = read_words(alloc, words)?;
    write_picture(alloc, &choice, input, files, out)
}

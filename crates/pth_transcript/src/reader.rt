//! A transcript, read line by line.

ghost use Rattle.std.specs.Prelude.{◌≡◌, ◌+◌, ◌<◌, ◌^◌, ◌++◌, ◌⊎◌, [], IfOk, IfSome, IfErr, None, codes, option_map, true, false};
ghost use Rattle.pth_streams.specs.Faults.{Counts, CountsRead};
ghost use Rattle.pth_transcript.specs.Reading.{ComesNoPart, ComesTo, CountsFault, IsRefused};
ghost use Rattle.pth_transcript.specs.Transcripts.{IsToldPart, IsUnknown, part_line};
ghost use Rattle.pth_filter.specs.Objects.{OtherStays, is_file, of_read};
ghost use Rattle.pth_transcript.specs.Taking.{HasMore, IsOver, IsStarted, Opens, Takes, ahead};

use crate::ending::{Ending, read_ending};
use crate::lines::Lines;
use crate::told::{Told, read_line};
use pth_base::memory::OutOfMemory;
use pth_filter::faults::fault_of_read;
use pth_print::fault_line::{Fault, Flaw};
use pth_streams::files::Files;
use pth_streams::source::{Failed, ReadFault, Source};
use std::alloc::Global;
use std::marker::Model;

/// A line of a transcript.
#[derive(Drop)]
pub enum Part {
    Mark(Told),
    Ending(Ending),
}

/// Reads a transcript line by line, in the memory of a line.
#[derive(Drop)]
pub struct Reader {
    lines: Lines,
    count: u64,
}

impl Model for Reader {
    ghost use Rattle.pth_transcript.specs.Taking.{Reading};

    ghost Value = { Reading };

    ghost view = { λ r. record { of_file = r.lines.of_file; unread = r.lines.unread; lines = r.count } };
}

// What a line tells.
fn read_part(alloc: Global, line: &[u8]) -> Result<Option<Part>, OutOfMemory>
    ensures spelled { IfOk result (λ found. IfSome found (λ part. line.now ++ codes "\n" ≡ part_line part)) }
    ensures told { IfOk result (λ found. IfSome found IsToldPart) }
    ensures unknown { IfOk result (λ found. found ≡ None → IsUnknown line.now) }
{
    if let Some(told) = read_line(alloc, line)? {
        return Ok(Some(Part::Mark(told)));
    }
    match read_ending(alloc, line)? {
        Some(ending) => Ok(Some(Part::Ending(ending))),
        None => Ok(None),
    }
}

impl Reader {
    /// Starts to read what stands under a name: the input under no name and under `-`, and a file under another. A file is started.
    pub fn open<F: Files>(
        alloc: Global,
        name: Option<&str>,
        files: &mut F,
    ) -> Result<Reader, Failed>
        ensures reading { IfOk result (λ r. r ≡ record { of_file = is_file (option_map (λ n. n.now) name.entry); unread = []; lines = 0 }) }
        ensures opens { Opens (option_map (λ n. n.now) name.entry) (F.held files.old) (F.left files.new) (F.started files.new) result }
        ensures counts { Counts (F.faults files.old) (F.faults files.new) result }
        ensures other { is_file (option_map (λ n. n.now) name.entry) ≡ false → files.new ≡ files.old }
    {
        let of_file = match name {
            Some(name) if name != "-" => {
                files.start(name)?;
                true
            }
            _ => false,
        };
        Ok(Reader {
            lines: Lines::new(alloc, of_file),
            count: 0,
        })
    }

    /// How many lines were taken, up to the last value of a `u64`.
    pub fn lines(&self) -> u64
        ensures { result ≡ self.now.lines }
    {
        self.count
    }

    // The next line, if it is the line of a transcript.
    fn next_part<S: Source, F: Files>(
        &mut self,
        alloc: Global,
        input: &mut S,
        files: &mut F,
    ) -> Result<Option<Part>, ReadFault>
        requires started { IsStarted self.old.of_file (F.started files.old) }
        ensures started { IsStarted self.new.of_file (F.started files.new) }
        ensures same { self.new.of_file ≡ self.old.of_file }
        ensures count { self.new.lines ≡ self.old.lines }
        ensures told { IfOk result (λ found. IfSome found IsToldPart) }
        ensures takes { IfOk result (λ found. IfSome found (λ part. Takes
            (ahead self.old.unread (of_read self.old.of_file (S.left input.old) (F.left files.old)))
            (ahead self.new.unread (of_read self.old.of_file (S.left input.new) (F.left files.new))) (part_line part))) }
        ensures none { IfOk result (λ found. found ≡ None → ComesNoPart
            (ahead self.old.unread (of_read self.old.of_file (S.left input.old) (F.left files.old)))
            (ahead self.new.unread (of_read self.old.of_file (S.left input.new) (F.left files.new)))) }
        ensures counts { CountsRead (of_read self.old.of_file (S.faults input.old) (F.faults files.old))
            (of_read self.old.of_file (S.faults input.new) (F.faults files.new)) result }
        ensures other { OtherStays self.old.of_file input.old input.new files.old files.new }
    {
        if !self.lines.take(input, files)? {
            return Ok(None);
        }
        match read_part(alloc, self.lines.line()) {
            Ok(found) => Ok(found),
            Err(OutOfMemory) => Err(ReadFault::OutOfMemory),
        }
    }

    /// The next line of the transcript.
    pub fn next<S: Source, F: Files>(
        &mut self,
        alloc: Global,
        input: &mut S,
        files: &mut F,
    ) -> Result<Part, Fault>
        requires started { IsStarted self.old.of_file (F.started files.old) }
        ensures started { IsStarted self.new.of_file (F.started files.new) }
        ensures same { self.new.of_file ≡ self.old.of_file }
        ensures takes { IfOk result (λ part. Takes
            (ahead self.old.unread (of_read self.old.of_file (S.left input.old) (F.left files.old)))
            (ahead self.new.unread (of_read self.old.of_file (S.left input.new) (F.left files.new))) (part_line part)) }
        ensures lines { IfOk result (λ _. self.new.lines ≡ self.old.lines + 1) }
        ensures few { self.new.lines < 2 ^ 64 }
        ensures told { IfOk result IsToldPart }
        ensures fault { IfErr result (ComesTo self.old.lines (IsRefused self.old.lines
            (ahead self.old.unread (of_read self.old.of_file (S.left input.old) (F.left files.old)))
            (ahead self.new.unread (of_read self.old.of_file (S.left input.new) (F.left files.new))))) }
        ensures counts { CountsFault (of_read self.old.of_file (S.faults input.old) (F.faults files.old))
            (of_read self.old.of_file (S.faults input.new) (F.faults files.new)) result }
        ensures other { OtherStays self.old.of_file input.old input.new files.old files.new }
    {
        let line = self.count.saturating_add(1);
        let found = self.next_part(alloc, input, files).map_err(fault_of_read)?;
        match found {
            Some(part) if self.count < line => {
                self.count = line;
                Ok(part)
            }
            _ => Err(Fault::Input {
                line,
                flaw: Flaw::NoTranscript,
            }),
        }
    }

    /// Whether nothing comes behind the lines that were taken.
    pub fn is_over<S: Source, F: Files>(
        &mut self,
        input: &mut S,
        files: &mut F,
    ) -> Result<bool, Fault>
        requires started { IsStarted self.old.of_file (F.started files.old) }
        ensures over { IfOk result (λ over. over ≡ true → IsOver
            (ahead self.old.unread (of_read self.old.of_file (S.left input.old) (F.left files.old)))
            (ahead self.new.unread (of_read self.old.of_file (S.left input.new) (F.left files.new)))) }
        ensures more { IfOk result (λ over. over ≡ false → HasMore
            (ahead self.old.unread (of_read self.old.of_file (S.left input.old) (F.left files.old)))
            (ahead self.new.unread (of_read self.old.of_file (S.left input.new) (F.left files.new)))) }
        ensures lines { self.new.lines ≡ self.old.lines }
        ensures fault { IfErr result (λ f. (f ≡ Fault.ReadFault) ⊎ (f ≡ Fault.OutOfMemory)) }
        ensures counts { CountsFault (of_read self.old.of_file (S.faults input.old) (F.faults files.old))
            (of_read self.old.of_file (S.faults input.new) (F.faults files.new)) result }
        ensures other { OtherStays self.old.of_file input.old input.new files.old files.new }
    {
        match self.lines.take(input, files) {
            Ok(found) => Ok(!found && self.lines.has_all()),
            Err(e) => Err(fault_of_read(e)),
        }
    }
}

//! A transcript that is read and judged line by line.

ghost use Rattle.std.specs.Prelude.{◌≡◌, ◌⊎◌, ◌<◌, ◌^◌, ℕ, List, [], Option, IfErr, IfOk, OnOk, None, false};
ghost use Rattle.pth_checker.specs.Session.{ComesTo, GoesOn, HasHeard, HasJudged, HasRead, IsWhole, Steps};
ghost use Rattle.pth_checker.specs.Words.{name_of};
ghost use Rattle.pth_transcript.specs.Reading.{CountsFault};
ghost use Rattle.pth_filter.specs.Objects.{OtherStays, is_file, of_read};
ghost use Rattle.pth_transcript.specs.Taking.{IsStarted};
ghost use Rattle.pth_transcript.specs.declared.reader.Part.TheVariants as part;
ghost use Rattle.pth_transcript.specs.declared.told.Told.{Told as ToldOf};

use crate::judge::Judge;
use crate::verdict::{Law, Verdict};
use pth_print::fault_line::{Fault, Flaw};
use pth_streams::files::Files;
use pth_streams::source::Source;
use pth_transcript::ending::Ending;
use pth_transcript::reader::{Part, Reader};
use pth_transcript::told::Told;
use std::alloc::Global;

/// A transcript, and the judge of the lines that were read of it.
#[derive(Drop)]
pub(crate) struct Session {
    reader: Reader,
    judge: Judge,
}

impl Session {
    /// Starts to read what stands under a name. No line is read yet.
    pub(crate) fn open<F: Files>(
        alloc: Global,
        name: Option<&str>,
        files: &mut F,
    ) -> Result<Session, Fault>
        ensures heard { (content : Option (List ℕ)) → IfOk result (λ h. HasHeard content h content []) }
        ensures of_file { IfOk result (λ h. h.reader.of_file ≡ is_file (name_of name.entry)) }
        ensures started { IfOk result (λ h. IsStarted h.reader.of_file (F.started files.new)) }
        ensures whole { OnOk result (IsWhole (name_of name.entry) (F.held files.old) (F.left files.new)) }
        ensures fault { IfErr result (λ f. (f ≡ Fault.ReadFault) ⊎ (f ≡ Fault.OutOfMemory)) }
        ensures counts { (count : ℕ) → CountsFault (of_read (is_file (name_of name.entry)) count (F.faults files.old))
            (of_read (is_file (name_of name.entry)) count (F.faults files.new)) result }
        ensures other { is_file (name_of name.entry) ≡ false → files.new ≡ files.old }
    {
        let Ok(judge) = Judge::new(alloc) else {
            return Err(Fault::OutOfMemory);
        };
        match Reader::open(alloc, name, files) {
            Ok(reader) => Ok(Session { reader, judge }),
            Err(_) => Err(Fault::ReadFault),
        }
    }

    // Judges the mark of the line that was read last.
    fn judge_mark(&mut self, told: Told) -> Result<Option<Verdict>, Fault>
        requires { HasJudged self.old 1 }
        ensures judged { IfOk result (λ verdict. verdict ≡ None → HasJudged self.new 0) }
        ensures reader { self.new.reader ≡ self.old.reader }
        ensures few { self.new.reader.lines < 2 ^ 64 }
        ensures fault { IfErr result (λ f. f ≡ Fault.OutOfMemory) }
        ensures goes_on { (content left : Option (List ℕ)) → (before : List ToldOf)
            → HasRead content self.old left before (part.Mark told) → GoesOn content self.new left result }
    {
        let line = self.reader.lines();
        match self.judge.add(told.mark) {
            Ok(None) => Ok(None),
            Ok(Some(rule)) => Ok(Some(Verdict::Unlawful {
                line,
                law: Law::Marks(rule),
            })),
            Err(_) => Err(Fault::OutOfMemory),
        }
    }

    // Judges the ending that was read last, behind which nothing may come.
    fn judge_ending<S: Source, F: Files>(
        &mut self,
        ending: &Ending,
        input: &mut S,
        files: &mut F,
    ) -> Result<Verdict, Fault>
        requires { IsStarted self.old.reader.of_file (F.started files.old) }
        ensures comes_to { (content : Option (List ℕ)) → (told : List ToldOf)
            → HasRead content self.old (of_read self.old.reader.of_file (S.left input.old) (F.left files.old)) told
            (part.Ending ending.now)
            → ComesTo content result }
        ensures counts { CountsFault (of_read self.old.reader.of_file (S.faults input.old) (F.faults files.old))
            (of_read self.old.reader.of_file (S.faults input.new) (F.faults files.new)) result }
        ensures other { OtherStays self.old.reader.of_file input.old input.new files.old files.new }
    {
        let line = self.reader.lines();
        if !self.judge.fits(ending) {
            return Ok(Verdict::Unlawful {
                line,
                law: Law::Ending,
            });
        }
        if self.reader.is_over(input, files)? {
            Ok(Verdict::Lawful { lines: line })
        } else {
            Err(Fault::Input {
                line: line.saturating_add(1),
                flaw: Flaw::NoTranscript,
            })
        }
    }

    // Reads and judges one line more, and answers the verdict if there is one.
    fn step<S: Source, F: Files>(
        &mut self,
        alloc: Global,
        input: &mut S,
        files: &mut F,
    ) -> Result<Option<Verdict>, Fault>
        requires started { IsStarted self.old.reader.of_file (F.started files.old) }
        requires judged { HasJudged self.old 0 }
        ensures goes_on { (content : Option (List ℕ)) → (told : List ToldOf)
            → HasHeard content self.old (of_read self.old.reader.of_file (S.left input.old) (F.left files.old)) told
            → GoesOn content self.new (of_read self.old.reader.of_file (S.left input.new) (F.left files.new)) result }
        ensures steps { IfOk result (λ verdict. verdict ≡ None → Steps self.old self.new (F.started files.new)) }
        ensures counts { CountsFault (of_read self.old.reader.of_file (S.faults input.old) (F.faults files.old))
            (of_read self.old.reader.of_file (S.faults input.new) (F.faults files.new)) result }
        ensures other { OtherStays self.old.reader.of_file input.old input.new files.old files.new }
    {
        match self.reader.next(alloc, input, files)? {
            Part::Mark(told) => self.judge_mark(told),
            Part::Ending(ending) => Ok(Some(self.judge_ending(&ending, input, files)?)),
        }
    }

    /// Reads and judges line by line, to the first that is wrong or to the end.
    pub(crate) fn judge<S: Source, F: Files>(
        &mut self,
        alloc: Global,
        input: &mut S,
        files: &mut F,
    ) -> Result<Verdict, Fault>
        requires started { IsStarted self.old.reader.of_file (F.started files.old) }
        requires judged { HasJudged self.old 0 }
        ensures comes_to { (content : Option (List ℕ)) → (told : List ToldOf)
            → HasHeard content self.old (of_read self.old.reader.of_file (S.left input.old) (F.left files.old)) told
            → ComesTo content result }
        ensures counts { CountsFault (of_read self.old.reader.of_file (S.faults input.old) (F.faults files.old))
            (of_read self.old.reader.of_file (S.faults input.new) (F.faults files.new)) result }
        ensures other { OtherStays self.old.reader.of_file input.old input.new files.old files.new }
    {
        loop {
            if let Some(verdict) = self.step(alloc, input, files)? {
                return Ok(verdict);
            }
        }
    }
}

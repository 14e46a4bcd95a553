//! The lines of an input or of a file, one by one.

ghost use Rattle.std.specs.Prelude.{◌≡◌, ◌<◌, ◌≤◌, [], ◌++◌, IfOk, codes, length, take, true, false};
ghost use Rattle.std.specs.Io.{ReadsAtMost};
ghost use Rattle.std.specs.Io.KnownBytes.{IsAtEnd, ReadConsumes};
ghost use Rattle.pth_streams.specs.Faults.{Counts, CountsRead};
ghost use Rattle.pth_filter.specs.Objects.{OtherStays, of_read};
ghost use Rattle.pth_transcript.specs.Taking.{IsLineless, IsStarted, Takes, TakesLine, ahead};

use pth_streams::files::Files;
use pth_streams::source::{Failed, ReadFault, Source};
use pth_text::line::line_end;
use std::alloc::{AllocError, Global};
use std::marker::Model;

// How many bytes one read asks for.
const BUFFER: usize = 4096;

/// The lines of the input or of the started file. It holds the line that was taken last and what was read behind it, and no more.
pub struct Lines {
    of_file: bool,
    line: Vec<u8>,
    bytes: Vec<u8>,
    rest: usize,
}

impl Model for Lines {
    ghost use Rattle.std.specs.Prelude.{◌≤◌, drop, length};
    ghost use Rattle.pth_transcript.specs.Taking.{Taken};

    ghost Value = { Taken };

    ghost view = { λ l. record {
      of_file = l.of_file;
      line = l.line.items;
      unread = drop l.rest l.bytes.items;
    } };

    ghost invariant = { λ l. l.rest ≤ length l.bytes.items };
}

// By hand, so that letting one go is one call in each proof.
impl Drop for Lines {
    fn drop(self) {
        let Lines {
            of_file: _,
            line: _,
            bytes: _,
            rest: _,
        } = self;
    }
}

// Reads from the file or from the input.
fn read_piece<S: Source, F: Files>(
    of_file: bool,
    input: &mut S,
    files: &mut F,
    piece: &mut [u8],
) -> Result<usize, Failed>
    requires started { IsStarted of_file (F.started files.old) }
    ensures started { IsStarted of_file (F.started files.new) }
    ensures bound { ReadsAtMost result piece.new }
    ensures bytes { ReadConsumes (of_read of_file (S.left input.old) (F.left files.old))
        (of_read of_file (S.left input.new) (F.left files.new)) result piece.new }
    ensures counts { Counts (of_read of_file (S.faults input.old) (F.faults files.old))
        (of_read of_file (S.faults input.new) (F.faults files.new)) result }
    ensures other { OtherStays of_file input.old input.new files.old files.new }
{
    if of_file {
        files.read(piece)
    } else {
        input.read(piece)
    }
}

impl Lines {
    /// No line is taken yet. If it is of a file, that is to be started first.
    pub fn new(alloc: Global, of_file: bool) -> Lines
        ensures { result ≡ record { of_file = of_file; line = []; unread = [] } }
    {
        Lines {
            of_file,
            line: Vec::new(alloc),
            bytes: Vec::new(alloc),
            rest: 0,
        }
    }

    /// The line that was taken last, without its LF.
    pub fn line(&self) -> &[u8]
        ensures { result.now ≡ self.now.line }
    {
        self.line.as_slice()
    }

    /// Whether nothing was read behind the line that was taken last.
    pub fn has_all(&self) -> bool
        ensures all { result ≡ true → self.now.unread ≡ [] }
        ensures none { self.now.unread ≡ [] → result ≡ true }
    {
        self.rest == self.bytes.len()
    }

    // Lets go of the lines that were taken, which makes room.
    fn forget(&mut self)
        ensures unread { self.new.unread ≡ self.old.unread }
        ensures same { self.new.of_file ≡ self.old.of_file }
    {
        self.bytes.drain(..self.rest);
        self.rest = 0;
    }

    // Reads one piece more, and answers whether there was one.
    fn read_more<S: Source, F: Files>(
        &mut self,
        input: &mut S,
        files: &mut F,
    ) -> Result<bool, ReadFault>
        requires started { IsStarted self.old.of_file (F.started files.old) }
        ensures started { IsStarted self.new.of_file (F.started files.new) }
        ensures same { self.new.of_file ≡ self.old.of_file }
        ensures takes { IfOk result (λ _. Takes
            (ahead self.old.unread (of_read self.old.of_file (S.left input.old) (F.left files.old)))
            (ahead self.new.unread (of_read self.old.of_file (S.left input.new) (F.left files.new))) []) }
        ensures over { IfOk result (λ more. more ≡ false → IsAtEnd (of_read self.old.of_file (S.left input.new) (F.left files.new))) }
        ensures grows { IfOk result (λ more. more ≡ true → length self.old.unread < length self.new.unread) }
        ensures none { IfOk result (λ more. more ≡ false → self.new.unread ≡ self.old.unread) }
        ensures counts { CountsRead (of_read self.old.of_file (S.faults input.old) (F.faults files.old))
            (of_read self.old.of_file (S.faults input.new) (F.faults files.new)) result }
        ensures other { OtherStays self.old.of_file input.old input.new files.old files.new }
    {
        let mut piece = [0u8; BUFFER];
        let Ok(n) = read_piece(self.of_file, input, files, &mut piece) else {
            return Err(ReadFault::Failed);
        };
        self.bytes.extend_from_slice(&piece[..n])?;
        Ok(n > 0)
    }

    // Takes the next line, if it was read whole. Its first `seen` bytes have no LF.
    fn take_read(&mut self, seen: usize) -> Result<bool, AllocError>
        requires seen { seen ≤ length self.old.unread }
        requires lineless { IsLineless (take seen self.old.unread) }
        ensures same { self.new.of_file ≡ self.old.of_file }
        ensures line { IfOk result (λ found. found ≡ true → self.old.unread ≡ (self.new.line ++ codes "\n") ++ self.new.unread) }
        ensures one { IfOk result (λ found. found ≡ true → IsLineless self.new.line) }
        ensures none { IfOk result (λ found. found ≡ false → self.new.unread ≡ self.old.unread) }
        ensures lineless { IfOk result (λ found. found ≡ false → IsLineless self.new.unread) }
    {
        let Some(end) = line_end(&self.bytes, self.rest + seen) else {
            return Ok(false);
        };
        self.line.clear();
        self.line.extend_from_slice(&self.bytes[self.rest..end])?;
        self.rest = end + 1;
        Ok(true)
    }

    // How many bytes were read behind the line that was taken last.
    fn unread(&self) -> usize
        ensures { result ≡ length self.now.unread }
    {
        self.bytes.len() - self.rest
    }

    // Reads on until the next line is whole, takes it, and answers whether there is one. What was read so far has no LF.
    fn take_further<S: Source, F: Files>(
        &mut self,
        input: &mut S,
        files: &mut F,
    ) -> Result<bool, ReadFault>
        requires started { IsStarted self.old.of_file (F.started files.old) }
        requires lineless { IsLineless self.old.unread }
        ensures started { IsStarted self.new.of_file (F.started files.new) }
        ensures same { self.new.of_file ≡ self.old.of_file }
        ensures takes { IfOk result (λ found. TakesLine found self.new.line
            (ahead self.old.unread (of_read self.old.of_file (S.left input.old) (F.left files.old)))
            (ahead self.new.unread (of_read self.old.of_file (S.left input.new) (F.left files.new)))) }
        ensures counts { CountsRead (of_read self.old.of_file (S.faults input.old) (F.faults files.old))
            (of_read self.old.of_file (S.faults input.new) (F.faults files.new)) result }
        ensures other { OtherStays self.old.of_file input.old input.new files.old files.new }
    {
        'pieces: loop {
            let seen = self.unread();
            if !self.read_more(input, files)? {
                return Ok(false);
            }
            if self.take_read(seen)? {
                return Ok(true);
            }
        }
    }

    /// Takes the next line, and answers whether there is one. If there is none, nothing is left to read, and what was read behind the last line
    /// has no LF.
    pub fn take<S: Source, F: Files>(
        &mut self,
        input: &mut S,
        files: &mut F,
    ) -> Result<bool, ReadFault>
        requires started { IsStarted self.old.of_file (F.started files.old) }
        ensures started { IsStarted self.new.of_file (F.started files.new) }
        ensures same { self.new.of_file ≡ self.old.of_file }
        ensures takes { IfOk result (λ found. TakesLine found self.new.line
            (ahead self.old.unread (of_read self.old.of_file (S.left input.old) (F.left files.old)))
            (ahead self.new.unread (of_read self.old.of_file (S.left input.new) (F.left files.new)))) }
        ensures counts { CountsRead (of_read self.old.of_file (S.faults input.old) (F.faults files.old))
            (of_read self.old.of_file (S.faults input.new) (F.faults files.new)) result }
        ensures other { OtherStays self.old.of_file input.old input.new files.old files.new }
    {
        if self.take_read(0)? {
            return Ok(true);
        }
        self.forget();
        self.take_further(input, files)
    }
}

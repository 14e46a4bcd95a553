//! Readers and writers of std as sources and sinks: a call that fails is not made again.

ghost use Rattle.std.specs.Prelude.{IfOk, ◌≤◌};

use crate::comparison::same_text;
use pth_streams::reading::Reading;
use pth_streams::sink::Sink;
use pth_streams::source::Source;
use pth_streams::writing::Writing;
use std::alloc::{AllocError, Global};
use std::io::{self, Error, ErrorKind, Read, Write};
use std::process::Abort;
use std::test::Fail;

/// A reader and a writer of std whose first call fails: with an error, or for none by moving no byte. Each later call moves as many
/// bytes as there were calls, if there are so many.
#[derive(Drop)]
struct FailsOnce {
    error: Option<ErrorKind>,
    calls: usize,
}

impl FailsOnce {
    fn new(error: Option<ErrorKind>) -> FailsOnce {
        FailsOnce { error, calls: 0 }
    }

    /// The answer of the next call, over so many bytes.
    fn answer(&mut self, len: usize) -> io::Result<usize>
        ensures { IfOk result (λ n. n ≤ len) }
    {
        self.calls = self.calls.saturating_add(1);
        if self.calls > 1 {
            return Ok(len.min(self.calls));
        }
        match self.error {
            Some(kind) => Err(Error::from(kind)),
            None => Ok(0),
        }
    }
}

impl Read for FailsOnce {
    fn read(&mut self, buf: &mut [u8]) -> io::Result<usize> {
        self.answer(buf.len())
    }
}

impl Write for FailsOnce {
    fn write(&mut self, buf: &[u8]) -> io::Result<usize> {
        self.answer(buf.len())
    }

    fn flush(&mut self) -> io::Result<()> {
        Ok(())
    }
}

/// Adds what a read of at most four bytes gives.
fn tell_read<S: Source>(source: &mut S, told: &mut String) -> Result<(), AllocError> {
    let mut buffer = [0u8; 4];
    match source.read(&mut buffer) {
        Ok(n) => write!(told, "{n} "),
        Err(_) => told.push_str("failed "),
    }
}

/// Adds what a write of four bytes takes.
fn tell_write<O: Sink>(sink: &mut O, told: &mut String) -> Result<(), AllocError> {
    match sink.write(b"abcd") {
        Ok(n) => write!(told, "{n} "),
        Err(_) => told.push_str("failed "),
    }
}

/// What three reads and then three writes come to.
fn told(alloc: Global, error: Option<ErrorKind>) -> Result<String, AllocError> {
    let mut source = Reading::new(FailsOnce::new(error));
    let mut sink = Writing::new(FailsOnce::new(error));
    let mut told = String::new(alloc);
    for _ in 0..3 {
        tell_read(&mut source, &mut told)?;
    }
    for _ in 0..3 {
        tell_write(&mut sink, &mut told)?;
    }
    Ok(told)
}

/// How the first call fails, and what is told. A reader that moves no byte is at its end, and a writer that takes none has failed.
const ROWS: [(Option<ErrorKind>, &str); 3] = [
    (Some(ErrorKind::Interrupted), "failed 2 3 failed 2 3 "),
    (Some(ErrorKind::WouldBlock), "failed 2 3 failed 2 3 "),
    (None, "0 2 3 failed 2 3 "),
];

fn are_told(
    rt: &impl Abort,
    alloc: Global,
    rows: &[(Option<ErrorKind>, &str)],
) -> Result<(), AllocError> {
    for (error, wanted) in rows {
        let told = told(alloc, *error)?;
        same_text(rt, told.as_str(), wanted);
    }
    Ok(())
}

#[test]
fn a_call_that_fails_is_not_made_again(rt: HostRuntime) -> Result<(), Fail> {
    are_told(&rt, rt.alloc(), &ROWS)?;
    Ok(())
}

//! Programs that are called over a text, under the words of a command line: a script is played, and a transcript is judged or drawn.

use crate::judged::unlawful;
use crate::program::{Program, call};
use crate::wanted::difference;
use anyhow::Result;
use pth_base::memory::OutOfMemory;
use pth_streams::files::SureFiles;
use pth_streams::sink::SureSink;
use pth_streams::source::SureSource;
use std::alloc::{AllocError, Global};
use std::str;

/// What a call came to.
#[derive(Drop)]
pub struct Played {
    pub status: u8,
    out: SureSink,
    err: SureSink,
}

impl Played {
    /// All that was written, to the output and then to the error output.
    pub fn written(&self, alloc: Global) -> Result<String> {
        let out = str::from_utf8(self.out.as_slice())?;
        let err = str::from_utf8(self.err.as_slice())?;
        Ok(format!(in alloc; "{out}{err}")?)
    }
}

fn words_of(alloc: Global, line: &str) -> Result<Vec<String>, AllocError> {
    let mut words = Vec::new(alloc);
    for word in line.split(' ') {
        words.push(String::from_str(alloc, word)?)?;
    }
    Ok(words)
}

/// Calls a program over an input that is empty.
fn call_files(
    alloc: Global,
    program: Program,
    words: &Vec<String>,
    files: &mut SureFiles,
) -> Result<Played, OutOfMemory> {
    let mut input = SureSource::new(alloc, b"")?;
    let mut out = SureSink::new(alloc);
    let mut err = SureSink::new(alloc);
    let status = call(alloc, program, words, &mut input, files, &mut out, &mut err);
    Ok(Played { status, out, err })
}

/// Calls a program under the words of a line. The text stands under every name.
pub fn call_on(
    alloc: Global,
    program: Program,
    line: &str,
    text: &str,
) -> Result<Played, OutOfMemory> {
    let words = words_of(alloc, line)?;
    let mut files = SureFiles::new(alloc, text.as_bytes())?;
    call_files(alloc, program, &words, &mut files)
}

/// What differs between a wanted text and what a call over a text writes, if something does. A transcript that is written is judged too.
pub fn difference_on(
    alloc: Global,
    program: Program,
    line: &str,
    text: &str,
    wanted: &str,
) -> Result<Option<String>> {
    let called = call_on(alloc, program, line, text).map_err(|_| AllocError)?;
    let written = called.written(alloc)?;
    let differs = difference(alloc, wanted, called.status, written.as_str())?;
    match program {
        Program::Play if differs.is_none() => {
            unlawful(alloc, line, called.status, written.as_str())
        }
        _ => Ok(differs),
    }
}

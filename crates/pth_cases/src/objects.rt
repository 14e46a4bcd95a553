//! Calls over objects that fail. `data/README.md` has the lines.
//!
//! A call has conditions, with a `, ` between two, and then the words of the command line, each behind a `|`. The input or the file
//! fails at its call with the number that is named, counted from 1, and an output takes so many bytes. What no condition names never
//! fails.

use crate::escapes::unescaped;
use crate::program::{Program, call};
use anyhow::{Context, Result, bail};
use pth_base::memory::OutOfMemory;
use pth_streams::files::MemoryFiles;
use pth_streams::sink::MemorySink;
use pth_streams::source::MemorySource;
use std::alloc::{AllocError, Global};
use std::str;

/// The program that is run, and the objects that it is handed.
#[derive(Clone, Copy)]
pub struct Objects<'a> {
    pub program: Program,
    /// What the input holds, escaped.
    input: &'a str,
    /// The name of the file, and what it holds, escaped.
    name: &'a str,
    file: &'a str,
    /// The calls at which the input and the file fail, 0 for none.
    input_fails: u64,
    file_fails: u64,
    /// How many bytes the output and the error output take.
    room: usize,
    error_room: usize,
}

/// Objects that hold nothing and never fail. They have more room than a run of these files writes.
pub const SURE: Objects<'static> = Objects {
    program: Program::Play,
    input: "",
    name: "",
    file: "",
    input_fails: 0,
    file_fails: 0,
    room: 10_000,
    error_room: 10_000,
};

/// The objects, of which one holds something else.
fn holding<'a>(objects: Objects<'a>, what: &'a str, text: &'a str) -> Objects<'a> {
    if what == "the input" {
        return Objects {
            input: text,
            ..objects
        };
    }
    Objects {
        name: what,
        file: text,
        ..objects
    }
}

/// The objects under one more condition.
fn under<'a>(objects: Objects<'a>, condition: &str) -> Result<Objects<'a>> {
    let (what, number) = condition.rsplit_once(' ').context("no number")?;
    let number = number.parse::<u32>()?;
    Ok(match what {
        "input fails at" => Objects {
            input_fails: u64::from(number),
            ..objects
        },
        "file fails at" => Objects {
            file_fails: u64::from(number),
            ..objects
        },
        "output takes" => Objects {
            room: number as usize,
            ..objects
        },
        "error output takes" => Objects {
            error_room: number as usize,
            ..objects
        },
        _ => bail!("no condition"),
    })
}

/// The objects under the conditions that stand before the words of a line.
fn objects_of<'a>(held: Objects<'a>, line: &str) -> Result<Objects<'a>> {
    let conditions = match line.split_once('|') {
        Some((conditions, _)) => conditions.trim_end(),
        None => line,
    };
    let mut objects = held;
    for condition in conditions.split(", ") {
        if !condition.is_empty() {
            objects = under(objects, condition)?;
        }
    }
    Ok(objects)
}

/// The words of a line.
fn words_of(alloc: Global, line: &str) -> Result<Vec<String>, AllocError> {
    let mut words = Vec::new(alloc);
    for word in line.split('|').skip(1) {
        words.push(String::from_str(alloc, word)?)?;
    }
    Ok(words)
}

/// What a run came to: its status, and what the outputs took.
#[derive(Drop)]
struct Written {
    status: u8,
    out: MemorySink,
    err: MemorySink,
}

/// Plays over an input and a file.
fn play_over(
    alloc: Global,
    words: &Vec<String>,
    input: &mut MemorySource,
    files: &mut MemoryFiles,
    objects: Objects<'_>,
) -> Result<Written, OutOfMemory> {
    let mut out = MemorySink::new(alloc, objects.room)?;
    let mut err = MemorySink::new(alloc, objects.error_room)?;
    let program = objects.program;
    let status = call(alloc, program, words, input, files, &mut out, &mut err);
    Ok(Written { status, out, err })
}

fn input_of(alloc: Global, objects: Objects<'_>) -> Result<MemorySource> {
    let text = unescaped(alloc, objects.input)?;
    let input = MemorySource::new(alloc, text.as_bytes(), &[objects.input_fails]);
    Ok(input.map_err(|_| AllocError)?)
}

fn files_of(alloc: Global, objects: Objects<'_>) -> Result<MemoryFiles> {
    let text = unescaped(alloc, objects.file)?;
    let files = MemoryFiles::new(alloc, objects.name, text.as_bytes(), &[objects.file_fails]);
    Ok(files.map_err(|_| AllocError)?)
}

/// Plays the run of a line.
fn play_line(alloc: Global, held: Objects<'_>, line: &str) -> Result<Written> {
    let objects = objects_of(held, line)?;
    let words = words_of(alloc, line)?;
    let mut input = input_of(alloc, objects)?;
    let mut files = files_of(alloc, objects)?;
    let written = play_over(alloc, &words, &mut input, &mut files, objects);
    Ok(written.map_err(|_| AllocError)?)
}

/// The run of a call: its status, and what was written to the output and to the error output, on a line.
pub fn run_over(alloc: Global, held: Objects<'_>, line: &str) -> Result<String> {
    let written = play_line(alloc, held, line)?;
    let out = str::from_utf8(written.out.as_slice())?;
    let err = str::from_utf8(written.err.as_slice())?;
    Ok(format!(in alloc; "{} {out:?} {err:?}", written.status)?)
}

/// The objects after a line `in WHAT: TEXT`, which says what one of them holds.
pub fn after<'a>(held: Objects<'a>, holds: &'a str) -> Result<Objects<'a>> {
    let (what, text) = holds.split_once(": ").context("nothing is held")?;
    Ok(holding(held, what, text))
}

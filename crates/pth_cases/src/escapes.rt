//! Texts as they stand in one line of a file.
//!
//! `\n`, `\r`, `\t` and `\0` are the line feed, the carriage return, the tab and the byte 0. `\{N TEXT\}` is TEXT so many times,
//! where `\#` is the number of the time, from 0. Within a TEXT or outside, `\[N PIECE\]` stands for PIECE so many times. A `\`
//! before another character is that character.

use anyhow::{Context, Result};
use std::alloc::{AllocError, Global};

/// Adds the character that stands for a letter behind a `\`. `number` is what `#` says.
fn add_escaped(text: &mut String, letter: char, number: usize) -> Result<(), AllocError> {
    match letter {
        'n' => text.push('\n')?,
        'r' => text.push('\r')?,
        't' => text.push('\t')?,
        '0' => text.push('\0')?,
        '#' => write!(text, "{number}")?,
        other => text.push(other)?,
    }
    Ok(())
}

/// Adds a piece of a line that repeats nothing.
fn add_piece(text: &mut String, piece: &str, number: usize) -> Result<(), AllocError> {
    let mut is_escaped = false;
    for letter in piece.chars() {
        if is_escaped {
            add_escaped(text, letter, number)?;
            is_escaped = false;
        } else if letter == '\\' {
            is_escaped = true;
        } else {
            text.push(letter)?;
        }
    }
    Ok(())
}

/// Adds what stands between `\{` and `\}`.
fn add_repeated(text: &mut String, repeated: &str) -> Result<()> {
    let (times, piece) = repeated.split_once(' ').context("no number of times")?;
    for number in 0..times.parse::<usize>()? {
        add_piece(text, piece, number)?;
    }
    Ok(())
}

/// Adds what stands between `\[` and `\]`, as it is.
fn add_same(line: &mut String, repeated: &str) -> Result<()> {
    let (times, piece) = repeated.split_once(' ').context("no number of times")?;
    for _ in 0..times.parse::<usize>()? {
        line.push_str(piece)?;
    }
    Ok(())
}

/// A line in which each `\[N PIECE\]` is written out.
fn written_out(alloc: Global, line: &str) -> Result<String> {
    let mut long = String::new(alloc);
    for part in line.split("\\[") {
        match part.split_once("\\]") {
            Some((repeated, rest)) => {
                add_same(&mut long, repeated)?;
                long.push_str(rest)?;
            }
            None => long.push_str(part)?,
        }
    }
    Ok(long)
}

/// The text that a line without a `\[` stands for.
fn unescaped_line(alloc: Global, line: &str) -> Result<String> {
    let mut text = String::new(alloc);
    for part in line.split("\\{") {
        match part.split_once("\\}") {
            Some((repeated, piece)) => {
                add_repeated(&mut text, repeated)?;
                add_piece(&mut text, piece, 0)?;
            }
            None => add_piece(&mut text, part, 0)?,
        }
    }
    Ok(text)
}

/// The text that a line stands for.
pub fn unescaped(alloc: Global, line: &str) -> Result<String> {
    let long = written_out(alloc, line)?;
    unescaped_line(alloc, long.as_str())
}

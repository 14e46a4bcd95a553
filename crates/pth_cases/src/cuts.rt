//! A script of which each beginning is played, also the empty one and the whole.
//!
//! A beginning that ends within a line is refused as cut there. Such beginnings are only counted. Of each other one the length, the
//! status and the last line that its run writes are wanted.

use crate::played::call_on;
use crate::program::Program;
use anyhow::Result;
use std::alloc::{AllocError, Global};

/// Whether what a run wrote says that a text is cut in its last line.
fn says_cut(alloc: Global, beginning: &str, written: &str) -> Result<bool> {
    let lines = beginning.lines().count();
    let said = format!(in alloc; "pth_play: line {lines}: cut\n")?;
    Ok(written == said.as_str())
}

/// Adds what a beginning comes to, unless it is cut in its last line. Answers whether it is.
fn add_beginning(text: &mut String, alloc: Global, beginning: &str) -> Result<bool> {
    let played = call_on(alloc, Program::Play, "FILE", beginning).map_err(|_| AllocError)?;
    let written = played.written(alloc)?;
    let is_cut = says_cut(alloc, beginning, written.as_str())?;
    if played.status == 3 && is_cut {
        return Ok(true);
    }
    let last = written.as_str().lines().last().unwrap_or("");
    writeln!(text, "{} -> {} {last}", beginning.len(), played.status)?;
    Ok(false)
}

/// What the beginnings of a script come to.
pub fn cuts(alloc: Global, script: &str) -> Result<String> {
    let mut text = String::new(alloc);
    let mut cut = 0u32;
    for length in 0..=script.len() {
        if let Some((beginning, _)) = script.split_at_checked(length) {
            let is_cut = add_beginning(&mut text, alloc, beginning)?;
            cut = cut.saturating_add(u32::from(is_cut));
        }
    }
    writeln!(text, "{cut} are cut in their last line")?;
    Ok(text)
}

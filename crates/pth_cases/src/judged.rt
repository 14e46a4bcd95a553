//! Transcripts that runs write, judged.

use crate::played::call_on;
use crate::program::Program;
use anyhow::Result;
use std::alloc::{AllocError, Global};

/// Whether a run under these words with this status writes a transcript.
fn writes_transcript(line: &str, status: u8) -> bool {
    matches!(status, 0 | 1 | 6) && !line.contains("--summary") && !line.contains("--upgrade")
}

/// What `pth_check` says of a transcript.
fn judged(alloc: Global, transcript: &str) -> Result<String> {
    let checked = call_on(alloc, Program::Check, "FILE", transcript).map_err(|_| AllocError)?;
    checked.written(alloc)
}

/// Judges the transcript that a run wrote, if it wrote one: what is said of it, unless it is lawful.
pub fn unlawful(alloc: Global, line: &str, status: u8, written: &str) -> Result<Option<String>> {
    if !writes_transcript(line, status) {
        return Ok(None);
    }
    let said = judged(alloc, written)?;
    if said.as_str().starts_with("lawful ") {
        return Ok(None);
    }
    let text = format!(in alloc; "not lawful: {}", said.as_str().trim_end())?;
    Ok(Some(text))
}

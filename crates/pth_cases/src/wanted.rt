//! What is wanted of a call, compared with what it wrote.
//!
//! A wanted text is all that is written, the output and then the error output. If its first line is `...`, any number of lines may
//! stand above the others. If it is `... N lines`, the call writes N lines in all, and the others are the last. The status that is
//! wanted is the one that the last line stands for.

use anyhow::Result;
use std::alloc::Global;

/// The status of a program that refused its words or its input, or that met a fault.
fn status_of_fault(fault: &str) -> u8 {
    if fault.ends_with(": words refused") {
        2
    } else if fault.ends_with(": read fault") {
        4
    } else if fault.ends_with(": write fault") {
        5
    } else if fault.ends_with(": out of memory") {
        7
    } else {
        3
    }
}

/// The status that a last line stands for.
fn status_of(last: &str) -> u8 {
    if last.starts_with("pth_") {
        status_of_fault(last)
    } else if last.starts_with("stalled ") || last.starts_with("line ") {
        1
    } else if last.starts_with("step limit ") {
        6
    } else {
        0
    }
}

/// The lines of a wanted text that are compared.
fn lines_wanted(wanted: &str) -> &str {
    match wanted.split_once('\n') {
        Some((first, rest)) if first.starts_with("...") => rest,
        _ => wanted,
    }
}

/// How many lines of what was written stand above those that are compared.
fn lines_above(wanted: &str, written: &str) -> usize {
    if wanted.starts_with("...") {
        let compared = lines_wanted(wanted).lines().count();
        written.lines().count().saturating_sub(compared)
    } else {
        0
    }
}

/// How many lines are wanted in all, if the first line of a wanted text says so.
fn count_wanted(wanted: &str) -> Option<&str> {
    let (first, _) = wanted.split_once('\n')?;
    first.strip_prefix("... ")?.strip_suffix(" lines")
}

/// What differs between a line that is wanted and the line that is there, if there is one.
fn differs_at(
    alloc: Global,
    number: usize,
    line: &str,
    other: Option<&str>,
) -> Result<Option<String>> {
    let text = match other {
        Some(other) if other == line => return Ok(None),
        Some(other) => format!(in alloc; "line {number}: wanted `{line}`, written `{other}`")?,
        None => format!(in alloc; "line {number}: wanted `{line}`, written nothing")?,
    };
    Ok(Some(text))
}

/// The first difference between the lines that are wanted and those that are there.
fn line_difference(
    alloc: Global,
    wanted: &str,
    written: &str,
    above: usize,
) -> Result<Option<String>> {
    let mut number = above;
    let mut others = written.lines().skip(above);
    for line in wanted.lines() {
        number = number.saturating_add(1);
        let differs = differs_at(alloc, number, line, others.next())?;
        if differs.is_some() {
            return Ok(differs);
        }
    }
    let Some(other) = others.next() else {
        return Ok(None);
    };
    let number = number.saturating_add(1);
    let text = format!(in alloc; "line {number}: wanted nothing, written `{other}`")?;
    Ok(Some(text))
}

/// Whether another number of lines is there than is wanted.
fn count_difference(alloc: Global, wanted: &str, written: &str) -> Result<Option<String>> {
    let Some(wanted) = count_wanted(wanted) else {
        return Ok(None);
    };
    let count = format!(in alloc; "{}", written.lines().count())?;
    if count.as_str() == wanted {
        return Ok(None);
    }
    let text = format!(in alloc; "wanted {wanted} lines, written {count}")?;
    Ok(Some(text))
}

/// Whether another status is there than is wanted, or the end of the last line is missing.
fn end_difference(
    alloc: Global,
    wanted: &str,
    status: u8,
    written: &str,
) -> Result<Option<String>> {
    let other = status_of(wanted.lines().last().unwrap_or(""));
    if status != other {
        let text = format!(in alloc; "wanted status {other}, but it is {status}")?;
        return Ok(Some(text));
    }
    if written.ends_with(lines_wanted(wanted)) {
        return Ok(None);
    }
    let text = format!(in alloc; "wanted the same lines with other ends")?;
    Ok(Some(text))
}

/// What differs between a wanted text and what a call wrote, if something does.
pub fn difference(
    alloc: Global,
    wanted: &str,
    status: u8,
    written: &str,
) -> Result<Option<String>> {
    let above = lines_above(wanted, written);
    let lines = line_difference(alloc, lines_wanted(wanted), written, above)?;
    if lines.is_some() {
        return Ok(lines);
    }
    let count = count_difference(alloc, wanted, written)?;
    if count.is_some() {
        return Ok(count);
    }
    end_difference(alloc, wanted, status, written)
}

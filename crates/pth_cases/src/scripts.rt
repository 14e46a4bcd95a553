//! Scripts, each beside what is wanted of it.
//!
//! `x.transcript` is what a run of `x.pth` writes, and `x.summary.steps-7.transcript` what it writes under the words `--summary
//! --steps 7`. `x.cuts` is what the beginnings of `x.pth` come to.

use crate::cuts::cuts;
use crate::played::difference_on;
use crate::program::Program;
use crate::report::{Tally, report, report_any};
use crate::wanted::difference;
use anyhow::{Context, Result};
use std::alloc::Global;
use std::fs;
use std::rt::Files;

/// The name of a file without its endings.
fn stem(name: &str) -> &str {
    match name.split_once('.') {
        Some((stem, _)) => stem,
        None => name,
    }
}

/// The words of the command line that the name of a wanted text spells.
fn words_in(alloc: Global, name: &str) -> Result<String> {
    let mut words = String::new(alloc);
    let options = name.strip_suffix(".transcript").unwrap_or(name);
    for option in options.split('.').skip(1) {
        match option.split_once('-') {
            Some((option, number)) => write!(words, "--{option} {number} ")?,
            None => write!(words, "--{option} ")?,
        }
    }
    words.push_str("FILE")?;
    Ok(words)
}

/// The text of a file in a folder.
pub fn text_of<R: Files + AllocGlobal>(rt: &R, folder: &str, name: &str) -> Result<String> {
    let path = format!(in rt.alloc(); "{folder}/{name}")?;
    let text = fs::read_to_string(rt, path.as_str());
    text.context("a file of a case can't be read as text")
}

/// Whether a name is that of a text that is wanted of a script.
pub fn is_wanted_text(name: &str) -> bool {
    name.ends_with(".transcript") || name.ends_with(".cuts")
}

/// Whether names have a text that is wanted of a script.
pub fn has_wanted_text(names: &Vec<String>, script: &str) -> bool {
    for name in names {
        if is_wanted_text(name.as_str()) && stem(name.as_str()) == stem(script) {
            return true;
        }
    }
    false
}

/// Whether names have the script of a wanted text.
fn has_script(names: &Vec<String>, wanted: &str) -> bool {
    for name in names {
        if name.as_str().ends_with(".pth") && stem(name.as_str()) == stem(wanted) {
            return true;
        }
    }
    false
}

/// What differs from a wanted text, if something does.
fn wanted_difference<R: Files + AllocGlobal>(
    rt: &R,
    folder: &str,
    name: &str,
) -> Result<Option<String>> {
    let alloc = rt.alloc();
    let script_name = format!(in alloc; "{}.pth", stem(name))?;
    let script = text_of(rt, folder, script_name.as_str())?;
    let wanted = text_of(rt, folder, name)?;
    if name.ends_with(".cuts") {
        let written = cuts(alloc, script.as_str())?;
        return difference(alloc, wanted.as_str(), 0, written.as_str());
    }
    let words = words_in(alloc, name)?;
    let line = words.as_str();
    difference_on(alloc, Program::Play, line, script.as_str(), wanted.as_str())
}

/// Compares what is written with a wanted text.
pub fn check_wanted<R: Print + Eprint + Files + AllocGlobal>(
    rt: &R,
    folder: &str,
    names: &Vec<String>,
    name: &str,
) -> Result<Tally> {
    let path = format!(in rt.alloc(); "{folder}/{name}")?;
    if !has_script(names, name) {
        return report(rt, path.as_str(), "there is no script");
    }
    let differs = wanted_difference(rt, folder, name)?;
    let told = report_any(rt, path.as_str(), differs)?;
    Ok(Tally::run().and(told))
}

//! A folder with its cases.

use crate::cases::check_cases;
use crate::report::{Tally, report};
use crate::scripts::{check_wanted, has_wanted_text, is_wanted_text, text_of};
use anyhow::Result;
use std::fs;
use std::rt::Files;

/// The names in a folder, in order.
pub fn names_in<R: Files + AllocGlobal + Clone + Drop>(
    rt: &R,
    folder: &str,
) -> Result<Vec<String>> {
    let mut names = Vec::new(rt.alloc());
    for entry in fs::read_dir(rt, folder)? {
        let entry = entry?;
        names.push(String::from_str(rt.alloc(), entry.file_name())?)?;
    }
    names.sort_unstable();
    Ok(names)
}

/// Counts a script, for which a wanted text must be there.
fn check_script<R: Print + Eprint + AllocGlobal>(
    rt: &R,
    folder: &str,
    names: &Vec<String>,
    name: &str,
) -> Result<Tally> {
    if has_wanted_text(names, name) {
        return Ok(Tally::script());
    }
    let path = format!(in rt.alloc(); "{folder}/{name}")?;
    let told = report(rt, path.as_str(), "there is no transcript")?;
    Ok(Tally::script().and(told))
}

/// Checks a file of a folder with these names.
fn check_file<R: Print + Eprint + Files + AllocGlobal>(
    rt: &R,
    folder: &str,
    names: &Vec<String>,
    name: &str,
) -> Result<Tally> {
    if name.ends_with(".pth") {
        return check_script(rt, folder, names, name);
    }
    if is_wanted_text(name) {
        return check_wanted(rt, folder, names, name);
    }
    let path = format!(in rt.alloc(); "{folder}/{name}")?;
    if name.ends_with(".cases") {
        let text = text_of(rt, folder, name)?;
        return check_cases(rt, path.as_str(), text.as_str());
    }
    report(rt, path.as_str(), "this is no case")
}

/// Checks all files of a folder, and prints what they come to.
pub fn check_folder<R: Print + Eprint + Files + AllocGlobal + Clone + Drop>(
    rt: &R,
    folder: &str,
) -> Result<Tally> {
    let names = names_in(rt, folder)?;
    let mut tally = Tally::none();
    for name in &names {
        tally = tally.and(check_file(rt, folder, &names, name.as_str())?);
    }
    println!(rt; "{folder}: {tally}")?;
    Ok(tally)
}

//! Plays, checks and draws the cases of `data/`, and compares what is written with what is wanted.
//!
//! `data/README.md` describes the files. The program is run in `data/`, and reads each folder there, or the folders that its words
//! name. It prints a line for each folder, and one for each difference: the file, the line, what is wanted and what was written. A
//! difference is an error, unless it is one of the folder `wrong`, whose cases differ on purpose.
#![tactic(auto)]

mod cases;
mod cuts;
mod escapes;
mod folder;
mod judged;
mod objects;
mod played;
mod program;
mod report;
mod scripts;
mod wanted;

use crate::folder::{check_folder, names_in};
use crate::report::Tally;
use anyhow::{Result, bail};
use std::env;
use std::rt::Files;

/// Checks the folders that words name.
fn check_named<R: Print + Eprint + Files + AllocGlobal + Clone + Drop>(
    rt: &R,
    folders: &Vec<String>,
) -> Result<Tally> {
    let mut all = Tally::none();
    for folder in folders {
        all = all.and(check_folder(rt, folder.as_str())?);
    }
    Ok(all)
}

/// All folders that lie here. Only files have a `.` in their names.
fn all_folders<R: Files + AllocGlobal + Clone + Drop>(rt: &R) -> Result<Vec<String>> {
    let mut folders = Vec::new(rt.alloc());
    for name in names_in(rt, ".")? {
        if !name.as_str().contains('.') {
            folders.push(name)?;
        }
    }
    Ok(folders)
}

/// The folders that the words of the program name, or all.
fn folders<R: env::Env + Files + AllocGlobal + Clone + Drop>(rt: &R) -> Result<Vec<String>> {
    let mut named = Vec::new(rt.alloc());
    for word in env::args(rt)?.skip(1) {
        named.push(word)?;
    }
    if named.is_empty() {
        return all_folders(rt);
    }
    Ok(named)
}

fn main(rt: HostRuntime) -> Result<()> {
    let folders = folders(&rt)?;
    let all = check_named(&rt, &folders)?;
    println!(rt; "all folders: {all}")?;
    if all.faults > 0 {
        bail!("{} differences that are not meant", all.faults);
    }
    Ok(())
}

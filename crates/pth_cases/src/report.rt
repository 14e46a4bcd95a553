//! How many cases there are, and which of them differ.

use anyhow::Result;
use std::fmt;
use std::fmt::{Display, Formatter};

/// The folder whose cases differ on purpose.
const WRONG: &str = "wrong/";

/// What was counted in a file, in a folder or in all.
#[derive(Clone, Copy)]
pub struct Tally {
    pub scripts: u32,
    /// Runs of scripts, each with a wanted text of its own.
    pub runs: u32,
    /// Cases in files of cases.
    pub cases: u32,
    pub differ: u32,
    /// Differences that are not meant.
    pub faults: u32,
}

impl Tally {
    pub fn none() -> Tally {
        Tally {
            scripts: 0,
            runs: 0,
            cases: 0,
            differ: 0,
            faults: 0,
        }
    }

    pub fn script() -> Tally {
        Tally {
            scripts: 1,
            ..Tally::none()
        }
    }

    pub fn run() -> Tally {
        Tally {
            runs: 1,
            ..Tally::none()
        }
    }

    pub fn case() -> Tally {
        Tally {
            cases: 1,
            ..Tally::none()
        }
    }

    /// Both together.
    pub fn and(self, other: Tally) -> Tally {
        Tally {
            scripts: self.scripts.saturating_add(other.scripts),
            runs: self.runs.saturating_add(other.runs),
            cases: self.cases.saturating_add(other.cases),
            differ: self.differ.saturating_add(other.differ),
            faults: self.faults.saturating_add(other.faults),
        }
    }
}

impl Display for Tally {
    fn fmt<W: fmt::Write>(&self, f: &mut Formatter<W>) -> fmt::Result {
        let (scripts, runs, cases) = (self.scripts, self.runs, self.cases);
        write!(f, "{scripts} scripts, {runs} runs, {cases} cases, ")?;
        if self.differ == 0 {
            write!(f, "as wanted")
        } else {
            write!(f, "{} differ", self.differ)
        }
    }
}

/// Prints that something is not as wanted. If it is not meant, standard error has it too, which the gate shows.
pub fn report(rt: &(impl Print + Eprint), name: &str, difference: &str) -> Result<Tally> {
    println!(rt; "{name}: {difference}")?;
    let is_meant = name.starts_with(WRONG);
    if !is_meant {
        eprintln!(rt; "{name}: {difference}")?;
    }
    Ok(Tally {
        differ: 1,
        faults: u32::from(!is_meant),
        ..Tally::none()
    })
}

/// Prints the difference that there is, if there is one.
pub fn report_any(
    rt: &(impl Print + Eprint),
    name: &str,
    difference: Option<String>,
) -> Result<Tally> {
    match difference {
        Some(difference) => report(rt, name, difference.as_str()),
        None => Ok(Tally::none()),
    }
}

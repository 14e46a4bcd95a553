//! A file of cases: texts and calls, each with what is wanted below it. `data/README.md` has the lines.

use crate::escapes::unescaped;
use crate::objects::{Objects, SURE, after, run_over};
use crate::played::difference_on;
use crate::program::{Program, program_named};
use crate::report::{Tally, report_any};
use anyhow::{Context, Result};
use std::alloc::Global;

/// What is wanted of a case is indented by this.
const INDENT: &str = "    ";

/// What a case does.
#[derive(Clone, Copy)]
enum Act<'a> {
    /// No case has begun.
    Nothing,
    /// The text is the input of each program that is named.
    Reads,
    /// A call over the objects.
    Calls(&'a str),
}

/// The case that is being read.
#[derive(Drop)]
struct Case<'a> {
    /// The programs with their words, and ` and ` between two.
    programs: &'a str,
    objects: Objects<'a>,
    act: Act<'a>,
    /// The line of the file at which it begins.
    number: u32,
    text: String,
    wanted: String,
}

/// The program that a call names.
fn program_of(call: &str) -> Result<Program> {
    let (name, _) = call.split_once(' ').unwrap_or((call, ""));
    program_named(name).context("no program")
}

/// The words of a call, and a word for its file.
fn words_of(alloc: Global, call: &str) -> Result<String> {
    match call.split_once(' ') {
        Some((_, words)) => Ok(format!(in alloc; "{words} FILE")?),
        None => Ok(String::from_str(alloc, "FILE")?),
    }
}

/// What differs where programs read a text, if something does.
fn reads(alloc: Global, programs: &str, text: &str, wanted: &str) -> Result<Option<String>> {
    for call in programs.split(" and ") {
        let program = program_of(call)?;
        let words = words_of(alloc, call)?;
        let differs = difference_on(alloc, program, words.as_str(), text, wanted)?;
        if differs.is_some() {
            return Ok(differs);
        }
    }
    Ok(None)
}

/// What differs where a call is made over objects, if something does.
fn calls(alloc: Global, objects: Objects<'_>, call: &str, wanted: &str) -> Result<Option<String>> {
    let written = run_over(alloc, objects, call)?;
    let wanted = wanted.trim_end();
    if written.as_str() == wanted {
        return Ok(None);
    }
    Ok(Some(format!(in alloc; "wanted `{wanted}`, written `{written}`")?))
}

/// What differs in a case, if something does.
fn case_difference(alloc: Global, case: &Case<'_>) -> Result<Option<String>> {
    let wanted = case.wanted.as_str();
    if wanted.is_empty() {
        return Ok(Some(String::from_str(alloc, "nothing is wanted")?));
    }
    match case.act {
        Act::Nothing => Ok(Some(String::from_str(alloc, "no case wants this")?)),
        Act::Reads => reads(alloc, case.programs, case.text.as_str(), wanted),
        Act::Calls(call) => calls(alloc, case.objects, call, wanted),
    }
}

/// Makes the case that was read, if there is one.
fn check_case(
    rt: &(impl Print + Eprint + AllocGlobal),
    path: &str,
    case: &Case<'_>,
) -> Result<Tally> {
    if matches!(case.act, Act::Nothing) && case.wanted.is_empty() {
        return Ok(Tally::none());
    }
    let differs = case_difference(rt.alloc(), case)?;
    let name = format!(in rt.alloc(); "{path}:{}", case.number)?;
    Ok(Tally::case().and(report_any(rt, name.as_str(), differs)?))
}

impl<'a> Case<'a> {
    fn new(alloc: Global) -> Case<'a> {
        Case {
            programs: "pth_play",
            objects: SURE,
            act: Act::Nothing,
            number: 0,
            text: String::new(alloc),
            wanted: String::new(alloc),
        }
    }

    /// A text of one line, or a further line of a longer one, begins or goes on.
    fn take_text(&mut self, alloc: Global, line: &str) -> Result<()> {
        self.text = unescaped(alloc, line)?;
        self.act = Act::Reads;
        Ok(())
    }

    /// A line of a longer text.
    fn take_line(&mut self, line: &str) -> Result<()> {
        if !matches!(self.act, Act::Reads) {
            self.text.clear();
        }
        self.text.push_str(line)?;
        self.text.push('\n')?;
        self.act = Act::Reads;
        Ok(())
    }

    /// A line that says which programs read the texts below it.
    fn take_programs(&mut self, programs: &'a str) -> Result<()> {
        self.programs = programs;
        self.objects.program = program_of(programs)?;
        Ok(())
    }

    /// A line that is neither a wanted one nor a further one of a text. Another case begins.
    fn take(&mut self, alloc: Global, line: &'a str) -> Result<()> {
        self.act = Act::Nothing;
        self.wanted.clear();
        if line.is_empty() || line.starts_with("--") {
            Ok(())
        } else if let Some(programs) = line.strip_prefix("of ") {
            self.take_programs(programs)
        } else if let Some(holds) = line.strip_prefix("in ") {
            self.objects = after(self.objects, holds)?;
            Ok(())
        } else if let Some(call) = line.strip_prefix("$ ") {
            self.act = Act::Calls(call);
            Ok(())
        } else if let Some(line) = line.strip_prefix("< ") {
            self.take_line(line)
        } else {
            self.take_text(alloc, line)
        }
    }

    /// Whether a line is wanted of this case.
    fn wants(&mut self, line: &str) -> Result<bool> {
        let Some(wanted) = line.strip_prefix(INDENT) else {
            return Ok(false);
        };
        self.wanted.push_str(wanted)?;
        self.wanted.push('\n')?;
        Ok(true)
    }

    /// Whether a line is a further line of this case's text.
    fn goes_on(&mut self, line: &str) -> Result<bool> {
        let Some(further) = line.strip_prefix("< ") else {
            return Ok(false);
        };
        if !matches!(self.act, Act::Reads) || !self.wanted.is_empty() {
            return Ok(false);
        }
        self.take_line(further)?;
        Ok(true)
    }
}

/// Makes all cases of a file.
pub fn check_cases(
    rt: &(impl Print + Eprint + AllocGlobal),
    path: &str,
    content: &str,
) -> Result<Tally> {
    let mut case = Case::new(rt.alloc());
    let mut tally = Tally::none();
    let mut number = 0u32;
    for line in content.lines() {
        number = number.saturating_add(1);
        if !case.wants(line)? && !case.goes_on(line)? {
            tally = tally.and(check_case(rt, path, &case)?);
            case.take(rt.alloc(), line)?;
            case.number = number;
        }
    }
    Ok(tally.and(check_case(rt, path, &case)?))
}

//! What goes wrong in a program.

ghost use Rattle.std.specs.Prelude.{◌≡◌};
ghost use Rattle.pth_print.specs.Adding.{AddsText};
ghost use Rattle.pth_print.specs.FaultLines.{fault_line, fault_status, flaw_name, refused_line, told_fault};

use pth_base::memory::OutOfMemory;
use pth_text::rule::{Breach, Rule};
use pth_text::text::Text;

/// What is wrong in a line: it breaks a rule of scripts or passes a limit, or it is no line of a transcript.
#[derive(Clone, Copy)]
pub enum Flaw {
    Breaks(Breach),
    NoTranscript,
}

/// Why a program did not write its whole text: its words or a line of its input were refused, reading or writing failed, or memory ran out.
/// Lines are numbered from 1.
#[derive(Clone, Copy)]
pub enum Fault {
    Words,
    Input { line: u64, flaw: Flaw },
    ReadFault,
    WriteFault,
    OutOfMemory,
}

impl Fault {
    /// The exit status of the program.
    pub fn status(&self) -> u8
        ensures { result ≡ fault_status self.now }
    {
        match self {
            Fault::Words => 2,
            Fault::Input { .. } => 3,
            Fault::ReadFault => 4,
            Fault::WriteFault => 5,
            Fault::OutOfMemory => 7,
        }
    }
}

/// The name of what is wrong in a line.
fn flaw_name(flaw: Flaw) -> &'static [u8]
    ensures { result.now ≡ flaw_name flaw }
{
    match flaw {
        Flaw::NoTranscript => b"no transcript",
        Flaw::Breaks(Breach::Limit) => b"limit",
        Flaw::Breaks(Breach::Of(Rule::Cut)) => b"cut",
        Flaw::Breaks(Breach::Of(Rule::Header)) => b"header",
        Flaw::Breaks(Breach::Of(Rule::Word)) => b"word",
        Flaw::Breaks(Breach::Of(Rule::Count)) => b"count",
        Flaw::Breaks(Breach::Of(Rule::Operand)) => b"operand",
        Flaw::Breaks(Breach::Of(Rule::Hex)) => b"hex",
        Flaw::Breaks(Breach::Of(Rule::Number)) => b"number",
        Flaw::Breaks(Breach::Of(Rule::Label)) => b"label",
        Flaw::Breaks(Breach::Of(Rule::Main)) => b"main",
        Flaw::Breaks(Breach::Of(Rule::End)) => b"end",
        Flaw::Breaks(Breach::Of(Rule::Time)) => b"time",
        Flaw::Breaks(Breach::Of(Rule::Fd)) => b"fd",
    }
}

/// Adds the number of a line that is refused, and why.
fn add_refused(line: u64, flaw: Flaw, out: &mut Text) -> Result<(), OutOfMemory>
    ensures { AddsText out.old out.new result (refused_line line flaw) }
{
    out.push(b": line ")?;
    out.natural(line)?;
    out.push(b": ")?;
    out.push(flaw_name(flaw))?;
    out.push(b"\n")
}

/// Adds what is told of a fault behind the program's name.
fn add_told(f: Fault, out: &mut Text) -> Result<(), OutOfMemory>
    ensures { AddsText out.old out.new result (told_fault f) }
{
    match f {
        Fault::Words => out.push(b": words refused\n"),
        Fault::Input { line, flaw } => add_refused(line, flaw, out),
        Fault::ReadFault => out.push(b": read fault\n"),
        Fault::WriteFault => out.push(b": write fault\n"),
        Fault::OutOfMemory => out.push(b": out of memory\n"),
    }
}

/// Adds the line that tells of a fault of the program with this name.
pub fn fault_line(program: &str, f: Fault, out: &mut Text) -> Result<(), OutOfMemory>
    ensures { AddsText out.old out.new result (fault_line program.now f) }
{
    out.push(program.as_bytes())?;
    add_told(f, out)
}

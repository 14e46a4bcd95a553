//! What is said of a transcript.

ghost use Rattle.std.specs.Prelude.{◌≡◌, ◌++◌, OnOk};
ghost use Rattle.pth_checker.specs.VerdictLines.{law_line, verdict_line, verdict_status};

use pth_audit::verdict::AuditRule;
use pth_base::memory::OutOfMemory;
use pth_text::text::Text;

/// What a lawful transcript meets: the laws of marks, and that its ending fits its marks.
#[derive(Clone, Copy)]
pub enum Law {
    Marks(AuditRule),
    Ending,
}

/// Whether a transcript is lawful. Lines are numbered from 1.
#[derive(Clone, Copy)]
pub enum Verdict {
    /// It is, and has so many lines.
    Lawful { lines: u64 },
    /// This is the first line that is wrong, and the law that it breaks, the first of the laws.
    Unlawful { line: u64, law: Law },
}

// Adds the name of a law.
fn add_law(law: Law, out: &mut Text) -> Result<(), OutOfMemory>
    ensures { OnOk result (out.new ≡ out.old ++ law_line law) }
{
    match law {
        Law::Marks(AuditRule::InTime) => out.push(b": in time\n"),
        Law::Marks(AuditRule::Orderly) => out.push(b": orderly\n"),
        Law::Marks(AuditRule::Exclusive) => out.push(b": exclusive\n"),
        Law::Marks(AuditRule::InOrder) => out.push(b": in order\n"),
        Law::Ending => out.push(b": ending\n"),
    }
}

// Adds the line of a lawful transcript.
fn add_lawful(lines: u64, out: &mut Text) -> Result<(), OutOfMemory>
    ensures { OnOk result (out.new ≡ out.old ++ verdict_line (Verdict.Lawful lines)) }
{
    out.push(b"lawful ")?;
    out.natural(lines)?;
    out.push(b"\n")
}

// Adds the line of one that breaks a law.
fn add_unlawful(line: u64, law: Law, out: &mut Text) -> Result<(), OutOfMemory>
    ensures { OnOk result (out.new ≡ out.old ++ verdict_line (Verdict.Unlawful line law)) }
{
    out.push(b"line ")?;
    out.natural(line)?;
    add_law(law, out)
}

impl Verdict {
    /// The exit status.
    pub fn status(&self) -> u8
        ensures { result ≡ verdict_status self.now }
    {
        match self {
            Verdict::Lawful { .. } => 0,
            Verdict::Unlawful { .. } => 1,
        }
    }

    /// Adds the verdict's line. After an error a part of it may be added.
    pub fn add_line(&self, out: &mut Text) -> Result<(), OutOfMemory>
        ensures { OnOk result (out.new ≡ out.old ++ verdict_line self.now) }
    {
        match self {
            Verdict::Lawful { lines } => add_lawful(*lines, out),
            Verdict::Unlawful { line, law } => add_unlawful(*line, *law, out),
        }
    }
}

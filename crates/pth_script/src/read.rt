//! Scripts from their text.

ghost use Rattle.std.specs.Prelude.{◌≡◌, ℕ, List, [], IfOk};
ghost use Rattle.pth_base.specs.Limits.{IsGreatestPriority};
ghost use Rattle.pth_script.specs.Drafts.{draft_parts, IsDraftInOrder};
ghost use Rattle.pth_script.specs.Follows.{IsReadAs, Reads, breach_error};
ghost use Rattle.pth_script.specs.TextRows.{TextRow};

use crate::limits::TEXT_LIMIT;
use crate::reader::{Fault, Reader};
use crate::rows::first_row;
use pth_base::memory::OutOfMemory;
use pth_kernel::kernel::Kernel;
use pth_line::script::Script;
use pth_text::rule::{Breach, Rule};
use std::alloc::Global;
use thiserror::Error;

/// Why no script was read: a line breaks a rule or passes a limit, or memory ran out. Lines are numbered from 1, and the
/// place after the last line counts as a line.
#[derive(Clone, Copy, Debug, PartialEq, Eq, Error)]
pub enum ReadErr {
    #[error("Refused")]
    Refused { line: u32, rule: Rule },
    #[error("TooLarge")]
    TooLarge { line: u32 },
    #[error("OutOfMemory")]
    OutOfMemory,
}

impl From<OutOfMemory> for ReadErr {
    ghost use Rattle.pth_script.specs.declared.read.ReadErr.TheVariants as err;

    ghost from_gives = { λ _ e. e ≡ err.OutOfMemory };

    fn from(_e: OutOfMemory) -> ReadErr {
        ReadErr::OutOfMemory
    }
}

/// The refusal of a line.
fn refused(line: u32, breach: Breach) -> ReadErr
    ensures { result ≡ breach_error line breach }
{
    match breach {
        Breach::Limit => ReadErr::TooLarge { line },
        Breach::Of(rule) => ReadErr::Refused { line, rule },
    }
}

/// The script, the kernel and the greatest base priority that were read, whose last line stands above this one.
fn finish(reader: Reader, line: u32) -> Result<(Script, Kernel, u8), ReadErr>
    requires { IsDraftInOrder (draft_parts reader.draft) }
    ensures { (text : List ℕ) (before : List TextRow) → Reads reader before text line [] → IsReadAs text result }
{
    match reader.end() {
        Ok(top) => {
            let (script, kernel) = reader.draft.close()?;
            Ok((script, kernel, top))
        }
        Err(rule) => Err(ReadErr::Refused { line, rule }),
    }
}

/// Reads a script and its kernel, and the greatest base priority: N of the range from -N to N, which is from 5 to 20, and 5 for a
/// text that begins with `pth 1`. It is refused at the least line that breaks a rule, for the first such rule.
pub fn read(alloc: Global, bytes: &[u8]) -> Result<(Script, Kernel, u8), ReadErr>
    ensures read { IsReadAs bytes.now result }
    ensures range { IfOk result (λ read. IsGreatestPriority read.2) }
{
    let mut reader = Reader::new(alloc);
    let mut line: u32 = 1;
    let mut rest = bytes;
    'lines: while !rest.is_empty() {
        let (row, ended, after) = first_row(rest);
        if bytes.len() - after.len() > TEXT_LIMIT {
            return Err(ReadErr::TooLarge { line });
        }
        match reader.row(row, ended) {
            Ok(()) => {}
            Err(Fault::Broken(breach)) => return Err(refused(line, breach)),
            Err(Fault::Memory) => return Err(ReadErr::OutOfMemory),
        }
        rest = after;
        line += 1;
    }
    finish(reader, line)
}

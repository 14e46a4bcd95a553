//! Texts in version 2.

ghost use Rattle.std.specs.Prelude.{◌≡◌, ◌≤◌, ◌+◌, length, IfOk};
ghost use Rattle.pth_script.specs.Limits.{text_limit};
ghost use Rattle.pth_script.specs.Upgrade.{IsUpgradedAs, StandsForTheSame, upgraded};

use crate::read::{ReadErr, read};
use pth_base::bytes::Bytes;
use pth_base::memory::OutOfMemory;
use pth_text::text::Text;
use std::alloc::Global;

/// The heading of a text in version 1, and the one that says the same in version 2.
const OLD_HEADING: &[u8] = b"pth 1\n";

const NEW_HEADING: &[u8] = b"pth 2\nrange 5\n";

/// A text with the heading of version 2 in place of its own, if it has that of version 1.
fn with_new_heading(alloc: Global, bytes: &[u8]) -> Result<Bytes, OutOfMemory>
    ensures { IfOk result (λ text. text ≡ upgraded bytes.now) }
{
    let Some(below) = bytes.strip_prefix(OLD_HEADING) else {
        return Bytes::from_slice(alloc, bytes);
    };
    let mut text = Text::new(alloc);
    text.push(NEW_HEADING)?;
    text.push(below)?;
    Bytes::from_slice(alloc, text.as_slice())
}

/// The text in version 2: itself, or if it begins with `pth 1` with the lines `pth 2` and `range 5` in place of this one, which are
/// eight bytes more. It is refused as `read` refuses it. If the eight bytes fit, what comes is read as what the text is read as.
pub fn upgrade(alloc: Global, bytes: &[u8]) -> Result<Bytes, ReadErr>
    ensures upgraded { IsUpgradedAs bytes.now result }
    ensures same { length bytes.now + 8 ≤ text_limit → IfOk result (λ text. StandsForTheSame bytes.now text) }
{
    read(alloc, bytes)?;
    Ok(with_new_heading(alloc, bytes)?)
}

//! Stretches, drawn from left to right.

ghost use Rattle.std.specs.Prelude.{◌≡◌, ◌+◌, ◌<◌, ◌^◌, OnOk};
ghost use Rattle.pth_drawing.specs.Tracks.{leads_to, with_columns};

use crate::chart::{Shown, Stretch};
use pth_base::memory::OutOfMemory;

// Whether a stretch is drawn as the same, and ends where a column begins.
fn leads_to(stretch: &Stretch, shown: Shown, column: u64) -> bool
    ensures { result ≡ leads_to shown column stretch.now }
{
    stretch.shown == shown && stretch.first.checked_add(stretch.columns) == Some(column)
}

/// Columns more, from one on: they lengthen the last stretch, or are a stretch of their own.
pub(crate) fn add_columns(
    stretches: &mut Vec<Stretch>,
    shown: Shown,
    first: u64,
    columns: u64,
) -> Result<(), OutOfMemory>
    requires { first + columns < 2 ^ 64 }
    ensures { OnOk result (stretches.new.items ≡ with_columns shown first columns stretches.old.items) }
{
    let n = stretches.len();
    if n > 0 && leads_to(&stretches[n - 1], shown, first) {
        stretches[n - 1].columns += columns;
    } else {
        stretches.push(Stretch {
            shown,
            first,
            columns,
        })?;
    }
    Ok(())
}

//! The lines of descriptors.

ghost use Rattle.std.specs.Prelude.{◌≡◌, ◌++◌, ◌<◌, ℕ, IfOk};
ghost use Rattle.pth_kernel.specs.Kernel.{kernel_of};
ghost use Rattle.pth_snapshot.specs.Dump.{fd_row, fd_rows};

use crate::number::{Number, add_numbers};
use pth_base::memory::OutOfMemory;
use pth_kernel::kernel::Kernel;
use pth_text::text::Text;

/// How many descriptors there are.
const DESCRIPTORS: u32 = 64;

// Adds the line of a descriptor, if it is live.
fn add_descriptor(kernel: &Kernel, f: u32, out: &mut Text) -> Result<(), OutOfMemory>
    requires { f < 64 }
    ensures { IfOk result (λ _. out.new ≡ out.old ++ fd_row (kernel_of kernel.now) f) }
{
    let fd = i64::from(f);
    if !kernel.is_live(fd) {
        return Ok(());
    }
    out.push(b"fd")?;
    add_numbers(
        &[
            Number::Natural(u64::from(f)),
            Number::Natural(kernel.left(fd) as u64),
            Number::Natural(kernel.room(fd)),
            Number::Natural(if kernel.nonblock(fd) { 2 } else { 1 }),
        ],
        out,
    )?;
    out.push(b"\n")
}

/// Adds the lines of the live descriptors.
pub fn add_descriptors(kernel: &Kernel, out: &mut Text) -> Result<(), OutOfMemory>
    ensures { IfOk result (λ _. out.new ≡ out.old ++ fd_rows (kernel_of kernel.now)) }
{
    for f in 0..DESCRIPTORS {
        add_descriptor(kernel, f, out)?;
    }
    Ok(())
}

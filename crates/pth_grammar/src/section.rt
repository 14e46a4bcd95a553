//! Where a line stands.

use crate::kernel_part::KernelPart;

/// The part of a script in which a line stands.
#[derive(Clone, Copy)]
pub enum Section {
    /// Between handlers, above all checks and bodies.
    Handlers,
    /// Within a handler.
    Handler,
    /// Below a check, above all bodies.
    Checks,
    /// Between bodies.
    Bodies,
    /// Within a body.
    Body,
    /// Below `kernel`, which stands below all bodies.
    Kernel(KernelPart),
}

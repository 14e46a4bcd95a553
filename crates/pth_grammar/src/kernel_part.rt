//! Where a line of a kernel stands.

/// The part of a kernel in which a line stands, by the line above.
#[derive(Clone, Copy)]
pub enum KernelPart {
    /// Just below `kernel`.
    Head,
    /// Below a `clock` or an `open`.
    Opens,
    /// Below an `at`.
    Entries,
}

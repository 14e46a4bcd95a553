//! What a thread keeps for itself.

/// Where a thread stands in its body, and sixteen numbers of its own.
#[derive(Clone, Copy)]
pub struct Regs {
    pub place: u32,
    pub r: [i64; 16],
}

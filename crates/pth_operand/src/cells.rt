//! The shared registers.

/// The registers `v0` to `v63`, which all threads of a run share.
#[derive(Clone, Copy)]
pub struct Cells {
    pub cells: [i64; 64],
}

//! What all threads of a run share.

/// Sixty-four numbers, zeros at first.
#[derive(Clone, Copy)]
pub struct Cells {
    pub v: [i64; 64],
}

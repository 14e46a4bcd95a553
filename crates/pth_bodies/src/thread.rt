//! A thread of boxed bodies.

use crate::regs::Regs;

/// Which body a thread runs, and its registers.
#[derive(Clone, Copy)]
pub struct Thread {
    pub body: u32,
    pub regs: Regs,
}

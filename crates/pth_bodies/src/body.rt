//! What a thread body is.

ghost use Rattle.std.specs.Prelude.{◌≡◌, IfOk};
ghost use Rattle.pth_bodies.specs.Bodies.{BodyFunctions};

use crate::cells::Cells;
use crate::regs::Regs;
use pth_base::answer::Answer;
use pth_base::call::Call;
use pth_base::memory::OutOfMemory;
use std::alloc::Global;

/// A thread body that goes on by steps.
///
/// Each function equals one of `body_functions`; only want of memory refuses.
pub trait Body: Drop {
    /// The functions that the body stands for.
    ghost body_functions: { Self → BodyFunctions };

    /// The first registers of a thread with this argument (the entry of `pth_spawn`).
    fn entry(&self, arg: i64) -> Regs
        ensures { result ≡ (body_functions self.now).entry arg };

    /// Takes the answer of the thread's last call, none at its first step, and gives its next call. After an error the registers may
    /// be used no further.
    fn step(
        &self,
        alloc: Global,
        regs: &mut Regs,
        cells: &mut Cells,
        answer: &Answer,
    ) -> Result<Call, OutOfMemory>
        ensures { IfOk result (λ call. record { call = call; state = regs.new; shared = cells.new } ≡ (body_functions self.now).step regs.old cells.old answer.now) };
}

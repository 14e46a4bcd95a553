//! Call lines.

ghost use Rattle.std.specs.Prelude.{◌≡◌, IfOk};
ghost use Rattle.pth_operand.specs.Values.{scope};

use crate::argument::Arguments;
use crate::call::call_of;
use crate::places::Places;
use pth_base::call::Call;
use pth_base::memory::OutOfMemory;
use pth_operand::cells::Cells;
use pth_operand::frame::Frame;
use pth_spelling::keyword::CallWord;
use std::alloc::Global;

/// A line that makes a call: the call's word, and its operands in their order.
#[derive(Drop)]
pub struct CallLine {
    pub word: CallWord,
    pub operands: Arguments,
}

impl CallLine {
    ghost use Rattle.pth_line.specs.CallLines.{call_in};

    /// The call that the line makes. It is not inlined, so that lines which make none don't pay for it.
    #[inline(never)]
    pub fn call(&self, alloc: Global, frame: &Frame, cells: &Cells) -> Result<Call, OutOfMemory>
        ensures { IfOk result (λ call. call ≡ call_in (scope frame.now cells.now) self.now) }
    {
        let at = Places {
            arguments: &self.operands,
            frame,
            cells,
        };
        call_of(alloc, self.word, at)
    }
}

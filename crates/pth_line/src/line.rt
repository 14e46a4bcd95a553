//! Lines of bodies.

ghost use Rattle.std.specs.Prelude.{◌≡◌, ◌+◌, ◌<◌, ◌^◌, IfOk};

use crate::call_line::CallLine;
use pth_base::call::Call;
use pth_base::memory::OutOfMemory;
use pth_operand::cells::Cells;
use pth_operand::frame::{Frame, Owed};
use pth_operand::operand::{Operand, Register};
use pth_operand::relation::Relation;
use std::alloc::Global;

/// A line of a body.
///
/// `to` is the place of the line after the label, counted from 0 in the body.
#[derive(Drop)]
pub enum Line {
    Set {
        register: Register,
        value: Operand,
    },
    Add {
        register: Register,
        value: Operand,
    },
    Note(Operand),
    Label(i64),
    Goto {
        label: i64,
        to: usize,
        left: Operand,
        relation: Relation,
        right: Operand,
    },
    Call {
        answer: Option<Register>,
        call: CallLine,
    },
}

impl Line {
    ghost use Rattle.pth_line.specs.LineSteps.{does, at_next_line};
    ghost use Rattle.pth_operand.specs.Values.{scope};

    /// Does what the line says in a thread that stands at it, and gives the call that it makes.
    #[inline(always)]
    pub(crate) fn does(
        &self,
        alloc: Global,
        frame: &mut Frame,
        cells: &mut Cells,
    ) -> Result<Call, OutOfMemory>
        requires { frame.old.line + 1 < 2 ^ 64 }
        ensures { IfOk result (λ call. record { call = call; state = frame.new; shared = cells.new } ≡ does self.now (at_next_line (scope frame.old cells.old))) }
    {
        frame.line += 1;
        match self {
            Line::Set { register, value } => {
                let n = value.number(frame, cells);
                register.put(frame, cells, &n);
                Ok(Call::Plain)
            }
            Line::Add { register, value } => {
                let n = value.number(frame, cells);
                register.add(frame, cells, &n);
                Ok(Call::Plain)
            }
            Line::Note(value) => Ok(Call::Note(value.number(frame, cells))),
            Line::Label(_) => Ok(Call::Plain),
            Line::Goto {
                to,
                left,
                relation,
                right,
                ..
            } => {
                if relation.holds(left.number(frame, cells), right.number(frame, cells)) {
                    frame.line = *to;
                }
                Ok(Call::Plain)
            }
            Line::Call { answer, call } => {
                let call = call.call(alloc, frame, cells)?;
                frame.owed = Owed::Answer(*answer);
                Ok(call)
            }
        }
    }
}

//! Where a thread stands.

ghost use Rattle.std.specs.Prelude.{◌≡◌, OnOk};

use crate::answers::{error_of, message_number, number_of};
use crate::cells::Cells;
use crate::operand::Register;
use pth_base::answer::Answer;
use pth_base::bytes::Bytes;
use pth_base::memory::OutOfMemory;

/// What the next answer is for: no call was made, or a call whose answer also goes to a register where one is named.
#[derive(Clone, Copy)]
pub enum Owed {
    Nothing,
    Answer(Option<Register>),
}

/// A thread of a script: its body and its next line there, both counted from 0, and what it holds.
///
/// `registers` are `a0` to `a15`. `error` is the number of the error that its last call was answered, or 0 (`errno`).
/// `buffer` has the bytes that it read last, and `message` is the number of the message that it got last, or 0.
#[derive(Drop)]
pub struct Frame {
    pub body: usize,
    pub line: usize,
    pub registers: [i64; 16],
    pub error: i64,
    pub buffer: Bytes,
    pub message: i64,
    pub owed: Owed,
}

impl Frame {
    ghost use Rattle.pth_operand.specs.LastAnswer.{held, heard};
    ghost use Rattle.pth_operand.specs.Values.{scope};

    /// Keeps the answer of the thread's last call, where it made one.
    #[tactic(auto, unfolding(crate::specs::LastAnswer::heard))]
    pub fn hear(&mut self, cells: &mut Cells, answer: &Answer) -> Result<(), OutOfMemory>
        ensures { OnOk result (scope self.new cells.new ≡ heard answer.now (scope self.old cells.old)) }
    {
        match self.owed {
            Owed::Nothing => Ok(()),
            Owed::Answer(register) => {
                self.hold(answer)?;
                self.error = error_of(answer);
                self.owed = Owed::Nothing;
                if let Some(register) = register {
                    register.put(self, cells, &number_of(answer));
                }
                Ok(())
            }
        }
    }

    /// Keeps the bytes that were read, or the number of the message that was got.
    fn hold(&mut self, answer: &Answer) -> Result<(), OutOfMemory>
        ensures { OnOk result (self.new ≡ held answer.now self.old) }
    {
        match answer {
            Answer::Bytes(bytes) => self.buffer = bytes.copy()?,
            Answer::Msg { id, .. } => self.message = message_number(id.0),
            _ => {}
        }
        Ok(())
    }
}

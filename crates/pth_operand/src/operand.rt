//! What lines name by words.

ghost use Rattle.std.specs.Prelude.{◌≡◌, ◌+ℤ◌, IfOk};
ghost use Rattle.std.specs.Int.{w64, saturate_signed};

use crate::cells::Cells;
use crate::frame::Frame;
use pth_base::bytes::Bytes;
use pth_base::memory::OutOfMemory;

/// A place for a number: `a0` to `a15` are a thread's own, `v0` to `v63` are shared by all threads.
#[derive(Clone, Copy)]
pub enum Register {
    Own(u8),
    Shared(u8),
}

impl Register {
    ghost use Rattle.pth_operand.specs.Values.{scope, register_in, put_register};

    /// The number that the register holds.
    pub fn read(&self, frame: &Frame, cells: &Cells) -> i64
        ensures { result ≡ register_in (scope frame.now cells.now) self.now }
    {
        let cell = match self {
            Register::Own(k) => frame.registers.get(usize::from(*k)),
            Register::Shared(k) => cells.cells.get(usize::from(*k)),
        };
        match cell {
            Some(n) => *n,
            None => 0,
        }
    }

    /// Puts a number in the register.
    pub fn put(&self, frame: &mut Frame, cells: &mut Cells, n: &i64)
        ensures { scope frame.new cells.new ≡ put_register (scope frame.old cells.old) self.now n.now }
    {
        match self {
            Register::Own(k) => {
                let k = usize::from(*k);
                if k < frame.registers.len() {
                    frame.registers[k] = *n;
                }
            }
            Register::Shared(k) => {
                let k = usize::from(*k);
                if k < cells.cells.len() {
                    cells.cells[k] = *n;
                }
            }
        }
    }

    /// Adds a number to the one that the register holds. The sum stays at the ends of 64 bits.
    pub fn add(&self, frame: &mut Frame, cells: &mut Cells, n: &i64)
        ensures { let s = scope frame.old cells.old in scope frame.new cells.new ≡ put_register s self.now (saturate_signed w64 (register_in s self.now +ℤ n.now)) }
    {
        let sum = self.read(frame, cells).saturating_add(*n);
        self.put(frame, cells, &sum);
    }
}

/// A number of a body's line: given, what a register holds, or the number of the error that the thread's last call was
/// answered (`errno`), 0 where it was answered otherwise.
#[derive(Clone, Copy)]
pub enum Operand {
    Number(i64),
    Register(Register),
    Error,
}

impl Operand {
    ghost use Rattle.pth_operand.specs.Values.{scope, operand_in};

    /// The number that the operand stands for.
    pub fn number(&self, frame: &Frame, cells: &Cells) -> i64
        ensures { result ≡ operand_in (scope frame.now cells.now) self.now }
    {
        match self {
            Operand::Number(n) => *n,
            Operand::Register(register) => register.read(frame, cells),
            Operand::Error => frame.error,
        }
    }
}

/// A number of a handler's act or of a check: given, what a shared register holds, or the argument.
#[derive(Clone, Copy)]
pub enum Value {
    Number(i64),
    Shared(u8),
    Argument,
}

impl Value {
    ghost use Rattle.pth_operand.specs.Values.{value_in};

    /// The number that the value stands for, where the handler or check has this argument.
    pub fn number(&self, cells: &Cells, arg: &i64) -> i64
        ensures { result ≡ value_in cells.now arg.now self.now }
    {
        match self {
            Value::Number(n) => *n,
            Value::Shared(k) => match cells.cells.get(usize::from(*k)) {
                Some(n) => *n,
                None => 0,
            },
            Value::Argument => *arg,
        }
    }
}

/// Bytes to write: those that the thread's last read gave it, or given ones.
#[derive(Drop)]
pub enum ByteOperand {
    Buffer,
    Given(Bytes),
}

impl ByteOperand {
    ghost use Rattle.pth_operand.specs.Values.{bytes_in};

    /// The bytes that the operand stands for.
    pub fn copy(&self, frame: &Frame) -> Result<Bytes, OutOfMemory>
        ensures { IfOk result (λ bytes. bytes ≡ bytes_in frame.now self.now) }
    {
        match self {
            ByteOperand::Buffer => frame.buffer.copy(),
            ByteOperand::Given(bytes) => bytes.copy(),
        }
    }
}

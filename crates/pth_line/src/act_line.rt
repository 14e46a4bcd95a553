//! Acts of handlers.

ghost use Rattle.std.specs.Prelude.{◌≡◌};

use pth_base::act::Act;
use pth_operand::cells::Cells;
use pth_operand::operand::Value;

/// An act of a handler as it is written.
#[derive(Clone, Copy)]
pub enum ActLine {
    Note(Value),
    Set { cell: u8, value: Value },
    Release(Value),
    Notify(Value, Value),
    Put(Value, Value),
    SetKey(Value, Value),
}

impl ActLine {
    ghost use Rattle.pth_line.specs.Script.{act_in, cells_after};

    /// The act in a handler with this argument. A shared register is set here.
    pub(crate) fn act(&self, cells: &mut Cells, arg: &i64) -> Act
        ensures act { result ≡ act_in cells.old arg.now self.now }
        ensures cells { cells.new ≡ cells_after cells.old arg.now self.now }
    {
        match self {
            ActLine::Note(x) => Act::Note(x.number(cells, arg)),
            ActLine::Set { cell, value } => {
                let n = value.number(cells, arg);
                let k = usize::from(*cell);
                if k < cells.cells.len() {
                    cells.cells[k] = n;
                }
                Act::Set(u32::from(*cell), n)
            }
            ActLine::Release(m) => Act::Release(m.number(cells, arg)),
            ActLine::Notify(c, v) => Act::Notify(c.number(cells, arg), v.number(cells, arg)),
            ActLine::Put(p, v) => Act::Put(p.number(cells, arg), v.number(cells, arg)),
            ActLine::SetKey(k, v) => Act::SetKey(k.number(cells, arg), v.number(cells, arg)),
        }
    }
}

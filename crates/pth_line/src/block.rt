//! The lines of one handler or body.

ghost use Rattle.std.specs.Prelude.{◌≡◌, [], ◌∷◌, ◌++◌, ◌<◌, ◌+◌, ◌^◌, OnOk, OnErr, OnSome, length, slice_get};
ghost use Rattle.std.specs.Option.{option_copied};

use pth_base::memory::OutOfMemory;
use std::alloc::Global;
use std::marker::Model;

/// The lines of a handler or a body.
#[derive(Drop)]
pub struct Block<T> {
    lines: Vec<T>,
}

impl<T> Model for Block<T> {
    ghost use Rattle.std.specs.Prelude.{List};

    ghost Value = { List T };

    ghost view = { λ s. s.lines.items };
}

impl<T: Drop> Block<T> {
    /// No lines, which takes no memory.
    pub fn new(alloc: Global) -> Block<T>
        ensures { result ≡ [] }
    {
        Block {
            lines: Vec::new(alloc),
        }
    }

    /// How many lines there are.
    pub fn len(&self) -> usize
        ensures { result ≡ length self.now }
    {
        self.lines.len()
    }

    /// Adds a line at the end.
    pub fn push(&mut self, line: T) -> Result<(), OutOfMemory>
        ensures ok { OnOk result (self.new ≡ self.old ++ line ∷ []) }
        ensures err { OnErr result (self.new ≡ self.old) }
    {
        self.lines.push(line)?;
        Ok(())
    }

    /// The line at an index from 0 on.
    pub fn get(&self, index: usize) -> Option<&T>
        ensures line { option_copied result ≡ slice_get self.now index }
        ensures next_fits { OnSome result (index + 1 < 2 ^ 64) }
    {
        self.lines.get(index)
    }
}

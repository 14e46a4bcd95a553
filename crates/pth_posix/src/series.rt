//! Items in order.

ghost use Rattle.std.specs.Prelude.{◌≡◌, [], ◌∷◌, ◌++◌, ◌+◌, ◌<◌, ◌^◌, OnOk, OnErr, OnSome, slice_get};
ghost use Rattle.std.specs.Option.{option_copied};

use pth_base::memory::OutOfMemory;
use std::alloc::Global;
use std::marker::Model;

/// Items in order.
#[derive(Drop)]
pub struct Series<T> {
    items: Vec<T>,
}

impl<T> Model for Series<T> {
    ghost use Rattle.std.specs.Prelude.{List};

    ghost Value = { List T };

    ghost view = { λ s. s.items.items };
}

impl<T: Drop> Series<T> {
    /// No items, which takes no memory.
    pub fn new(alloc: Global) -> Series<T>
        ensures { result ≡ [] }
    {
        Series {
            items: Vec::new(alloc),
        }
    }

    /// Adds an item at the end.
    pub fn push(&mut self, item: T) -> Result<(), OutOfMemory>
        ensures ok { OnOk result (self.new ≡ self.old ++ item ∷ []) }
        ensures err { OnErr result (self.new ≡ self.old) }
    {
        self.items.push(item)?;
        Ok(())
    }

    /// The item at an index from 0 on; none after the last.
    pub fn get(&self, index: usize) -> Option<&T>
        ensures item { option_copied result ≡ slice_get self.now index }
        ensures next_fits { OnSome result (index + 1 < 2 ^ 64) }
    {
        self.items.get(index)
    }
}

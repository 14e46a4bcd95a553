//! A list of threads.

ghost use Rattle.std.specs.Prelude.{◌≡◌, [], ◌∷◌, ◌++◌, OnOk};

use pth_base::ids::Tid;
use pth_base::memory::OutOfMemory;
use std::alloc::Global;
use std::marker::Model;

/// Numbers of threads, seen as their list.
#[derive(Drop)]
pub struct Tids {
    items: Vec<Tid>,
}

impl Model for Tids {
    ghost use Rattle.std.specs.Prelude.{List};
    ghost use Rattle.pth_base.specs.declared.ids.Tid.{Tid};

    ghost Value = { List Tid };

    ghost view = { λ t. t.items.items };
}

impl Tids {
    pub(crate) fn new(alloc: Global) -> Tids
        ensures { result ≡ [] }
    {
        Tids {
            items: Vec::new(alloc),
        }
    }

    pub(crate) fn push(&mut self, t: Tid) -> Result<(), OutOfMemory>
        ensures { OnOk result (self.new ≡ self.old ++ t ∷ []) }
    {
        self.items.push(t)?;
        Ok(())
    }

    pub fn as_slice(&self) -> &[Tid]
        ensures { result.now ≡ self.now }
    {
        self.items.as_slice()
    }
}

//! Who has ended, and who was canceled.

ghost use Rattle.std.specs.Prelude.{◌≡◌, ◌||◌, ◌==◌, ℕ, false, OnOk};
ghost use Rattle.std.specs.Ordering.{nat_cmp};
ghost use Rattle.std.specs.BTreeSet.{contains};
ghost use Rattle.pth_laws.specs.Marks.{is_end_of, is_cancellation_of};

use pth_base::ids::Tid;
use pth_base::mark::Mark;
use pth_base::memory::OutOfMemory;
use std::alloc::Global;
use std::collections::BTreeSet;

/// The threads that have ended, and those that were canceled.
#[derive(Drop)]
pub(crate) struct Threads {
    ended: BTreeSet<u32>,
    canceled: BTreeSet<u32>,
}

impl Threads {
    /// None has ended or was canceled.
    pub(crate) fn new(alloc: Global) -> Threads
        ensures ended { (t : ℕ) → contains nat_cmp result.ended t ≡ false }
        ensures canceled { (t : ℕ) → contains nat_cmp result.canceled t ≡ false }
    {
        Threads {
            ended: BTreeSet::new(alloc),
            canceled: BTreeSet::new(alloc),
        }
    }

    /// Whether a thread has ended.
    pub(crate) fn has_ended(&self, t: Tid) -> bool
        ensures { result ≡ contains nat_cmp self.now.ended t.0 }
    {
        self.ended.contains(&t.0)
    }

    /// Whether a thread was canceled.
    pub(crate) fn was_canceled(&self, t: Tid) -> bool
        ensures { result ≡ contains nat_cmp self.now.canceled t.0 }
    {
        self.canceled.contains(&t.0)
    }

    /// After a mark.
    pub(crate) fn add(&mut self, mark: &Mark) -> Result<(), OutOfMemory>
        ensures ended { OnOk result ((t : ℕ) → contains nat_cmp self.new.ended t
            ≡ (contains nat_cmp self.old.ended t || is_end_of t mark.now)) }
        ensures canceled { OnOk result ((t : ℕ) → contains nat_cmp self.new.canceled t
            ≡ (contains nat_cmp self.old.canceled t || is_cancellation_of t mark.now)) }
    {
        match mark {
            Mark::Ended { tid, .. } => insert(&mut self.ended, *tid),
            Mark::Canceled { tid, .. } => insert(&mut self.canceled, *tid),
            _ => Ok(()),
        }
    }
}

// A thread more.
fn insert(set: &mut BTreeSet<u32>, t: Tid) -> Result<(), OutOfMemory>
    ensures { OnOk result ((u : ℕ) → contains nat_cmp set.new u
        ≡ (contains nat_cmp set.old u || (t.0 == u))) }
{
    let _new = set.insert(t.0)?;
    Ok(())
}

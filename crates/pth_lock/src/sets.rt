//! Sets of objects, as the bits of a number: bit k stands for object k. And one such set for each slot.

ghost use Rattle.std.specs.Prelude.{◌≡◌, ◌<◌, ℕ, true, false, length, IfOk};
ghost use Rattle.pth_base.specs.Limits.{thread_limit};
ghost use Rattle.pth_base.specs.Table.{put};
ghost use Rattle.pth_lock.specs.Objects.{object_limit};
ghost use Rattle.pth_lock.specs.Sets.{contains, is_in_set};

use pth_base::ids::Slot;
use pth_base::limits::MOST_THREADS;
use pth_base::memory::OutOfMemory;
use std::alloc::Global;
use std::marker::Model;

// Whether an object is in a set.
fn contains(set: u64, k: usize) -> bool
    requires { k < object_limit }
    ensures { result ≡ contains set k }
{
    set >> k & 1 == 1
}

// The set with one more object.
fn with(set: u64, k: usize) -> u64
    requires { k < object_limit }
    ensures { contains result ≡ put (contains set) k true }
{
    set | 1 << k
}

/// The set without an object.
pub fn without(set: u64, k: usize) -> u64
    requires { k < object_limit }
    ensures objects { contains result ≡ put (contains set) k false }
    ensures less { contains set k ≡ true → result < set }
{
    set & !(1 << k)
}

/// The least object of a set that is not empty.
pub fn first(set: u64) -> usize
    requires { 0 < set }
    ensures low { result < object_limit }
    ensures member { contains set result ≡ true }
    ensures least { (k : ℕ) → k < result → contains set k ≡ false }
{
    set.trailing_zeros() as usize
}

// For each slot a set of objects.
pub(crate) struct SlotSets {
    sets: Vec<u64>,
}

impl Model for SlotSets {
    ghost use Rattle.std.specs.Prelude.{List, ℕ, length, ◌≡◌};
    ghost use Rattle.pth_base.specs.Limits.{thread_limit};

    ghost Value = { List ℕ };

    ghost view = { λ a. a.sets.items };

    ghost invariant = { λ a. length a.sets.items ≡ thread_limit };
}

// By hand, so that letting one go is one call in each proof.
impl Drop for SlotSets {
    fn drop(self) {
        let SlotSets { sets: _ } = self;
    }
}

impl SlotSets {
    // All are empty.
    pub(crate) fn new(alloc: Global) -> Result<SlotSets, OutOfMemory>
        ensures empty { IfOk result (λ sets. is_in_set sets ≡ (λ _ _. false)) }
        ensures long { IfOk result (λ sets. length sets ≡ thread_limit) }
    {
        let sets = vec![in alloc; 0; MOST_THREADS as usize]?;
        Ok(SlotSets { sets })
    }

    // Whether an object is in the set of a slot.
    pub(crate) fn contains(&self, s: Slot, k: usize) -> bool
        requires slot { s.0 < thread_limit }
        requires object { k < object_limit }
        ensures { result ≡ is_in_set self.now s.0 k }
    {
        contains(self.sets[s.0 as usize], k)
    }

    // Puts an object into the set of a slot.
    pub(crate) fn insert(&mut self, s: Slot, k: usize)
        requires slot { s.0 < thread_limit }
        requires object { k < object_limit }
        ensures objects { is_in_set self.new ≡ put (is_in_set self.old) s.0 (put (is_in_set self.old s.0) k true) }
        ensures long { length self.new ≡ thread_limit }
    {
        let place = s.0 as usize;
        self.sets[place] = with(self.sets[place], k);
    }

    // Takes an object out of the set of a slot.
    pub(crate) fn remove(&mut self, s: Slot, k: usize)
        requires slot { s.0 < thread_limit }
        requires object { k < object_limit }
        ensures objects { is_in_set self.new ≡ put (is_in_set self.old) s.0 (put (is_in_set self.old s.0) k false) }
        ensures long { length self.new ≡ thread_limit }
    {
        let place = s.0 as usize;
        self.sets[place] = without(self.sets[place], k);
    }

    // Empties the set of a slot, and answers what it was.
    pub(crate) fn take(&mut self, s: Slot) -> u64
        requires { s.0 < thread_limit }
        ensures set { contains result ≡ is_in_set self.old s.0 }
        ensures objects { is_in_set self.new ≡ put (is_in_set self.old) s.0 (λ _. false) }
        ensures long { length self.new ≡ thread_limit }
    {
        let place = s.0 as usize;
        let set = self.sets[place];
        self.sets[place] = 0;
        set
    }
}

//! Things by slot, with an index from their numbers to slots.
//!
//! One container for threads, attribute objects and events. The limit is at most 4,096, so that tables by slot serve all.

ghost use Rattle.std.specs.Prelude.{◌≡◌, ◌≢◌, ◌+◌, ◌<◌, ◌≤◌, ◌↔◌, ℕ, Option, Some, None, IfOk, OnOk, OnErr, IfSome, IsErrOf, IsSome, Contains, option_map};
ghost use Rattle.std.specs.List.Sorted.{IsStrictlyIncreasing};
ghost use Rattle.std.specs.Borrow.{Lends, sem};
ghost use Rattle.std.specs.BTreeMap.{keys, IsOrdered};
ghost use Rattle.std.specs.Ordering.{nat_cmp};
ghost use Rattle.slab.specs.Slab.{get};
ghost use Rattle.pth_base.specs.Limits.{thread_limit};
ghost use Rattle.pth_numbered.specs.Numbered.{thing_at, number_at, slot_of, count, with_thing, IsKept, Adds, Changes, Removes};
ghost use Rattle.pth_numbered.specs.contracts.numbered.Numbered.{the_row};

use crate::error::AddErr;
use pth_base::ids::Slot;
use pth_base::memory::OutOfMemory;
use slab::Slab;
use std::alloc::{AllocError, Global};
use std::collections::BTreeMap;
use std::marker::Model;

/// How many slots are tried before the index is asked: one for each value of a number's last twelve bits.
const RECENT: usize = 4096;

// A thing with its number.
#[derive(Drop)]
struct Record<T> {
    number: u32,
    thing: T,
}

/// Things that are numbered upwards from 1. A slot is used again once its thing is removed, and a number never.
#[derive(Drop)]
pub struct Numbered<T> {
    records: Slab<Record<T>>,
    index: BTreeMap<u32, u32>,
    // The slot of the latest thing with these last bits in its number. Its record may be another thing's by now.
    recent: Vec<u32>,
    made: u32,
    limit: u32,
}

impl<T> Model for Numbered<T> {
    ghost use Rattle.pth_numbered.specs.Numbered.{NumberedOf, IsKept};

    ghost Value = { NumberedOf T };

    ghost view = { λ a. record { slots = a.records.slots; index = a.index.entries; made = a.made; limit = a.limit } };

    ghost invariant = { λ a. IsKept (record { slots = a.records.slots; index = a.index.entries; made = a.made; limit = a.limit }) };
}

impl<T: Drop> Numbered<T> {
    /// Nothing, which takes no memory. There will be at most `limit` things at once.
    pub fn new(alloc: Global, limit: u32) -> Numbered<T>
        requires { limit ≤ thread_limit }
        ensures slots { slot_of result ≡ (λ _. None) }
        ensures numbers { number_at result ≡ (λ _. 0) }
        ensures things { thing_at result ≡ (λ _. None) }
        ensures count { count result ≡ 0 }
        ensures made { result.made ≡ 0 }
        ensures limit { result.limit ≡ limit }
    {
        Numbered {
            records: Slab::new(alloc),
            index: BTreeMap::new(alloc),
            recent: Vec::new(alloc),
            made: 0,
            limit,
        }
    }

    /// The slot of the thing with a number.
    pub fn find(&self, number: u32) -> Option<Slot>
        ensures slot { slot_of self.now number ≡ option_map (λ (s : Slot). s.0) result }
        ensures used { IfSome result (λ s. number_at self.now s.0 ≢ 0) }
        ensures named { IfSome result (λ s. number_at self.now s.0 ≡ number) }
        ensures kept { IsKept self.now }
    {
        match self.guess(number) {
            Some(slot) => Some(slot),
            None => self.index.get(&number).map(|slot| Slot(*slot)),
        }
    }

    // The slot of the thing with a number, where no later one has the same last bits in its number.
    fn guess(&self, number: u32) -> Option<Slot>
        ensures { IfSome result (λ s. slot_of self.now number ≡ Some s.0) }
    {
        let slot = *self.recent.get(number as usize % RECENT)?;
        let record = self.records.get(slot as usize)?;
        if record.number == number {
            Some(Slot(slot))
        } else {
            None
        }
    }

    /// The thing at a slot.
    pub fn get(&self, s: Slot) -> &T
        requires { number_at self.now s.0 ≢ 0 }
        ensures { thing_at self.now s.0 ≡ Some result.now }
    {
        &self.records[s.0 as usize].thing
    }

    /// The thing at a slot, for writing.
    pub fn get_mut(&mut self, s: Slot) -> &mut T
        requires { number_at self.old s.0 ≢ 0 }
        ensures* writes_back { sem 𝓛 (Lends (the_row T.row) T.row self.entry result (with_thing self.old s.0)) }
        ensures value { thing_at self.old s.0 ≡ Some result.now }
        ensures changes { (x : T) → Changes self.old (with_thing self.old s.0 x) s.0 x }
    {
        &mut self.records[s.0 as usize].thing
    }

    /// The number of the thing at a slot, 0 where the slot is not in use.
    pub fn number_in(&self, s: Slot) -> u32
        ensures { result ≡ number_at self.now s.0 }
    {
        match self.records.get(s.0 as usize) {
            Some(record) => record.number,
            None => 0,
        }
    }

    /// Each slot in use is below this, which is at most the limit.
    pub fn slots_end(&self) -> u32
        ensures past { (u : ℕ) → number_at self.now u ≢ 0 → u < result }
        ensures most { result ≤ self.now.limit }
    {
        let most = self.limit as usize;
        self.records.capacity().min(most) as u32
    }

    /// Adds a thing, which has the next number and a slot that was not in use.
    pub fn add(&mut self, thing: T) -> Result<(u32, Slot), AddErr>
        requires { self.old.made < 4294967295 }
        ensures number { IfOk result (λ p. p.0 ≡ self.old.made + 1) }
        ensures ok { IfOk result (λ p. Adds self.old self.new p.1.0 thing) }
        ensures too_many { IsErrOf result AddErr.TooMany ↔ (count self.old ≡ self.old.limit) }
        ensures err { OnErr result (self.new ≡ self.old) }
        ensures was_kept { IsKept self.old }
        ensures kept { IsKept self.new }
    {
        let limit = self.limit as usize;
        if self.records.len() == limit {
            return Err(AddErr::TooMany);
        }
        let slot = next_slot(&self.records, self.limit)?;
        self.records.reserve(1)?;
        let number = self.made + 1;
        keep_recent(&mut self.recent, number, slot)?;
        let _none = self.index.insert(number, slot)?;
        let _key = self.records.insert_reserved(Record { number, thing });
        self.made = number;
        Ok((number, Slot(slot)))
    }

    /// Takes out the thing at a slot.
    pub fn remove(&mut self, s: Slot) -> T
        requires { number_at self.old s.0 ≢ 0 }
        ensures thing { thing_at self.old s.0 ≡ Some result }
        ensures removes { Removes self.old self.new s.0 }
        ensures kept { IsKept self.new }
    {
        let gone = self.records.remove(s.0 as usize);
        let _slot = self.index.remove(&gone.number);
        gone.thing
    }

    /// How many things there are.
    pub fn count(&self) -> u32
        ensures value { result ≡ count self.now }
        ensures most { count self.now ≤ self.now.limit }
    {
        self.records.len() as u32
    }

    /// How many things were ever added, which is the number of the last of them.
    pub fn made(&self) -> u32
        ensures value { result ≡ self.now.made }
        ensures kept { IsKept self.now }
    {
        self.made
    }

    /// The numbers of the things, the oldest first.
    pub fn numbers(&self, alloc: Global) -> Result<Vec<u32>, OutOfMemory>
        ensures listed { IfOk result (λ v. (n : ℕ) → Contains v.items n ↔ IsSome (slot_of self.now n)) }
        ensures rising { IfOk result (λ v. IsStrictlyIncreasing v.items) }
    {
        Ok(keys_of(&self.index, alloc)?)
    }
}

// The slot of the next thing, which is the next key of the slab. Want of memory exactly where that is not below the limit. A slab
// makes a new key only where each key so far is in use, and so none comes to that; but its statements leave the next key open.
fn next_slot<T>(records: &Slab<Record<T>>, limit: u32) -> Result<u32, OutOfMemory>
    ensures key { IfOk result (λ s. s ≡ records.now.vacant_key) }
    ensures vacant { IfOk result (λ s. get records.now s ≡ None) }
    ensures low { IfOk result (λ s. s < limit) }
    ensures memory { OnErr result (limit ≤ records.now.vacant_key) }
{
    let key = records.vacant_key();
    if key >= limit as usize {
        return Err(OutOfMemory);
    }
    Ok(key as u32)
}

// The thing with this number is the latest with its last bits.
fn keep_recent(recent: &mut Vec<u32>, number: u32, slot: u32) -> Result<(), AllocError> {
    recent.resize(RECENT, 0)?;
    recent[number as usize % RECENT] = slot;
    Ok(())
}

// The keys of an index, which rise.
fn keys_of(index: &BTreeMap<u32, u32>, alloc: Global) -> Result<Vec<u32>, AllocError>
    ensures keys { IfOk result (λ v. v.items ≡ keys index.now) }
    ensures ordered { IsOrdered nat_cmp index.now }
{
    index.keys().copied().collect(alloc)
}

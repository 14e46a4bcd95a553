//! The threads in the system, by their numbers.

ghost use Rattle.std.specs.Prelude.{◌≡◌, ◌≢◌, ◌+◌, ◌<◌, ◌≤◌, ◌↔◌, ℕ, Option, Some, None, IfOk, OnOk, OnErr, IfSome, IsErrOf, IsSome, Contains, map, option_map};
ghost use Rattle.std.specs.List.Sorted.{IsStrictlyIncreasing};
ghost use Rattle.pth_base.specs.Limits.{thread_limit, last_count};
ghost use Rattle.pth_base.specs.Naming.{IsTied};
ghost use Rattle.pth_threads.specs.Threads.{entry_at, tid_at, slot_of, count, made_of, number_of, tid_from, AddsThread, ChangesThread, RemovesThread, IsSame, IsCountable};

use crate::entry::{AddErr, Change, Entry, NewThread};
use pth_base::ids::{Slot, Tid};
use pth_base::limits::MOST_THREADS;
use pth_base::memory::OutOfMemory;
use pth_numbered::numbered::Numbered;
use std::alloc::{AllocError, Global};
use std::marker::Model;

/// The threads in the system. A slot is used again once its thread is removed, and a number never.
pub struct Threads {
    entries: Numbered<Entry>,
}

impl Model for Threads {
    ghost use Rattle.pth_threads.specs.Threads.{ThreadsOf, AreThreadsKept};

    ghost Value = { ThreadsOf };

    ghost view = { λ a. a.entries };

    ghost invariant = { λ a. AreThreadsKept a.entries };
}

// By hand, so that letting one go is one call in each proof.
impl Drop for Threads {
    fn drop(self) {
        let Threads { entries: _ } = self;
    }
}

impl Threads {
    /// No threads, which takes no memory.
    pub fn new(alloc: Global) -> Threads
        ensures slots { slot_of result ≡ (λ _. None) }
        ensures tids { tid_at result ≡ (λ _. 0) }
        ensures entries { entry_at result ≡ (λ _. None) }
        ensures count { count result ≡ 0 }
        ensures made { result.made ≡ 0 }
    {
        Threads {
            entries: Numbered::new(alloc, MOST_THREADS),
        }
    }

    /// The slot of a thread.
    pub fn find(&self, t: Tid) -> Option<Slot>
        ensures slot { slot_of self.now t.0 ≡ option_map (λ (s : Slot). s.0) result }
        ensures used { IfSome result (λ s. tid_at self.now s.0 ≢ 0) }
        ensures named { IfSome result (λ s. tid_at self.now s.0 ≡ t.0) }
        ensures tied { IsTied (slot_of self.now) (tid_at self.now) }
        ensures empty { (u : ℕ) → tid_at self.now u ≡ 0 → entry_at self.now u ≡ None }
    {
        self.entries.find(t.0)
    }

    /// The record at a slot.
    pub fn get(&self, s: Slot) -> &Entry
        requires { tid_at self.now s.0 ≢ 0 }
        ensures entry { entry_at self.now s.0 ≡ Some result.now }
        ensures tid { tid_at self.now s.0 ≡ result.now.tid.0 }
        ensures dispatches { result.now.dispatches ≤ last_count }
    {
        self.entries.get(s)
    }

    /// Sets one field of the record at a slot. A count of dispatches stays one that an `i64` holds.
    pub fn change(&mut self, s: Slot, c: Change)
        requires used { tid_at self.old s.0 ≢ 0 }
        requires countable { IsCountable c }
        ensures { ChangesThread self.old self.new s.0 c }
    {
        self.entries.get_mut(s).set(c);
    }

    /// A new thread, which has the next number and a slot that was not in use.
    pub fn add(&mut self, of: NewThread) -> Result<(Tid, Slot), AddErr>
        requires { self.old.made < 4294967295 }
        ensures tid { IfOk result (λ p. p.0.0 ≡ self.old.made + 1) }
        ensures made { OnOk result (self.new.made ≡ self.old.made + 1) }
        ensures ok { IfOk result (λ p. AddsThread self.old self.new p.1.0 (made_of of p.0.0)) }
        ensures too_many { IsErrOf result AddErr.TooMany ↔ (count self.old ≡ thread_limit) }
        ensures err { OnErr result (IsSame self.old self.new) }
    {
        let tid = Tid(self.entries.made() + 1);
        let (_, slot) = self.entries.add(Entry::new(of, tid))?;
        Ok((tid, slot))
    }

    /// Takes the thread at a slot out of the system.
    pub fn remove(&mut self, s: Slot)
        requires { tid_at self.old s.0 ≢ 0 }
        ensures { RemovesThread self.old self.new s.0 }
    {
        self.entries.remove(s);
    }

    /// How many threads are in the system.
    pub fn count(&self) -> u32
        ensures value { result ≡ count self.now }
        ensures most { count self.now ≤ thread_limit }
    {
        self.entries.count()
    }

    /// How many threads were ever made, which is the number of the last of them.
    pub fn made(&self) -> u32
        ensures { result ≡ self.now.made }
    {
        self.entries.made()
    }

    /// The numbers of the threads in the system, the oldest first.
    pub fn tids(&self, alloc: Global) -> Result<Vec<Tid>, OutOfMemory>
        ensures listed { IfOk result (λ v. (t : Tid) → Contains v.items t ↔ IsSome (slot_of self.now t.0)) }
        ensures rising { IfOk result (λ v. IsStrictlyIncreasing (map number_of v.items)) }
    {
        let numbers = self.entries.numbers(alloc)?;
        Ok(named(&numbers, alloc)?)
    }
}

// The threads with these numbers.
fn named(numbers: &[u32], alloc: Global) -> Result<Vec<Tid>, AllocError>
    ensures { IfOk result (λ v. v.items ≡ map tid_from numbers.now) }
{
    numbers.iter().map(|t| Tid(*t)).collect(alloc)
}

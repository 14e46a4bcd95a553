//! Mutexes.

ghost use Rattle.std.specs.Prelude.{◌≡◌, ◌<◌, ◌+◌, ◌-◌, ℕ, length, Some, None, Ok, Err, IfErr, IfOk, IfSome, OnErr, OnOk, is_ok};
ghost use Rattle.pth_base.specs.Limits.{thread_limit};
ghost use Rattle.pth_base.specs.Table.{table};
ghost use Rattle.pth_lock.specs.Objects.{object_limit, object_named};
ghost use Rattle.pth_lock.specs.Sets.{contains, changed_in};
ghost use Rattle.pth_lock.specs.Mutexes.{mutexes_of, mutex_of, has, levels_of, HasLevels, MutexesAreSound, mutex_init_answer, take_answer, mutex_take_answer, release_answer, mutex_release_answer, mutex_owner_answer, mutex_free_answer, no_mutexes, mutex_with, mutex_initialised, mutex_taken, mutex_released, mutexes_left};

use crate::objects::{MOST_OBJECTS, find, place_of};
use crate::sets::{SlotSets, first, without};
use pth_base::errno::Errno;
use pth_base::ids::Slot;
use pth_base::memory::OutOfMemory;
use std::alloc::Global;
use std::marker::Model;

/// How many levels of a mutex a slot may have.
pub const MOST_LEVELS: u16 = 65535;

// Who has a mutex, and with how many levels.
#[derive(Clone, Copy)]
struct Owner {
    slot: Slot,
    levels: u16,
}

// A mutex: None where it is not initialised, and else its owner, if it has one.
type Mutex = Option<Option<Owner>>;

/// The mutexes (`pth_mutex_t`), from 0 to 63, each of which one slot at most has, with one level for each time that it took it.
/// Only `new` takes memory.
#[derive(Drop)]
pub struct Mutexes {
    mutexes: [Mutex; MOST_OBJECTS],
    // By slot the set of the mutexes that it has.
    sets: SlotSets,
}

impl Model for Mutexes {
    ghost use Rattle.std.specs.Prelude.{List, Option};
    ghost use Rattle.pth_lock.specs.declared.mutexes.Owner.{Owner};
    ghost use Rattle.pth_lock.specs.Mutexes.{MutexesAreKept};

    ghost Value = { List (Option (Option Owner)) };

    ghost view = { λ a. a.mutexes };

    ghost invariant = { λ a. MutexesAreKept a.mutexes a.sets };
}

impl Mutexes {
    /// No mutex is initialised.
    pub fn new(alloc: Global) -> Result<Mutexes, OutOfMemory>
        ensures { IfOk result (λ x. mutexes_of x ≡ no_mutexes) }
    {
        let sets = SlotSets::new(alloc)?;
        Ok(Mutexes {
            mutexes: [None; MOST_OBJECTS],
            sets,
        })
    }

    /// `pth_mutex_init`: a mutex, from 0 to 63, can be taken from now on. EINVAL where there is no such mutex, EBUSY where it is
    /// initialised already.
    pub fn init(&mut self, m: i64) -> Result<(), Errno>
        ensures answer { result ≡ mutex_init_answer (mutexes_of self.old) m }
        ensures changes { OnOk result (mutexes_of self.new ≡ mutex_initialised (object_named m) (mutexes_of self.old)) }
        ensures refused { OnErr result (self.new ≡ self.old) }
    {
        let Some(place) = place_of(m) else {
            return Err(Errno::EINVAL);
        };
        if self.mutexes[place].is_some() {
            return Err(Errno::EBUSY);
        }
        self.mutexes[place] = Some(None);
        Ok(())
    }

    /// `pth_mutex_acquire`, where that need not wait: a slot has one level more of a mutex that is free or its own. EINVAL where
    /// the mutex is not initialised, EAGAIN where the slot has 65535 levels of it, EBUSY where another has it.
    pub fn try_take(&mut self, m: i64, s: Slot) -> Result<(), Errno>
        requires { s.0 < thread_limit }
        ensures answer { result ≡ mutex_take_answer (mutexes_of self.old) s.0 m }
        ensures changes { OnOk result (mutexes_of self.new ≡ mutex_taken s.0 (object_named m) (mutexes_of self.old)) }
        ensures object { OnOk result (object_named m < object_limit) }
        ensures refused { OnErr result (self.new ≡ self.old) }
    {
        let (place, owner) = find(&self.mutexes, m)?;
        let owner = taken(owner, s)?;
        self.mutexes[place] = Some(Some(owner));
        self.sets.insert(s, place);
        Ok(())
    }

    /// `pth_mutex_release`: a slot has one level less of a mutex, which is free after the last. EINVAL where the mutex is not
    /// initialised, EDEADLK where nobody has it, EACCES where another has it.
    pub fn release(&mut self, m: i64, s: Slot) -> Result<(), Errno>
        requires { s.0 < thread_limit }
        ensures answer { result ≡ mutex_release_answer (mutexes_of self.old) s.0 m }
        ensures changes { OnOk result (mutexes_of self.new ≡ mutex_released s.0 (object_named m) (mutexes_of self.old)) }
        ensures refused { OnErr result (self.new ≡ self.old) }
    {
        let (place, owner) = find(&self.mutexes, m)?;
        let owner = released(owner, s)?;
        self.mutexes[place] = Some(owner);
        if owner.is_none() {
            self.sets.remove(s, place);
        }
        Ok(())
    }

    /// All mutexes that a slot has are free, as a thread that ends leaves them. The answer is the set of these, of which bit m
    /// stands for mutex m. Only these mutexes are looked at.
    pub fn release_all(&mut self, s: Slot) -> u64
        requires { s.0 < thread_limit }
        ensures had { (m : ℕ) → contains result m ≡ has s.0 (mutexes_of self.old m) }
        ensures changes { mutexes_of self.new ≡ mutexes_left s.0 (mutexes_of self.old) }
    {
        let set = self.sets.take(s);
        free_each(&mut self.mutexes, set);
        set
    }

    /// Who has a mutex, None where it is free. EINVAL where it is not initialised.
    pub fn owner(&self, m: i64) -> Result<Option<Slot>, Errno>
        ensures answer { result ≡ mutex_owner_answer (mutexes_of self.now) m }
        ensures sound { MutexesAreSound (mutexes_of self.now) }
    {
        let (_, owner) = find(&self.mutexes, m)?;
        Ok(owner.map(|o| o.slot))
    }

    /// Whether a slot can take one level more of a mutex: it is initialised, and free or the slot's own.
    pub fn may_take(&self, m: i64, s: Slot) -> bool
        ensures { result ≡ is_ok (mutex_take_answer (mutexes_of self.now) s.0 m) }
    {
        match find(&self.mutexes, m) {
            Ok((_, owner)) => taken(owner, s).is_ok(),
            Err(_) => false,
        }
    }

    /// What a slot would be answered as it gives back one level of a mutex: EINVAL where it is not initialised, EDEADLK where nobody
    /// has it, EACCES where another has it.
    pub fn release_answer(&self, m: i64, s: Slot) -> Result<(), Errno>
        ensures { result ≡ mutex_release_answer (mutexes_of self.now) s.0 m }
    {
        let (_, owner) = find(&self.mutexes, m)?;
        let _ = released(owner, s)?;
        Ok(())
    }

    /// Whether nobody has a mutex. EINVAL where it is not initialised.
    pub fn is_free(&self, m: i64) -> Result<bool, Errno>
        ensures { result ≡ mutex_free_answer (mutexes_of self.now) m }
    {
        let (_, owner) = find(&self.mutexes, m)?;
        Ok(owner.is_none())
    }
}

// The owner of an initialised mutex after a slot took a level more of it.
fn taken(owner: Option<Owner>, s: Slot) -> Result<Owner, Errno>
    ensures refused { IfErr result (λ e. take_answer s.0 (mutex_of (Some owner)) ≡ Err e) }
    ensures answered { OnOk result (take_answer s.0 (mutex_of (Some owner)) ≡ Ok tt) }
    ensures more { IfOk result (λ o. mutex_of (Some (Some o)) ≡ mutex_with s.0 (levels_of s.0 (mutex_of (Some owner)) + 1)) }
    ensures slot { IfOk result (λ o. o.slot ≡ s) }
    ensures levels { IfOk result (λ o. HasLevels (mutex_of (Some (Some o)))) }
{
    match owner {
        None => Ok(Owner { slot: s, levels: 1 }),
        Some(o) if o.slot != s => Err(Errno::EBUSY),
        Some(o) if o.levels == MOST_LEVELS => Err(Errno::EAGAIN),
        Some(o) => Ok(Owner {
            slot: s,
            levels: o.levels + 1,
        }),
    }
}

// The owner of an initialised mutex after a slot gave a level of it back.
fn released(owner: Option<Owner>, s: Slot) -> Result<Option<Owner>, Errno>
    requires { HasLevels (mutex_of (Some owner)) }
    ensures refused { IfErr result (λ e. release_answer s.0 (mutex_of (Some owner)) ≡ Err e) }
    ensures answered { OnOk result (release_answer s.0 (mutex_of (Some owner)) ≡ Ok tt) }
    ensures less { IfOk result (λ left. mutex_of (Some left) ≡ mutex_with s.0 (levels_of s.0 (mutex_of (Some owner)) - 1)) }
    ensures slot { IfOk result (λ left. IfSome left (λ o. o.slot ≡ s)) }
    ensures levels { IfOk result (λ left. HasLevels (mutex_of (Some left))) }
{
    match owner {
        None => Err(Errno::EDEADLK),
        Some(o) if o.slot != s => Err(Errno::EACCES),
        Some(o) if o.levels == 1 => Ok(None),
        Some(o) => Ok(Some(Owner {
            slot: s,
            levels: o.levels - 1,
        })),
    }
}

// Each mutex of a set is free.
fn free_each(mutexes: &mut [Mutex], set: u64)
    requires { length mutexes.old ≡ object_limit }
    ensures long { length mutexes.new ≡ object_limit }
    ensures free { table None mutexes.new ≡ changed_in (λ _. Some None) (contains set) (table None mutexes.old) }
{
    let mut left = set;
    while left != 0 {
        let m = first(left);
        mutexes[m] = Some(None);
        left = without(left, m);
    }
}

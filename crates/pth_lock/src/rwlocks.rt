//! Read-write locks.

ghost use Rattle.std.specs.Prelude.{◌≡◌, ◌<◌, ℕ, length, None, IfOk, OnErr, OnOk};
ghost use Rattle.pth_base.specs.Limits.{thread_limit};
ghost use Rattle.pth_base.specs.Table.{table};
ghost use Rattle.pth_lock.specs.Objects.{object_limit, object_named};
ghost use Rattle.pth_lock.specs.Sets.{contains, changed_in};
ghost use Rattle.pth_lock.specs.RwLocks.{tables_of, holds, lock_init_answer, lock_take_answer, lock_release_answer, lock_free_answer, no_locks, lock_initialised, lock_taken, lock_released, locks_left, left_lock, entered, is_open, HasRoom, LocksAreSound};

use crate::objects::{MOST_OBJECTS, find, place_of};
use crate::sets::{SlotSets, first, without};
use pth_base::errno::Errno;
use pth_base::ids::Slot;
use pth_base::memory::OutOfMemory;
use std::alloc::Global;
use std::marker::Model;

// Who holds an initialised lock: so many slots that read, or one that writes.
#[derive(Clone, Copy)]
enum Holders {
    Readers(u16),
    Writer(Slot),
}

// A lock: None where it is not initialised.
type Lock = Option<Holders>;

/// The read-write locks (`pth_rwlock_t`), from 0 to 63, each of which one slot writes under, or any number read. A slot holds a
/// lock once at most. Only `new` takes memory.
#[derive(Drop)]
pub struct RwLocks {
    locks: [Lock; MOST_OBJECTS],
    // By slot the set of the locks that it holds.
    sets: SlotSets,
}

impl Model for RwLocks {
    ghost use Rattle.pth_lock.specs.RwLocks.{LocksOf, LocksAreKept};

    ghost Value = { LocksOf };

    ghost view = { λ a. record { locks = a.locks; sets = a.sets } };

    ghost invariant = { λ a. LocksAreKept (record { locks = a.locks; sets = a.sets }) };
}

impl RwLocks {
    /// No lock is initialised.
    pub fn new(alloc: Global) -> Result<RwLocks, OutOfMemory>
        ensures { IfOk result (λ x. tables_of x ≡ no_locks) }
    {
        let sets = SlotSets::new(alloc)?;
        Ok(RwLocks {
            locks: [None; MOST_OBJECTS],
            sets,
        })
    }

    /// `pth_rwlock_init`: a lock, from 0 to 63, can be taken from now on. EINVAL where there is no such lock, EBUSY where it is
    /// initialised already.
    pub fn init(&mut self, l: i64) -> Result<(), Errno>
        ensures answer { result ≡ lock_init_answer (tables_of self.old) l }
        ensures changes { OnOk result (tables_of self.new ≡ lock_initialised (object_named l) (tables_of self.old)) }
        ensures refused { OnErr result (self.new ≡ self.old) }
    {
        let Some(place) = place_of(l) else {
            return Err(Errno::EINVAL);
        };
        if self.locks[place].is_some() {
            return Err(Errno::EBUSY);
        }
        self.locks[place] = Some(Holders::Readers(0));
        Ok(())
    }

    /// `pth_rwlock_acquire`, where that need not wait: a slot writes under a lock that nobody holds, or reads under one that
    /// nobody writes under. EINVAL where the lock is not initialised, EDEADLK where the slot holds it, EBUSY where the slot may
    /// not enter.
    pub fn try_take(&mut self, l: i64, write: bool, s: Slot) -> Result<(), Errno>
        requires { s.0 < thread_limit }
        ensures answer { result ≡ lock_take_answer (tables_of self.old) s.0 write l }
        ensures changes { OnOk result (tables_of self.new ≡ lock_taken s.0 write (object_named l) (tables_of self.old)) }
        ensures refused { OnErr result (self.new ≡ self.old) }
    {
        let (place, holders) = find(&self.locks, l)?;
        if self.sets.contains(s, place) {
            return Err(Errno::EDEADLK);
        }
        if !is_open(holders, write) {
            return Err(Errno::EBUSY);
        }
        self.locks[place] = Some(entered(holders, write, s));
        self.sets.insert(s, place);
        Ok(())
    }

    /// `pth_rwlock_release`: a slot holds a lock no longer. EINVAL where the lock is not initialised, EDEADLK where nobody holds
    /// it, EACCES where the slot does not.
    pub fn release(&mut self, l: i64, s: Slot) -> Result<(), Errno>
        requires { s.0 < thread_limit }
        ensures answer { result ≡ lock_release_answer (tables_of self.old) s.0 l }
        ensures changes { OnOk result (tables_of self.new ≡ lock_released s.0 (object_named l) (tables_of self.old)) }
        ensures refused { OnErr result (self.new ≡ self.old) }
    {
        let (place, holders) = find(&self.locks, l)?;
        if is_open(holders, true) {
            return Err(Errno::EDEADLK);
        }
        if !self.sets.contains(s, place) {
            return Err(Errno::EACCES);
        }
        self.locks[place] = left(Some(holders));
        self.sets.remove(s, place);
        Ok(())
    }

    /// A slot holds no lock any longer, as a thread that ends leaves them. The answer is the set of those that it held, of which
    /// bit l stands for lock l. Only these locks are looked at.
    pub fn release_all(&mut self, s: Slot) -> u64
        requires { s.0 < thread_limit }
        ensures held { (l : ℕ) → contains result l ≡ holds (tables_of self.old) s.0 l }
        ensures changes { tables_of self.new ≡ locks_left s.0 (tables_of self.old) }
    {
        let set = self.sets.take(s);
        leave_each(&mut self.locks, set);
        set
    }

    /// Whether a slot that does not hold a lock may enter, to write or to read. EINVAL where the lock is not initialised.
    pub fn is_free(&self, l: i64, write: bool) -> Result<bool, Errno>
        ensures answer { result ≡ lock_free_answer (tables_of self.now) write l }
        ensures sound { LocksAreSound (tables_of self.now) }
    {
        let (_, holders) = find(&self.locks, l)?;
        Ok(is_open(holders, write))
    }
}

// Whether one more slot may enter, to write or to read.
fn is_open(holders: Holders, write: bool) -> bool
    ensures { result ≡ is_open holders write }
{
    match holders {
        Holders::Readers(count) => count == 0 || !write,
        Holders::Writer(_) => false,
    }
}

// The holders after one more slot entered, to write or to read.
fn entered(holders: Holders, write: bool, s: Slot) -> Holders
    requires { HasRoom holders }
    ensures { result ≡ entered holders write s }
{
    match holders {
        Holders::Readers(count) if !write => Holders::Readers(count + 1),
        _ => Holders::Writer(s),
    }
}

// The lock after a holder left.
fn left(lock: Lock) -> Lock
    ensures { result ≡ left_lock lock }
{
    match lock {
        Some(Holders::Readers(count)) => Some(Holders::Readers(count.saturating_sub(1))),
        Some(Holders::Writer(_)) => Some(Holders::Readers(0)),
        None => None,
    }
}

// Each lock of a set has one holder less.
fn leave_each(locks: &mut [Lock], set: u64)
    requires { length locks.old ≡ object_limit }
    ensures long { length locks.new ≡ object_limit }
    ensures left { table None locks.new ≡ changed_in left_lock (contains set) (table None locks.old) }
{
    let mut rest = set;
    while rest != 0 {
        let l = first(rest);
        locks[l] = left(locks[l]);
        rest = without(rest, l);
    }
}

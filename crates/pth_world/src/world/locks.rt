//! What threads lock: mutexes and read-write locks.

ghost use Rattle.std.specs.Prelude.{◌≡◌, ◌<◌, ℕ, OnOk, OnErr, is_ok};
ghost use Rattle.pth_lock.specs.Mutexes.{has, mutex_free_answer, mutex_init_answer, mutex_initialised, mutex_release_answer, mutex_released, mutex_take_answer, mutex_taken, mutexes_left};
ghost use Rattle.pth_lock.specs.Objects.{object_limit, object_named};
ghost use Rattle.pth_lock.specs.RwLocks.{holds, lock_free_answer, lock_init_answer, lock_initialised, lock_release_answer, lock_released, lock_take_answer, lock_taken, locks_left};
ghost use Rattle.pth_lock.specs.Sets.{contains};
ghost use Rattle.pth_model.specs.Store.{with_mutexes, with_rw_locks};
ghost use Rattle.pth_world.specs.Keeps.{KeepsAllButStore};
ghost use Rattle.pth_world.specs.Sound.{IsSound, IsKnown, IsAlive};
ghost use Rattle.pth_world.specs.Store.{owner_answer, store_of};
ghost use Rattle.pth_world.specs.WellFormed.{WellFormed};

use crate::world::World;
use pth_base::errno::Errno;
use pth_base::ids::Tid;
use pth_base::program::Program;

impl<P: Program> World<P> {
    /// A mutex can be taken from now on (`pth_mutex_init`): EINVAL where it is not one from 0 to 63, EBUSY where it is initialised.
    pub fn init_mutex(&mut self, m: i64) -> Result<(), Errno>
        ensures answer { result ≡ mutex_init_answer (store_of self.old.store).mutexes m }
        ensures changes { OnOk result (store_of self.new.store ≡ with_mutexes (mutex_initialised (object_named m)) (store_of self.old.store)) }
        ensures refused { OnErr result (self.new ≡ self.old) }
        ensures keeps { KeepsAllButStore self.old self.new }
    {
        self.mutexes.init(m)
    }

    /// A thread has one level more of a mutex that is free or its own (`pth_mutex_acquire`): EINVAL where it is not initialised, EAGAIN
    /// where the thread has 65,535 levels of it, EBUSY where another has it.
    pub fn take_mutex(&mut self, t: Tid, m: i64) -> Result<(), Errno>
        requires sound { IsSound self.old.threads }
        requires alive { IsAlive self.old.threads t.0 }
        ensures answer { result ≡ mutex_take_answer (store_of self.old.store).mutexes t.0 m }
        ensures changes { OnOk result (store_of self.new.store ≡ with_mutexes (mutex_taken t.0 (object_named m)) (store_of self.old.store)) }
        ensures object { OnOk result (object_named m < object_limit) }
        ensures refused { OnErr result (self.new ≡ self.old) }
        ensures keeps { KeepsAllButStore self.old self.new }
    {
        let slot = self.slot(t);
        self.mutexes.try_take(m, slot)
    }

    /// A thread has one level less of a mutex (`pth_mutex_release`): EINVAL where it is not initialised, EDEADLK where nobody has it,
    /// EACCES where another has it.
    pub fn release_mutex(&mut self, t: Tid, m: i64) -> Result<(), Errno>
        requires sound { IsSound self.old.threads }
        requires alive { IsAlive self.old.threads t.0 }
        ensures answer { result ≡ mutex_release_answer (store_of self.old.store).mutexes t.0 m }
        ensures changes { OnOk result (store_of self.new.store ≡ with_mutexes (mutex_released t.0 (object_named m)) (store_of self.old.store)) }
        ensures refused { OnErr result (self.new ≡ self.old) }
        ensures keeps { KeepsAllButStore self.old self.new }
    {
        let slot = self.slot(t);
        self.mutexes.release(m, slot)
    }

    /// A thread has no mutex any more. The answer is the set of those that it had, of which bit m stands for mutex m.
    pub fn release_mutexes(&mut self, t: Tid) -> u64
        requires sound { IsSound self.old.threads }
        requires alive { IsAlive self.old.threads t.0 }
        ensures had { (m : ℕ) → contains result m ≡ has t.0 ((store_of self.old.store).mutexes m) }
        ensures changes { store_of self.new.store ≡ with_mutexes (mutexes_left t.0) (store_of self.old.store) }
        ensures keeps { KeepsAllButStore self.old self.new }
    {
        let slot = self.slot(t);
        self.mutexes.release_all(slot)
    }

    /// Whether nobody has a mutex: EINVAL where it is not initialised.
    pub fn is_mutex_free(&self, m: i64) -> Result<bool, Errno>
        ensures { result ≡ mutex_free_answer (store_of self.now.store).mutexes m }
    {
        self.mutexes.is_free(m)
    }

    /// Whether a thread can take one level more of a mutex.
    pub fn can_take_mutex(&self, t: Tid, m: i64) -> bool
        requires sound { IsSound self.now.threads }
        requires known { IsKnown self.now.threads t.0 }
        ensures { result ≡ is_ok (mutex_take_answer (store_of self.now.store).mutexes t.0 m) }
    {
        self.mutexes.may_take(m, self.slot(t))
    }

    /// What a thread would be answered as it gives back one level of a mutex: EINVAL where it is not initialised, EDEADLK where nobody
    /// has it, EACCES where another has it.
    pub fn mutex_release_answer(&self, t: Tid, m: i64) -> Result<(), Errno>
        requires sound { IsSound self.now.threads }
        requires known { IsKnown self.now.threads t.0 }
        ensures { result ≡ mutex_release_answer (store_of self.now.store).mutexes t.0 m }
    {
        self.mutexes.release_answer(m, self.slot(t))
    }

    /// Who has a mutex, None if it is free: EINVAL if it is not initialised.
    pub fn mutex_owner(&self, m: i64) -> Result<Option<Tid>, Errno>
        requires { WellFormed self.now }
        ensures { result ≡ owner_answer (store_of self.now.store).mutexes m }
    {
        match self.mutexes.owner(m) {
            Ok(Some(slot)) => Ok(Some(self.thread_in(slot))),
            Ok(None) => Ok(None),
            Err(errno) => Err(errno),
        }
    }

    /// A read-write lock can be taken from now on (`pth_rwlock_init`): EINVAL where it is not one from 0 to 63, EBUSY where it is
    /// initialised.
    pub fn init_lock(&mut self, l: i64) -> Result<(), Errno>
        ensures answer { result ≡ lock_init_answer (store_of self.old.store).rw_locks l }
        ensures changes { OnOk result (store_of self.new.store ≡ with_rw_locks (lock_initialised (object_named l)) (store_of self.old.store)) }
        ensures refused { OnErr result (self.new ≡ self.old) }
        ensures keeps { KeepsAllButStore self.old self.new }
    {
        self.rw_locks.init(l)
    }

    /// A thread writes under a lock that nobody holds, or reads under one under which nobody writes (`pth_rwlock_acquire`): EINVAL
    /// where it is not initialised, EDEADLK where the thread holds it, EBUSY where it may not enter.
    pub fn take_lock(&mut self, t: Tid, l: i64, write: bool) -> Result<(), Errno>
        requires sound { IsSound self.old.threads }
        requires alive { IsAlive self.old.threads t.0 }
        ensures answer { result ≡ lock_take_answer (store_of self.old.store).rw_locks t.0 write l }
        ensures changes { OnOk result (store_of self.new.store ≡ with_rw_locks (lock_taken t.0 write (object_named l)) (store_of self.old.store)) }
        ensures refused { OnErr result (self.new ≡ self.old) }
        ensures keeps { KeepsAllButStore self.old self.new }
    {
        let slot = self.slot(t);
        self.rw_locks.try_take(l, write, slot)
    }

    /// A thread holds a lock no longer (`pth_rwlock_release`): EINVAL where it is not initialised, EDEADLK where nobody holds it,
    /// EACCES where the thread does not.
    pub fn release_lock(&mut self, t: Tid, l: i64) -> Result<(), Errno>
        requires sound { IsSound self.old.threads }
        requires alive { IsAlive self.old.threads t.0 }
        ensures answer { result ≡ lock_release_answer (store_of self.old.store).rw_locks t.0 l }
        ensures changes { OnOk result (store_of self.new.store ≡ with_rw_locks (lock_released t.0 (object_named l)) (store_of self.old.store)) }
        ensures refused { OnErr result (self.new ≡ self.old) }
        ensures keeps { KeepsAllButStore self.old self.new }
    {
        let slot = self.slot(t);
        self.rw_locks.release(l, slot)
    }

    /// A thread holds no lock any more. The answer is the set of those that it held, of which bit l stands for lock l.
    pub fn release_locks(&mut self, t: Tid) -> u64
        requires sound { IsSound self.old.threads }
        requires alive { IsAlive self.old.threads t.0 }
        ensures held { (l : ℕ) → contains result l ≡ holds (store_of self.old.store).rw_locks t.0 l }
        ensures changes { store_of self.new.store ≡ with_rw_locks (locks_left t.0) (store_of self.old.store) }
        ensures keeps { KeepsAllButStore self.old self.new }
    {
        let slot = self.slot(t);
        self.rw_locks.release_all(slot)
    }

    /// Whether who does not hold a lock may enter, to write or to read: EINVAL where it is not initialised.
    pub fn is_lock_open(&self, l: i64, write: bool) -> Result<bool, Errno>
        ensures { result ≡ lock_free_answer (store_of self.now.store).rw_locks write l }
    {
        self.rw_locks.is_free(l, write)
    }
}

//! What threads have stored: cleanup handlers, and values under keys.

ghost use Rattle.std.specs.Prelude.{◌≡◌, ◌≤◌, true, pos, length, OnOk, OnErr, IfOk};
ghost use Rattle.pth_model.specs.Resources.{store_without};
ghost use Rattle.pth_model.specs.Store.{with_cleanups, with_keys};
ghost use Rattle.pth_store.specs.Cleanups.{below_top_answer, cleanup_limit, pop_answer, push_answer, top_taken, with_top};
ghost use Rattle.pth_store.specs.Keys.{created, deleted, first_live, key_create_answer, key_delete_answer, key_get_answer, key_named, key_set_answer, with_key_value};
ghost use Rattle.pth_store.specs.Storing.{AnswersWithMemory};
ghost use Rattle.pth_world.specs.Keeps.{KeepsAllButStore};
ghost use Rattle.pth_world.specs.Sound.{IsSound, IsKnown, IsAlive};
ghost use Rattle.pth_world.specs.Store.{store_of, HasNothing};

use crate::world::World;
use pth_base::errno::Errno;
use pth_base::ids::{HandlerId, Tid};
use pth_base::program::Program;
use pth_base::refusal::Refusal;

impl<P: Program> World<P> {
    /// A handler with its argument comes on top of the handlers of a thread (`pth_cleanup_push`): EAGAIN where it has 256.
    pub fn push_cleanup(&mut self, t: Tid, h: HandlerId, arg: i64) -> Result<(), Refusal>
        requires sound { IsSound self.old.threads }
        requires alive { IsAlive self.old.threads t.0 }
        ensures answer { AnswersWithMemory (push_answer (store_of self.old.store).cleanups t.0) result }
        ensures changes { OnOk result (store_of self.new.store ≡ with_cleanups (with_top t.0 (h, arg)) (store_of self.old.store)) }
        ensures refused { OnErr result (self.new ≡ self.old) }
        ensures keeps { KeepsAllButStore self.old self.new }
    {
        let slot = self.slot(t);
        self.cleanups.push(slot, h, arg)
    }

    /// Takes the handler on top of those of a thread, with its argument (`pth_cleanup_pop`); none where it has none.
    pub fn pop_cleanup(&mut self, t: Tid) -> Option<(HandlerId, i64)>
        requires sound { IsSound self.old.threads }
        requires known { IsKnown self.old.threads t.0 }
        ensures answer { result ≡ pop_answer (store_of self.old.store).cleanups t.0 }
        ensures changes { store_of self.new.store ≡ with_cleanups (top_taken t.0) (store_of self.old.store) }
        ensures keeps { KeepsAllButStore self.old self.new }
    {
        let slot = self.slot(t);
        self.cleanups.pop(slot)
    }

    /// The handler that stands `n` below the top of those of a thread, with its argument: 0 is the top itself. None where no
    /// more than `n` stand there.
    pub fn cleanup_below(&self, t: Tid, n: u32) -> Option<(HandlerId, i64)>
        requires { IsKnown self.now.threads t.0 }
        ensures answer { result ≡ below_top_answer (store_of self.now.store).cleanups t.0 n }
        ensures few { length ((store_of self.now.store).cleanups t.0) ≤ cleanup_limit }
    {
        let slot = self.slot(t);
        self.cleanups.below_top(slot, n)
    }

    /// A thread has nothing any more: no handler, under each key 0, no mutex and no lock.
    pub fn forget(&mut self, t: Tid)
        requires sound { IsSound self.old.threads }
        requires known { IsKnown self.old.threads t.0 }
        ensures changes { store_of self.new.store ≡ store_without t.0 (store_of self.old.store) }
        ensures nothing { HasNothing (store_of self.new.store) t.0 }
        ensures keeps { KeepsAllButStore self.old self.new }
    {
        let slot = self.slot(t);
        self.keys.forget(slot);
        self.cleanups.forget(slot);
        self.mutexes.release_all(slot);
        self.rw_locks.release_all(slot);
    }

    /// The least free key is live from now on, with a destructor or none, and each thread's value under it is 0
    /// (`pth_key_create`): EAGAIN where all 256 are live.
    pub fn create_key(&mut self, h: Option<HandlerId>) -> Result<u8, Errno>
        ensures answer { result ≡ key_create_answer (store_of self.old.store).keys }
        ensures changes { IfOk result (λ k. store_of self.new.store ≡ with_keys (created k h) (store_of self.old.store)) }
        ensures refused { OnErr result (self.new ≡ self.old) }
        ensures keeps { KeepsAllButStore self.old self.new }
    {
        self.keys.create(h)
    }

    /// A key is free from now on, and each thread's value under it is 0 (`pth_key_delete`): ENOENT where it is not live.
    pub fn delete_key(&mut self, k: i64) -> Result<(), Errno>
        ensures answer { result ≡ key_delete_answer (store_of self.old.store).keys k }
        ensures changes { OnOk result (store_of self.new.store ≡ with_keys (deleted (key_named k)) (store_of self.old.store)) }
        ensures refused { OnErr result (self.new ≡ self.old) }
        ensures keeps { KeepsAllButStore self.old self.new }
    {
        self.keys.delete(k)
    }

    /// Sets a thread's value under a key (`pth_key_setdata`): ENOENT where the key is not live.
    pub fn set_key(&mut self, t: Tid, k: i64, v: i64) -> Result<(), Refusal>
        requires sound { IsSound self.old.threads }
        requires alive { IsAlive self.old.threads t.0 }
        ensures answer { AnswersWithMemory (key_set_answer (store_of self.old.store).keys k) result }
        ensures changes { OnOk result (store_of self.new.store ≡ with_keys (with_key_value t.0 (key_named k) v) (store_of self.old.store)) }
        ensures refused { OnErr result (self.new ≡ self.old) }
        ensures keeps { KeepsAllButStore self.old self.new }
    {
        let slot = self.slot(t);
        self.keys.set(slot, k, v)
    }

    /// A thread's value under a key (`pth_key_getdata`): ENOENT where the key is not live.
    pub fn key_value(&self, t: Tid, k: i64) -> Result<i64, Errno>
        requires { IsKnown self.now.threads t.0 }
        ensures { result ≡ key_get_answer (store_of self.now.store).keys t.0 k }
    {
        let slot = self.slot(t);
        self.keys.get(slot, k)
    }

    /// The first key from a number on that has a destructor and under which a thread has a value that is not 0, with both: what
    /// a thread that ends runs next. None where there is no such key.
    pub fn first_owed(&self, t: Tid, from: u16) -> Option<(u8, HandlerId, i64)>
        requires { IsKnown self.now.threads t.0 }
        ensures { result ≡ first_live (store_of self.now.store).keys t.0 from }
    {
        let slot = self.slot(t);
        self.keys.first_live(slot, from)
    }

    /// A thread's value under a key is 0 from now on, as it is while its destructor runs.
    pub fn clear_key(&mut self, t: Tid, k: u8)
        requires sound { IsSound self.old.threads }
        requires alive { IsAlive self.old.threads t.0 }
        ensures changes { store_of self.new.store ≡ with_keys (with_key_value t.0 k (pos 0)) (store_of self.old.store) }
        ensures keeps { KeepsAllButStore self.old self.new }
    {
        let slot = self.slot(t);
        self.keys.unset(slot, k);
    }
}

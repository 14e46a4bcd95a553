//! The attribute objects, by their numbers.
//!
//! The answers are defined next to the objects, and rows take them as verdicts, so each order of refusals is written once.

ghost use Rattle.std.specs.Prelude.{◌≡◌, ◌≢◌, ◌<◌, ◌≤◌, Some, None, OnOk, OnErr, IfSome, IfNone, option_copied};
ghost use Rattle.pth_base.specs.Limits.{last_count, IsGreatestPriority};
ghost use Rattle.pth_numbered.specs.Numbered.{number_at, thing_at, IsKept};
ghost use Rattle.pth_numbered.specs.Operands.{number, named};
ghost use Rattle.pth_threads.specs.Attributes.{object_of, known_of, first_values, create_answer, of_answer, init_answer, set_answer, get_answer, destroy_answer, values_answer, Answers, MakesObject, Exchanges, Drops, Sets, SetsThread, MayStand, AreSet, AreKept};
ghost use Rattle.pth_threads.specs.declared.attribute.Attribute.TheVariants as object;
ghost use Rattle.pth_threads.specs.declared.entry.NewThread.{NewThread};

use crate::attribute::{Attribute, copied_values, new_values, thread_values};
use crate::entry::{AddErr, Entry, NewThread};
use crate::fields::{change_by, check, set_value, thread_field, values_field};
use crate::threads::Threads;
pub use pth_base::attr::{AttrField, AttrValue};
use pth_base::errno::Errno;
use pth_base::ids::{AttrId, Slot, Tid};
use pth_base::refusal::Refusal;
use pth_numbered::numbered::Numbered;
use std::alloc::Global;
use std::marker::Model;

/// How many attribute objects there may be at once.
pub const MOST_ATTRS: u32 = 4096;

/// The attribute objects (`pth_attr_t`), numbered upwards from 1. No number is used again.
pub struct Attrs {
    objects: Numbered<Attribute>,
    // The greatest base priority that can be set.
    top: u8,
}

impl Model for Attrs {
    ghost use Rattle.pth_threads.specs.Attributes.{AttrsOf, AreKept};

    ghost Value = { AttrsOf };

    ghost view = { λ a. record { objects = a.objects; top = a.top } };

    ghost invariant = { λ a. AreKept (record { objects = a.objects; top = a.top }) };
}

// By hand, so that letting one go is one call in each proof.
impl Drop for Attrs {
    fn drop(self) {
        let Attrs { objects: _, top: _ } = self;
    }
}

impl Attrs {
    /// No objects, which takes no memory. Base priorities can be set from `-top` to `top`, the
    /// greatest, which is from 5 to 20.
    pub fn new(alloc: Global, top: u8) -> Attrs
        requires { IsGreatestPriority top }
        ensures objects { object_of result ≡ (λ _. None) }
        ensures made { result.objects.made ≡ 0 }
        ensures top { result.top ≡ top }
    {
        Attrs {
            objects: Numbered::new(alloc, MOST_ATTRS),
            top,
        }
    }

    // The slot of the object that an operand names.
    fn find(&self, a: i64) -> Option<Slot>
        ensures none { IfNone result (named (object_of self.now) a ≡ None) }
        ensures some { IfSome result (λ s. named (object_of self.now) a ≡ thing_at self.now.objects s.0) }
        ensures used { IfSome result (λ s. number_at self.now.objects s.0 ≢ 0) }
        ensures named { IfSome result (λ s. number_at self.now.objects s.0 ≡ number a) }
        ensures kept { IsKept self.now.objects }
        ensures allowed { AreKept self.now }
    {
        let made = self.objects.made();
        if a < 0 || a > made as i64 {
            return None;
        }
        self.objects.find(a as u32)
    }

    // The object at a slot.
    fn at(&self, s: Slot) -> &Attribute
        requires { number_at self.now.objects s.0 ≢ 0 }
        ensures { thing_at self.now.objects s.0 ≡ Some result.now }
    {
        self.objects.get(s)
    }

    // The object that an operand names.
    fn object(&self, a: i64) -> Option<&Attribute>
        ensures object { option_copied result ≡ named (object_of self.now) a }
        ensures allowed { (x : NewThread) → named (object_of self.now) a ≡ Some (object.Free x) → AreSet self.now.top x }
        ensures range { IsGreatestPriority self.now.top }
    {
        match self.find(a) {
            Some(slot) => Some(self.at(slot)),
            None => None,
        }
    }

    // One more object.
    fn add(&mut self, object: Attribute) -> Result<AttrId, Refusal>
        requires few { self.old.objects.made < 4294967295 }
        requires allowed { MayStand self.old.top object }
        ensures answer { Answers (create_answer (object_of self.old) self.old.objects.made) result }
        ensures makes { OnOk result (MakesObject self.old self.new object) }
        ensures refused { OnErr result (self.new ≡ self.old) }
    {
        match self.objects.add(object) {
            Ok((number, _)) => Ok(AttrId(number)),
            Err(AddErr::TooMany) => Err(Refusal::Fail(Errno::EAGAIN)),
            Err(AddErr::OutOfMemory) => Err(Refusal::OutOfMemory),
        }
    }

    // Another object at a slot in use.
    fn exchange(&mut self, s: Slot, object: Attribute)
        requires used { number_at self.old.objects s.0 ≢ 0 }
        requires kept { IsKept self.old.objects }
        requires allowed { MayStand self.old.top object }
        ensures { Exchanges self.old self.new (number_at self.old.objects s.0) object }
    {
        *self.objects.get_mut(s) = object;
    }

    /// `pth_attr_new`: an object with the first values, which has the next number. EAGAIN where there are 4096.
    pub fn create(&mut self) -> Result<AttrId, Refusal>
        requires { self.old.objects.made < 4294967295 }
        ensures answer { Answers (create_answer (object_of self.old) self.old.objects.made) result }
        ensures makes { OnOk result (MakesObject self.old self.new (object.Free first_values)) }
        ensures refused { OnErr result (self.new ≡ self.old) }
    {
        self.add(Attribute::Free(new_values()))
    }

    /// `pth_attr_of`: an object that is bound to a thread, with the next number. ESRCH where no thread has the number, and
    /// EAGAIN where there are 4096 objects.
    pub fn of(&mut self, t: Tid, threads: &Threads) -> Result<AttrId, Refusal>
        requires { self.old.objects.made < 4294967295 }
        ensures answer { Answers (of_answer (known_of threads.now t.0) (object_of self.old) self.old.objects.made) result }
        ensures makes { OnOk result (MakesObject self.old self.new (object.Bound t)) }
        ensures refused { OnErr result (self.new ≡ self.old) }
    {
        match known(threads, t) {
            Some(_) => self.add(Attribute::Bound(t)),
            None => Err(Refusal::Fail(Errno::ESRCH)),
        }
    }

    /// `pth_attr_init`: an object has the first values again. EINVAL where there is no such object, and EPERM where it is
    /// bound to a thread, which may be gone.
    pub fn init(&mut self, a: i64) -> Result<(), Errno>
        ensures answer { result ≡ init_answer (named (object_of self.old) a) }
        ensures changes { OnOk result (Exchanges self.old self.new (number a) (object.Free first_values)) }
        ensures refused { OnErr result (self.new ≡ self.old) }
    {
        let Some(slot) = self.find(a) else {
            return Err(Errno::EINVAL);
        };
        if let Attribute::Bound(_) = self.at(slot) {
            return Err(Errno::EPERM);
        }
        self.exchange(slot, Attribute::Free(new_values()));
        Ok(())
    }

    /// `pth_attr_set`: sets a field of an object, or of the thread to which it is bound. EINVAL where there is no such object,
    /// ESRCH where its thread is gone, EPERM for the dispatches, the state and whether it is bound, and EINVAL for a value
    /// out of range.
    pub fn set(&mut self, a: i64, v: &AttrValue, threads: &mut Threads) -> Result<(), Errno>
        ensures answer { result ≡ set_answer self.old.top (known_of threads.old) (named (object_of self.old) a) v.now }
        ensures changes { OnOk result (Sets self.old self.new threads.old threads.new (number a) v.now (named (object_of self.old) a)) }
        ensures refused { OnErr result ((self.new ≡ self.old) × (threads.new ≡ threads.old)) }
    {
        let Some(slot) = self.find(a) else {
            return Err(Errno::EINVAL);
        };
        match self.at(slot) {
            Attribute::Bound(t) => set_of_thread(threads, *t, v, self.top),
            Attribute::Free(values) => match check(v, self.top) {
                Err(e) => Err(e),
                Ok(()) => {
                    let values = set_value(values, v);
                    self.exchange(slot, Attribute::Free(values));
                    Ok(())
                }
            },
        }
    }

    /// `pth_attr_get`: a field of an object, or of the thread to which it is bound. EINVAL where there is no such object, ESRCH
    /// where its thread is gone, and EINVAL for the dispatches and the state of an object that is not bound.
    pub fn get(&self, a: i64, f: AttrField, threads: &Threads) -> Result<AttrValue, Errno>
        ensures { result ≡ get_answer (known_of threads.now) (named (object_of self.now) a) f }
    {
        match self.object(a) {
            None => Err(Errno::EINVAL),
            Some(Attribute::Free(values)) => values_field(values, f),
            Some(Attribute::Bound(t)) => match known(threads, *t) {
                Some(entry) => Ok(thread_field(entry, f)),
                None => Err(Errno::ESRCH),
            },
        }
    }

    /// `pth_attr_destroy`: an object is gone, and its number names none from now on. EINVAL where there is no such object.
    pub fn destroy(&mut self, a: i64) -> Result<(), Errno>
        ensures answer { result ≡ destroy_answer (named (object_of self.old) a) }
        ensures changes { OnOk result (Drops self.old self.new (number a)) }
        ensures refused { OnErr result (self.new ≡ self.old) }
    {
        let Some(slot) = self.find(a) else {
            return Err(Errno::EINVAL);
        };
        self.objects.remove(slot);
        Ok(())
    }

    /// What an object gives a new thread (`pth_spawn`): its own values, or those of the thread to which it is bound. EINVAL
    /// where there is no such object, and ESRCH where its thread is gone.
    pub fn values(&self, a: i64, threads: &Threads) -> Result<NewThread, Errno>
        ensures answer { result ≡ values_answer (known_of threads.now) (named (object_of self.now) a) }
        ensures allowed { (x : NewThread) → named (object_of self.now) a ≡ Some (object.Free x) → AreSet self.now.top x }
        ensures range { IsGreatestPriority self.now.top }
    {
        match self.object(a) {
            None => Err(Errno::EINVAL),
            Some(Attribute::Free(values)) => Ok(copied_values(values)),
            Some(Attribute::Bound(t)) => match known(threads, *t) {
                Some(entry) => Ok(thread_values(entry)),
                None => Err(Errno::ESRCH),
            },
        }
    }
}

// The record of a thread.
fn known(threads: &Threads, t: Tid) -> Option<&Entry>
    ensures entry { option_copied result ≡ known_of threads.now t.0 }
    ensures dispatches { IfSome result (λ e. e.now.dispatches ≤ last_count) }
{
    match threads.find(t) {
        Some(slot) => Some(threads.get(slot)),
        None => None,
    }
}

// Sets a field of a thread.
fn set_of_thread(threads: &mut Threads, t: Tid, v: &AttrValue, top: u8) -> Result<(), Errno>
    ensures answer { result ≡ set_answer top (known_of threads.old) (Some (object.Bound t)) v.now }
    ensures changes { OnOk result (SetsThread top threads.old threads.new t.0 v.now) }
    ensures refused { OnErr result (threads.new ≡ threads.old) }
{
    let Some(slot) = threads.find(t) else {
        return Err(Errno::ESRCH);
    };
    match check(v, top) {
        Err(e) => Err(e),
        Ok(()) => {
            threads.change(slot, change_by(v));
            Ok(())
        }
    }
}

//! The keys that are live, and the values that threads have under keys.

ghost use Rattle.std.specs.Prelude.{◌≡◌, ◌==◌, ◌&&◌, ◌+◌, nat_lt, ℕ, ℤ, pos, if◌then◌else◌, Some, None, OnOk};
ghost use Rattle.std.specs.Ordering.{int_cmp};
ghost use Rattle.std.specs.BTreeMap.{get, IsOrdered};
ghost use Rattle.pth_base.specs.declared.mark.Mark.TheVariants as mark;
ghost use Rattle.pth_model.specs.Resources.{destructor_by};
ghost use Rattle.pth_laws.specs.Marks.{is_same};
ghost use Rattle.pth_laws.specs.Orderly.{key_after, value_after, is_later};
ghost use Rattle.pth_audit.specs.Endings.{value_in, owed_by, first_owed, due_in, next_in};

use crate::handlers::handler_named;
use pth_base::act::Act;
use pth_base::answer::Answer;
use pth_base::call::Call;
use pth_base::ids::{HandlerId, Tid};
use pth_base::mark::Mark;
use pth_base::memory::OutOfMemory;
use std::alloc::Global;
use std::collections::BTreeMap;

/// The keys that are live, with their destructors, and the values that are not 0, by key and thread.
#[derive(Drop)]
pub(crate) struct Values {
    keys: BTreeMap<i64, Option<HandlerId>>,
    values: BTreeMap<(i64, u32), i64>,
}

// How many rounds of destructors a thread's end may have.
const MOST_ROUNDS: u8 = 4;

/// A destructor that is next: its key, the thread's value, and how many rounds have begun then.
#[derive(Clone, Copy)]
pub(crate) struct Due {
    pub key: i64,
    pub value: i64,
    pub rounds: u8,
}

impl Values {
    /// No key is live, and all values are 0.
    pub(crate) fn new(alloc: Global) -> Values
        ensures keys { (key : ℤ) → get int_cmp result.keys key ≡ None }
        ensures values { (t : ℕ) (key : ℤ) → value_in result.values t key ≡ pos 0 }
        ensures ordered { IsOrdered int_cmp result.keys }
    {
        Values {
            keys: BTreeMap::new(alloc),
            values: BTreeMap::new(alloc),
        }
    }

    /// After a mark.
    pub(crate) fn add(&mut self, mark: &Mark) -> Result<(), OutOfMemory>
        ensures keys { OnOk result ((key : ℤ) → get int_cmp self.new.keys key
            ≡ key_after key (get int_cmp self.old.keys key) mark.now) }
        ensures values { OnOk result ((t : ℕ) (key : ℤ) → value_in self.new.values t key
            ≡ value_after t key (value_in self.old.values t key) mark.now) }
        ensures ordered { OnOk result (IsOrdered int_cmp self.old.keys → IsOrdered int_cmp self.new.keys) }
    {
        match mark {
            Mark::Answered { tid, call, answer } => self.answered(*tid, call, answer),
            Mark::Acted { tid, act, answer } => self.acted(*tid, *act, answer),
            Mark::Destructor { tid, key, .. } => {
                unset(&mut self.values, *tid, i64::from(*key));
                Ok(())
            }
            Mark::Ended { tid, .. } => {
                forget_thread(&mut self.values, *tid);
                Ok(())
            }
            _ => Ok(()),
        }
    }

    /// The destructor of a thread that is next, after so many rounds have begun and this was the last key of the round.
    pub(crate) fn next(&self, t: Tid, rounds: u8, last: Option<i64>) -> Option<Due>
        ensures { result ≡ next_in self.now t.0 (record { rounds = rounds; last = last }) }
    {
        match self.first_owed(t, last) {
            Some((key, value)) => Some(Due { key, value, rounds }),
            None => self.next_round(t, rounds),
        }
    }

    // The first one of one more round, if that may begin.
    fn next_round(&self, t: Tid, rounds: u8) -> Option<Due>
        ensures { result ≡ (if nat_lt rounds 4
            then due_in (rounds + 1) (first_owed (value_in self.now.values t.0) None self.now.keys.entries)
            else None) }
    {
        if rounds < MOST_ROUNDS {
            let (key, value) = self.first_owed(t, None)?;
            return Some(Due {
                key,
                value,
                rounds: rounds + 1,
            });
        }
        None
    }

    // The least key after the last one that owes a thread its destructor, with the value.
    fn first_owed(&self, t: Tid, last: Option<i64>) -> Option<(i64, i64)>
        ensures { result ≡ first_owed (value_in self.now.values t.0) last self.now.keys.entries }
    {
        for (key, destructor) in &self.keys {
            if let Some(value) = owed_by(last, *key, *destructor, self.value(t, *key)) {
                return Some((*key, value));
            }
        }
        None
    }

    // A thread's value under a key, 0 if it has none.
    fn value(&self, t: Tid, key: i64) -> i64
        ensures { result ≡ value_in self.now.values t.0 key }
    {
        value_at(&self.values, &(key, t.0))
    }

    // A call is answered.
    fn answered(&mut self, t: Tid, call: &Call, answer: &Answer) -> Result<(), OutOfMemory>
        ensures keys { OnOk result ((key : ℤ) → get int_cmp self.new.keys key
            ≡ key_after key (get int_cmp self.old.keys key) (mark.Answered t call.now answer.now)) }
        ensures values { OnOk result ((u : ℕ) (key : ℤ) → value_in self.new.values u key
            ≡ value_after u key (value_in self.old.values u key) (mark.Answered t call.now answer.now)) }
        ensures ordered { OnOk result (IsOrdered int_cmp self.old.keys → IsOrdered int_cmp self.new.keys) }
    {
        match (call, answer) {
            (Call::KeyCreate(h), Answer::Int(k)) => self.create(*k, destructor_named(*h)),
            (Call::KeyDelete(k), Answer::Int(1)) => {
                self.delete(*k);
                Ok(())
            }
            (Call::KeySet { k, v }, Answer::Int(1)) => set(&mut self.values, t, *k, *v),
            _ => Ok(()),
        }
    }

    // A handler made an act.
    fn acted(&mut self, t: Tid, act: Act, answer: &Answer) -> Result<(), OutOfMemory>
        ensures keys { OnOk result ((key : ℤ) → get int_cmp self.new.keys key
            ≡ key_after key (get int_cmp self.old.keys key) (mark.Acted t act answer.now)) }
        ensures values { OnOk result ((u : ℕ) (key : ℤ) → value_in self.new.values u key
            ≡ value_after u key (value_in self.old.values u key) (mark.Acted t act answer.now)) }
        ensures ordered { OnOk result (IsOrdered int_cmp self.old.keys → IsOrdered int_cmp self.new.keys) }
    {
        match (act, answer) {
            (Act::SetKey(k, v), Answer::Int(1)) => set(&mut self.values, t, k, v),
            _ => Ok(()),
        }
    }

    // A key is live, with this destructor, and all have the value 0 under it.
    fn create(&mut self, k: i64, h: Option<HandlerId>) -> Result<(), OutOfMemory>
        ensures keys { OnOk result ((key : ℤ) → get int_cmp self.new.keys key
            ≡ (if is_same key k then Some h else get int_cmp self.old.keys key)) }
        ensures values { OnOk result ((t : ℕ) (key : ℤ) → value_in self.new.values t key
            ≡ (if is_same key k then pos 0 else value_in self.old.values t key)) }
        ensures ordered { OnOk result (IsOrdered int_cmp self.new.keys) }
    {
        make(&mut self.keys, k, h)?;
        forget_key(&mut self.values, k);
        Ok(())
    }

    // A key is live no more, and all have the value 0 under it.
    fn delete(&mut self, k: i64)
        ensures keys { (key : ℤ) → get int_cmp self.new.keys key
            ≡ (if is_same key k then None else get int_cmp self.old.keys key) }
        ensures values { (t : ℕ) (key : ℤ) → value_in self.new.values t key
            ≡ (if is_same key k then pos 0 else value_in self.old.values t key) }
        ensures ordered { IsOrdered int_cmp self.new.keys }
    {
        end(&mut self.keys, k);
        forget_key(&mut self.values, k);
    }
}

fn value_at(values: &BTreeMap<(i64, u32), i64>, place: &(i64, u32)) -> i64
    ensures { result ≡ value_in values.now place.now.1 place.now.0 }
{
    values.get(place).copied().unwrap_or(0)
}

// What a key owes a thread that has this value under it.
fn owed_by(last: Option<i64>, key: i64, destructor: Option<HandlerId>, value: i64) -> Option<i64>
    ensures { result ≡ owed_by last key destructor value }
{
    if destructor.is_some() && is_later(last, key) && value != 0 {
        return Some(value);
    }
    None
}

// Whether a key comes after the last one.
fn is_later(last: Option<i64>, key: i64) -> bool
    ensures { result ≡ is_later last key }
{
    match last {
        Some(last) => last < key,
        None => true,
    }
}

// The destructor that a `pth_key_create` names, or none.
fn destructor_named(h: Option<i64>) -> Option<HandlerId>
    ensures { result ≡ destructor_by h }
{
    h.map(handler_named)
}

// A key is live, with this destructor.
fn make(
    keys: &mut BTreeMap<i64, Option<HandlerId>>,
    k: i64,
    h: Option<HandlerId>,
) -> Result<(), OutOfMemory>
    ensures keys { OnOk result ((key : ℤ) → get int_cmp keys.new key
        ≡ (if is_same key k then Some h else get int_cmp keys.old key)) }
    ensures ordered { OnOk result (IsOrdered int_cmp keys.new) }
{
    let _old = keys.insert(k, h)?;
    Ok(())
}

// A key is live no more.
fn end(keys: &mut BTreeMap<i64, Option<HandlerId>>, k: i64)
    ensures keys { (key : ℤ) → get int_cmp keys.new key
        ≡ (if is_same key k then None else get int_cmp keys.old key) }
    ensures ordered { IsOrdered int_cmp keys.new }
{
    let _old = keys.remove(&k);
}

// A thread has a value under a key.
fn set(values: &mut BTreeMap<(i64, u32), i64>, t: Tid, k: i64, v: i64) -> Result<(), OutOfMemory>
    ensures { OnOk result ((u : ℕ) (key : ℤ) → value_in values.new u key
        ≡ (if is_same key k && (t.0 == u) then v else value_in values.old u key)) }
{
    if v == 0 {
        unset(values, t, k);
        return Ok(());
    }
    put(values, t, k, v)
}

// The same of a value that is not 0.
fn put(values: &mut BTreeMap<(i64, u32), i64>, t: Tid, k: i64, v: i64) -> Result<(), OutOfMemory>
    ensures { OnOk result ((u : ℕ) (key : ℤ) → value_in values.new u key
        ≡ (if is_same key k && (t.0 == u) then v else value_in values.old u key)) }
{
    put_at(values, (k, t.0), v)
}

fn put_at(
    values: &mut BTreeMap<(i64, u32), i64>,
    place: (i64, u32),
    v: i64,
) -> Result<(), OutOfMemory>
    ensures { OnOk result ((u : ℕ) (key : ℤ) → value_in values.new u key
        ≡ (if is_same key place.0 && (place.1 == u) then v else value_in values.old u key)) }
{
    let _old = values.insert(place, v)?;
    Ok(())
}

// A thread has the value 0 under a key.
fn unset(values: &mut BTreeMap<(i64, u32), i64>, t: Tid, k: i64)
    ensures { (u : ℕ) (key : ℤ) → value_in values.new u key
        ≡ (if is_same key k && (t.0 == u) then pos 0 else value_in values.old u key) }
{
    unset_at(values, &(k, t.0));
}

fn unset_at(values: &mut BTreeMap<(i64, u32), i64>, place: &(i64, u32))
    ensures { (u : ℕ) (key : ℤ) → value_in values.new u key
        ≡ (if is_same key place.now.0 && (place.now.1 == u) then pos 0
        else value_in values.old u key) }
{
    let _old = values.remove(place);
}

// All have the value 0 under a key.
fn forget_key(values: &mut BTreeMap<(i64, u32), i64>, k: i64)
    ensures { (u : ℕ) (key : ℤ) → value_in values.new u key
        ≡ (if is_same key k then pos 0 else value_in values.old u key) }
{
    values.retain(|place, _| place.0 != k);
}

// A thread has the value 0 under all keys.
fn forget_thread(values: &mut BTreeMap<(i64, u32), i64>, t: Tid)
    ensures { (u : ℕ) (key : ℤ) → value_in values.new u key
        ≡ (if t.0 == u then pos 0 else value_in values.old u key) }
{
    values.retain(|place, _| place.1 != t.0);
}

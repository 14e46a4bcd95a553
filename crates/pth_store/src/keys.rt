//! Key-based storage.

ghost use Rattle.std.specs.Prelude.{◌≡◌, ◌<◌, ◌≤◌, ℕ, true, false, pos, length, None, is_some, is_none, position, OnOk, OnErr, IfOk, IfErr, IfSome};
ghost use Rattle.pth_base.specs.Limits.{thread_limit};
ghost use Rattle.pth_base.specs.Table.{put, table};
ghost use Rattle.pth_store.specs.Keys.{key_limit, key_named, owed_for, first_live, key_create_answer, key_delete_answer, key_set_answer, key_get_answer, no_keys, created, deleted, with_key_value, forgotten, value_at_key, tables_of, value_rows};
ghost use Rattle.pth_store.specs.Storing.{AnswersWithMemory};

use pth_base::errno::Errno;
use pth_base::ids::{HandlerId, Slot};
use pth_base::memory::OutOfMemory;
use pth_base::refusal::Refusal;
use std::alloc::Global;
use std::marker::Model;

/// How many keys there may be at once (`PTH_KEY_MAX`).
pub const MOST_KEYS: u16 = 256;

// A key: None where it is free, and else its destructor, if it has one.
type Key = Option<Option<HandlerId>>;

/// The keys of key-based storage (`pth_key_t`), from 0 to 255, and for each slot its value under each key.
pub struct Keys {
    alloc: Global,
    keys: [Key; 256],
    // By slot its values, and those by key. A value that does not stand there is 0.
    rows: Vec<Vec<i64>>,
}

impl Model for Keys {
    ghost use Rattle.pth_store.specs.Keys.{KeysOf, KeysAreKept, value_rows};

    ghost Value = { KeysOf };

    ghost view = { λ a. record { keys = a.keys; rows = value_rows a.rows } };

    ghost invariant = { λ a. KeysAreKept (record { keys = a.keys; rows = value_rows a.rows }) };
}

// By hand, so that letting one go is one call in each proof.
impl Drop for Keys {
    fn drop(self) {
        let Keys {
            alloc: _,
            keys: _,
            rows: _,
        } = self;
    }
}

impl Keys {
    /// All keys are free, and all values 0. It takes no memory.
    pub fn new(alloc: Global) -> Keys
        ensures { tables_of result ≡ no_keys }
    {
        Keys {
            alloc,
            keys: [None; 256],
            rows: Vec::new(alloc),
        }
    }

    /// `pth_key_getdata`: the value of a slot under a key, 0 where none was set. ENOENT where the key is not live.
    pub fn get(&self, s: Slot, k: i64) -> Result<i64, Errno>
        ensures { result ≡ key_get_answer (tables_of self.now) s.0 k }
    {
        match find(&self.keys, k) {
            Ok(key) => Ok(value_at(&self.rows, s.0 as usize, key)),
            Err(errno) => Err(errno),
        }
    }

    /// `pth_key_setdata`: sets the value of a slot, which is below 4096, under a key. ENOENT where the key is not live. Only
    /// this takes memory, and where there is none the values stay as they are.
    pub fn set(&mut self, s: Slot, k: i64, v: i64) -> Result<(), Refusal>
        requires { s.0 < thread_limit }
        ensures answer { AnswersWithMemory (key_set_answer (tables_of self.old) k) result }
        ensures changes { OnOk result (tables_of self.new ≡ with_key_value s.0 (key_named k) v (tables_of self.old)) }
        ensures refused { (e : Errno) → result ≡ Err (Refusal.Fail e) → self.new ≡ self.old }
        ensures same { OnErr result (tables_of self.new ≡ tables_of self.old) }
    {
        match find(&self.keys, k) {
            Ok(key) => {
                set_at(self.alloc, &mut self.rows, s.0 as usize, key, v)?;
                Ok(())
            }
            Err(errno) => Err(Refusal::Fail(errno)),
        }
    }

    /// The value of a slot under a key is 0 from now on, as it is while its destructor runs. It takes no memory.
    pub fn unset(&mut self, s: Slot, k: u8)
        ensures { tables_of self.new ≡ with_key_value s.0 k (pos 0) (tables_of self.old) }
    {
        clear_at(&mut self.rows, s.0 as usize, k as usize);
    }

    /// All values of a slot are 0 from now on, as a thread that ends leaves them. Keys stay as they are.
    pub fn forget(&mut self, s: Slot)
        ensures { tables_of self.new ≡ forgotten s.0 (tables_of self.old) }
    {
        clear_row(&mut self.rows, s.0 as usize);
    }

    /// `pth_key_create`: the least free key, from 0 to 255, is live from now on, with a destructor or none. Each slot's value
    /// under it is 0. EAGAIN where all 256 are live.
    pub fn create(&mut self, h: Option<HandlerId>) -> Result<u8, Errno>
        ensures answer { result ≡ key_create_answer (tables_of self.old) }
        ensures changes { IfOk result (λ k. tables_of self.new ≡ created k h (tables_of self.old)) }
        ensures refused { OnErr result (self.new ≡ self.old) }
    {
        match find_free(&self.keys) {
            Some(k) => {
                self.keys[k] = Some(h);
                Ok(k as u8)
            }
            None => Err(Errno::EAGAIN),
        }
    }

    /// `pth_key_delete`: a key is free from now on, and each slot's value under it is 0. Its destructor is not run. ENOENT
    /// where the key is not live.
    pub fn delete(&mut self, k: i64) -> Result<(), Errno>
        ensures answer { result ≡ key_delete_answer (tables_of self.old) k }
        ensures changes { OnOk result (tables_of self.new ≡ deleted (key_named k) (tables_of self.old)) }
        ensures refused { OnErr result (self.new ≡ self.old) }
    {
        match find(&self.keys, k) {
            Ok(key) => {
                self.keys[key] = None;
                clear_column(&mut self.rows, key);
                Ok(())
            }
            Err(errno) => Err(errno),
        }
    }

    // What the destructor of a key is owed for a slot.
    fn owed_for(&self, s: Slot, k: u16) -> Option<(u8, HandlerId, i64)>
        requires { k < key_limit }
        ensures { result ≡ owed_for (tables_of self.now) s.0 k }
    {
        let key = self.keys[k as usize];
        let Some(Some(h)) = key else {
            return None;
        };
        let v = value_at(&self.rows, s.0 as usize, k as usize);
        if v == 0 {
            return None;
        }
        Some((k as u8, h, v))
    }

    /// The first key from a number on that has a destructor and under which a slot has a value that is not 0, with both: what
    /// a thread that ends runs next. None where there is no such key, as from 256 on.
    pub fn first_live(&self, s: Slot, from: u16) -> Option<(u8, HandlerId, i64)>
        ensures { result ≡ first_live (tables_of self.now) s.0 from }
    {
        for k in from..values_end(&self.rows, s.0 as usize) {
            if let Some(owed) = self.owed_for(s, k) {
                return Some(owed);
            }
        }
        None
    }
}

// The live key that an operand names.
fn find(keys: &[Key], k: i64) -> Result<usize, Errno>
    requires { length keys.now ≡ key_limit }
    ensures refused { IfErr result (λ e. e ≡ Errno.ENOENT) }
    ensures unknown { OnErr result (is_some (table None keys.now (key_named k)) ≡ false) }
    ensures known { OnOk result (is_some (table None keys.now (key_named k)) ≡ true) }
    ensures named { IfOk result (λ i. i ≡ key_named k) }
    ensures low { IfOk result (λ i. i < key_limit) }
{
    if k < 0 || k >= keys.len() as i64 {
        return Err(Errno::ENOENT);
    }
    let i = k as usize;
    match keys[i] {
        Some(_) => Ok(i),
        None => Err(Errno::ENOENT),
    }
}

// The least key that is free.
fn find_free(keys: &[Key]) -> Option<usize>
    ensures place { result ≡ position (λ key. is_none key) keys.now }
    ensures free { IfSome result (λ k. table None keys.now k ≡ None) }
    ensures low { IfSome result (λ k. k < length keys.now) }
{
    keys.iter().position(|key| key.is_none())
}

// The value of a slot under a key.
fn value_at(rows: &Vec<Vec<i64>>, s: usize, k: usize) -> i64
    ensures { result ≡ value_at_key (value_rows rows.now) k s }
{
    if s >= rows.len() {
        return 0;
    }
    let row = &rows[s];
    if k < row.len() { row[k] } else { 0 }
}

// The key from which on the values of a slot are 0.
fn values_end(rows: &Vec<Vec<i64>>, s: usize) -> u16
    ensures low { result ≤ key_limit }
    ensures zero { (k : ℕ) → result ≤ k → k < key_limit → value_at_key (value_rows rows.now) k s ≡ pos 0 }
{
    if s >= rows.len() {
        return 0;
    }
    rows[s].len().min(MOST_KEYS as usize) as u16
}

// Sets the value of a slot under a key.
fn set_at(
    alloc: Global,
    rows: &mut Vec<Vec<i64>>,
    s: usize,
    k: usize,
    v: i64,
) -> Result<(), OutOfMemory>
    requires { k < key_limit }
    ensures ok { OnOk result (value_at_key (value_rows rows.new) ≡ put (value_at_key (value_rows rows.old)) k (put (value_at_key (value_rows rows.old) k) s v)) }
    ensures err { OnErr result (value_at_key (value_rows rows.new) ≡ value_at_key (value_rows rows.old)) }
{
    add_rows(alloc, rows, s)?;
    set_in(&mut rows[s], k, v)
}

// Adds empty rows until the slot has one.
fn add_rows(alloc: Global, rows: &mut Vec<Vec<i64>>, s: usize) -> Result<(), OutOfMemory>
    ensures long { OnOk result (s < length rows.new.items) }
    ensures same { value_at_key (value_rows rows.new) ≡ value_at_key (value_rows rows.old) }
{
    while rows.len() <= s {
        rows.push(Vec::new(alloc))?;
    }
    Ok(())
}

// Sets the value under a key in a row, which grows as far as the key.
fn set_in(row: &mut Vec<i64>, k: usize, v: i64) -> Result<(), OutOfMemory>
    requires { k < key_limit }
    ensures ok { OnOk result (table (pos 0) row.new.items ≡ put (table (pos 0) row.old.items) k v) }
    ensures err { OnErr result (table (pos 0) row.new.items ≡ table (pos 0) row.old.items) }
{
    widen(row, k + 1)?;
    row[k] = v;
    Ok(())
}

// Adds values that are 0 until there are so many.
fn widen(row: &mut Vec<i64>, wanted: usize) -> Result<(), OutOfMemory>
    ensures long { OnOk result (wanted ≤ length row.new.items) }
    ensures same { table (pos 0) row.new.items ≡ table (pos 0) row.old.items }
{
    if row.len() < wanted {
        row.resize(wanted, 0)?;
    }
    Ok(())
}

// The value of a slot under a key is 0.
fn clear_at(rows: &mut Vec<Vec<i64>>, s: usize, k: usize)
    ensures { value_at_key (value_rows rows.new) ≡ put (value_at_key (value_rows rows.old)) k (put (value_at_key (value_rows rows.old) k) s (pos 0)) }
{
    if s < rows.len() {
        clear_in(&mut rows[s], k);
    }
}

// The values of a slot are 0.
fn clear_row(rows: &mut Vec<Vec<i64>>, s: usize)
    ensures { value_at_key (value_rows rows.new) ≡ (λ k. put (value_at_key (value_rows rows.old) k) s (pos 0)) }
{
    if s < rows.len() {
        rows[s].clear();
    }
}

// Each slot's value under a key is 0.
fn clear_column(rows: &mut Vec<Vec<i64>>, k: usize)
    ensures { value_at_key (value_rows rows.new) ≡ put (value_at_key (value_rows rows.old)) k (λ _. pos 0) }
{
    for s in 0..rows.len() {
        clear_in(&mut rows[s], k);
    }
}

// The value under a key in a row is 0.
fn clear_in(row: &mut Vec<i64>, k: usize)
    ensures { table (pos 0) row.new.items ≡ put (table (pos 0) row.old.items) k (pos 0) }
{
    if k < row.len() {
        row[k] = 0;
    }
}

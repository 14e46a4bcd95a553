//! Files that are read, one at a time, and their stand-ins in memory.

ghost use Rattle.std.specs.Prelude.{◌≡◌, ◌+◌, ◌-◌, ◌^◌, ◌↔◌, ◌⊎◌, ◌≢◌, ℕ, List, Bool, Option, Some, None, IfOk, IsErr, Contains, min, OnOk, OnErr, true, false, is_some};
ghost use Rattle.std.specs.Io.{ReadsAtMost};
ghost use Rattle.std.specs.Io.KnownBytes.{ReadConsumes};

use crate::source::{Failed, fill};
use pth_base::memory::OutOfMemory;
use std::alloc::Global;
use std::marker::Model;

/// Files, one started at a time.
pub trait Files {
    ghost use Rattle.pth_streams.specs.Faults.{Counts};

    /// Whether a file is started.
    ghost started: { Self → Bool };

    /// What is left of the started file, where it is told.
    ghost left: { Self → Option (List ℕ) };

    /// The bytes under a name, where they are told.
    ghost held: { Self → List ℕ → Option (List ℕ) };

    /// How many of their calls have failed, up to the last value of a `u64`.
    ghost faults: { Self → ℕ };

    fn start(&mut self, name: &str) -> Result<(), Failed>
        ensures started { OnOk result (started self.new ≡ true) }
        ensures none { OnErr result (started self.new ≡ false) }
        ensures whole { OnOk result (left self.new ≡ held self.old name.now) }
        ensures counts { Counts (faults self.old) (faults self.new) result };

    fn read(&mut self, buf: &mut [u8]) -> Result<usize, Failed>
        requires { started self.old ≡ true }
        ensures started { started self.new ≡ true }
        ensures bound { ReadsAtMost result buf.new }
        ensures bytes { ReadConsumes (left self.old) (left self.new) result buf.new }
        ensures counts { Counts (faults self.old) (faults self.new) result };
}

/// One file under one name. It fails at the calls with the numbers it is given, counted from 1.
#[derive(Drop)]
pub struct MemoryFiles {
    name: String,
    bytes: Vec<u8>,
    at: Option<usize>,
    fails: Vec<u64>,
    calls: u64,
    faults: u64,
}

impl Model for MemoryFiles {
    ghost use Rattle.std.specs.Prelude.{drop, ◌≤◌, length, option_map, IfSome, string_bytes};
    ghost use Rattle.pth_streams.specs.InMemory.{FilesState};

    ghost Value = { FilesState };

    ghost view = { λ s. record {
      name = string_bytes s.name;
      bytes = s.bytes.items;
      rest = option_map (λ at. drop at s.bytes.items) s.at;
      fails = s.fails.items;
      calls = s.calls;
      faults = s.faults;
    } };

    ghost invariant = { λ s. IfSome s.at (λ at. at ≤ length s.bytes.items) };
}

impl MemoryFiles {
    pub fn new(
        alloc: Global,
        name: &str,
        bytes: &[u8],
        fails: &[u64],
    ) -> Result<MemoryFiles, OutOfMemory>
        ensures { IfOk result (λ s. s ≡ record {
          name = name.now;
          bytes = bytes.now;
          rest = None;
          fails = fails.now;
          calls = 0;
          faults = 0;
        }) }
    {
        Ok(MemoryFiles {
            name: String::from_str(alloc, name)?,
            bytes: Vec::from_slice(alloc, bytes)?,
            at: None,
            fails: Vec::from_slice(alloc, fails)?,
            calls: 0,
            faults: 0,
        })
    }

    /// How many starts and reads have failed.
    pub fn faults(&self) -> u64
        ensures { result ≡ self.now.faults }
    {
        self.faults
    }
}

impl Files for MemoryFiles {
    ghost use Rattle.pth_streams.specs.Faults.{Counts};
    ghost use Rattle.pth_streams.specs.InMemory.{held_under};

    ghost started = { λ s. is_some s.rest };

    ghost left = { λ s. s.rest };

    ghost held = { held_under };

    ghost faults = { λ s. s.faults };

    fn start(&mut self, name: &str) -> Result<(), Failed>
        ensures started { OnOk result (is_some self.new.rest ≡ true) }
        ensures none { OnErr result (is_some self.new.rest ≡ false) }
        ensures whole { OnOk result (self.new.rest ≡ held_under self.old name.now) }
        ensures counts { Counts self.old.faults self.new.faults result }
        ensures fails { IsErr result ↔ Contains self.old.fails (min (self.old.calls + 1) (2 ^ 64 - 1)) ⊎ (name.now ≢ self.old.name) }
        ensures calls { self.new.calls ≡ min (self.old.calls + 1) (2 ^ 64 - 1) }
        ensures same { (self.new.name ≡ self.old.name) × (self.new.bytes ≡ self.old.bytes) × (self.new.fails ≡ self.old.fails) }
    {
        self.calls = self.calls.saturating_add(1);
        if self.fails.contains(&self.calls) || name != self.name.as_str() {
            self.at = None;
            self.faults = self.faults.saturating_add(1);
            return Err(Failed);
        }
        self.at = Some(0);
        Ok(())
    }

    fn read(&mut self, buf: &mut [u8]) -> Result<usize, Failed>
        requires { is_some self.old.rest ≡ true }
        ensures started { is_some self.new.rest ≡ true }
        ensures bound { ReadsAtMost result buf.new }
        ensures bytes { ReadConsumes self.old.rest self.new.rest result buf.new }
        ensures counts { Counts self.old.faults self.new.faults result }
        ensures fails { IsErr result ↔ Contains self.old.fails (min (self.old.calls + 1) (2 ^ 64 - 1)) }
        ensures calls { self.new.calls ≡ min (self.old.calls + 1) (2 ^ 64 - 1) }
        ensures same { (self.new.name ≡ self.old.name) × (self.new.bytes ≡ self.old.bytes) × (self.new.fails ≡ self.old.fails) }
    {
        self.calls = self.calls.saturating_add(1);
        if self.fails.contains(&self.calls) {
            self.faults = self.faults.saturating_add(1);
            return Err(Failed);
        }
        let at = self.at.unwrap();
        let n = fill(buf, &self.bytes[at..]);
        self.at = Some(at + n);
        Ok(n)
    }
}

/// These bytes under every name.
#[derive(Drop)]
pub struct SureFiles {
    bytes: Vec<u8>,
    at: Option<usize>,
}

impl Model for SureFiles {
    ghost use Rattle.std.specs.Prelude.{ℕ, List, Option, drop, ◌≤◌, length, option_map, IfSome};

    ghost Value = { List ℕ × Option (List ℕ) };

    ghost view = { λ s. (s.bytes.items, option_map (λ at. drop at s.bytes.items) s.at) };

    ghost invariant = { λ s. IfSome s.at (λ at. at ≤ length s.bytes.items) };
}

impl SureFiles {
    pub fn new(alloc: Global, bytes: &[u8]) -> Result<SureFiles, OutOfMemory>
        ensures { IfOk result (λ s. s ≡ (bytes.now, None)) }
    {
        Ok(SureFiles {
            bytes: Vec::from_slice(alloc, bytes)?,
            at: None,
        })
    }
}

impl Files for SureFiles {
    ghost use Rattle.pth_streams.specs.Faults.{Counts};

    ghost started = { λ s. is_some s.1 };

    ghost left = { λ s. s.1 };

    ghost held = { λ s _. Some s.0 };

    ghost faults = { λ _. 0 };

    fn start(&mut self, name: &str) -> Result<(), Failed>
        ensures started { OnOk result (is_some self.new.1 ≡ true) }
        ensures none { OnErr result (is_some self.new.1 ≡ false) }
        ensures whole { OnOk result (self.new.1 ≡ Some self.old.0) }
        ensures counts { Counts 0 0 result }
        ensures same { self.new.0 ≡ self.old.0 }
    {
        let _ = name;
        self.at = Some(0);
        Ok(())
    }

    fn read(&mut self, buf: &mut [u8]) -> Result<usize, Failed>
        requires { is_some self.old.1 ≡ true }
        ensures started { is_some self.new.1 ≡ true }
        ensures bound { ReadsAtMost result buf.new }
        ensures bytes { ReadConsumes self.old.1 self.new.1 result buf.new }
        ensures counts { Counts 0 0 result }
        ensures same { self.new.0 ≡ self.old.0 }
    {
        let at = self.at.unwrap();
        let n = fill(buf, &self.bytes[at..]);
        self.at = Some(at + n);
        Ok(n)
    }
}

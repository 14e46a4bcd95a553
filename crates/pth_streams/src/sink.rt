//! What is written to: standard output and error, and their stand-ins in memory.

ghost use Rattle.std.specs.Prelude.{◌≡◌, ◌+◌, ◌<◌, ◌↔◌, ℕ, List, [], Option, Some, IfOk, IsErrOf, OnErr, length};
ghost use Rattle.std.specs.Io.{WritesAtMost};
ghost use Rattle.std.specs.Io.KnownBytes.{WriteAppends};

use pth_base::memory::OutOfMemory;
use std::alloc::Global;
use std::marker::Model;
use thiserror::Error;

/// Why a write took nothing.
#[derive(Debug, Drop, Error)]
pub enum SinkErr {
    #[error("Failed")]
    Failed,
    #[error("OutOfMemory")]
    OutOfMemory,
}

impl From<OutOfMemory> for SinkErr {
    ghost use Rattle.pth_streams.specs.declared.sink.SinkErr.TheVariants as sink;

    ghost from_gives = { λ _ e. e ≡ sink.OutOfMemory };

    fn from(_e: OutOfMemory) -> SinkErr {
        SinkErr::OutOfMemory
    }
}

/// What is written to.
pub trait Sink {
    ghost use Rattle.pth_streams.specs.Faults.{CountsSink};

    /// What was written, where it is told.
    ghost written: { Self → Option (List ℕ) };

    /// How many of its calls have failed, up to the last value of a `u64`.
    ghost faults: { Self → ℕ };

    fn write(&mut self, bytes: &[u8]) -> Result<usize, SinkErr>
        ensures bound { WritesAtMost result bytes.now }
        ensures progress { IfOk result (λ n. 0 < length bytes.now → 0 < n) }
        ensures bytes { WriteAppends (written self.old) (written self.new) result bytes.now }
        ensures counts { CountsSink (faults self.old) (faults self.new) result };
}

/// A sink with so much room, which fails where none is left.
#[derive(Drop)]
pub struct MemorySink {
    bytes: Vec<u8>,
    room: usize,
    faults: u64,
}

impl Model for MemorySink {
    ghost use Rattle.std.specs.Prelude.{◌+◌, ◌≤◌, length, vec_capacity};
    ghost use Rattle.pth_streams.specs.InMemory.{SinkState};

    ghost Value = { SinkState };

    ghost view = { λ s. record { bytes = s.bytes.items; room = s.room; faults = s.faults } };

    ghost invariant = { λ s. length s.bytes.items + s.room ≤ vec_capacity s.bytes };
}

impl MemorySink {
    pub fn new(alloc: Global, room: usize) -> Result<MemorySink, OutOfMemory>
        ensures { IfOk result (λ s. s ≡ record { bytes = []; room = room; faults = 0 }) }
    {
        Ok(MemorySink {
            bytes: Vec::with_capacity(alloc, room)?,
            room,
            faults: 0,
        })
    }

    pub fn as_slice(&self) -> &[u8]
        ensures { result.now ≡ self.now.bytes }
    {
        self.bytes.as_slice()
    }

    /// How many writes have failed.
    pub fn faults(&self) -> u64
        ensures { result ≡ self.now.faults }
    {
        self.faults
    }
}

impl Sink for MemorySink {
    ghost use Rattle.pth_streams.specs.Faults.{CountsSink};

    ghost written = { λ s. Some s.bytes };

    ghost faults = { λ s. s.faults };

    fn write(&mut self, bytes: &[u8]) -> Result<usize, SinkErr>
        ensures bound { WritesAtMost result bytes.now }
        ensures progress { IfOk result (λ n. 0 < length bytes.now → 0 < n) }
        ensures bytes { WriteAppends (Some self.old.bytes) (Some self.new.bytes) result bytes.now }
        ensures counts { CountsSink self.old.faults self.new.faults result }
        ensures fails { IsErrOf result SinkErr.Failed ↔ (0 < length bytes.now) × (self.old.room ≡ 0) }
        ensures no_memory { IsErrOf result SinkErr.OutOfMemory → ⊥ }
        ensures room { IfOk result (λ n. self.new.room + n ≡ self.old.room) }
        ensures full { OnErr result (self.new.room ≡ self.old.room) }
    {
        let n = bytes.len().min(self.room);
        if n == 0 && !bytes.is_empty() {
            self.faults = self.faults.saturating_add(1);
            return Err(SinkErr::Failed);
        }
        self.bytes.extend_from_slice(&bytes[..n]).unwrap();
        self.room -= n;
        Ok(n)
    }
}

/// A sink that grows, and fails only for want of memory.
#[derive(Drop)]
pub struct SureSink {
    bytes: Vec<u8>,
}

impl Model for SureSink {
    ghost use Rattle.std.specs.Prelude.{ℕ, List};

    ghost Value = { List ℕ };

    ghost view = { λ s. s.bytes.items };
}

impl SureSink {
    pub fn new(alloc: Global) -> SureSink
        ensures { result ≡ [] }
    {
        SureSink {
            bytes: Vec::new(alloc),
        }
    }

    pub fn as_slice(&self) -> &[u8]
        ensures { result.now ≡ self.now }
    {
        self.bytes.as_slice()
    }
}

impl Sink for SureSink {
    ghost written = { λ s. Some s };

    ghost faults = { λ _. 0 };

    fn write(&mut self, bytes: &[u8]) -> Result<usize, SinkErr> {
        match self.bytes.extend_from_slice(bytes) {
            Ok(()) => Ok(bytes.len()),
            Err(_) => Err(SinkErr::OutOfMemory),
        }
    }
}

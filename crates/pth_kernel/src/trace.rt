//! What comes to descriptors, and when.

ghost use Rattle.std.specs.Prelude.{◌≡◌, ◌∷◌, ◌++◌, [], OnOk, OnErr};
ghost use Rattle.pth_kernel.specs.Entries.{is_input};
ghost use Rattle.pth_kernel.specs.Rules.{StaysFaultless, KnowsTraceNext};
ghost use Rattle.pth_kernel.specs.Trace.{first_fault, is_misshapen, is_out_of_range};

use crate::rules::Rules;
use pth_base::bytes::Bytes;
use pth_base::ids::{Fd, FdSet, Micros};
use pth_base::memory::OutOfMemory;
use std::alloc::Global;
use std::marker::Model;

/// How many stamps a trace may have.
pub const MOST_STAMPS: usize = 65_536;

/// The last time of a stamp, in microseconds.
pub const LATEST_TIME: Micros = 1_000_000_000_000_000;

/// How many bytes an entry may bring.
pub const MOST_BYTES: usize = 2048;

/// How much room an entry may bring.
pub const MOST_ROOM: u64 = 1_000_000_000;

/// How many microseconds a turn may take.
pub const MOST_CLOCK: Micros = 1_000_000;

/// What comes to a descriptor.
#[derive(Drop)]
pub enum Entry {
    /// Bytes to read: 1 to 2048.
    Arrive(Bytes),
    /// The end of the bytes to read.
    Eof,
    /// Room for bytes to write: 1 to 1,000,000,000.
    Room(u64),
    /// A connection to accept, with the descriptor that it will have.
    Conn(Fd),
    /// A connection that was asked for stands.
    Up,
    /// A connection that was asked for is refused.
    Refuse,
    /// An exceptional condition.
    Exc,
    /// A failure, which stays.
    Fault,
}

impl Entry {
    /// Whether it brings no byte or too many, no room or too much, or a descriptor past the last one.
    pub fn is_misshapen(&self) -> bool
        ensures { result ≡ is_misshapen self.now }
    {
        match self {
            Entry::Arrive(bytes) => bytes.as_slice().is_empty()
                || MOST_BYTES < bytes.as_slice().len(),
            Entry::Room(n) => *n == 0 || MOST_ROOM < *n,
            Entry::Conn(g) => 64 <= g.0,
            _ => false,
        }
    }

    /// Whether it brings bytes, or their end.
    pub fn is_input(&self) -> bool
        ensures { result ≡ is_input self.now }
    {
        matches!(self, Entry::Arrive(_) | Entry::Eof)
    }
}

/// An entry for a descriptor, with its time in microseconds.
#[derive(Drop)]
pub struct Stamp {
    pub at: Micros,
    pub fd: Fd,
    pub what: Entry,
}

impl Stamp {
    /// Whether its time or its descriptor is past the last one, or its entry is misshapen.
    pub fn is_out_of_range(&self) -> bool
        ensures { result ≡ is_out_of_range self.now }
    {
        LATEST_TIME < self.at || 64 <= self.fd.0 || self.what.is_misshapen()
    }
}

/// Stamps in the order of time.
#[derive(Drop)]
pub struct Trace {
    stamps: Vec<Stamp>,
}

impl Model for Trace {
    ghost use Rattle.std.specs.Prelude.{List};
    ghost use Rattle.pth_kernel.specs.declared.trace.Stamp.{Stamp};

    ghost Value = { List Stamp };

    ghost view = { λ t. t.stamps.items };
}

impl Trace {
    /// No stamps, which takes no memory.
    pub fn new(alloc: Global) -> Trace
        ensures { result ≡ [] }
    {
        Trace {
            stamps: Vec::new(alloc),
        }
    }

    /// Adds a stamp at the end.
    pub fn push(&mut self, stamp: Stamp) -> Result<(), OutOfMemory>
        ensures ok { OnOk result (self.new ≡ self.old ++ stamp ∷ []) }
        ensures faultless { StaysFaultless self.old stamp }
        ensures err { OnErr result (self.new ≡ self.old) }
    {
        self.stamps.push(stamp)?;
        Ok(())
    }

    /// Adds a stamp at the end, and lets the rules go on below it.
    pub fn add(&mut self, rules: &mut Rules, stamp: Stamp) -> Result<(), OutOfMemory>
        ensures ok { OnOk result (self.new ≡ self.old ++ stamp ∷ []) }
        ensures follows { OnOk result (KnowsTraceNext rules.old self.old stamp rules.new) }
        ensures err { OnErr result (self.new ≡ self.old) }
        ensures err_rules { OnErr result (rules.new ≡ rules.old) }
    {
        let mut next = *rules;
        next.go_on(&stamp);
        self.push(stamp)?;
        *rules = next;
        Ok(())
    }

    /// The place of the first stamp that breaks a rule, counted from 0, where some descriptors are open from the start.
    pub fn first_fault(&self, live: FdSet) -> Option<usize>
        ensures { result ≡ first_fault live.0 self.now }
    {
        let mut rules = Rules::new(live);
        for (i, stamp) in self.stamps.iter().enumerate() {
            if rules.faults(stamp) {
                return Some(i);
            }
            rules.go_on(stamp);
        }
        None
    }

    // The stamps in order.
    pub(crate) fn stamps(&self) -> &[Stamp]
        ensures { result.now ≡ self.now }
    {
        self.stamps.as_slice()
    }
}

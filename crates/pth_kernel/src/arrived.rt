//! How much has come to one descriptor.

ghost use Rattle.std.specs.Prelude.{◌≡◌, ◌+◌, ◌≤◌, [], length, option_to_list};
ghost use Rattle.pth_kernel.specs.Entries.{bytes_brought, room_brought, connection_brought};
ghost use Rattle.pth_kernel.specs.Arrivals.{arrived_of, with_entry};

use crate::trace::Entry;

// What the entries that have come bring together.
#[derive(Clone, Copy)]
pub(crate) struct Arrived {
    pub(crate) bytes: usize,
    pub(crate) room: u64,
    pub(crate) connections: usize,
    // What the first `Up` or `Refuse` says.
    pub(crate) settled: Option<bool>,
    pub(crate) ended: bool,
    pub(crate) exceptional: bool,
    pub(crate) failed: bool,
}

impl Arrived {
    // Nothing has come.
    pub(crate) fn nothing() -> Arrived
        ensures { result ≡ arrived_of [] }
    {
        Arrived {
            bytes: 0,
            room: 0,
            connections: 0,
            settled: None,
            ended: false,
            exceptional: false,
            failed: false,
        }
    }

    // One entry more has come.
    pub(crate) fn count(&mut self, entry: &Entry)
        requires bytes { self.old.bytes + length (bytes_brought entry.now) ≤ usize.MAX }
        requires room { self.old.room + room_brought entry.now ≤ u64.MAX }
        requires connections { self.old.connections + length (option_to_list (connection_brought entry.now)) ≤ usize.MAX }
        ensures { self.new ≡ with_entry entry.now self.old }
    {
        match entry {
            Entry::Arrive(bytes) => self.bytes += bytes.as_slice().len(),
            Entry::Eof => self.ended = true,
            Entry::Room(n) => self.room += *n,
            Entry::Conn(_) => self.connections += 1,
            Entry::Up => self.settled = self.settled.or(Some(true)),
            Entry::Refuse => self.settled = self.settled.or(Some(false)),
            Entry::Exc => self.exceptional = true,
            Entry::Fault => self.failed = true,
        }
    }
}

//! What came to one descriptor, and what was done with it.

ghost use Rattle.std.specs.Prelude.{◌≡◌, ◌+◌, ◌-◌, ◌≤◌, ◌<◌, ◌&&◌, ◌||◌, ◌==◌, true, false, Some, None, IfOk, OnOk, OnErr, OnSome, IfNone, option_map, is_some, length, take, option_to_list, if◌then◌else◌, Ok, Err, pos};
ghost use Rattle.std.specs.Result.{result_err};
ghost use Rattle.pth_kernel.specs.Entries.{bytes_brought, room_brought, connection_brought};
ghost use Rattle.pth_kernel.specs.Kernel.{earliest};
ghost use Rattle.pth_kernel.specs.Channels.{bytes_left, connections_left, has_bytes, has_room_left, has_waiting, gathered, counted, using, moded, unfed};
ghost use Rattle.pth_kernel.specs.Modes.{is_mode};

use crate::arrived::Arrived;
use crate::trace::Entry;
use pth_base::bytes::Bytes;
use pth_base::errno::Errno;
use pth_base::ids::Fd;
use pth_base::memory::OutOfMemory;
use std::alloc::Global;
use std::marker::Model;

// A descriptor, with all that the trace has for it. Time only moves the counts of what has come.
#[derive(Drop)]
pub(crate) struct Channel {
    bytes: Vec<u8>,
    connections: Vec<Fd>,
    arrived: Arrived,
    live: bool,
    taken: usize,
    given: u64,
    accepted: usize,
    mode: u8,
}

impl Model for Channel {
    ghost use Rattle.pth_kernel.specs.Channels.{ChannelOf, IsUsedWithin};

    ghost Value = { ChannelOf };

    ghost use Rattle.pth_kernel.specs.Fields.{channel_of};

    ghost view = { channel_of };

    ghost invariant = { λ c. IsUsedWithin (channel_of c) };
}

impl Channel {
    // A descriptor without entries, of which nothing was taken.
    pub(crate) fn new(alloc: Global, live: bool) -> Channel
        ensures { result ≡ unfed live }
    {
        Channel {
            bytes: Vec::new(alloc),
            connections: Vec::new(alloc),
            arrived: Arrived::nothing(),
            live,
            taken: 0,
            given: 0,
            accepted: 0,
            mode: 1,
        }
    }

    // ---- what comes

    // Keeps what an entry brings, which has not come yet.
    pub(crate) fn gather(&mut self, entry: &Entry) -> Result<(), OutOfMemory>
        ensures { OnOk result (self.new ≡ gathered entry.now self.old) }
    {
        match entry {
            Entry::Arrive(bytes) => self.bytes.extend_from_slice(bytes.as_slice())?,
            Entry::Conn(g) => self.connections.push(*g)?,
            _ => {}
        }
        Ok(())
    }

    // An entry has come.
    pub(crate) fn count(&mut self, entry: &Entry)
        requires bytes { self.old.arrived.bytes + length (bytes_brought entry.now) ≤ length self.old.bytes }
        requires connections { self.old.arrived.connections + length (option_to_list (connection_brought entry.now)) ≤ length self.old.connections }
        requires room { self.old.arrived.room + room_brought entry.now ≤ u64.MAX }
        ensures { self.new ≡ counted entry.now self.old }
    {
        self.arrived.count(entry);
    }

    // ---- questions

    pub(crate) fn is_live(&self) -> bool
        ensures { result ≡ self.now.used.live }
    {
        self.live
    }

    pub(crate) fn left(&self) -> usize
        ensures { result ≡ length (bytes_left self.now) }
    {
        self.arrived.bytes - self.taken
    }

    pub(crate) fn room(&self) -> u64
        ensures { result ≡ self.now.arrived.room - self.now.used.given }
    {
        self.arrived.room - self.given
    }

    pub(crate) fn connected(&self) -> Option<bool>
        ensures { result ≡ (if self.now.used.live then self.now.arrived.settled else None) }
    {
        if self.live {
            self.arrived.settled
        } else {
            None
        }
    }

    pub(crate) fn is_readable(&self) -> bool
        ensures { result ≡ (self.now.used.live && (has_bytes self.now || self.now.arrived.ended || self.now.arrived.failed || has_waiting self.now)) }
    {
        self.live
            && (self.taken < self.arrived.bytes
                || self.arrived.ended
                || self.arrived.failed
                || self.accepted < self.arrived.connections)
    }

    pub(crate) fn is_writeable(&self) -> bool
        ensures { result ≡ (self.now.used.live && (has_room_left self.now || self.now.arrived.failed)) }
    {
        self.live && (self.given < self.arrived.room || self.arrived.failed)
    }

    pub(crate) fn is_exceptional(&self) -> bool
        ensures { result ≡ (self.now.used.live && self.now.arrived.exceptional) }
    {
        self.live && self.arrived.exceptional
    }

    pub(crate) fn is_settled(&self) -> bool
        ensures { result ≡ (self.now.used.live && (is_some self.now.arrived.settled || self.now.arrived.failed)) }
    {
        self.live && (self.arrived.settled.is_some() || self.arrived.failed)
    }

    pub(crate) fn is_at_end(&self) -> bool
        ensures { result ≡ (self.now.used.live && self.now.arrived.ended) }
    {
        self.live && self.arrived.ended
    }

    pub(crate) fn has_connection(&self) -> bool
        ensures { result ≡ (self.now.used.live && has_waiting self.now) }
    {
        self.live && self.accepted < self.arrived.connections
    }

    pub(crate) fn is_faulty(&self) -> bool
        ensures { result ≡ (self.now.used.live && self.now.arrived.failed) }
    {
        self.live && self.arrived.failed
    }

    pub(crate) fn is_nonblocking(&self) -> bool
        ensures { result ≡ (self.now.used.live && (self.now.used.mode == 2)) }
    {
        self.live && self.mode == 2
    }

    // ---- changes

    // Takes the next n bytes.
    pub(crate) fn take(&mut self, alloc: Global, n: usize) -> Result<Bytes, OutOfMemory>
        requires { n ≤ length (bytes_left self.old) }
        ensures bytes { IfOk result (λ b. b ≡ take n (bytes_left self.old)) }
        ensures taken { OnOk result (self.new ≡ using (record self.old.used { taken = self.old.used.taken + n }) self.old) }
        ensures refused { OnErr result (self.new ≡ self.old) }
    {
        let end = self.taken + n;
        let bytes = Bytes::from_slice(alloc, &self.bytes[self.taken..end])?;
        self.taken = end;
        Ok(bytes)
    }

    // Uses room for n bytes.
    pub(crate) fn give(&mut self, n: u64)
        requires { n ≤ self.old.arrived.room - self.old.used.given }
        ensures { self.new ≡ using (record self.old.used { given = self.old.used.given + n }) self.old }
    {
        self.given += n;
    }

    // Takes the oldest connection that waits.
    pub(crate) fn accept(&mut self) -> Option<Fd>
        ensures which { option_map (λ g. g.0) result ≡ earliest (connections_left self.old) }
        ensures accepted { OnSome result (self.new ≡ using (record self.old.used { accepted = self.old.used.accepted + 1 }) self.old) }
        ensures none { IfNone result (self.new ≡ self.old) }
    {
        if self.accepted == self.arrived.connections {
            return None;
        }
        let g = self.connections[self.accepted];
        self.accepted += 1;
        Some(g)
    }

    // Opens it.
    pub(crate) fn open(&mut self)
        ensures { self.new ≡ using (record self.old.used { live = true }) self.old }
    {
        self.live = true;
    }

    // Closes it, if it is open.
    pub(crate) fn close(&mut self) -> Result<(), Errno>
        ensures refusal { result_err result ≡ (if self.old.used.live then None else Some Errno.EBADF) }
        ensures closed { OnOk result (self.new ≡ using (record self.old.used { live = false }) self.old) }
        ensures refused { OnErr result (self.new ≡ self.old) }
    {
        if !self.live {
            return Err(Errno::EBADF);
        }
        self.live = false;
        Ok(())
    }

    // Sets the mode, which 0 leaves, and answers with the mode before.
    pub(crate) fn set_mode(&mut self, m: i64) -> Result<i64, Errno>
        ensures answer { result ≡ (if self.old.used.live then (if is_mode m then Ok (pos self.old.used.mode) else Err Errno.EINVAL) else Err Errno.EBADF) }
        ensures set { OnOk result (self.new ≡ using (moded m self.old.used) self.old) }
        ensures refused { OnErr result (self.new ≡ self.old) }
    {
        if !self.live {
            return Err(Errno::EBADF);
        }
        if !(0..=2).contains(&m) {
            return Err(Errno::EINVAL);
        }
        let before = i64::from(self.mode);
        if m != 0 {
            self.mode = m as u8;
        }
        Ok(before)
    }
}

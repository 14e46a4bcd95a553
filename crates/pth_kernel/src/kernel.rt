//! The kernel as threads see it.
//!
//! `new` requires a trace without a fault: the reader has looked at each line already.

ghost use Rattle.std.specs.Prelude.{◌≡◌, ◌<◌, ◌≤◌, None, pos, IfOk, OnOk, OnErr, IfSome, IfNone, option_map, length, take};
ghost use Rattle.std.specs.Result.{result_err, result_map_both};
ghost use Rattle.pth_base.specs.Limits.{last_moment};
ghost use Rattle.pth_base.specs.Descriptors.{descriptor_limit};
ghost use Rattle.pth_kernel.specs.Trace.{most_clock, first_fault};
ghost use Rattle.pth_kernel.specs.Kernel.{kernel_of, started, advanced, next_time, fd_named, earliest, unread, room, connections, connected, is_fd_live, is_readable, is_writeable, is_exceptional, is_connect_settled, is_at_end, has_connection, is_faulty, is_nonblocking, bytes_taken, room_used, connection_accepted, fd_closed};
ghost use Rattle.pth_kernel.specs.Modes.{mode_answer, sets_mode, close_refusal};
ghost use Rattle.pth_kernel.specs.Kept.{IsChannelOf, IsUnknown};

use crate::channel::Channel;
use crate::channels;
use crate::trace::Trace;
use pth_base::bytes::Bytes;
use pth_base::errno::Errno;
use pth_base::ids::{Fd, FdSet, Micros};
use pth_base::memory::OutOfMemory;
use std::alloc::Global;
use std::marker::Model;

/// A kernel of which a trace says what comes to its descriptors, and when. What has come waits until threads take it.
///
/// Only `new` and `take` need memory. A question reads counts, and `advance` goes over each stamp once in a run.
pub struct Kernel {
    alloc: Global,
    trace: Trace,
    // The stamps before it have come.
    place: usize,
    moment: Micros,
    clock: Micros,
    channels: Vec<Channel>,
}

impl Model for Kernel {
    ghost use Rattle.std.specs.Prelude.{map};
    ghost use Rattle.pth_kernel.specs.Kernel.{KernelOf};
    ghost use Rattle.pth_kernel.specs.Channels.{ChannelOf};
    ghost use Rattle.pth_kernel.specs.Kept.{IsKeptBeside};

    ghost Value = { KernelOf };

    ghost view = { λ k. record { trace = k.trace; now = k.moment; clock = k.clock; descriptors = map (λ (x : ChannelOf). x.used) k.channels.items } };

    ghost invariant = { λ k. IsKeptBeside k.trace k.moment k.clock k.place k.channels.items };
}

// By hand, so that letting one go is one call in each proof.
impl Drop for Kernel {
    fn drop(self) {
        let Kernel {
            alloc: _,
            trace: _,
            place: _,
            moment: _,
            clock: _,
            channels: _,
        } = self;
    }
}

impl Kernel {
    /// A kernel at moment 0, whose turns take `clock` microseconds. The descriptors of `live` are open from the start.
    pub fn new(
        alloc: Global,
        clock: Micros,
        live: FdSet,
        trace: Trace,
    ) -> Result<Kernel, OutOfMemory>
        requires clock { clock ≤ most_clock }
        requires sound { first_fault live.0 trace ≡ None }
        ensures { IfOk result (λ k. kernel_of k ≡ started clock live.0 trace) }
    {
        let mut channels = channels::gathered(alloc, live.0, trace.stamps())?;
        let place = channels::count(&mut channels, trace.stamps(), 0, 0);
        Ok(Kernel {
            alloc,
            trace,
            place,
            moment: 0,
            clock,
            channels,
        })
    }

    /// The moment, in microseconds since the start (`gettimeofday`).
    pub fn now(&self) -> Micros
        ensures now { result ≡ (kernel_of self.now).now }
        ensures within { result ≤ last_moment }
    {
        self.moment
    }

    /// How many microseconds a turn takes: at most 1,000,000.
    pub fn clock(&self) -> Micros
        ensures clock { result ≡ (kernel_of self.now).clock }
        ensures within { result ≤ most_clock }
    {
        self.clock
    }

    /// Time moves to a moment, and what comes by then comes.
    pub fn advance(&mut self, to: Micros)
        requires forward { (kernel_of self.old).now ≤ to }
        requires within { to ≤ last_moment }
        ensures data { self.new ≡ record self.old { now = to } }
        ensures kernel { kernel_of self.new ≡ advanced to (kernel_of self.old) }
    {
        self.place = channels::count(&mut self.channels, self.trace.stamps(), self.place, to);
        self.moment = to;
    }

    /// The next moment at which something comes. None where nothing comes any more.
    pub fn next_entry(&self) -> Option<Micros>
        ensures { result ≡ next_time (kernel_of self.now) }
    {
        let stamp = self.trace.stamps().get(self.place)?;
        Some(stamp.at)
    }

    // ---- questions

    // Which channel an operand names.
    fn index_of(&self, f: i64) -> Option<usize>
        ensures some { IfSome result (λ i. fd_named f ≡ i) }
        ensures low { IfSome result (λ i. i < descriptor_limit) }
        ensures none { IfNone result (IsUnknown (kernel_of self.now) (fd_named f)) }
    {
        let many = self.channels.len();
        if f < 0 {
            return None;
        }
        let i = f as usize;
        if i < many { Some(i) } else { None }
    }

    // The descriptor that an operand names.
    fn channel(&self, f: i64) -> Option<&Channel>
        ensures some { IfSome result (λ x. IsChannelOf (kernel_of self.now) (fd_named f) x.now) }
        ensures none { IfNone result (IsUnknown (kernel_of self.now) (fd_named f)) }
    {
        match self.index_of(f) {
            Some(i) => Some(&self.channels[i]),
            None => None,
        }
    }

    /// Whether a descriptor is open. The other questions are false of one that is not.
    pub fn is_live(&self, f: i64) -> bool
        ensures { result ≡ is_fd_live (kernel_of self.now) (fd_named f) }
    {
        match self.channel(f) {
            Some(x) => x.is_live(),
            None => false,
        }
    }

    /// Whether a `read` or an `accept` would not block (`select`).
    pub fn readable(&self, f: i64) -> bool
        ensures { result ≡ is_readable (kernel_of self.now) (fd_named f) }
    {
        match self.channel(f) {
            Some(x) => x.is_readable(),
            None => false,
        }
    }

    /// Whether a `write` would not block (`select`).
    pub fn writeable(&self, f: i64) -> bool
        ensures { result ≡ is_writeable (kernel_of self.now) (fd_named f) }
    {
        match self.channel(f) {
            Some(x) => x.is_writeable(),
            None => false,
        }
    }

    /// Whether an exceptional condition came (`select`).
    pub fn exceptional(&self, f: i64) -> bool
        ensures { result ≡ is_exceptional (kernel_of self.now) (fd_named f) }
    {
        match self.channel(f) {
            Some(x) => x.is_exceptional(),
            None => false,
        }
    }

    /// Whether it is known how a `connect` goes out.
    pub fn settled(&self, f: i64) -> bool
        ensures { result ≡ is_connect_settled (kernel_of self.now) (fd_named f) }
    {
        match self.channel(f) {
            Some(x) => x.is_settled(),
            None => false,
        }
    }

    /// Whether no bytes come any more.
    pub fn at_end(&self, f: i64) -> bool
        ensures { result ≡ is_at_end (kernel_of self.now) (fd_named f) }
    {
        match self.channel(f) {
            Some(x) => x.is_at_end(),
            None => false,
        }
    }

    /// Whether a connection waits for an `accept`.
    pub fn has_conn(&self, f: i64) -> bool
        ensures { result ≡ has_connection (kernel_of self.now) (fd_named f) }
    {
        match self.channel(f) {
            Some(x) => x.has_connection(),
            None => false,
        }
    }

    /// Whether a descriptor fails.
    pub fn faulty(&self, f: i64) -> bool
        ensures { result ≡ is_faulty (kernel_of self.now) (fd_named f) }
    {
        match self.channel(f) {
            Some(x) => x.is_faulty(),
            None => false,
        }
    }

    /// Whether a descriptor does not block (`PTH_FDMODE_NONBLOCK`).
    pub fn nonblock(&self, f: i64) -> bool
        ensures { result ≡ is_nonblocking (kernel_of self.now) (fd_named f) }
    {
        match self.channel(f) {
            Some(x) => x.is_nonblocking(),
            None => false,
        }
    }

    /// Whether the connection of a descriptor stands (`up`) or was refused (`refuse`), whichever came first. None exactly if the
    /// descriptor is not open, or neither came by now.
    pub fn connected(&self, f: i64) -> Option<bool>
        ensures { result ≡ connected (kernel_of self.now) (fd_named f) }
    {
        match self.channel(f) {
            Some(x) => x.connected(),
            None => None,
        }
    }

    /// How many bytes came and are left to take: at most 65,536 times 2,048.
    pub fn left(&self, f: i64) -> usize
        ensures { result ≡ length (unread (kernel_of self.now) (fd_named f)) }
    {
        match self.channel(f) {
            Some(x) => x.left(),
            None => 0,
        }
    }

    /// For how many bytes there is room to write: at most 65,536 times 1,000,000,000.
    pub fn room(&self, f: i64) -> u64
        ensures { result ≡ room (kernel_of self.now) (fd_named f) }
    {
        match self.channel(f) {
            Some(x) => x.room(),
            None => 0,
        }
    }

    // ---- changes

    /// Takes the next `n` of the bytes that are left (`read`). A refusal takes none.
    pub fn take(&mut self, f: i64, n: usize) -> Result<Bytes, OutOfMemory>
        requires { n ≤ length (unread (kernel_of self.old) (fd_named f)) }
        ensures bytes { IfOk result (λ b. b ≡ take n (unread (kernel_of self.old) (fd_named f))) }
        ensures taken { OnOk result (kernel_of self.new ≡ bytes_taken (fd_named f) n (kernel_of self.old)) }
        ensures refused { OnErr result (self.new ≡ self.old) }
    {
        let alloc = self.alloc;
        match self.index_of(f) {
            Some(i) => self.channels[i].take(alloc, n),
            None => Bytes::from_slice(alloc, &[]),
        }
    }

    /// Uses room for `n` bytes (`write`).
    pub fn give(&mut self, f: i64, n: u64)
        requires { n ≤ room (kernel_of self.old) (fd_named f) }
        ensures { kernel_of self.new ≡ room_used (fd_named f) n (kernel_of self.old) }
    {
        if let Some(i) = self.index_of(f) {
            self.channels[i].give(n);
        }
    }

    /// Takes the oldest connection that waits, and opens its descriptor (`accept`). None where none waits.
    pub fn accept(&mut self, f: i64) -> Option<Fd>
        ensures which { option_map (λ g. g.0) result ≡ earliest (connections (kernel_of self.old) (fd_named f)) }
        ensures within { IfSome result (λ g. g.0 < 64) }
        ensures accepted { kernel_of self.new ≡ connection_accepted (fd_named f) (earliest (connections (kernel_of self.old) (fd_named f))) (kernel_of self.old) }
    {
        let i = self.index_of(f)?;
        let g = self.channels[i].accept()?;
        self.channels[g.0 as usize].open();
        Some(g)
    }

    /// Closes a descriptor (`close`). `EBADF` where it is not open.
    pub fn close(&mut self, f: i64) -> Result<(), Errno>
        ensures refusal { result_err result ≡ close_refusal (kernel_of self.old) (fd_named f) }
        ensures closed { OnOk result (kernel_of self.new ≡ fd_closed (fd_named f) (kernel_of self.old)) }
        ensures refused { OnErr result (self.new ≡ self.old) }
    {
        match self.index_of(f) {
            Some(i) => self.channels[i].close(),
            None => Err(Errno::EBADF),
        }
    }

    /// Sets whether a descriptor blocks (1) or not (2), or only asks (0), and answers with the mode before (`pth_fdmode`).
    /// `EBADF` where it is not open, or else `EINVAL` where there is no such mode.
    pub fn mode(&mut self, f: i64, m: i64) -> Result<i64, Errno>
        ensures answer { result ≡ result_map_both (λ n. pos n) (λ e. e) (mode_answer (kernel_of self.old) (fd_named f) m) }
        ensures set { OnOk result (kernel_of self.new ≡ sets_mode (fd_named f) m (kernel_of self.old)) }
        ensures refused { OnErr result (self.new ≡ self.old) }
    {
        match self.index_of(f) {
            Some(i) => self.channels[i].set_mode(m),
            None => Err(Errno::EBADF),
        }
    }
}

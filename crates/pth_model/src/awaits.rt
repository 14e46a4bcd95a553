//! What a blocked thread waits for.

ghost use Rattle.std.specs.Prelude.{◌≡◌};
ghost use Rattle.pth_model.specs.RingWaits.{extra_ring, ring_given as given};

use pth_base::call::Call;
use pth_base::ids::{FdSet, Micros};

/// What a thread waits for while a call blocks it.
#[derive(Clone, Copy)]
pub enum Awaits {
    /// Nothing: no call blocks the thread.
    Nothing,
    /// To be alone: that no other thread is new, ready, waiting or suspended (`pth_exit` of the main thread).
    Alone,
    /// The death of the thread that an operand names (`pth_join`).
    Death(i64),
    /// The death of any thread that can be joined (`pth_join` of 0).
    AnyDeath,
    /// A moment (`pth_nap`, `pth_usleep`, `pth_sleep`).
    Moment(Micros),
    /// That an event of the ring of this event is not pending (`pth_wait`).
    Ring(i64),
    /// That a read of up to `n` bytes of descriptor `f` is answered (`pth_read`).
    Reading {
        f: i64,
        n: i64,
    },
    /// That a write to descriptor `f` goes on: `written` of `total` bytes were written (`pth_write`).
    Writing {
        f: i64,
        total: usize,
        written: usize,
    },
    /// A connection at a descriptor (`pth_accept`).
    Connection(i64),
    /// The answer to a connect of a descriptor (`pth_connect`).
    ConnectAnswer(i64),
    /// That a member of one of three sets is readable, writeable or exceptional, or that a moment comes (`pth_select`).
    Selection {
        r: FdSet,
        w: FdSet,
        x: FdSet,
        deadline: Option<Micros>,
    },
    /// That nobody has the mutex that an operand names (`pth_mutex_acquire`).
    Mutex(i64),
    /// That the read-write lock that an operand names lets in who writes, or who reads (`pth_rwlock_acquire`).
    Lock {
        l: i64,
        write: bool,
    },
    /// That the round of this number has passed at barrier `b` (`pth_barrier_reach`).
    Round {
        b: i64,
        round: u64,
    },
    /// That the thread's seat at this condition is notified (`pth_cond_await`).
    Notice(i64),
    /// That the thread can take the mutex back that an operand names, once its wait at a condition is over (`pth_cond_await`).
    Retaking {
        m: i64,
        outcome: Retake,
    },
}

/// What a wait at a condition comes to once it is over and its mutex is taken back (`pth_cond_await`).
#[derive(Clone, Copy)]
pub enum Retake {
    /// The thread's seat was notified: the call is answered 1.
    Notified,
    /// An event of its ring was not pending: the call is answered EINTR.
    Interrupted,
    /// The thread was canceled: it ends.
    Canceled,
}

impl Awaits {
    ghost use Rattle.std.specs.Prelude.{◌≡◌};
    ghost use Rattle.pth_model.specs.Awaits.{is_retaking as retaking_in, moment_in, written_in, round_in};

    /// Whether a wait at a condition is over, and the mutex is to be taken back.
    pub fn is_retaking(self) -> bool
        ensures { result ≡ retaking_in self }
    {
        matches!(self, Awaits::Retaking { .. })
    }

    /// The moment that is waited for; 0 for none.
    #[inline(always)]
    pub fn moment(self) -> Micros
        ensures { result ≡ moment_in self }
    {
        match self {
            Awaits::Moment(moment) => moment,
            Awaits::Selection {
                deadline: Some(deadline),
                ..
            } => deadline,
            _ => 0,
        }
    }

    /// How many bytes a `pth_write` wrote so far.
    pub fn written(self) -> usize
        ensures { result ≡ written_in self }
    {
        match self {
            Awaits::Writing { written, .. } => written,
            _ => 0,
        }
    }

    /// The number of the round that is waited for; 0 for none.
    pub fn round(self) -> u64
        ensures { result ≡ round_in self }
    {
        match self {
            Awaits::Round { round, .. } => round,
            _ => 0,
        }
    }
}

/// What a thread waits for, and the event whose ring its call was given, if any.
#[derive(Clone, Copy)]
pub struct Awaited {
    pub what: Awaits,
    pub ring: Option<i64>,
}

impl Awaited {
    /// No call blocks the thread.
    pub const NOTHING: Awaited = Awaited {
        what: Awaits::Nothing,
        ring: None,
    };
}

/// The event that a call was given, whose ring it claims until it is answered.
pub fn ring_given(call: &Call) -> Option<i64>
    ensures { result ≡ given call.now }
{
    match call {
        Call::Wait(e) => Some(*e),
        Call::ReadEv { e, .. }
        | Call::WriteEv { e, .. }
        | Call::AcceptEv { e, .. }
        | Call::ConnectEv { e, .. }
        | Call::SelectEv { e, .. }
        | Call::MutexAcquire { e, .. }
        | Call::RwAcquire { e, .. }
        | Call::CondAwait { e, .. } => extra_ring(*e),
        _ => None,
    }
}

/// The ring that a call was given beside what else it waits for: 0 is none.
pub fn extra_ring(e: i64) -> Option<i64>
    ensures { result ≡ extra_ring e }
{
    if e == 0 { None } else { Some(e) }
}

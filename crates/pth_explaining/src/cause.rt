//! What a call waits for.

ghost use Rattle.std.specs.Prelude.{◌≡◌};
ghost use Rattle.pth_explaining.specs.Causes.{cause_of, end_of, number_in, retaken_by, ring_named, ring_of, words_of};

use pth_base::call::Call;

/// What a thread waits for.
#[derive(Clone, Copy)]
pub(crate) enum Cause {
    /// That nobody has a mutex.
    Mutex(i64),
    /// That a read-write lock lets it in.
    Lock(i64),
    /// That a condition is notified.
    Condition(i64),
    /// That the round of a barrier passes.
    Barrier(i64),
    Descriptor(i64),
    Descriptors,
    /// The end of a thread.
    End(i64),
    AnyEnd,
    AllEnds,
    /// A moment.
    Time,
    /// An event of the ring of this one.
    Event(i64),
    /// That nobody has the mutex which its `pth_cond_await` takes back.
    Retaken(i64),
    /// No call that a run suspends.
    Unknown,
}

// The end of a thread, or of any.
fn end_of(t: i64) -> Cause
    ensures { result ≡ end_of t }
{
    match t {
        0 => Cause::AnyEnd,
        _ => Cause::End(t),
    }
}

/// What a call waits for, but for an extra ring.
pub(crate) fn cause_of(call: &Call) -> Cause
    ensures { result ≡ cause_of call.now }
{
    match call {
        Call::Exit(_) => Cause::AllEnds,
        Call::Join(t) => end_of(*t),
        Call::Nap(_) | Call::Usleep(_) | Call::Sleep(_) => Cause::Time,
        Call::Wait(e) => Cause::Event(*e),
        Call::Read { f, .. }
        | Call::ReadEv { f, .. }
        | Call::Write { f, .. }
        | Call::WriteEv { f, .. }
        | Call::Accept(f)
        | Call::AcceptEv { f, .. }
        | Call::Connect(f)
        | Call::ConnectEv { f, .. } => Cause::Descriptor(*f),
        Call::Select { .. } | Call::SelectEv { .. } => Cause::Descriptors,
        Call::MutexAcquire { m, .. } => Cause::Mutex(*m),
        Call::RwAcquire { l, .. } => Cause::Lock(*l),
        Call::CondAwait { c, .. } => Cause::Condition(*c),
        Call::BarrierReach(b) => Cause::Barrier(*b),
        _ => Cause::Unknown,
    }
}

/// What a call waits for that takes a mutex back.
pub(crate) fn retaken_by(call: &Call) -> Cause
    ensures { result ≡ retaken_by call.now }
{
    match call {
        Call::CondAwait { m, .. } => Cause::Retaken(*m),
        _ => Cause::Unknown,
    }
}

// The ring that an operand names, unless it is 0.
fn ring_named(e: i64) -> Option<i64>
    ensures { result ≡ ring_named e }
{
    match e {
        0 => None,
        _ => Some(e),
    }
}

/// The extra ring of a call.
pub(crate) fn ring_of(call: &Call) -> Option<i64>
    ensures { result ≡ ring_of call.now }
{
    match call {
        Call::ReadEv { e, .. }
        | Call::WriteEv { e, .. }
        | Call::AcceptEv { e, .. }
        | Call::ConnectEv { e, .. }
        | Call::SelectEv { e, .. }
        | Call::MutexAcquire { e, .. }
        | Call::RwAcquire { e, .. }
        | Call::CondAwait { e, .. } => ring_named(*e),
        _ => None,
    }
}

/// What a cause is, behind `waits` or `retakes` and before its number.
pub(crate) fn words_of(cause: Cause) -> &'static [u8]
    ensures { result.now ≡ words_of cause }
{
    match cause {
        Cause::Mutex(_) => b" for mutex ",
        Cause::Lock(_) => b" for rwlock ",
        Cause::Condition(_) => b" for condition ",
        Cause::Barrier(_) => b" for barrier ",
        Cause::Descriptor(_) => b" for descriptor ",
        Cause::Descriptors => b" for descriptors",
        Cause::End(_) => b" for the end of t",
        Cause::AnyEnd => b" for the end of any thread",
        Cause::AllEnds => b" for the end of all other threads",
        Cause::Time => b" for its deadline",
        Cause::Event(_) => b" for an event of ring ",
        Cause::Retaken(_) => b" mutex ",
        Cause::Unknown => b"",
    }
}

/// The number of a cause, if it has one.
pub(crate) fn number_in(cause: Cause) -> Option<i64>
    ensures { result ≡ number_in cause }
{
    match cause {
        Cause::Mutex(n)
        | Cause::Lock(n)
        | Cause::Condition(n)
        | Cause::Barrier(n)
        | Cause::Descriptor(n)
        | Cause::End(n)
        | Cause::Event(n)
        | Cause::Retaken(n) => Some(n),
        _ => None,
    }
}

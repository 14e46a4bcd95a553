//! The call of each word, made of its operands: one line for each call, by the facility of pth(3).

ghost use Rattle.std.specs.Prelude.{◌≡◌, IfOk};
ghost use Rattle.pth_line.specs.CallOf as by_word;
ghost use Rattle.pth_line.specs.CallLines.{handed};
ghost use Rattle.pth_line.specs.Placed.{placed};
ghost use Rattle.pth_operand.specs.Values.{scope};
ghost use Rattle.pth_spelling.specs.declared.keyword.CallWord.TheVariants as calls;
ghost use Rattle.pth_spelling.specs.declared.keyword.IoWord.TheVariants as ios;
ghost use Rattle.pth_spelling.specs.declared.keyword.EventWord.TheVariants as events;

use crate::places::Places;
use pth_base::attr::{AttrField, AttrValue};
use pth_base::call::Call;
use pth_base::event::EvLine;
use pth_base::memory::OutOfMemory;
use pth_base::query::Query;
use pth_spelling::keyword::{
    AttributeWord, BarrierWord, CallWord, CancellationWord, CleanupWord, ConditionWord, EventWord,
    IoWord, KeyStorageWord, LibraryWord, MutexWord, NewEventWord, PortWord, QueryWord, RwlockWord,
    ThreadWord, UtilityWord,
};
use std::alloc::Global;

/// What the scheduler is asked.
fn query_call(word: QueryWord, at: Places<'_>) -> Query
    ensures { result ≡ by_word.query_call word (placed at.entry) }
{
    match word {
        QueryWord::Threads => Query::Threads,
        QueryWord::New => Query::New,
        QueryWord::Ready => Query::Ready,
        QueryWord::Running => Query::Running,
        QueryWord::Waiting => Query::Waiting,
        QueryWord::Suspended => Query::Suspended,
        QueryWord::Dead => Query::Dead,
        QueryWord::Favournew => Query::Favournew(at.number(1)),
        QueryWord::Prio => Query::Prio(at.number(1)),
        QueryWord::Name => Query::Name(at.number(1)),
    }
}

/// A field with its value.
fn value_call(field: AttrField, at: Places<'_>) -> AttrValue
    ensures { result ≡ by_word.value_call field (placed at.entry) }
{
    match field {
        AttrField::Prio => AttrValue::Prio(at.number(2)),
        AttrField::Name => AttrValue::Name(at.name(2)),
        AttrField::Joinable => AttrValue::Joinable(at.number(2)),
        AttrField::Cancel => AttrValue::Cancel(at.number(2)),
        AttrField::Dispatches => AttrValue::Dispatches(at.number(2)),
        AttrField::State => AttrValue::State(at.number(2)),
        AttrField::Bound => AttrValue::Bound(at.number(2)),
    }
}

/// An event that is chained to a ring.
fn chained_call(kind: NewEventWord, at: Places<'_>) -> EvLine
    ensures { result ≡ by_word.chained_call kind (placed at.entry) }
{
    match kind {
        NewEventWord::Fd => EvLine::Fd {
            goals: at.goals(2),
            fd: at.number(3),
        },
        NewEventWord::Select => EvLine::Select {
            r: at.set(2),
            w: at.set(3),
            x: at.set(4),
        },
        NewEventWord::Time => EvLine::Time(at.number(2)),
        NewEventWord::Msg => EvLine::Msg(at.number(2)),
        NewEventWord::Cond => EvLine::Cond(at.number(2)),
        NewEventWord::Tid => EvLine::Tid {
            state: at.state(2),
            tid: at.number(3),
        },
        NewEventWord::Func => EvLine::Func {
            check: at.number(2),
            arg: at.number(3),
            interval: at.number(4),
        },
    }
}

/// A new event that is in no ring yet.
fn new_event_call(kind: NewEventWord, at: Places<'_>) -> Call
    ensures { result ≡ by_word.new_event_call kind (placed at.entry) }
{
    match kind {
        NewEventWord::Fd => Call::EvFd {
            goals: at.goals(0),
            fd: at.number(1),
        },
        NewEventWord::Select => Call::EvSelect {
            r: at.set(0),
            w: at.set(1),
            x: at.set(2),
        },
        NewEventWord::Time => Call::EvTime(at.number(0)),
        NewEventWord::Msg => Call::EvMsg(at.number(0)),
        NewEventWord::Cond => Call::EvCond(at.number(0)),
        NewEventWord::Tid => Call::EvTid {
            state: at.state(0),
            tid: at.number(1),
        },
        NewEventWord::Func => Call::EvFunc {
            check: at.number(0),
            arg: at.number(1),
            interval: at.number(2),
        },
    }
}

/// A call that manages the library.
fn library_call(word: LibraryWord, at: Places<'_>) -> Call
    ensures { result ≡ by_word.library_call word (placed at.entry) }
{
    match word {
        LibraryWord::Kill => Call::Kill,
        LibraryWord::Ctrl => Call::Ctrl(query_call(at.query(0), at)),
    }
}

/// A call on attribute objects.
fn attribute_call(word: AttributeWord, at: Places<'_>) -> Call
    ensures { result ≡ by_word.attribute_call word (placed at.entry) }
{
    match word {
        AttributeWord::New => Call::AttrNew,
        AttributeWord::Of => Call::AttrOf(at.number(0)),
        AttributeWord::Init => Call::AttrInit(at.number(0)),
        AttributeWord::Set => Call::AttrSet {
            a: at.number(0),
            v: value_call(at.field(1), at),
        },
        AttributeWord::Get => Call::AttrGet {
            a: at.number(0),
            f: at.field(1),
        },
        AttributeWord::Destroy => Call::AttrDestroy(at.number(0)),
    }
}

/// A call on threads.
fn thread_call(word: ThreadWord, at: Places<'_>) -> Call
    ensures { result ≡ by_word.thread_call word (placed at.entry) }
{
    match word {
        ThreadWord::Spawn => Call::Spawn {
            b: at.number(0),
            v: at.number(1),
            a: at.number(2),
        },
        ThreadWord::Once => Call::Once {
            o: at.number(0),
            h: at.number(1),
            v: at.number(2),
        },
        ThreadWord::SelfTid => Call::SelfTid,
        ThreadWord::Suspend => Call::Suspend(at.number(0)),
        ThreadWord::Resume => Call::Resume(at.number(0)),
        ThreadWord::Yield => Call::Yield(at.number(0)),
        ThreadWord::Nap => Call::Nap(at.number(0)),
        ThreadWord::Wait => Call::Wait(at.number(0)),
        ThreadWord::Cancel => Call::Cancel(at.number(0)),
        ThreadWord::Abort => Call::Abort(at.number(0)),
        ThreadWord::Join => Call::Join(at.number(0)),
        ThreadWord::Exit => Call::Exit(at.number(0)),
    }
}

/// A call of the utilities.
fn utility_call(word: UtilityWord, at: Places<'_>) -> Call
    ensures { result ≡ by_word.utility_call word (placed at.entry) }
{
    match word {
        UtilityWord::Fdmode => Call::Fdmode {
            f: at.number(0),
            m: at.number(1),
        },
        UtilityWord::Timeout => Call::Timeout(at.number(0)),
    }
}

/// A call on cancellation.
fn cancellation_call(word: CancellationWord, at: Places<'_>) -> Call
    ensures { result ≡ by_word.cancellation_call word (placed at.entry) }
{
    match word {
        CancellationWord::Point => Call::CancelPoint,
        CancellationWord::State => Call::CancelState(at.number(0)),
    }
}

/// A walk round a ring.
fn walk_call(at: Places<'_>) -> Call
    ensures { result ≡ by_word.event_call events.Walk (placed at.entry) }
{
    let walk = at.walk(1);
    Call::EvWalk {
        e: at.number(0),
        forward: walk.forward,
        until_occurred: walk.until_occurred,
    }
}

/// A call on events.
fn event_call(word: EventWord, at: Places<'_>) -> Call
    ensures { result ≡ by_word.event_call word (placed at.entry) }
{
    match word {
        EventWord::New(kind) => new_event_call(kind, at),
        EventWord::Chain => Call::Chain {
            e: at.number(0),
            line: chained_call(at.event(1), at),
        },
        EventWord::Concat => Call::EvConcat {
            e: at.number(0),
            f: at.number(1),
        },
        EventWord::Isolate => Call::EvIsolate(at.number(0)),
        EventWord::Walk => walk_call(at),
        EventWord::Status => Call::EvStatus(at.number(0)),
        EventWord::Kind => Call::EvKind(at.number(0)),
        EventWord::Free => Call::EvFree {
            e: at.number(0),
            all: at.which(1),
        },
    }
}

/// A call on keys.
fn key_call(word: KeyStorageWord, at: Places<'_>) -> Call
    ensures { result ≡ by_word.key_call word (placed at.entry) }
{
    match word {
        KeyStorageWord::Create => Call::KeyCreate(at.maybe_number(0)),
        KeyStorageWord::Delete => Call::KeyDelete(at.number(0)),
        KeyStorageWord::Set => Call::KeySet {
            k: at.number(0),
            v: at.number(1),
        },
        KeyStorageWord::Get => Call::KeyGet(at.number(0)),
    }
}

/// A call on message ports.
fn port_call(word: PortWord, at: Places<'_>) -> Call
    ensures { result ≡ by_word.call_of (calls.Ports word) (handed (scope at.entry.frame.now at.entry.cells.now) (calls.Ports word) at.entry.arguments.now) }
{
    match word {
        PortWord::Create => Call::PortCreate(at.maybe_name(0)),
        PortWord::Find => Call::PortFind(at.name(0)),
        PortWord::Pending => Call::PortPending(at.number(0)),
        PortWord::Put => Call::PortPut {
            p: at.number(0),
            v: at.number(1),
            r: at.number(2),
        },
        PortWord::Get => Call::PortGet(at.number(0)),
        PortWord::Reply => Call::Reply {
            m: at.frame.message,
            v: at.number(0),
        },
        PortWord::Destroy => Call::PortDestroy(at.number(0)),
    }
}

/// A call on cleanup handlers.
fn cleanup_call(word: CleanupWord, at: Places<'_>) -> Call
    ensures { result ≡ by_word.cleanup_call word (placed at.entry) }
{
    match word {
        CleanupWord::Push => Call::CleanupPush {
            h: at.number(0),
            v: at.number(1),
        },
        CleanupWord::Pop => Call::CleanupPop(at.number(0)),
    }
}

/// A call on mutexes.
fn mutex_call(word: MutexWord, at: Places<'_>) -> Call
    ensures { result ≡ by_word.mutex_call word (placed at.entry) }
{
    match word {
        MutexWord::Init => Call::MutexInit(at.number(0)),
        MutexWord::Acquire => Call::MutexAcquire {
            m: at.number(0),
            v: at.number(1),
            e: at.number(2),
        },
        MutexWord::Release => Call::MutexRelease(at.number(0)),
    }
}

/// A call on read-write locks.
fn rwlock_call(word: RwlockWord, at: Places<'_>) -> Call
    ensures { result ≡ by_word.rwlock_call word (placed at.entry) }
{
    match word {
        RwlockWord::Init => Call::RwInit(at.number(0)),
        RwlockWord::Acquire => Call::RwAcquire {
            l: at.number(0),
            write: at.mode(1),
            v: at.number(2),
            e: at.number(3),
        },
        RwlockWord::Release => Call::RwRelease(at.number(0)),
    }
}

/// A call on conditions.
fn condition_call(word: ConditionWord, at: Places<'_>) -> Call
    ensures { result ≡ by_word.condition_call word (placed at.entry) }
{
    match word {
        ConditionWord::Init => Call::CondInit(at.number(0)),
        ConditionWord::Await => Call::CondAwait {
            c: at.number(0),
            m: at.number(1),
            e: at.number(2),
        },
        ConditionWord::Notify => Call::CondNotify {
            c: at.number(0),
            v: at.number(1),
        },
    }
}

/// A call on barriers.
fn barrier_call(word: BarrierWord, at: Places<'_>) -> Call
    ensures { result ≡ by_word.barrier_call word (placed at.entry) }
{
    match word {
        BarrierWord::Init => Call::BarrierInit {
            b: at.number(0),
            n: at.number(1),
        },
        BarrierWord::Reach => Call::BarrierReach(at.number(0)),
    }
}

fn write_call(alloc: Global, at: Places<'_>) -> Result<Call, OutOfMemory>
    ensures { IfOk result (λ call. call ≡ by_word.io_call ios.Write (placed at.entry)) }
{
    let bytes = at.bytes(alloc, 1)?;
    Ok(Call::Write {
        f: at.number(0),
        bytes,
    })
}

fn write_ev_call(alloc: Global, at: Places<'_>) -> Result<Call, OutOfMemory>
    ensures { IfOk result (λ call. call ≡ by_word.io_call ios.WriteEv (placed at.entry)) }
{
    let bytes = at.bytes(alloc, 1)?;
    Ok(Call::WriteEv {
        f: at.number(0),
        bytes,
        e: at.number(2),
    })
}

/// A call that replaces one of POSIX.
fn io_call(alloc: Global, word: IoWord, at: Places<'_>) -> Result<Call, OutOfMemory>
    ensures { IfOk result (λ call. call ≡ by_word.io_call word (placed at.entry)) }
{
    match word {
        IoWord::Usleep => Ok(Call::Usleep(at.number(0))),
        IoWord::Sleep => Ok(Call::Sleep(at.number(0))),
        IoWord::Read => Ok(Call::Read {
            f: at.number(0),
            n: at.number(1),
        }),
        IoWord::ReadEv => Ok(Call::ReadEv {
            f: at.number(0),
            n: at.number(1),
            e: at.number(2),
        }),
        IoWord::Write => write_call(alloc, at),
        IoWord::WriteEv => write_ev_call(alloc, at),
        IoWord::Accept => Ok(Call::Accept(at.number(0))),
        IoWord::AcceptEv => Ok(Call::AcceptEv {
            f: at.number(0),
            e: at.number(1),
        }),
        IoWord::Connect => Ok(Call::Connect(at.number(0))),
        IoWord::ConnectEv => Ok(Call::ConnectEv {
            f: at.number(0),
            e: at.number(1),
        }),
        IoWord::Select => Ok(Call::Select {
            r: at.set(0),
            w: at.set(1),
            x: at.set(2),
            l: at.number(3),
        }),
        IoWord::SelectEv => Ok(Call::SelectEv {
            r: at.set(0),
            w: at.set(1),
            x: at.set(2),
            l: at.number(3),
            e: at.number(4),
        }),
        IoWord::Close => Ok(Call::Close(at.number(0))),
    }
}

/// The call of a word and its operands. A reply is to the message that the thread got last.
pub(crate) fn call_of(alloc: Global, word: CallWord, at: Places<'_>) -> Result<Call, OutOfMemory>
    ensures { IfOk result (λ call. call ≡ by_word.call_of word (handed (scope at.entry.frame.now at.entry.cells.now) word at.entry.arguments.now)) }
{
    match word {
        CallWord::Library(word) => Ok(library_call(word, at)),
        CallWord::Attributes(word) => Ok(attribute_call(word, at)),
        CallWord::Threads(word) => Ok(thread_call(word, at)),
        CallWord::Utilities(word) => Ok(utility_call(word, at)),
        CallWord::Cancellation(word) => Ok(cancellation_call(word, at)),
        CallWord::Events(word) => Ok(event_call(word, at)),
        CallWord::Keys(word) => Ok(key_call(word, at)),
        CallWord::Ports(word) => Ok(port_call(word, at)),
        CallWord::Cleanups(word) => Ok(cleanup_call(word, at)),
        CallWord::Mutexes(word) => Ok(mutex_call(word, at)),
        CallWord::Rwlocks(word) => Ok(rwlock_call(word, at)),
        CallWord::Conditions(word) => Ok(condition_call(word, at)),
        CallWord::Barriers(word) => Ok(barrier_call(word, at)),
        CallWord::Io(word) => io_call(alloc, word, at),
    }
}

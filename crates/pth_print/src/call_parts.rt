//! The parts of each call, by facility.

ghost use Rattle.std.specs.Prelude.{◌≡◌, [], ◌∷◌, Some, codes};
ghost use Rattle.pth_base.specs.Facilities.{facility_of};
ghost use Rattle.pth_base.specs.declared.call.Call.TheVariants as call;
ghost use Rattle.pth_base.specs.declared.facility.Facility.TheVariants as facility;
ghost use Rattle.pth_print.specs.ArgWords.{field_word};
ghost use Rattle.pth_print.specs.CallWords.{call_words};
ghost use Rattle.pth_print.specs.WordTexts.{number_word, spelled, word_text};

use crate::operand_word::{
    event_word, field_word, goals_word, maybe_name, maybe_number, mode_word, name_word, query_word,
    state_word, walk_word, which_word,
};
use crate::parts::{Parts, alone, five, four, one, three, two};
use crate::word::Word;
use crate::word::Word::{Hex, Number, Plain, Set};
use pth_base::attr::{AttrField, AttrValue};
use pth_base::call::Call;
use pth_base::event::EvLine;
use pth_base::facility::Facility;
use pth_base::query::Query;
use pth_spelling::keyword::CallWord::{
    Attributes, Barriers, Cancellation, Cleanups, Conditions, Events, Io, Keys, Library, Mutexes,
    Ports, Rwlocks, Threads, Utilities,
};
use pth_spelling::keyword::{
    AttributeWord, BarrierWord, CancellationWord, CleanupWord, ConditionWord, EventWord, IoWord,
    KeyStorageWord, LibraryWord, MutexWord, NewEventWord, PortWord, RwlockWord, ThreadWord,
    UtilityWord,
};

/// A call that asks the scheduler.
fn query_parts(query: &Query) -> Parts<'_>
    ensures { spelled result ≡ call_words (call.Ctrl query.now) }
{
    let word = Plain(query_word(query));
    match query {
        Query::Favournew(n) | Query::Prio(n) | Query::Name(n) => two(
            Library(LibraryWord::Ctrl),
            word,
            Number(n),
        ),
        _ => one(Library(LibraryWord::Ctrl), word),
    }
}

/// A call that sets a field.
fn field_parts<'a>(a: &'a i64, field: AttrField, value: Word<'a>) -> Parts<'a>
    ensures { spelled result ≡ codes "attr_set" ∷ number_word a.now ∷ field_word field ∷ word_text value.entry ∷ [] }
{
    three(
        Attributes(AttributeWord::Set),
        Number(a),
        Plain(field_word(field)),
        value,
    )
}

/// A call that sets a field to this value.
fn value_parts<'a>(a: &'a i64, value: &'a AttrValue) -> Parts<'a>
    ensures { spelled result ≡ call_words (call.AttrSet a.now value.now) }
{
    match value {
        AttrValue::Prio(n) => field_parts(a, AttrField::Prio, Number(n)),
        AttrValue::Name(name) => field_parts(a, AttrField::Name, name_word(name)),
        AttrValue::Joinable(n) => field_parts(a, AttrField::Joinable, Number(n)),
        AttrValue::Cancel(n) => field_parts(a, AttrField::Cancel, Number(n)),
        AttrValue::Dispatches(n) => field_parts(a, AttrField::Dispatches, Number(n)),
        AttrValue::State(n) => field_parts(a, AttrField::State, Number(n)),
        AttrValue::Bound(n) => field_parts(a, AttrField::Bound, Number(n)),
    }
}

/// A call that chains an event to a ring.
fn chain_parts<'a>(e: &'a i64, line: &'a EvLine) -> Parts<'a>
    ensures { spelled result ≡ call_words (call.Chain e.now line.now) }
{
    match line {
        EvLine::Fd { goals, fd } => four(
            Events(EventWord::Chain),
            Number(e),
            event_word(NewEventWord::Fd),
            Plain(goals_word(*goals)),
            Number(fd),
        ),
        EvLine::Select { r, w, x } => five(
            Events(EventWord::Chain),
            Number(e),
            event_word(NewEventWord::Select),
            Set(*r),
            Set(*w),
            Set(*x),
        ),
        EvLine::Time(m) => three(
            Events(EventWord::Chain),
            Number(e),
            event_word(NewEventWord::Time),
            Number(m),
        ),
        EvLine::Msg(p) => three(
            Events(EventWord::Chain),
            Number(e),
            event_word(NewEventWord::Msg),
            Number(p),
        ),
        EvLine::Cond(c) => three(
            Events(EventWord::Chain),
            Number(e),
            event_word(NewEventWord::Cond),
            Number(c),
        ),
        EvLine::Tid { state, tid } => four(
            Events(EventWord::Chain),
            Number(e),
            event_word(NewEventWord::Tid),
            Plain(state_word(*state)),
            Number(tid),
        ),
        EvLine::Func {
            check,
            arg,
            interval,
        } => five(
            Events(EventWord::Chain),
            Number(e),
            event_word(NewEventWord::Func),
            Number(check),
            Number(arg),
            Number(interval),
        ),
    }
}

/// A call that manages the library.
fn library_parts(call: &Call) -> Parts<'_>
    requires { facility_of call.now ≡ Some facility.Library }
    ensures { spelled result ≡ call_words call.now }
{
    match call {
        Call::Kill => alone(Library(LibraryWord::Kill)),
        Call::Ctrl(query) => query_parts(query),
        _ => unreachable!(),
    }
}

/// A call on attribute objects.
fn attribute_parts(call: &Call) -> Parts<'_>
    requires { facility_of call.now ≡ Some facility.Attributes }
    ensures { spelled result ≡ call_words call.now }
{
    match call {
        Call::AttrNew => alone(Attributes(AttributeWord::New)),
        Call::AttrOf(t) => one(Attributes(AttributeWord::Of), Number(t)),
        Call::AttrInit(a) => one(Attributes(AttributeWord::Init), Number(a)),
        Call::AttrSet { a, v } => value_parts(a, v),
        Call::AttrGet { a, f } => two(
            Attributes(AttributeWord::Get),
            Number(a),
            Plain(field_word(*f)),
        ),
        Call::AttrDestroy(a) => one(Attributes(AttributeWord::Destroy), Number(a)),
        _ => unreachable!(),
    }
}

/// A call on threads.
fn thread_parts(call: &Call) -> Parts<'_>
    requires { facility_of call.now ≡ Some facility.Threads }
    ensures { spelled result ≡ call_words call.now }
{
    match call {
        Call::Spawn { b, v, a } => three(
            Threads(ThreadWord::Spawn),
            Number(b),
            Number(v),
            Number(a),
        ),
        Call::Once { o, h, v } => three(Threads(ThreadWord::Once), Number(o), Number(h), Number(v)),
        Call::SelfTid => alone(Threads(ThreadWord::SelfTid)),
        Call::Suspend(t) => one(Threads(ThreadWord::Suspend), Number(t)),
        Call::Resume(t) => one(Threads(ThreadWord::Resume), Number(t)),
        Call::Yield(t) => one(Threads(ThreadWord::Yield), Number(t)),
        Call::Nap(l) => one(Threads(ThreadWord::Nap), Number(l)),
        Call::Wait(e) => one(Threads(ThreadWord::Wait), Number(e)),
        Call::Cancel(t) => one(Threads(ThreadWord::Cancel), Number(t)),
        Call::Abort(t) => one(Threads(ThreadWord::Abort), Number(t)),
        Call::Join(t) => one(Threads(ThreadWord::Join), Number(t)),
        Call::Exit(v) => one(Threads(ThreadWord::Exit), Number(v)),
        _ => unreachable!(),
    }
}

/// A call of the utilities.
fn utility_parts(call: &Call) -> Parts<'_>
    requires { facility_of call.now ≡ Some facility.Utilities }
    ensures { spelled result ≡ call_words call.now }
{
    match call {
        Call::Fdmode { f, m } => two(Utilities(UtilityWord::Fdmode), Number(f), Number(m)),
        Call::Timeout(l) => one(Utilities(UtilityWord::Timeout), Number(l)),
        _ => unreachable!(),
    }
}

/// A call on cancellation.
fn cancellation_parts(call: &Call) -> Parts<'_>
    requires { facility_of call.now ≡ Some facility.Cancellation }
    ensures { spelled result ≡ call_words call.now }
{
    match call {
        Call::CancelPoint => alone(Cancellation(CancellationWord::Point)),
        Call::CancelState(n) => one(Cancellation(CancellationWord::State), Number(n)),
        _ => unreachable!(),
    }
}

/// A call on events.
fn event_parts(call: &Call) -> Parts<'_>
    requires { facility_of call.now ≡ Some facility.Events }
    ensures { spelled result ≡ call_words call.now }
{
    match call {
        Call::EvFd { goals, fd } => two(
            Events(EventWord::New(NewEventWord::Fd)),
            Plain(goals_word(*goals)),
            Number(fd),
        ),
        Call::EvSelect { r, w, x } => three(
            Events(EventWord::New(NewEventWord::Select)),
            Set(*r),
            Set(*w),
            Set(*x),
        ),
        Call::EvTime(m) => one(Events(EventWord::New(NewEventWord::Time)), Number(m)),
        Call::EvMsg(p) => one(Events(EventWord::New(NewEventWord::Msg)), Number(p)),
        Call::EvCond(c) => one(Events(EventWord::New(NewEventWord::Cond)), Number(c)),
        Call::EvTid { state, tid } => two(
            Events(EventWord::New(NewEventWord::Tid)),
            Plain(state_word(*state)),
            Number(tid),
        ),
        Call::EvFunc {
            check,
            arg,
            interval,
        } => three(
            Events(EventWord::New(NewEventWord::Func)),
            Number(check),
            Number(arg),
            Number(interval),
        ),
        Call::Chain { e, line } => chain_parts(e, line),
        Call::EvConcat { e, f } => two(Events(EventWord::Concat), Number(e), Number(f)),
        Call::EvIsolate(e) => one(Events(EventWord::Isolate), Number(e)),
        Call::EvWalk {
            e,
            forward,
            until_occurred,
        } => two(
            Events(EventWord::Walk),
            Number(e),
            Plain(walk_word(*forward, *until_occurred)),
        ),
        Call::EvStatus(e) => one(Events(EventWord::Status), Number(e)),
        Call::EvKind(e) => one(Events(EventWord::Kind), Number(e)),
        Call::EvFree { e, all } => two(Events(EventWord::Free), Number(e), Plain(which_word(*all))),
        _ => unreachable!(),
    }
}

/// A call on keys.
fn key_parts(call: &Call) -> Parts<'_>
    requires { facility_of call.now ≡ Some facility.Keys }
    ensures { spelled result ≡ call_words call.now }
{
    match call {
        Call::KeyCreate(handler) => one(Keys(KeyStorageWord::Create), maybe_number(handler)),
        Call::KeyDelete(k) => one(Keys(KeyStorageWord::Delete), Number(k)),
        Call::KeySet { k, v } => two(Keys(KeyStorageWord::Set), Number(k), Number(v)),
        Call::KeyGet(k) => one(Keys(KeyStorageWord::Get), Number(k)),
        _ => unreachable!(),
    }
}

/// A call on message ports.
fn port_parts(call: &Call) -> Parts<'_>
    requires { facility_of call.now ≡ Some facility.Ports }
    ensures { spelled result ≡ call_words call.now }
{
    match call {
        Call::PortCreate(name) => one(Ports(PortWord::Create), maybe_name(name)),
        Call::PortFind(name) => one(Ports(PortWord::Find), name_word(name)),
        Call::PortPending(p) => one(Ports(PortWord::Pending), Number(p)),
        Call::PortPut { p, v, r } => three(Ports(PortWord::Put), Number(p), Number(v), Number(r)),
        Call::PortGet(p) => one(Ports(PortWord::Get), Number(p)),
        Call::Reply { m, v } => two(Ports(PortWord::Reply), Number(m), Number(v)),
        Call::PortDestroy(p) => one(Ports(PortWord::Destroy), Number(p)),
        _ => unreachable!(),
    }
}

/// A call on cleanup handlers.
fn cleanup_parts(call: &Call) -> Parts<'_>
    requires { facility_of call.now ≡ Some facility.Cleanups }
    ensures { spelled result ≡ call_words call.now }
{
    match call {
        Call::CleanupPush { h, v } => two(Cleanups(CleanupWord::Push), Number(h), Number(v)),
        Call::CleanupPop(v) => one(Cleanups(CleanupWord::Pop), Number(v)),
        _ => unreachable!(),
    }
}

/// A call on mutexes.
fn mutex_parts(call: &Call) -> Parts<'_>
    requires { facility_of call.now ≡ Some facility.Mutexes }
    ensures { spelled result ≡ call_words call.now }
{
    match call {
        Call::MutexInit(m) => one(Mutexes(MutexWord::Init), Number(m)),
        Call::MutexAcquire { m, v, e } => three(
            Mutexes(MutexWord::Acquire),
            Number(m),
            Number(v),
            Number(e),
        ),
        Call::MutexRelease(m) => one(Mutexes(MutexWord::Release), Number(m)),
        _ => unreachable!(),
    }
}

/// A call on read-write locks.
fn rwlock_parts(call: &Call) -> Parts<'_>
    requires { facility_of call.now ≡ Some facility.Rwlocks }
    ensures { spelled result ≡ call_words call.now }
{
    match call {
        Call::RwInit(l) => one(Rwlocks(RwlockWord::Init), Number(l)),
        Call::RwAcquire { l, write, v, e } => four(
            Rwlocks(RwlockWord::Acquire),
            Number(l),
            Plain(mode_word(*write)),
            Number(v),
            Number(e),
        ),
        Call::RwRelease(l) => one(Rwlocks(RwlockWord::Release), Number(l)),
        _ => unreachable!(),
    }
}

/// A call on conditions.
fn condition_parts(call: &Call) -> Parts<'_>
    requires { facility_of call.now ≡ Some facility.Conditions }
    ensures { spelled result ≡ call_words call.now }
{
    match call {
        Call::CondInit(c) => one(Conditions(ConditionWord::Init), Number(c)),
        Call::CondAwait { c, m, e } => three(
            Conditions(ConditionWord::Await),
            Number(c),
            Number(m),
            Number(e),
        ),
        Call::CondNotify { c, v } => two(Conditions(ConditionWord::Notify), Number(c), Number(v)),
        _ => unreachable!(),
    }
}

/// A call on barriers.
fn barrier_parts(call: &Call) -> Parts<'_>
    requires { facility_of call.now ≡ Some facility.Barriers }
    ensures { spelled result ≡ call_words call.now }
{
    match call {
        Call::BarrierInit { b, n } => two(Barriers(BarrierWord::Init), Number(b), Number(n)),
        Call::BarrierReach(b) => one(Barriers(BarrierWord::Reach), Number(b)),
        _ => unreachable!(),
    }
}

/// A call that replaces one of POSIX.
fn io_parts(call: &Call) -> Parts<'_>
    requires { facility_of call.now ≡ Some facility.Io }
    ensures { spelled result ≡ call_words call.now }
{
    match call {
        Call::Usleep(l) => one(Io(IoWord::Usleep), Number(l)),
        Call::Sleep(s) => one(Io(IoWord::Sleep), Number(s)),
        Call::Read { f, n } => two(Io(IoWord::Read), Number(f), Number(n)),
        Call::ReadEv { f, n, e } => three(Io(IoWord::ReadEv), Number(f), Number(n), Number(e)),
        Call::Write { f, bytes } => two(Io(IoWord::Write), Number(f), Hex(bytes.as_slice())),
        Call::WriteEv { f, bytes, e } => three(
            Io(IoWord::WriteEv),
            Number(f),
            Hex(bytes.as_slice()),
            Number(e),
        ),
        Call::Accept(f) => one(Io(IoWord::Accept), Number(f)),
        Call::AcceptEv { f, e } => two(Io(IoWord::AcceptEv), Number(f), Number(e)),
        Call::Connect(f) => one(Io(IoWord::Connect), Number(f)),
        Call::ConnectEv { f, e } => two(Io(IoWord::ConnectEv), Number(f), Number(e)),
        Call::Select { r, w, x, l } => four(
            Io(IoWord::Select),
            Set(*r),
            Set(*w),
            Set(*x),
            Number(l),
        ),
        Call::SelectEv { r, w, x, l, e } => five(
            Io(IoWord::SelectEv),
            Set(*r),
            Set(*w),
            Set(*x),
            Number(l),
            Number(e),
        ),
        Call::Close(f) => one(Io(IoWord::Close), Number(f)),
        _ => unreachable!(),
    }
}

/// A call in parts.
pub fn parts_of(call: &Call, facility: Facility) -> Parts<'_>
    requires { facility_of call.now ≡ Some facility }
    ensures { spelled result ≡ call_words call.now }
{
    match facility {
        Facility::Library => library_parts(call),
        Facility::Attributes => attribute_parts(call),
        Facility::Threads => thread_parts(call),
        Facility::Utilities => utility_parts(call),
        Facility::Cancellation => cancellation_parts(call),
        Facility::Events => event_parts(call),
        Facility::Keys => key_parts(call),
        Facility::Ports => port_parts(call),
        Facility::Cleanups => cleanup_parts(call),
        Facility::Mutexes => mutex_parts(call),
        Facility::Rwlocks => rwlock_parts(call),
        Facility::Conditions => condition_parts(call),
        Facility::Barriers => barrier_parts(call),
        Facility::Io => io_parts(call),
    }
}

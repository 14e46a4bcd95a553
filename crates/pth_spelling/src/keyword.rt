//! The words that begin lines.

/// A call that manages the library.
#[derive(Clone, Copy)]
pub enum LibraryWord {
    Kill,
    Ctrl,
}

/// What the scheduler is asked (`pth_ctrl`).
#[derive(Clone, Copy)]
pub enum QueryWord {
    Threads,
    New,
    Ready,
    Running,
    Waiting,
    Suspended,
    Dead,
    Favournew,
    Prio,
    Name,
}

/// A call on attribute objects.
#[derive(Clone, Copy)]
pub enum AttributeWord {
    New,
    Of,
    Init,
    Set,
    Get,
    Destroy,
}

/// A call on threads.
#[derive(Clone, Copy)]
pub enum ThreadWord {
    Spawn,
    Once,
    SelfTid,
    Suspend,
    Resume,
    Yield,
    Nap,
    Wait,
    Cancel,
    Abort,
    Join,
    Exit,
}

/// A call of the utilities.
#[derive(Clone, Copy)]
pub enum UtilityWord {
    Fdmode,
    Timeout,
}

/// A call on cancellation.
#[derive(Clone, Copy)]
pub enum CancellationWord {
    Point,
    State,
}

/// A new event.
#[derive(Clone, Copy)]
pub enum NewEventWord {
    Fd,
    Select,
    Time,
    Msg,
    Cond,
    Tid,
    Func,
}

/// A call on events.
#[derive(Clone, Copy)]
pub enum EventWord {
    New(NewEventWord),
    Chain,
    Concat,
    Isolate,
    Walk,
    Status,
    Kind,
    Free,
}

/// A call on keys.
#[derive(Clone, Copy)]
pub enum KeyStorageWord {
    Create,
    Delete,
    Set,
    Get,
}

/// A call on message ports.
#[derive(Clone, Copy)]
pub enum PortWord {
    Create,
    Find,
    Pending,
    Put,
    Get,
    Reply,
    Destroy,
}

/// A call on cleanup handlers.
#[derive(Clone, Copy)]
pub enum CleanupWord {
    Push,
    Pop,
}

/// A call on mutexes.
#[derive(Clone, Copy)]
pub enum MutexWord {
    Init,
    Acquire,
    Release,
}

/// A call on read-write locks.
#[derive(Clone, Copy)]
pub enum RwlockWord {
    Init,
    Acquire,
    Release,
}

/// A call on conditions.
#[derive(Clone, Copy)]
pub enum ConditionWord {
    Init,
    Await,
    Notify,
}

/// A call on barriers.
#[derive(Clone, Copy)]
pub enum BarrierWord {
    Init,
    Reach,
}

/// A call that replaces one of POSIX.
#[derive(Clone, Copy)]
pub enum IoWord {
    Usleep,
    Sleep,
    Read,
    ReadEv,
    Write,
    WriteEv,
    Accept,
    AcceptEv,
    Connect,
    ConnectEv,
    Select,
    SelectEv,
    Close,
}

/// The word of a call line, by the facility of pth(3).
#[derive(Clone, Copy)]
pub enum CallWord {
    Library(LibraryWord),
    Attributes(AttributeWord),
    Threads(ThreadWord),
    Utilities(UtilityWord),
    Cancellation(CancellationWord),
    Events(EventWord),
    Keys(KeyStorageWord),
    Ports(PortWord),
    Cleanups(CleanupWord),
    Mutexes(MutexWord),
    Rwlocks(RwlockWord),
    Conditions(ConditionWord),
    Barriers(BarrierWord),
    Io(IoWord),
}

/// What comes to a descriptor.
#[derive(Clone, Copy)]
pub enum EntryWord {
    In,
    Eof,
    Room,
    Conn,
    Up,
    Refuse,
    Exc,
    Err,
}

/// The first word of a line that does not begin with a register.
#[derive(Clone, Copy)]
pub enum Keyword {
    Handler,
    Check,
    Thread,
    End,
    Note,
    Set,
    Add,
    Label,
    Goto,
    Release,
    Notify,
    Put,
    SetKey,
    Kernel,
    Clock,
    Open,
    At,
    Call(CallWord),
}

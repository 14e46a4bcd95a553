//! The record of a thread, and the changes that it takes.

ghost use Rattle.std.specs.Prelude.{◌≡◌};
ghost use Rattle.pth_threads.specs.Threads.{changed, made_of};

use pth_base::ids::Tid;
use pth_base::name::Name;
pub use pth_base::thread::ThreadState;
pub use pth_numbered::error::AddErr;

/// What a new thread is given (`pth_attr_t` at `pth_spawn`).
#[derive(Drop)]
pub struct NewThread {
    /// The base priority, from -N to N with the N of the run (`PTH_ATTR_PRIO`).
    pub prio: i64,
    pub name: Name,
    /// Whether its end waits for a `pth_join` (`PTH_ATTR_JOINABLE`).
    pub joinable: bool,
    /// The cancel state, from 1 to 4 (`PTH_ATTR_CANCEL_STATE`).
    pub cancel: u8,
}

/// The record of a thread in the system.
#[derive(Drop)]
pub struct Entry {
    pub tid: Tid,
    /// The base priority, from -N to N with the N of the run (`PTH_ATTR_PRIO`).
    pub prio: i64,
    pub name: Name,
    /// Whether its end waits for a `pth_join` (`PTH_ATTR_JOINABLE`).
    pub joinable: bool,
    /// The cancel state, from 1 to 4 (`PTH_ATTR_CANCEL_STATE`).
    pub cancel: u8,
    /// Whether a cancel was asked for that is not yet carried out (`pth_cancel`).
    pub request: bool,
    pub state: ThreadState,
    /// Whether it stands among the suspended threads until it is resumed (`pth_suspend`).
    pub suspended: bool,
    /// How often it was given the processor (`PTH_ATTR_DISPATCHES`).
    pub dispatches: u64,
    /// What it ended with, 0 until then (`pth_exit`).
    pub value: i64,
}

/// A new value of one field of a record.
#[derive(Drop)]
pub enum Change {
    Prio(i64),
    Name(Name),
    Joinable(bool),
    Cancel(u8),
    Request(bool),
    State(ThreadState),
    Suspended(bool),
    Dispatches(u64),
    Value(i64),
}

impl Entry {
    /// The record of a new thread.
    #[tactic(auto, unfolding(crate::specs::Threads::made_of))]
    pub(crate) fn new(of: NewThread, tid: Tid) -> Entry
        ensures { result ≡ made_of of tid.0 }
    {
        Entry {
            tid,
            prio: of.prio,
            name: of.name,
            joinable: of.joinable,
            cancel: of.cancel,
            request: false,
            state: ThreadState::New,
            suspended: false,
            dispatches: 0,
            value: 0,
        }
    }

    /// Sets one field.
    #[tactic(auto, unfolding(crate::specs::Threads::changed))]
    pub(crate) fn set(&mut self, change: Change)
        ensures { self.new ≡ changed change self.old }
    {
        match change {
            Change::Prio(prio) => self.prio = prio,
            Change::Name(name) => self.name = name,
            Change::Joinable(joinable) => self.joinable = joinable,
            Change::Cancel(cancel) => self.cancel = cancel,
            Change::Request(request) => self.request = request,
            Change::State(state) => self.state = state,
            Change::Suspended(suspended) => self.suspended = suspended,
            Change::Dispatches(dispatches) => self.dispatches = dispatches,
            Change::Value(value) => self.value = value,
        }
    }
}

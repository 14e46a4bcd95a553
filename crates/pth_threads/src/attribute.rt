//! An attribute object, and the values for new threads.

ghost use Rattle.std.specs.Prelude.{◌≡◌};
ghost use Rattle.pth_threads.specs.Attributes.{first_values, values_of};

use crate::entry::{Entry, NewThread};
use pth_base::ids::Tid;
use pth_base::name::Name;

/// An attribute object (`pth_attr_t`).
#[derive(Drop)]
pub enum Attribute {
    /// With values of its own, for threads to come (`pth_attr_new`).
    Free(NewThread),
    /// Bound to a thread, which may be gone by now (`pth_attr_of`).
    Bound(Tid),
}

// The values of a new object.
pub(crate) fn new_values() -> NewThread
    ensures { result ≡ first_values }
{
    NewThread {
        prio: 0,
        name: Name::cut("unknown"),
        joinable: true,
        cancel: 1,
    }
}

// What a thread would pass on to another.
pub(crate) fn thread_values(entry: &Entry) -> NewThread
    ensures { result ≡ values_of entry.now }
{
    NewThread {
        prio: entry.prio,
        name: entry.name.copy(),
        joinable: entry.joinable,
        cancel: entry.cancel,
    }
}

// Equal values, which take no memory.
pub(crate) fn copied_values(values: &NewThread) -> NewThread
    ensures { result ≡ values.now }
{
    NewThread {
        prio: values.prio,
        name: values.name.copy(),
        joinable: values.joinable,
        cancel: values.cancel,
    }
}

//! Ports by number.

ghost use Rattle.std.specs.Prelude.{◌≡◌, ◌+◌, None, Some, OnOk, OnErr, length, is_some, if◌then◌else◌};
ghost use Rattle.std.specs.Ordering.{nat_cmp};
ghost use Rattle.std.specs.BTreeMap.{IsOrdered};
ghost use Rattle.pth_base.specs.Table.{put};
ghost use Rattle.pth_port.specs.Mail.{has_name};
ghost use Rattle.pth_port.specs.Ports.{entry_at, with_entry, with_queue, queue_in, first_named};

use crate::stored_messages::Queue;
use pth_base::memory::OutOfMemory;
use pth_base::name::Name;
use std::collections::BTreeMap;

/// A live port.
pub(crate) struct Port {
    pub name: Option<Name>,
    pub queue: Queue,
}

// By hand, so that letting one go is one call in each proof.
impl Drop for Port {
    #[inline(always)]
    fn drop(self) {
        let Port { name: _, queue: _ } = self;
    }
}

// The queue of a port.
#[tactic(auto, unfolding(crate::specs::Ports::entry_at))]
pub(crate) fn queue_of(ports: &BTreeMap<u32, Port>, p: u32) -> Option<Queue>
    ensures { result ≡ queue_in (entry_at ports.now.entries p) }
{
    match ports.get(&p) {
        Some(port) => Some(port.queue),
        None => None,
    }
}

// The queue of a port is another.
pub(crate) fn set_queue(ports: &mut BTreeMap<u32, Port>, p: u32, queue: Queue)
    ensures ports { entry_at ports.new.entries
        ≡ with_entry p (with_queue queue) (entry_at ports.old.entries) }
    ensures count { length ports.new.entries ≡ length ports.old.entries }
{
    if let Some(port) = ports.get_mut(&p) {
        port.queue = queue;
    }
}

// A port more, under a number that none has.
#[tactic(auto, unfolding(crate::specs::Ports::entry_at))]
pub(crate) fn add_port(
    ports: &mut BTreeMap<u32, Port>,
    p: u32,
    port: Port,
) -> Result<(), OutOfMemory>
    requires { entry_at ports.old.entries p ≡ None }
    ensures ports { OnOk result (entry_at ports.new.entries
        ≡ put (entry_at ports.old.entries) p (Some port)) }
    ensures count { OnOk result (length ports.new.entries ≡ length ports.old.entries + 1) }
    ensures refused { OnErr result (ports.new.entries ≡ ports.old.entries) }
{
    let _none = ports.insert(p, port)?;
    Ok(())
}

// A port is gone.
#[tactic(auto, unfolding(crate::specs::Ports::entry_at))]
pub(crate) fn remove_port(ports: &mut BTreeMap<u32, Port>, p: u32)
    ensures ports { entry_at ports.new.entries ≡ put (entry_at ports.old.entries) p None }
    ensures count { length ports.new.entries
        + (if is_some (entry_at ports.old.entries p) then 1 else 0)
        ≡ length ports.old.entries }
{
    let _port = ports.remove(&p);
}

// Whether a port has this name.
fn has_name(name: &Name, port: &Port) -> bool
    ensures { result ≡ has_name name.now port.now.name }
{
    match &port.name {
        Some(other) => name.as_str() == other.as_str(),
        None => false,
    }
}

// The first port that has this name.
pub(crate) fn port_named(ports: &BTreeMap<u32, Port>, name: &Name) -> Option<u32>
    ensures named { result ≡ first_named name.now ports.now.entries }
    ensures ordered { IsOrdered nat_cmp ports.now }
{
    for (p, port) in ports {
        if has_name(name, port) {
            return Some(*p);
        }
    }
    None
}

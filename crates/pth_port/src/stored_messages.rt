//! Messages by number, and the queues in which they stand.

ghost use Rattle.std.specs.Prelude.{◌≡◌, ◌+◌, ◌<◌, None, Some, OnOk, OnErr, length, is_some, if◌then◌else◌};
ghost use Rattle.pth_base.specs.Table.{put};
ghost use Rattle.pth_port.specs.Ports.{stored_in, with_entry, at_place, rewritten, without_reply, next_in, is_held, taken_first, with_last, without_first, linked};

use pth_base::ids::PortId;
use pth_base::memory::OutOfMemory;
use std::collections::HashMap;

/// The messages that are queued at a port, by the numbers of the first and of the last of them. Where there are none, these
/// say nothing.
#[derive(Clone, Copy)]
pub(crate) struct Queue {
    pub first: u64,
    pub last: u64,
    pub length: u32,
}

impl Queue {
    // Nothing is queued.
    pub(crate) fn new() -> Queue
        ensures { result.length ≡ 0 }
    {
        Queue {
            first: 0,
            last: 0,
            length: 0,
        }
    }

    // A message is the last.
    fn with_last(self, n: u64) -> Queue
        requires { self.length < 4294967295 }
        ensures { result ≡ with_last n self }
    {
        Queue {
            first: if self.length == 0 { n } else { self.first },
            last: n,
            length: self.length + 1,
        }
    }

    // The first is taken, behind which the message `next` stood.
    pub(crate) fn without_first(self, next: u64) -> Queue
        requires { 0 < self.length }
        ensures { result ≡ without_first next self }
    {
        Queue {
            first: next,
            last: self.last,
            length: self.length - 1,
        }
    }
}

/// Where a message is.
#[derive(Clone, Copy)]
pub(crate) enum Place {
    /// Queued at a port, in front of the message `next`. Of the last one there `next` says nothing.
    Queued { port: PortId, next: u64 },
    /// Got, and not sent back.
    Held,
}

impl Place {
    // Whether the message was got.
    pub(crate) fn is_held(self) -> bool
        ensures { result ≡ is_held self }
    {
        matches!(self, Place::Held)
    }

    // The number of the message behind it in its queue.
    pub(crate) fn next(self) -> u64
        ensures { result ≡ next_in self }
    {
        match self {
            Place::Queued { port: _, next } => next,
            Place::Held => 0,
        }
    }
}

/// A message: its value, the port for its reply, and where it is.
#[derive(Clone, Copy)]
pub(crate) struct StoredMessage {
    pub value: i64,
    pub reply: Option<PortId>,
    pub place: Place,
}

// The message of a number.
#[tactic(auto, unfolding(crate::specs::Ports::stored_in))]
pub(crate) fn stored_of(
    stored_messages: &HashMap<u64, StoredMessage>,
    n: u64,
) -> Option<StoredMessage>
    ensures { result ≡ stored_in stored_messages.now.entries n }
{
    stored_messages.get(&n).copied()
}

// The first message of a queue, with its number.
pub(crate) fn first_of(
    stored_messages: &HashMap<u64, StoredMessage>,
    queue: Queue,
) -> Option<(u64, StoredMessage)>
    ensures { result ≡ taken_first queue (stored_in stored_messages.now.entries queue.first) }
{
    if queue.length == 0 {
        return None;
    }
    match stored_of(stored_messages, queue.first) {
        Some(stored) => Some((queue.first, stored)),
        None => None,
    }
}

// A message is at another place.
pub(crate) fn set_place(stored_messages: &mut HashMap<u64, StoredMessage>, n: u64, place: Place)
    ensures stored_messages { stored_in stored_messages.new.entries
        ≡ with_entry n (at_place place) (stored_in stored_messages.old.entries) }
    ensures count { length stored_messages.new.entries ≡ length stored_messages.old.entries }
{
    if let Some(stored) = stored_messages.get_mut(&n) {
        stored.place = place;
    }
}

// A message has another value, and no port for its reply.
pub(crate) fn rewrite(stored_messages: &mut HashMap<u64, StoredMessage>, n: u64, value: i64)
    ensures stored_messages { stored_in stored_messages.new.entries
        ≡ with_entry n (rewritten value) (stored_in stored_messages.old.entries) }
    ensures count { length stored_messages.new.entries ≡ length stored_messages.old.entries }
{
    if let Some(stored) = stored_messages.get_mut(&n) {
        stored.value = value;
        stored.reply = None;
    }
}

// A message has no port for its reply.
pub(crate) fn clear_reply(stored_messages: &mut HashMap<u64, StoredMessage>, n: u64)
    ensures stored_messages { stored_in stored_messages.new.entries
        ≡ with_entry n without_reply (stored_in stored_messages.old.entries) }
    ensures count { length stored_messages.new.entries ≡ length stored_messages.old.entries }
{
    if let Some(stored) = stored_messages.get_mut(&n) {
        stored.reply = None;
    }
}

// A message more, under a number that none has.
#[tactic(auto, unfolding(crate::specs::Ports::stored_in))]
pub(crate) fn store_message(
    stored_messages: &mut HashMap<u64, StoredMessage>,
    n: u64,
    stored: StoredMessage,
) -> Result<(), OutOfMemory>
    requires { stored_in stored_messages.old.entries n ≡ None }
    ensures stored_messages { OnOk result (stored_in stored_messages.new.entries
        ≡ put (stored_in stored_messages.old.entries) n (Some stored)) }
    ensures count { OnOk result (length stored_messages.new.entries ≡ length stored_messages.old.entries + 1) }
    ensures refused { OnErr result (stored_messages.new.entries ≡ stored_messages.old.entries) }
{
    let _none = stored_messages.insert(n, stored)?;
    Ok(())
}

// A message is gone.
#[tactic(auto, unfolding(crate::specs::Ports::stored_in))]
pub(crate) fn remove_stored(stored_messages: &mut HashMap<u64, StoredMessage>, n: u64)
    ensures stored_messages { stored_in stored_messages.new.entries ≡ put (stored_in stored_messages.old.entries) n None }
    ensures count { length stored_messages.new.entries
        + (if is_some (stored_in stored_messages.old.entries n) then 1 else 0)
        ≡ length stored_messages.old.entries }
{
    let _stored = stored_messages.remove(&n);
}

// A message is the last of a queue at a port. The answer is the queue from now on.
pub(crate) fn add_last(
    stored_messages: &mut HashMap<u64, StoredMessage>,
    queue: Queue,
    port: PortId,
    n: u64,
) -> Queue
    requires { queue.length < 4294967295 }
    ensures stored_messages { stored_in stored_messages.new.entries
        ≡ linked port n queue (stored_in stored_messages.old.entries) }
    ensures count { length stored_messages.new.entries ≡ length stored_messages.old.entries }
    ensures queue { result ≡ with_last n queue }
{
    if queue.length > 0 {
        set_place(stored_messages, queue.last, Place::Queued { port, next: n });
    }
    set_place(stored_messages, n, Place::Queued { port, next: 0 });
    queue.with_last(n)
}

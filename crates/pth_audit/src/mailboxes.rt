//! Whether marks are in order: who gets a message of a port gets the oldest one, nobody is told that there is none while there is one, and
//! whoever asks how many there are is told.

ghost use Rattle.std.specs.Prelude.{◌≡◌, ◌+◌, ◌==◌, ◌++◌, ◌∷◌, [], ◌↔◌, ◌≤◌, ◌^◌, ℕ, List, None, Some, true, OnOk, IsErrOf, IsTrue, is_some, length, option_map, map, if◌then◌else◌};
ghost use Rattle.pth_base.specs.Table.{put};
ghost use Rattle.pth_base.specs.declared.ids.Tid.{Tid};
ghost use Rattle.pth_base.specs.declared.mark.Mark.{Mark as MarkOf};
ghost use Rattle.pth_numbered.specs.Operands.{number, ◌is◌};
ghost use Rattle.pth_port.specs.Mail.{messages_of, with_port, put_to, sent, sent_back, got, replied, closed_port};
ghost use Rattle.pth_laws.specs.InOrder.{port_index, reply_index, mail_after, queue, IsInOrderAt};
ghost use Rattle.pth_audit.specs.Mailboxes.{message_of, messages_in, queues_of, kept_of, mail_of, sent_at, first, without_first, created, got_of, is_first, is_got_in_order, is_counted_in_order, is_answer_in_order, is_in_order, queue_in, HasNumber, FollowsMail};

use crate::error::AuditErr;
use crate::success::is_one;
use pth_base::act::Act;
use pth_base::answer::Answer;
use pth_base::call::Call;
use pth_base::errno::Errno;
use pth_base::mark::Mark;
use pth_base::memory::OutOfMemory;
use std::alloc::Global;
use std::collections::{BTreeMap, VecDeque};

// A message: its number, its value, and the index of the port for its reply, 0 for none.
#[derive(Clone, Copy)]
struct StoredMessage {
    number: u64,
    value: i64,
    reply: u128,
}

// The index of a port: each number has one of its own.
fn port_index(p: i64) -> u128
    ensures { result ≡ port_index p }
{
    let size = u128::from(p.unsigned_abs());
    if p < 0 { 2 * size } else { 2 * size + 1 }
}

// The index of the port for a reply: 0 is none.
fn reply_index(r: i64) -> u128
    ensures { result ≡ reply_index r }
{
    if r == 0 { 0 } else { port_index(r) }
}

// The number of a message that an operand names.
fn message_number(m: i64) -> u64
    ensures { result ≡ number m }
{
    if m < 0 { 0 } else { m as u64 }
}

// Whether a port is there.
fn has_port(ports: &BTreeMap<u128, VecDeque<StoredMessage>>, i: u128) -> bool
    ensures { result ≡ is_some (queues_of ports.now.entries i) }
{
    ports.contains_key(&i)
}

// A port has this queue from now on.
fn set_queue(
    ports: &mut BTreeMap<u128, VecDeque<StoredMessage>>,
    i: u128,
    queue: VecDeque<StoredMessage>,
) -> Result<(), OutOfMemory>
    ensures { OnOk result (queues_of ports.new.entries
        ≡ put (queues_of ports.old.entries) i (Some (map message_of queue.items))) }
{
    let _before = ports.insert(i, queue)?;
    Ok(())
}

// A port is gone. The answer is its queue.
fn take_queue(
    ports: &mut BTreeMap<u128, VecDeque<StoredMessage>>,
    i: u128,
) -> Option<VecDeque<StoredMessage>>
    ensures ports { queues_of ports.new.entries ≡ put (queues_of ports.old.entries) i None }
    ensures queue { option_map messages_in result ≡ queues_of ports.old.entries i }
{
    ports.remove(&i)
}

// A message goes last to a port; it ceases where the port is gone.
fn add_last(
    ports: &mut BTreeMap<u128, VecDeque<StoredMessage>>,
    i: u128,
    stored: StoredMessage,
) -> Result<(), OutOfMemory>
    ensures { OnOk result (queues_of ports.new.entries
        ≡ sent_at i (message_of stored) (queues_of ports.old.entries)) }
{
    if let Some(queue) = ports.get_mut(&i) {
        queue.push_back(stored)?;
    }
    Ok(())
}

// The oldest message of a port is taken. The answer is that message.
fn take_first(ports: &mut BTreeMap<u128, VecDeque<StoredMessage>>, i: u128) -> Option<StoredMessage>
    ensures ports { queues_of ports.new.entries
        ≡ without_first i (messages_of (queues_of ports.old.entries i)) (queues_of ports.old.entries) }
    ensures stored { option_map message_of result
        ≡ first (messages_of (queues_of ports.old.entries i)) }
{
    match ports.get_mut(&i) {
        Some(queue) => queue.pop_front(),
        None => None,
    }
}

// The oldest message of a port.
fn first_at(ports: &BTreeMap<u128, VecDeque<StoredMessage>>, i: u128) -> Option<StoredMessage>
    ensures { option_map message_of result ≡ first (messages_of (queues_of ports.now.entries i)) }
{
    match ports.get(&i) {
        Some(queue) => queue.front().copied(),
        None => None,
    }
}

// How many messages a port has.
fn count_at(ports: &BTreeMap<u128, VecDeque<StoredMessage>>, i: u128) -> usize
    ensures { result ≡ length (messages_of (queues_of ports.now.entries i)) }
{
    match ports.get(&i) {
        Some(queue) => queue.len(),
        None => 0,
    }
}

// Whether a message is the oldest of a port, by its number and its value.
fn is_oldest(ports: &BTreeMap<u128, VecDeque<StoredMessage>>, i: u128, n: u64, value: i64) -> bool
    ensures { result ≡ is_first n value (first (messages_of (queues_of ports.now.entries i))) }
{
    match first_at(ports, i) {
        Some(stored) => stored.number == n && stored.value == value,
        None => false,
    }
}

// Whether an answer is a number of messages.
fn is_count(n: i64, count: usize) -> bool
    ensures { result ≡ n is count }
{
    n >= 0 && n as u64 == count as u64
}

// Whether what a call for the oldest message of a port is answered is true of the port.
fn is_got_in_order(
    ports: &BTreeMap<u128, VecDeque<StoredMessage>>,
    i: u128,
    answer: &Answer,
) -> bool
    ensures { result ≡ is_got_in_order answer.now (messages_of (queues_of ports.now.entries i)) }
{
    match answer {
        Answer::Msg { id, value } => is_oldest(ports, i, id.0, *value),
        Answer::Fail(Errno::ENOENT) => count_at(ports, i) == 0,
        _ => true,
    }
}

// The same of a call for the number of messages.
fn is_counted_in_order(
    ports: &BTreeMap<u128, VecDeque<StoredMessage>>,
    i: u128,
    answer: &Answer,
) -> bool
    ensures { result ≡ is_counted_in_order answer.now (messages_of (queues_of ports.now.entries i)) }
{
    match answer {
        Answer::Int(n) => is_count(*n, count_at(ports, i)),
        _ => true,
    }
}

// Whether what a call is answered is true of the port that it names.
fn is_answer_in_order(
    ports: &BTreeMap<u128, VecDeque<StoredMessage>>,
    call: &Call,
    answer: &Answer,
) -> bool
    ensures { result ≡ is_answer_in_order (queue_in (queues_of ports.now.entries)) call.now answer.now }
{
    match call {
        Call::PortGet(p) => is_got_in_order(ports, port_index(*p), answer),
        Call::PortPending(p) => is_counted_in_order(ports, port_index(*p), answer),
        _ => true,
    }
}

// A message is kept, where it has a port for its reply.
fn keep(kept: &mut BTreeMap<u64, StoredMessage>, stored: StoredMessage) -> Result<(), OutOfMemory>
    ensures { OnOk result (kept_of kept.new.entries
        ≡ (if stored.reply == 0 then kept_of kept.old.entries else put (kept_of kept.old.entries) stored.number (Some (message_of stored)))) }
{
    if stored.reply == 0 {
        return Ok(());
    }
    let _before = kept.insert(stored.number, stored)?;
    Ok(())
}

// A message that is kept, by its number.
fn kept_stored(kept: &BTreeMap<u64, StoredMessage>, n: u64) -> Option<StoredMessage>
    ensures { option_map message_of result ≡ kept_of kept.now.entries n }
{
    kept.get(&n).copied()
}

// A message is kept no longer.
fn forget(kept: &mut BTreeMap<u64, StoredMessage>, n: u64)
    ensures { kept_of kept.new.entries ≡ put (kept_of kept.old.entries) n None }
{
    let _stored = kept.remove(&n);
}

/// The messages that marks tell of.
#[derive(Drop)]
pub(crate) struct Mailboxes {
    // Of each port that is there, by its index, its messages, the oldest first.
    ports: BTreeMap<u128, VecDeque<StoredMessage>>,
    // By its number, each message that was got and has a port for its reply.
    kept: BTreeMap<u64, StoredMessage>,
    // How many messages were ever put.
    made: u64,
    alloc: Global,
}

impl Mailboxes {
    /// Those before the first mark: there is no port.
    pub(crate) fn new(alloc: Global) -> Mailboxes
        ensures { FollowsMail result [] }
    {
        Mailboxes {
            ports: BTreeMap::new(alloc),
            kept: BTreeMap::new(alloc),
            made: 0,
            alloc,
        }
    }

    /// Whether a mark that comes next would be in order.
    pub(crate) fn is_lawful(&self, mark: &Mark) -> bool
        ensures { (marks : List MarkOf) → FollowsMail self.now marks
            → (IsTrue result ↔ IsInOrderAt (queue marks) mark.now) }
    {
        self.is_in_order(mark)
    }

    // The same by the queues that there are.
    fn is_in_order(&self, mark: &Mark) -> bool
        ensures { result ≡ is_in_order (queue_in (queues_of self.now.ports.entries)) mark.now }
    {
        match mark {
            Mark::Answered {
                tid: _,
                call,
                answer,
            } => is_answer_in_order(&self.ports, call, answer),
            _ => true,
        }
    }

    // A port is there from now on.
    fn make_port(&mut self, i: u128) -> Result<(), OutOfMemory>
        ensures { OnOk result (mail_of self.new ≡ with_port i (mail_of self.old)) }
    {
        if has_port(&self.ports, i) {
            return Ok(());
        }
        set_queue(&mut self.ports, i, VecDeque::new(self.alloc))
    }

    // A message goes last to a port; it ceases where the port is gone.
    fn send(&mut self, i: u128, stored: StoredMessage) -> Result<(), OutOfMemory>
        ensures { OnOk result (mail_of self.new ≡ sent i (message_of stored) (mail_of self.old)) }
    {
        add_last(&mut self.ports, i, stored)
    }

    // A message is put, where there is the port, and the port for the reply.
    fn put(&mut self, i: u128, value: i64, reply: u128) -> Result<(), OutOfMemory>
        requires { HasNumber self.old }
        ensures { OnOk result (mail_of self.new ≡ put_to i value reply (mail_of self.old)) }
    {
        if has_port(&self.ports, i) && (reply == 0 || has_port(&self.ports, reply)) {
            self.put_next(i, value, reply)
        } else {
            Ok(())
        }
    }

    // A message is put, with the next number.
    fn put_next(&mut self, i: u128, value: i64, reply: u128) -> Result<(), OutOfMemory>
        requires { HasNumber self.old }
        ensures { OnOk result (mail_of self.new ≡ sent i
            (record { number = self.old.made + 1; value = value; reply = reply })
            (record (mail_of self.old) { made = self.old.made + 1 })) }
    {
        let number = self.made + 1;
        self.made = number;
        self.send(
            i,
            StoredMessage {
                number,
                value,
                reply,
            },
        )
    }

    // The oldest message of a port is got.
    fn get(&mut self, i: u128) -> Result<(), OutOfMemory>
        ensures { OnOk result (mail_of self.new
            ≡ got i (messages_of ((mail_of self.old).at i)) (mail_of self.old)) }
    {
        match take_first(&mut self.ports, i) {
            Some(stored) => keep(&mut self.kept, stored),
            None => Ok(()),
        }
    }

    // The message of a number goes back with a value, where it is kept.
    fn reply(&mut self, value: i64, n: u64) -> Result<(), OutOfMemory>
        ensures { OnOk result (mail_of self.new
            ≡ replied value ((mail_of self.old).kept n) (mail_of self.old)) }
    {
        match kept_stored(&self.kept, n) {
            Some(stored) => self.send_reply(value, stored),
            None => Ok(()),
        }
    }

    // A message goes back with a value, where its port for the reply is there.
    fn send_reply(&mut self, value: i64, stored: StoredMessage) -> Result<(), OutOfMemory>
        ensures { OnOk result (mail_of self.new
            ≡ replied value (Some (message_of stored)) (mail_of self.old)) }
    {
        if !has_port(&self.ports, stored.reply) {
            return Ok(());
        }
        forget(&mut self.kept, stored.number);
        self.send(
            stored.reply,
            StoredMessage {
                number: stored.number,
                value,
                reply: 0,
            },
        )
    }

    // Messages go to their ports for the reply.
    fn send_back(&mut self, queue: &VecDeque<StoredMessage>) -> Result<(), OutOfMemory>
        ensures { OnOk result (mail_of self.new
            ≡ sent_back (map message_of queue.now.items) (mail_of self.old)) }
    {
        for stored in queue {
            let back = StoredMessage {
                number: stored.number,
                value: stored.value,
                reply: 0,
            };
            self.send(stored.reply, back)?;
        }
        Ok(())
    }

    // A port is gone.
    fn close(&mut self, i: u128) -> Result<(), OutOfMemory>
        ensures { OnOk result (mail_of self.new ≡ closed_port i (mail_of self.old)) }
    {
        match take_queue(&mut self.ports, i) {
            Some(queue) => self.send_back(&queue),
            None => Ok(()),
        }
    }

    // A call is answered.
    fn answered(&mut self, call: &Call, answer: &Answer) -> Result<(), OutOfMemory>
        requires { HasNumber self.old }
        ensures { OnOk result ((t : Tid) → mail_of self.new
            ≡ mail_after (mail_of self.old) (Mark.Answered t call.now answer.now)) }
    {
        match call {
            Call::PortCreate(_) => self.created(answer),
            Call::PortPut { p, v, r } if is_one(answer) => {
                self.put(port_index(*p), *v, reply_index(*r))
            },
            Call::PortGet(p) => self.got(*p, answer),
            Call::Reply { m, v } if is_one(answer) => self.reply(*v, message_number(*m)),
            Call::PortDestroy(p) if is_one(answer) => self.close(port_index(*p)),
            _ => Ok(()),
        }
    }

    // A port is made, if its number is the answer.
    fn created(&mut self, answer: &Answer) -> Result<(), OutOfMemory>
        ensures { OnOk result (mail_of self.new ≡ created answer.now (mail_of self.old)) }
    {
        match answer {
            Answer::Int(p) => self.make_port(port_index(*p)),
            _ => Ok(()),
        }
    }

    // The oldest message of a port is got, if a message is the answer.
    fn got(&mut self, p: i64, answer: &Answer) -> Result<(), OutOfMemory>
        ensures { OnOk result (mail_of self.new ≡ got_of p answer.now (mail_of self.old)) }
    {
        match answer {
            Answer::Msg { .. } => self.get(port_index(p)),
            _ => Ok(()),
        }
    }

    // An act is made.
    fn acted(&mut self, act: &Act, answer: &Answer) -> Result<(), OutOfMemory>
        requires { HasNumber self.old }
        ensures { OnOk result ((t : Tid) → mail_of self.new
            ≡ mail_after (mail_of self.old) (Mark.Acted t act.now answer.now)) }
    {
        match act {
            Act::Put(p, v) if is_one(answer) => self.put(port_index(*p), *v, 0),
            _ => Ok(()),
        }
    }

    // One more mark.
    fn follow(&mut self, mark: &Mark) -> Result<(), OutOfMemory>
        requires { HasNumber self.old }
        ensures { OnOk result (mail_of self.new ≡ mail_after (mail_of self.old) mark.now) }
    {
        match mark {
            Mark::Answered {
                tid: _,
                call,
                answer,
            } => self.answered(call, answer),
            Mark::Acted {
                tid: _,
                act,
                answer,
            } => self.acted(act, answer),
            _ => Ok(()),
        }
    }

    /// These are the marks so far, and this one is the next.
    pub(crate) fn add(&mut self, mark: &Mark) -> Result<(), AuditErr>
        ensures follows { OnOk result ((marks : List MarkOf) → FollowsMail self.old marks
            → FollowsMail self.new (marks ++ mark.now ∷ [])) }
        ensures overflow { IsErrOf result AuditErr.Overflow → (marks : List MarkOf) → FollowsMail self.old marks
            → 2 ^ 64 ≤ length marks + 1 }
    {
        if self.made == u64::MAX {
            return Err(AuditErr::Overflow);
        }
        Ok(self.follow(mark)?)
    }
}

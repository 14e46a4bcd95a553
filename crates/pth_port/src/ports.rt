//! Message ports.

ghost use Rattle.std.specs.Prelude.{◌≡◌, ◌≢◌, ◌+◌, ◌<◌, ◌↔◌, ℕ, IsErr, [], true, false, not, nat_le, Some, None, Ok, Err, IsSome, IfSome, IfNone, IfOk, IfErr, OnOk, OnErr, is_some, option_map, option_copied, if◌then◌else◌, ◌&&◌};
ghost use Rattle.pth_numbered.specs.Operands.{number, is_zero};
ghost use Rattle.pth_store.specs.Storing.{AnswersWithMemory};
ghost use Rattle.pth_port.specs.Mail.{Message, message_limit, messages, messages_of, messages_at, is_live, is_port, is_taken, reply_port, no_mail, no_names, with_port, put_to, got, replied, closed_port, sent, port_added, port_removed, port_create_answer, port_find_answer, port_pending_answer, port_put_answer, port_get_answer, reply_answer, port_destroy_answer};
ghost use Rattle.pth_port.specs.Ports.{mail_of, names_of, message, reply_number, port_number, with_held, without_held, first_message, first_held, settled, gone_on, without_port, answer_as, NumbersWithMemory};

use crate::entries::{Port, add_port, port_named, queue_of, remove_port, set_queue};
use crate::stored_messages::{
    Place, Queue, StoredMessage, add_last, clear_reply, first_of, remove_stored, rewrite,
    set_place, store_message, stored_of,
};
use pth_base::errno::Errno;
use pth_base::ids::{MsgId, PortId};
use pth_base::memory::OutOfMemory;
use pth_base::name::Name;
use pth_base::refusal::Refusal;
use std::alloc::Global;
use std::collections::{BTreeMap, HashMap};
use std::marker::Model;

/// How many ports there may be at once.
pub const MOST_PORTS: usize = 256;

/// How many messages there may be at once, queued or held.
pub const MOST_MESSAGES: usize = 65536;

/// The message ports (`pth_msgport_t`) and their messages (`pth_message_t`), both numbered upwards from 1. A message is queued at
/// a port, or held: got by a call, and not sent back. Only `create` and `put` take memory.
pub struct Ports {
    ports: BTreeMap<u32, Port>,
    // Those that are queued, and those that are held.
    stored_messages: HashMap<u64, StoredMessage>,
    made: u32,
    sent: u64,
}

impl Model for Ports {
    ghost use Rattle.pth_port.specs.Ports.{PortsOf, PortsAreKept};

    ghost Value = { PortsOf };

    ghost view = { λ a.
        record { ports = a.ports.entries; stored_messages = a.stored_messages.entries; made = a.made; sent = a.sent } };

    ghost invariant = { λ a. PortsAreKept
        (record { ports = a.ports.entries; stored_messages = a.stored_messages.entries; made = a.made; sent = a.sent }) };
}

// By hand, so that letting one go is one call in each proof.
impl Drop for Ports {
    fn drop(self) {
        let Ports {
            ports: _,
            stored_messages: _,
            made: _,
            sent: _,
        } = self;
    }
}

impl Ports {
    /// No port was made. It takes no memory.
    pub fn new(alloc: Global) -> Ports
        ensures mail { mail_of result ≡ no_mail }
        ensures names { names_of result ≡ no_names }
    {
        Ports {
            ports: BTreeMap::new(alloc),
            stored_messages: HashMap::new(alloc),
            made: 0,
            sent: 0,
        }
    }

    /// `pth_msgport_create`: a port, with a name or without, which has the next number from 1. EEXIST where a live port has the
    /// name, EAGAIN where 256 are live. Where there is no memory nothing changes.
    pub fn create(&mut self, name: Option<&Name>) -> Result<PortId, Refusal>
        requires { (names_of self.old).made < 4294967295 }
        ensures answer { NumbersWithMemory
            (port_create_answer (names_of self.old) (mail_of self.old) (option_copied name.entry))
            (λ p. p.0) result }
        ensures mail { IfOk result (λ p. mail_of self.new ≡ with_port p.0 (mail_of self.old)) }
        ensures names { OnOk result
            (names_of self.new ≡ port_added (option_copied name.entry) (names_of self.old)) }
        ensures refused { OnErr result (self.new ≡ self.old) }
    {
        if self.is_taken(name) {
            return Err(Refusal::Fail(Errno::EEXIST));
        }
        if self.ports.len() >= MOST_PORTS {
            return Err(Refusal::Fail(Errno::EAGAIN));
        }
        let p = self.made + 1;
        add_port(&mut self.ports, p, new_port(name))?;
        self.made = p;
        Ok(PortId(p))
    }

    /// `pth_msgport_find`: the live port that has a name. ENOENT where none has it.
    pub fn find(&self, name: &Name) -> Result<PortId, Errno>
        ensures { answer_as (λ (p : PortId). p.0) result
            ≡ port_find_answer (names_of self.now) name.now }
    {
        match port_named(&self.ports, name) {
            Some(p) => Ok(PortId(p)),
            None => Err(Errno::ENOENT),
        }
    }

    // Whether a live port has this name.
    fn is_taken(&self, name: Option<&Name>) -> bool
        ensures { result ≡ is_taken (names_of self.now) (option_copied name.entry) }
    {
        match name {
            Some(name) => self.find(name).is_ok(),
            None => false,
        }
    }

    // Whether a port is live. None has the number 0, or one that fits no number of a port.
    fn has(&self, p: PortId) -> bool
        ensures live { result ≡ is_live (mail_of self.now) p.0 }
        ensures past { (n : ℕ) → 4294967295 < n → is_live (mail_of self.now) n ≡ false }
        ensures zero { is_live (mail_of self.now) 0 ≡ false }
    {
        queue_of(&self.ports, p.0).is_some()
    }

    // The live port that an operand names.
    fn named(&self, p: i64) -> Option<PortId>
        ensures live { is_some result ≡ is_port (mail_of self.now) p }
        ensures number { IfSome result (λ q. q.0 ≡ number p) }
        ensures some { IfSome result (λ q. q.0 ≢ 0) }
    {
        let port = PortId(port_number(p));
        if self.has(port) { Some(port) } else { None }
    }

    /// Whether an operand names a live port.
    pub fn is_live(&self, p: i64) -> bool
        ensures { result ≡ is_port (mail_of self.now) p }
    {
        self.named(p).is_some()
    }

    /// `pth_msgport_pending`: how many messages are queued at a port. EINVAL where it is not live.
    pub fn pending(&self, p: i64) -> Result<u32, Errno>
        ensures { result ≡ port_pending_answer (mail_of self.now) p }
    {
        match queue_of(&self.ports, port_number(p)) {
            Some(queue) => Ok(queue.length),
            None => Err(Errno::EINVAL),
        }
    }

    // The port for a reply that an operand names, None for 0. EINVAL where it names none and is not 0.
    fn reply_named(&self, r: i64) -> Result<Option<PortId>, Errno>
        ensures refused { IfErr result (λ e. e ≡ Errno.EINVAL) }
        ensures unknown { OnErr result
            ((not (is_zero r) && not (is_port (mail_of self.now) r)) ≡ true) }
        ensures known { OnOk result
            ((not (is_zero r) && not (is_port (mail_of self.now) r)) ≡ false) }
        ensures number { IfOk result (λ port. reply_number port ≡ number r) }
        ensures some { IfOk result (λ port. IfSome port (λ q. q.0 ≢ 0)) }
    {
        if r == 0 {
            return Ok(None);
        }
        match self.named(r) {
            Some(port) => Ok(Some(port)),
            None => Err(Errno::EINVAL),
        }
    }

    // One more message, which is held. EAGAIN where there are as many as there may be.
    fn add_held(&mut self, value: i64, reply: Option<PortId>) -> Result<u64, Refusal>
        requires { IfSome reply (λ p. p.0 ≢ 0) }
        ensures answer { NumbersWithMemory
            (if nat_le message_limit (messages (mail_of self.old) (names_of self.old).made)
            then Err Errno.EAGAIN else Ok ((mail_of self.old).made + 1))
            (λ n. n) result }
        ensures number { IfOk result (λ n. n ≡ (mail_of self.old).made + 1) }
        ensures none { OnOk result ((mail_of self.old).kept ((mail_of self.old).made + 1) ≡ None) }
        ensures mail { IfOk result (λ n. mail_of self.new
            ≡ with_held (record { number = n; value = value; reply = reply_number reply })
            (record (mail_of self.old) { made = n })) }
        ensures names { names_of self.new ≡ names_of self.old }
        ensures refused { OnErr result (self.new ≡ self.old) }
    {
        if self.stored_messages.len() >= MOST_MESSAGES {
            return Err(Refusal::Fail(Errno::EAGAIN));
        }
        let n = number_after(self.sent)?;
        let stored = StoredMessage {
            value,
            reply,
            place: Place::Held,
        };
        store_message(&mut self.stored_messages, n, stored)?;
        self.sent = n;
        Ok(n)
    }

    // A held message goes last to a port. It ceases where the port is gone.
    fn send(&mut self, n: u64, p: PortId)
        requires { IsSome ((mail_of self.old).kept n) }
        ensures mail { (m : Message) → (mail_of self.old).kept n ≡ Some m
            → mail_of self.new ≡ sent p.0 m (without_held n (mail_of self.old)) }
        ensures names { names_of self.new ≡ names_of self.old }
    {
        match queue_of(&self.ports, p.0) {
            Some(queue) => {
                let queue = add_last(&mut self.stored_messages, queue, p, n);
                set_queue(&mut self.ports, p.0, queue);
            }
            None => remove_stored(&mut self.stored_messages, n),
        }
    }

    // A held message ceases.
    fn drop_held(&mut self, n: u64)
        requires { IsSome ((mail_of self.old).kept n) }
        ensures zero { is_live (mail_of self.old) 0 ≡ false }
        ensures mail { mail_of self.new ≡ without_held n (mail_of self.old) }
        ensures names { names_of self.new ≡ names_of self.old }
    {
        remove_stored(&mut self.stored_messages, n);
    }

    // A held message has another value, and no port for its reply.
    fn rewrite_held(&mut self, n: u64, value: i64)
        requires { IsSome ((mail_of self.old).kept n) }
        ensures mail { mail_of self.new
            ≡ with_held (record { number = n; value = value; reply = 0 }) (mail_of self.old) }
        ensures names { names_of self.new ≡ names_of self.old }
    {
        rewrite(&mut self.stored_messages, n, value);
    }

    // A held message has no port for its reply.
    fn clear_held(&mut self, n: u64)
        requires { IsSome ((mail_of self.old).kept n) }
        ensures mail { (m : Message) → (mail_of self.old).kept n ≡ Some m
            → mail_of self.new ≡ with_held (record m { reply = 0 }) (mail_of self.old) }
        ensures names { names_of self.new ≡ names_of self.old }
    {
        clear_reply(&mut self.stored_messages, n);
    }

    // The first message of a port is held from now on. The answer is that message, with its number.
    fn hold_first(&mut self, p: PortId) -> Option<(u64, StoredMessage)>
        ensures first { option_map (λ (t : _). message t.0 t.1) result
            ≡ first_message (messages_of ((mail_of self.old).at p.0)) }
        ensures mail { mail_of self.new
            ≡ first_held p.0 (messages_of ((mail_of self.old).at p.0)) (mail_of self.old) }
        ensures names { names_of self.new ≡ names_of self.old }
        ensures replies { IfSome result (λ t. IfSome t.1.reply (λ q. q.0 ≢ 0)) }
        ensures fresh { IfSome result (λ t. (mail_of self.old).kept t.0 ≡ None) }
        ensures refused { IfNone result (self.new ≡ self.old) }
    {
        let queue = queue_of(&self.ports, p.0)?;
        let (n, stored) = first_of(&self.stored_messages, queue)?;
        set_place(&mut self.stored_messages, n, Place::Held);
        let queue = queue.without_first(stored.place.next());
        set_queue(&mut self.ports, p.0, queue);
        Some((n, stored))
    }

    // A message that was taken is held only where it has a port for its reply.
    fn settle(&mut self, n: u64, stored: StoredMessage)
        requires held { (mail_of self.old).kept n ≡ Some (message n stored) }
        requires some { IfSome stored.reply (λ p. p.0 ≢ 0) }
        ensures mail { mail_of self.new ≡ settled (message n stored) (mail_of self.old) }
        ensures names { names_of self.new ≡ names_of self.old }
    {
        match stored.reply {
            Some(_) => {}
            None => self.drop_held(n),
        }
    }

    // The port for the reply of a held message.
    fn reply_of(&self, n: u64) -> Option<PortId>
        ensures port { IfSome result (λ p. p.0 ≡ reply_port ((mail_of self.now).kept n)) }
        ensures held { IfSome result (λ p. IsSome ((mail_of self.now).kept n)) }
        ensures number { IfSome ((mail_of self.now).kept n) (λ m. m.number ≡ n) }
        ensures none { IfNone result
            (is_live (mail_of self.now) (reply_port ((mail_of self.now).kept n)) ≡ false) }
    {
        let stored = stored_of(&self.stored_messages, n)?;
        if stored.place.is_held() {
            stored.reply
        } else {
            None
        }
    }

    // A held message that was queued at a port that is closed goes last to the port for its reply, and has none from now on. It
    // ceases where that is none, is gone or is the one that is closed.
    fn send_back(&mut self, n: u64, stored: StoredMessage, closed: PortId)
        requires { (mail_of self.old).kept n ≡ Some (message n stored) }
        ensures mail { mail_of self.new ≡ gone_on closed.0 (message n stored) (mail_of self.old) }
        ensures names { names_of self.new ≡ names_of self.old }
    {
        match stored.reply {
            Some(port) if port.0 != closed.0 => {
                self.clear_held(n);
                self.send(n, port);
            }
            _ => self.drop_held(n),
        }
    }

    // Each message of a port goes to the port for its reply, as where the port is closed.
    fn send_all_back(&mut self, port: PortId)
        ensures mail { closed_port port.0 (mail_of self.new)
            ≡ closed_port port.0 (mail_of self.old) }
        ensures none { messages_of ((mail_of self.new).at port.0) ≡ [] }
        ensures live { is_live (mail_of self.new) port.0 ≡ is_live (mail_of self.old) port.0 }
        ensures names { names_of self.new ≡ names_of self.old }
    {
        while let Some((n, stored)) = self.hold_first(port) {
            self.send_back(n, stored, port);
        }
    }

    // A port without messages is gone.
    fn remove(&mut self, p: PortId)
        requires live { is_live (mail_of self.old) p.0 ≡ true }
        requires none { messages_of ((mail_of self.old).at p.0) ≡ [] }
        ensures mail { mail_of self.new ≡ without_port p.0 (mail_of self.old) }
        ensures names { names_of self.new ≡ port_removed p.0 (names_of self.old) }
    {
        remove_port(&mut self.ports, p.0);
    }

    /// `pth_msgport_put`: a message with a value is last at a port. It has the next number, from 1 over all ports. `reply` is the
    /// port for its reply, 0 for none. EINVAL where the port is not live, or `reply` is neither 0 nor a live port, EAGAIN where
    /// 65,536 messages are queued or held. Where there is no memory nothing changes.
    pub fn put(&mut self, p: i64, v: i64, reply: i64) -> Result<MsgId, Refusal>
        ensures answer { NumbersWithMemory
            (port_put_answer (mail_of self.old) (names_of self.old).made p reply) (λ m. m.0) result }
        ensures mail { OnOk result
            (mail_of self.new ≡ put_to (number p) v (number reply) (mail_of self.old)) }
        ensures names { names_of self.new ≡ names_of self.old }
        ensures refused { OnErr result (self.new ≡ self.old) }
    {
        let Some(port) = self.named(p) else {
            return Err(Refusal::Fail(Errno::EINVAL));
        };
        let Ok(reply) = self.reply_named(reply) else {
            return Err(Refusal::Fail(Errno::EINVAL));
        };
        let n = self.add_held(v, reply)?;
        self.send(n, port);
        Ok(MsgId(n))
    }

    /// `pth_msgport_get`: the oldest message of a port, with its number and its value. One with a port for its reply is held from
    /// now on, and another one ceases. EINVAL where the port is not live, ENOENT where no message is queued. It takes no memory.
    pub fn get(&mut self, p: i64) -> Result<(MsgId, i64), Errno>
        ensures answer { answer_as (λ (m : _). (m.0.0, m.1)) result
            ≡ port_get_answer (mail_of self.old) p }
        ensures mail { OnOk result (mail_of self.new
            ≡ got (number p) (messages_at (mail_of self.old) p) (mail_of self.old)) }
        ensures names { names_of self.new ≡ names_of self.old }
        ensures refused { OnErr result (self.new ≡ self.old) }
    {
        let Some(port) = self.named(p) else {
            return Err(Errno::EINVAL);
        };
        let Some((n, stored)) = self.hold_first(port) else {
            return Err(Errno::ENOENT);
        };
        self.settle(n, stored);
        Ok((MsgId(n), stored.value))
    }

    /// `pth_msgport_reply`: a held message is last at the port for its reply, with a value and without such a port from now on.
    /// ENOENT where the message is not held, or that port is gone. It takes no memory.
    pub fn reply(&mut self, m: i64, v: i64) -> Result<(), Refusal>
        ensures answer { AnswersWithMemory (reply_answer (mail_of self.old) m) result }
        ensures memory { IfErr result (λ e. e ≢ Refusal.OutOfMemory) }
        ensures mail { OnOk result (mail_of self.new
            ≡ replied v ((mail_of self.old).kept (number m)) (mail_of self.old)) }
        ensures names { names_of self.new ≡ names_of self.old }
        ensures refused { OnErr result (self.new ≡ self.old) }
    {
        let n = message_number(m);
        let Some(port) = self.reply_of(n) else {
            return Err(Refusal::Fail(Errno::ENOENT));
        };
        if !self.has(port) {
            return Err(Refusal::Fail(Errno::ENOENT));
        }
        self.rewrite_held(n, v);
        self.send(n, port);
        Ok(())
    }

    /// `pth_msgport_destroy`: a port is gone, and then each of its messages, the oldest first, goes last to the port for its reply
    /// and has none from now on, or ceases where that is none, is gone or was this one. EINVAL where the port is not live. It takes
    /// no memory.
    pub fn destroy(&mut self, p: i64) -> Result<(), Refusal>
        ensures answer { AnswersWithMemory (port_destroy_answer (mail_of self.old) p) result }
        ensures memory { IfErr result (λ e. e ≢ Refusal.OutOfMemory) }
        ensures mail { OnOk result (mail_of self.new ≡ closed_port (number p) (mail_of self.old)) }
        ensures names { OnOk result
            (names_of self.new ≡ port_removed (number p) (names_of self.old)) }
        ensures refused { OnErr result (self.new ≡ self.old) }
    {
        let Some(port) = self.named(p) else {
            return Err(Refusal::Fail(Errno::EINVAL));
        };
        self.send_all_back(port);
        self.remove(port);
        Ok(())
    }

    /// How many messages were ever put.
    pub fn sent(&self) -> u64
        ensures { result ≡ (mail_of self.now).made }
    {
        self.sent
    }
}

// A port without messages.
fn new_port(name: Option<&Name>) -> Port
    ensures name { result.name ≡ option_copied name.entry }
    ensures queue { result.queue.length ≡ 0 }
{
    Port {
        name: name.map(|n| n.copy()),
        queue: Queue::new(),
    }
}

// The number of the message that is put after so many. Want of memory exactly after 2^64 - 1: a number of 64 bits counts no more.
fn number_after(sent: u64) -> Result<u64, OutOfMemory>
    ensures number { IfOk result (λ n. n ≡ sent + 1) }
    ensures memory { IsErr result ↔ (sent ≡ 18446744073709551615) }
{
    sent.checked_add(1).ok_or(OutOfMemory)
}

// The number of a port that an operand names.
fn port_number(p: i64) -> u32
    ensures { result ≡ port_number p }
{
    u32::try_from(p).unwrap_or(0)
}

// The number of a message that an operand names.
fn message_number(m: i64) -> u64
    ensures { result ≡ number m }
{
    u64::try_from(m).unwrap_or(0)
}

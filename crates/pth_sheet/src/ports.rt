//! Message Port Communication of pth(3): `pth_msgport_create` to `pth_msgport_reply`.

ghost use Rattle.std.specs.Prelude.{ℕ, Option, List, ◌+◌, ℤ, not, ◌≡◌, None, Some, length, ◌&&◌, [], ◌∷◌};
ghost use Rattle.pth_base.specs.declared.answer.Answer.TheVariants.{Msg};
ghost use Rattle.pth_base.specs.declared.call.Call.TheVariants as call;
ghost use Rattle.pth_base.specs.declared.errno.Errno.TheVariants.{EEXIST, EAGAIN, EINVAL, ENOENT};
ghost use Rattle.pth_numbered.specs.Operands.{number, is_zero};
ghost use Rattle.pth_port.specs.Mail.{is_taken, port_added, with_port, port_removed, closed_port, put_to, got, Message, replied};
ghost use Rattle.pth_model.specs.State.{State};
ghost use Rattle.pth_sheet.specs.Outcomes.{Begins, refused, ◌then◌, returns, answers};
ghost use Rattle.pth_numbered.specs.Clauses.{◌when◌otherwise◌};
ghost use Rattle.pth_sheet.specs.States.{ports_of, is_message_port, port_with_name, pending_on, kept_message, can_be_replied, is_full_of_ports, is_full_of_messages, ports_become, mail_becomes};

use pth_base::program::Program;

/// This returns a new message port. If name `name` is not NULL, the name can be used by other threads via pth_msgport_find(3) to find the
/// message port. Here a name that a port has is refused (EEXIST), and there are at most 256 ports.
pub fn pth_msgport_create<P: Program>()
    ensures { (s : State P P.State P.Shared) (t : ℕ) (name : Option (List ℕ)) →
        Begins P.functions s t (call.PortCreate name) (
        refused EEXIST when is_taken (ports_of s) name otherwise
        refused EAGAIN when is_full_of_ports s otherwise
        ports_become (port_added name) (with_port ((ports_of s).made + 1)) then
        returns ((ports_of s).made + 1)) }
{}

/// This destroys a message port `p`. Before, all pending messages on it are replied to their origin message port. Here a message is deleted
/// if it has no reply port, or if that port is `p` or no longer exists.
pub fn pth_msgport_destroy<P: Program>()
    ensures { (s : State P P.State P.Shared) (t : ℕ) (p : ℤ) →
        Begins P.functions s t (call.PortDestroy p) (
        refused EINVAL when not (is_message_port s p) otherwise
        ports_become (port_removed (number p)) (closed_port (number p)) then returns 1) }
{}

/// This finds a message port in the system by name and returns it.
pub fn pth_msgport_find<P: Program>()
    ensures no_port { (s : State P P.State P.Shared) (t : ℕ) (name : List ℕ) →
        port_with_name s name ≡ None →
        Begins P.functions s t (call.PortFind name) (refused ENOENT) }
    ensures found { (s : State P P.State P.Shared) (t : ℕ) (name : List ℕ) (p : ℕ) →
        port_with_name s name ≡ Some p →
        Begins P.functions s t (call.PortFind name) (returns p) }
{}

/// This returns the number of pending messages on message port `p`.
pub fn pth_msgport_pending<P: Program>()
    ensures { (s : State P P.State P.Shared) (t : ℕ) (p : ℤ) →
        Begins P.functions s t (call.PortPending p) (
        refused EINVAL when not (is_message_port s p) otherwise
        returns (length (pending_on s p))) }
{}

/// This puts (or sends) a message to message port `p`. Here the message has the value `v` and the reply port `r`, or none if `r` is 0, and
/// there are at most 65,536 messages.
pub fn pth_msgport_put<P: Program>()
    ensures { (s : State P P.State P.Shared) (t : ℕ) (p v r : ℤ) →
        Begins P.functions s t (call.PortPut p v r) (
        refused EINVAL when not (is_message_port s p) otherwise
        refused EINVAL when not (is_zero r) && not (is_message_port s r) otherwise
        refused EAGAIN when is_full_of_messages s otherwise
        mail_becomes (put_to (number p) v (number r)) then returns 1) }
{}

/// This gets (or receives) the top message from message port `p`. Incoming messages are always kept in a queue, so there can be more
/// pending messages, of course. Here the message has a number and a value, and if it has a reply port it is kept until it is replied.
pub fn pth_msgport_get<P: Program>()
    ensures no_message { (s : State P P.State P.Shared) (t : ℕ) (p : ℤ) →
        pending_on s p ≡ [] →
        Begins P.functions s t (call.PortGet p) (
        refused EINVAL when not (is_message_port s p) otherwise
        refused ENOENT) }
    ensures got { (s : State P P.State P.Shared) (t : ℕ) (p : ℤ) (m : Message) (ms : List Message) →
        pending_on s p ≡ m ∷ ms →
        Begins P.functions s t (call.PortGet p) (
        refused EINVAL when not (is_message_port s p) otherwise
        mail_becomes (got (number p) (m ∷ ms)) then
        answers (Msg (record { 0 = m.number }) m.value)) }
{}

/// This replies a message `m` to the message port of the sender. Here `v` is the value of the reply. A message that was not got, was
/// replied, or whose reply port no longer exists is refused (ENOENT).
pub fn pth_msgport_reply<P: Program>()
    ensures { (s : State P P.State P.Shared) (t : ℕ) (m v : ℤ) →
        Begins P.functions s t (call.Reply m v) (
        refused ENOENT when not (can_be_replied s m) otherwise
        mail_becomes (replied v (kept_message s m)) then returns 1) }
{}

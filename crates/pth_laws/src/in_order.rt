//! Marks in order.

ghost use Rattle.std.specs.Prelude.{◌≡◌, ◌↔◌, ℤ, pos, List};
ghost use Rattle.pth_base.specs.declared.mark.Mark.{Mark};
ghost use Rattle.pth_laws.specs.Examples.{a_put_answered_seven, a_request_and_its_reply, got_at, none_at, none_sent_to_port_0, nothing_without_a_port, one_got, one_sent_back, one_waiting_after_a_kill, pending_at, sent_back_once, two_ports_below_zero, two_waiting};
ghost use Rattle.pth_laws.specs.InOrder.{AreGotNoMoreThanSent, InOrder, InOrderAsSent, IsOutOfOrder, left, queue};

/// After any marks the messages that wait at a port are those that went to it since it was made, in this order, without as many of the
/// first of them as were taken. Those that went to it were put there, or came back there by a reply, or as another port was destroyed.
/// So marks are in order exactly if the same is said by what is left of what went to each port.
pub fn in_order_is_said()
    ensures waiting { (marks : List Mark) (p : ℤ) → queue marks p ≡ left marks p }
    ensures same { (marks : List Mark) → InOrder marks ↔ InOrderAsSent marks }
{}

/// Along marks in order a message is got of a port at most once for each time that it went there.
pub fn in_order_gets_no_more_than_was_sent()
    ensures { (marks : List Mark) → InOrder marks → AreGotNoMoreThanSent marks }
{}

/// Marks that are in order without the last one, and are not with it: a message is got twice, or before an older one, or with another
/// value; none is found at the port for the reply, though its message waited at a port that is destroyed; none is found after a kill,
/// though one waits; and one more is counted than there is.
pub fn in_order_refuses()
    ensures twice { IsOutOfOrder one_got (got_at (pos 1) 1 7) }
    ensures younger { IsOutOfOrder two_waiting (got_at (pos 1) 2 8) }
    ensures value { IsOutOfOrder two_waiting (got_at (pos 1) 1 8) }
    ensures lost { IsOutOfOrder one_sent_back (none_at (pos 2)) }
    ensures killed { IsOutOfOrder one_waiting_after_a_kill (none_at (pos 1)) }
    ensures count { IsOutOfOrder two_waiting (pending_at (pos 1) 3) }
{}

/// Marks that are in order: a request with its reply; and, though no run tells them, puts at a port that is not there, which put
/// nothing; two replies with one message, of which the second sends nothing; a put that is answered 7; a port 0 to which no reply
/// goes, since 0 is no port for a reply; and two ports of two numbers below 0.
pub fn in_order_takes()
    ensures request { InOrder a_request_and_its_reply }
    ensures nowhere { InOrder nothing_without_a_port }
    ensures once { InOrder sent_back_once }
    ensures seven { InOrder a_put_answered_seven }
    ensures zero { InOrder none_sent_to_port_0 }
    ensures below { InOrder two_ports_below_zero }
{}

//! Runs whose marks the definitions alone compute, as those of `example.rt` of `pth_model`.

ghost use Rattle.std.specs.Prelude.{◌≡◌, pos};
ghost use Rattle.pth_base.specs.declared.outcome.Outcome.TheVariants.{Ended};
ghost use Rattle.pth_model.specs.Example.{given};
ghost use Rattle.pth_model.specs.Run.{run};
ghost use Rattle.pth_sheet.specs.Runs.{waiters, waiters_marks, arrivals, arrivals_marks, replies, replies_marks};

/// Of two threads that wait at a condition the first is notified, and canceled before it runs. It hands its signal on to the second. The
/// run ends after thirty parts.
pub fn canceled_waiter_hands_its_signal_on()
    ensures marks { (run waiters given 30).marks ≡ waiters_marks }
    ensures outcome { (run waiters given 30).turn.outcome ≡ Ended (pos 5) }
{}

/// The first thread that reaches a barrier is aborted there. The next one is answered as the first of the round. The run ends after
/// twenty-seven parts.
pub fn aborted_arrival_is_taken_back()
    ensures marks { (run arrivals given 27).marks ≡ arrivals_marks }
    ensures outcome { (run arrivals given 27).turn.outcome ≡ Ended (pos 5) }
{}

/// A message port is destroyed while messages are pending on it. They are replied, and those without a reply port are gone. The run ends
/// after eleven parts.
pub fn destroyed_port_replies()
    ensures marks { (run replies given 11).marks ≡ replies_marks }
    ensures outcome { (run replies given 11).turn.outcome ≡ Ended (pos 5) }
{}

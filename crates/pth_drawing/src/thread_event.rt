//! The events of threads that marks show, other than that they run.

ghost use Rattle.std.specs.Prelude.{◌≡◌};
ghost use Rattle.pth_drawing.specs.Tracks.{thread_event_of, spawned, tells};

use pth_base::answer::Answer;
use pth_base::call::Call;
use pth_base::ids::Tid;
use pth_base::mark::Mark;

/// What happens to a thread.
#[derive(Clone, Copy)]
pub(crate) enum Event {
    Spawned,
    Waits,
    Woke,
    Canceled,
    Ended,
}

/// A thread, and what happens to the thread.
#[derive(Clone, Copy)]
pub(crate) struct ThreadEvent {
    pub(crate) thread: u64,
    pub(crate) event: Event,
}

/// The event that a mark shows, if it shows one.
pub(crate) fn thread_event_of(mark: &Mark) -> Option<ThreadEvent>
    ensures { result ≡ thread_event_of mark.now }
{
    match mark {
        Mark::Answered {
            call: Call::Spawn { .. },
            answer: Answer::Int(n),
            ..
        } => spawned(*n),
        Mark::Waits { tid, .. } | Mark::Retakes { tid, .. } => tells(*tid, Event::Waits),
        Mark::Woke { tid, .. } => tells(*tid, Event::Woke),
        Mark::Canceled { tid, .. } => tells(*tid, Event::Canceled),
        Mark::Ended { tid, .. } => tells(*tid, Event::Ended),
        _ => None,
    }
}

// A spawn is answered a number, which no thread has if it is negative.
fn spawned(n: i64) -> Option<ThreadEvent>
    ensures { result ≡ spawned n }
{
    let thread = u64::try_from(n).ok()?;
    Some(ThreadEvent {
        thread,
        event: Event::Spawned,
    })
}

fn tells(tid: Tid, event: Event) -> Option<ThreadEvent>
    ensures { result ≡ tells tid.0 event }
{
    Some(ThreadEvent {
        thread: u64::from(tid.0),
        event,
    })
}

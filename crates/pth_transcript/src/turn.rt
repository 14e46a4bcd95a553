//! Marks that do not begin with a thread, read.

ghost use Rattle.std.specs.Prelude.{◌≡◌};
ghost use Rattle.pth_spelling.specs.Texts.{texts};
ghost use Rattle.pth_transcript.specs.MarkMeanings.{dispatch_of, audited_of, turn_of, woken_of, moved_of};

use crate::number::{natural, thread};
use crate::told::Told;
use pth_base::mark::Mark;
use pth_text::number::read_number;

/// A dispatch, by its turn, moment, thread and rank, of a thread that waited so many turns and may wait so many.
#[tactic(auto, unfolding(crate::specs::MarkMeanings::dispatch_of))]
fn dispatch(
    turn: &[u8],
    at: &[u8],
    tid: &[u8],
    rank: &[u8],
    waited: u64,
    allowed: u64,
) -> Option<Mark>
    ensures { result ≡ dispatch_of turn.now at.now tid.now rank.now waited allowed }
{
    let turn = natural(turn)?;
    let at = natural(at)?;
    let tid = thread(tid)?;
    let rank = read_number(rank)?;
    Some(Mark::Dispatch {
        turn,
        at,
        tid,
        rank,
        waited,
        allowed,
    })
}

/// A dispatch, and how long its thread waited and may wait.
#[tactic(auto, unfolding(crate::specs::MarkMeanings::audited_of))]
fn audited(
    turn: &[u8],
    at: &[u8],
    tid: &[u8],
    rank: &[u8],
    waited: &[u8],
    allowed: &[u8],
) -> Option<Mark>
    ensures { result ≡ audited_of turn.now at.now tid.now rank.now waited.now allowed.now }
{
    let waited = natural(waited)?;
    let allowed = natural(allowed)?;
    dispatch(turn, at, tid, rank, waited, allowed)
}

/// A dispatch, by the words behind `turn`, and whether they tell how long the thread waited.
pub fn turn(words: &[&[u8]]) -> Option<Told>
    ensures { result ≡ turn_of (texts words.now) }
{
    match words {
        [turn, _, at, tid, _, rank] => Some(Told {
            mark: dispatch(turn, at, tid, rank, 0, 0)?,
            audit: false,
        }),
        [turn, _, at, tid, _, rank, _, waited, _, allowed] => Some(Told {
            mark: audited(turn, at, tid, rank, waited, allowed)?,
            audit: true,
        }),
        _ => None,
    }
}

/// A thread that is ready again, by the words behind `wake`.
pub fn woke(words: &[&[u8]]) -> Option<Mark>
    ensures { result ≡ woken_of (texts words.now) }
{
    let [tid, _, rank] = words else {
        return None;
    };
    let tid = thread(tid)?;
    let rank = read_number(rank)?;
    Some(Mark::Woke { tid, rank })
}

/// A moment to which time moved, by the words behind `idle`.
pub fn moved(words: &[&[u8]]) -> Option<Mark>
    ensures { result ≡ moved_of (texts words.now) }
{
    let [_, at] = words else {
        return None;
    };
    Some(Mark::Moved { at: natural(at)? })
}

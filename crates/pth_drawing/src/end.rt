//! How a run ended.

ghost use Rattle.std.specs.Prelude.{◌≡◌};
ghost use Rattle.pth_drawing.specs.Ends.{end_of};

use crate::chart::End;
use pth_transcript::ending::Ending;

/// The end that the last line of a transcript shows.
pub(crate) fn end_of(ending: &Ending) -> End
    ensures { result ≡ end_of ending.now }
{
    match ending {
        Ending::Ended(v) => End::Ended(*v),
        Ending::Killed => End::Killed,
        Ending::Stalled(_) => End::Stalled,
        Ending::StepLimit(n) => End::StepLimit(*n),
    }
}

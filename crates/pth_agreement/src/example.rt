//! Runs that the definitions alone compute: at which part agreement ends.

ghost use Rattle.std.specs.Prelude.{◌≡◌};
ghost use Rattle.pth_base.specs.declared.outcome.Outcome.TheVariants.{Running, Stalled};
ghost use Rattle.pth_line.specs.Script.{functions_of};
ghost use Rattle.pth_model.specs.Example.{given, given_a_byte, reading_bodies};
ghost use Rattle.pth_model.specs.Run.{run};
ghost use Rattle.pth_agreement.specs.Descriptors.{NeverNamesUpTo, given_opened};
ghost use Rattle.pth_agreement.specs.Example.{one_note, two_notes, noted, ended_there, noted_again, given_nothing, refused_there, waits_there};
ghost use Rattle.pth_agreement.specs.Scripts.{NeverAtEndUpTo};
ghost use Rattle.pth_agreement.specs.Traces.{DiffersLater};

/// By the definitions, a main of one line makes a step at the end of its body in the third part of its run, and not before. In that part
/// the run with one line more goes on otherwise.
pub fn a_line_more()
    ensures before_the_end { NeverAtEndUpTo 0 one_note 2 }
    ensures at_the_end { NeverAtEndUpTo 0 one_note 3 → ⊥ }
    ensures noted { (run functions_of one_note 2).marks ≡ noted }
    ensures noted_too { (run functions_of two_notes 2).marks ≡ noted }
    ensures ended { (run functions_of one_note 3).marks ≡ ended_there }
    ensures noted_again { (run functions_of two_notes 3).marks ≡ noted_again }
{}

/// By the definitions, a main that reads while nothing comes is stalled in the fourth part of its run, and not before. In that part the
/// run with a stamp more moves time to it.
pub fn a_stamp_more()
    ensures before { DiffersLater reading_bodies given_nothing given_a_byte.kernel.trace 3 }
    ensures then { DiffersLater reading_bodies given_nothing given_a_byte.kernel.trace 4 → ⊥ }
    ensures stalled { (run reading_bodies given_nothing 4).turn.outcome ≡ Stalled }
    ensures goes_on { (run reading_bodies given_a_byte 4).turn.outcome ≡ Running }
{}

/// By the definitions, a main that reads names its descriptor in the second part of its run, and not before. In that part the read is
/// refused, or waits if the descriptor is open from the start.
pub fn a_descriptor_more()
    ensures before { NeverNamesUpTo 3 reading_bodies given 1 }
    ensures then { NeverNamesUpTo 3 reading_bodies given 2 → ⊥ }
    ensures refused { (run reading_bodies given 2).marks ≡ refused_there }
    ensures waits { (run reading_bodies (given_opened 3 given) 2).marks ≡ waits_there }
{}

//! Laws of every input.

ghost use Rattle.std.specs.Prelude.{ℕ, List, Option};
ghost use Rattle.pth_filter.specs.Output.{Output};
ghost use Rattle.pth_player.specs.Output.{IsTheOutput};
ghost use Rattle.pth_command.specs.CommandLine.{Asked};

/// Whatever the words ask for and whatever bytes are read, there is an output for them, and no other.
pub fn every_input_has_one_output()
    ensures { (asked : Option Asked) (bytes : List ℕ) → (out : Output) × IsTheOutput asked bytes out }
{}

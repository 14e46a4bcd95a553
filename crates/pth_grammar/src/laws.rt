//! Laws of lines.

ghost use Rattle.pth_grammar.specs.Faultless.{BodyLinesStand, HandlerLinesStand, ChecksStand, ClocksStand, OpensStand, StampsStand};
ghost use Rattle.pth_grammar.specs.KernelRanges.{ClocksAreInRange, OpensAreInRange, StampsAreInRange};

/// A line that breaks none of the rules on words stands for something: in a body for what the line does, in a handler for
/// an act, where it begins with `check` for a check, and in a kernel for its clock, a descriptor or what comes. So a line is
/// refused by these rules, or it has a meaning.
pub fn lines_that_break_no_rule_stand_for_something()
    ensures bodies { BodyLinesStand }
    ensures handlers { HandlerLinesStand }
    ensures checks { ChecksStand }
    ensures clocks { ClocksStand }
    ensures opens { OpensStand }
    ensures stamps { StampsStand }
{}

/// The clock, the descriptors and the stamps for which a kernel's lines stand are ones that a kernel takes.
pub fn what_kernel_lines_stand_for_is_in_range()
    ensures clocks { ClocksAreInRange }
    ensures opens { OpensAreInRange }
    ensures stamps { StampsAreInRange }
{}

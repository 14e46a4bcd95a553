//! Laws of what is printed.

ghost use Rattle.pth_print.specs.Made.{EachIsMade};

/// What a call is printed from makes this call again, where a script has it: its word, and its operands in their order.
pub fn each_call_is_made_of_its_parts()
    ensures { EachIsMade }
{}

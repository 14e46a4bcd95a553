//! The rules of a script's text.

/// A rule that a line of a script may break, beside the limits.
#[derive(Clone, Copy, Debug, PartialEq, Eq)]
pub enum Rule {
    /// The line is the last, and no LF ends it.
    Cut,
    /// The text begins neither with the line `pth 1` nor with the lines `pth 2` and `range K`, K from 5 to 20.
    Header,
    /// A word is none of those that are allowed where it stands.
    Word,
    /// There are too few or too many words.
    Count,
    /// A word does not have its form, or a number is out of its range.
    Operand,
    /// Bytes are not given by 1 to 2048 pairs of hexadecimal digits.
    Hex,
    /// A handler, check or body does not have the next number, or a label stands twice.
    Number,
    /// A `goto` of the body that ends here names no label.
    Label,
    /// There is no body.
    Main,
    /// A handler or body is not closed.
    End,
    /// A moment is before the one of the line above.
    Time,
    /// A descriptor is not open, or already is.
    Fd,
}

/// A limit that a line passes, or a rule that it breaks.
#[derive(Clone, Copy, Debug, PartialEq, Eq)]
pub enum Breach {
    Limit,
    Of(Rule),
}

//! The forms of words.

/// What a word after the first must be.
#[derive(Clone, Copy)]
pub enum Form {
    /// A number that is not negative.
    Natural,
    /// A number, a register or `err`.
    Operand,
    /// The same, or `-` for none.
    MaybeOperand,
    /// `a0` to `a15` or `v0` to `v63`.
    Register,
    /// A number, a shared register or `arg`.
    Value,
    /// `v0` to `v63`.
    Shared,
    /// 1 to 80 bytes of `a` to `z`, `0` to `9`, `_` and `.`.
    Name,
    /// The same, or `-` for none.
    MaybeName,
    /// `-`, or rising numbers from 0 to 63 joined by commas.
    Set,
    /// `buf`, `hex:`, or `hex:` followed by pairs of digits.
    Bytes,
    /// One or more of `r`, `w` and `x` in this order.
    Goals,
    /// `this` or `all`.
    Which,
    /// `eq`, `ne`, `lt`, `le`, `gt` or `ge`.
    Relation,
    /// A field of an attribute object.
    Field,
    /// `new`, `ready`, `waiting` or `dead`.
    State,
    /// `rd` or `rw`.
    Mode,
    /// `next`, `prev`, `next_occurred` or `prev_occurred`.
    Direction,
    /// What the scheduler is asked.
    Query,
    /// The first word of an event line.
    Event,
    /// A number from `least` to `most`.
    Within { least: u64, most: u64 },
    /// A descriptor: a number from 0 to 63.
    Descriptor,
    /// What comes to a descriptor.
    Entry,
    /// 1 to 2048 pairs of digits.
    Pairs,
}

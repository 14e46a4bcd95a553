//! Text that grows, and what single words and lines of a text are.
//!
//! `Text` adds exactly the bytes, the decimal digits or the lower-case hexadecimal digits that it is given or,
//! refused, nothing. `read_number` gives the number of 64 bits that a word spells, and none exactly if it spells
//! none; `read_hex` takes 1 to 2,048 pairs of digits. What `number` and `hex` add is read back
//! (`written_numbers_are_read`, `written_bytes_are_read`).
#![tactic(auto)]

pub mod hex;
pub mod line;
pub mod number;
pub mod rule;
pub mod text;
pub mod words;

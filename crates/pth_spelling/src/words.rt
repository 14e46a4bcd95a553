//! What single words stand for.

mod choices;
mod names;
mod numbers;
mod operands;
mod sets;

pub use choices::{direction, field, goals, mode, query, relation, state, which};
pub use names::{maybe_name, name};
pub use numbers::{descriptor, natural, number_within};
pub use operands::{bytes, maybe_operand, operand, register, shared, value};
pub use sets::set;

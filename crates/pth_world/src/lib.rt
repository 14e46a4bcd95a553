//! All the state of a run: the program with its threads, by slot.
//!
//! A world *shows* a control of the definitions: the same threads under their numbers, and each queue in order. A
//! change of a world is the definitions' change of each control that it showed before (`shows`), or of what threads
//! stored (`changes`). Beside this a clause says what stays: the world's other parts (`same`), what other threads
//! have (`touches`, `others`), and what holds of every sound or whole world (`sound`, `whole`, `but`). One clause says
//! all that stays if the store alone changes (`keeps`), or if threads move (`moves`). A read is what the control has.
//! Refused, a change shows what was shown before. After want of memory in `next_call` or `claim` nothing is said of the world.
#![tactic(auto)]

pub mod laws;
pub mod world;

//! How the words of a script's lines are spelled, and what each stands for by itself.
//!
//! What a word stands for equals its definition: `keyword` is `keyword_of`, `call_word` is `call_word`
//! (`specs/Keywords.antt`); `operand` is `operand_of`, `register` is `register_of`, and so the others
//! (`specs/WordMeanings.antt`). `wrong` says exactly if a word breaks the rule `word`, `operand` or `hex` by its form, each
//! word held to the form at its place (`specs/FormRules.antt`).
#![tactic(auto)]

pub mod direction;
pub mod first_word;
pub mod form;
pub mod keyword;
pub mod named;
pub mod rules;
pub mod start;
pub mod words;

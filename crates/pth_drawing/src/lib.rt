//! Pictures of runs.
//!
//! A chart has what is drawn of a run: a column for each turn, and a lane for each thread that is drawn in one. `chart` in `specs/Drawing.antt`
//! says which it is, by the marks alone, and `picture_of` in `specs/Picture.antt` which text in SVG is its picture. `draw` reads a transcript,
//! and writes the picture of the turns that the words ask for. With status 0 exactly that picture was written, and with 3 the line that is
//! told is none of a transcript (`IsRefusedAt`).
#![tactic(auto)]

mod axis;
pub mod chart;
pub mod drawing;
mod end;
pub mod example;
mod foot;
mod help;
mod lanes;
pub mod laws;
mod piece;
mod run;
mod sheet;
mod stretches;
pub mod svg;
mod thread_event;
mod top;
mod track;
pub mod words;

pub use help::HELP;
pub use top::{PROGRAM, draw};

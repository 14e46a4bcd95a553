//! The programs of this repository, over objects that are handed in.

use pth_checker::check;
use pth_drawing::draw;
use pth_player::play;
use pth_streams::files::Files;
use pth_streams::sink::Sink;
use pth_streams::source::Source;
use std::alloc::Global;

/// A program.
#[derive(Clone, Copy)]
pub enum Program {
    Play,
    Check,
    Picture,
}

/// The program with a name.
pub fn program_named(name: &str) -> Option<Program> {
    match name {
        "pth_play" => Some(Program::Play),
        "pth_check" => Some(Program::Check),
        "pth_picture" => Some(Program::Picture),
        _ => None,
    }
}

/// All that a program does with these words, over these objects. Its status is answered.
pub fn call<S: Source, F: Files, O: Sink, E: Sink>(
    alloc: Global,
    program: Program,
    words: &Vec<String>,
    input: &mut S,
    files: &mut F,
    out: &mut O,
    err: &mut E,
) -> u8 {
    match program {
        Program::Play => play(alloc, words, input, files, out, err),
        Program::Check => check(alloc, words, input, files, out, err),
        Program::Picture => draw(alloc, words, input, files, out, err),
    }
}

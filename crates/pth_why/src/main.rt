//! The program: the words and the real objects are handed to the explainer, and its status is the exit status.
//! Words that ask for help are answered with it.
#![tactic(auto)]

use pth_explaining::{HELP, PROGRAM, explain};
use pth_filter::faults::fault_of_arguments;
use pth_filter::finish::report_fault;
use pth_filter::help::{asks_help, write_help};
use pth_streams::arguments::arguments;
use pth_streams::open_files::OpenFiles;
use pth_streams::reading::Reading;
use pth_streams::writing::Writing;
use std::process::ExitCode;

fn main(rt: HostRuntime) -> ExitCode {
    let mut err = Writing::new(rt.stderr());
    let words = match arguments(&rt) {
        Ok(words) => words,
        Err(e) => {
            let status = report_fault(rt.alloc(), PROGRAM, fault_of_arguments(e), &mut err);
            return ExitCode::from(status);
        }
    };
    let mut out = Writing::new(rt.stdout());
    if asks_help(words.as_slice()) {
        let status = write_help(rt.alloc(), PROGRAM, HELP, &mut out, &mut err);
        return ExitCode::from(status);
    }
    let mut input = Reading::new(rt.stdin());
    let mut files = OpenFiles::new(&rt);
    let status = explain(
        rt.alloc(),
        &words,
        &mut input,
        &mut files,
        &mut out,
        &mut err,
    );
    ExitCode::from(status)
}

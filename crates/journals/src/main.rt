// The journals that the arguments name: for each its name, then its lines.
#![tactic(auto)]

use journal_files::{Lines, print_files};
use journal_io::WriteError;
use std::process::ExitCode;

// Each program has a `main` of its own.
fn main(rt: HostRuntime) -> ExitCode {
    match print_files(&rt, &Lines) {
        Ok(()) => ExitCode::SUCCESS,
        Err(WriteError) => ExitCode::FAILURE,
    }
}

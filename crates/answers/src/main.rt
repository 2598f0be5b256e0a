// The journals that the arguments name: for each its name, then a line of hexadecimal digits for the whole answer to each message.
#![tactic(auto)]

use journal_files::{Answers, print_files};
use journal_io::WriteError;
use std::process::ExitCode;

// Each program has a `main` of its own.
fn main(rt: HostRuntime) -> ExitCode {
    match print_files(&rt, &Answers) {
        Ok(()) => ExitCode::SUCCESS,
        Err(WriteError) => ExitCode::FAILURE,
    }
}

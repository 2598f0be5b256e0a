// The program: the lines for the journal on standard input.
#![tactic(auto)]

use journal_io::{JOURNAL_SIZE, PrintError, print_journal};
use report::REPORT_LIMIT;
use std::process::ExitCode;

fn main(rt: HostRuntime) -> ExitCode {
    let mut journal = [0u8; JOURNAL_SIZE];
    let mut text = [0u8; REPORT_LIMIT];
    match print_journal(&rt, &mut rt.stdin(), &mut journal, &mut text) {
        // a journal that could not be read is said on standard error alone
        Ok(_) | Err(PrintError::Unread) => ExitCode::SUCCESS,
        Err(PrintError::Unwritten(_)) => ExitCode::FAILURE,
    }
}

// The journals that a program's arguments name: for each its name, then its lines or those of its answers.
#![tactic(auto)]

mod form;

pub use crate::form::{Answers, Form, Lines};
use journal_io::{JOURNAL_SIZE, PrintError, WriteError};
use report::REPORT_LIMIT;
use std::env::{Env, FillError};
use std::rt::Files;
use std::{fs, str};

fn print_name(rt: &impl Print, name: &[u8]) -> Result<(), WriteError> {
    rt.write_all(name)?;
    rt.write_all(b"\n")?;
    Ok(())
}

fn print_file(
    rt: &(impl Files + Print + Eprint),
    form: &impl Form,
    name: &[u8],
    journal: &mut [u8],
    text: &mut [u8],
) -> Result<(), WriteError> {
    print_name(rt, name)?;
    // `fs::open` takes text alone
    let Ok(path) = str::from_utf8(name) else {
        let _ = rt.eprint("the name is not UTF-8\n");
        return Ok(());
    };
    match fs::open(rt, path) {
        Ok(mut file) => match form.print(rt, &mut file, journal, text) {
            // of a journal that could not be read the form has said so
            Ok(_) | Err(PrintError::Unread) => Ok(()),
            Err(PrintError::Unwritten(_)) => Err(WriteError),
        },
        Err(error) => {
            let _ = eprintln!(rt; "{path}: {error}");
            Ok(())
        }
    }
}

// Prints each journal that the arguments name. The buffers are lent on, so that each is made once.
pub fn print_files(
    rt: &(impl Env + Files + Print + Eprint),
    form: &impl Form,
) -> Result<(), WriteError> {
    let mut name = [0u8; 256];
    let mut journal = [0u8; JOURNAL_SIZE];
    let mut text = [0u8; REPORT_LIMIT];
    // `env::args` gives strings, which need an allocator
    for i in 1..usize::MAX {
        let len = match rt.arg(i, &mut name) {
            Ok(len) => len,
            // no file has the empty name
            Err(FillError::TooLong) => 0,
            Err(FillError::NotPresent) => return Ok(()),
        };
        print_file(rt, form, &name[..len], &mut journal, &mut text)?;
    }
    Ok(())
}

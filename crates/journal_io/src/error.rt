// What can fail: a journal is not read, or its lines are not written.
ghost use Rattle.std.specs.Prelude.{◌≡◌, Some, codes};
ghost use Rattle.journal_io.specs.Errors.{print_error_text};
ghost use Rattle.journal_io.specs.declared.error.PrintError.TheVariants.{Unread};

use std::error::Error;
use std::{fmt, io};

// A read failed, or the buffer is full and too short to tell whether the journal is whole.
#[derive(Clone, Copy, Debug, PartialEq, Eq)]
pub struct ReadError;

impl fmt::Display for ReadError {
    ghost output = { λ _. Some (codes "the journal could not be read whole") };

    fn fmt<W: fmt::Write>(&self, f: &mut fmt::Formatter<W>) -> fmt::Result {
        f.write_str("the journal could not be read whole")
    }
}

impl Error for ReadError {}

// Standard output takes no more.
#[derive(Clone, Copy, Debug, PartialEq, Eq)]
pub struct WriteError;

impl fmt::Display for WriteError {
    ghost output = { λ _. Some (codes "the lines could not be written") };

    fn fmt<W: fmt::Write>(&self, f: &mut fmt::Formatter<W>) -> fmt::Result {
        f.write_str("the lines could not be written")
    }
}

impl Error for WriteError {}

impl From<io::Error> for WriteError {
    fn from(_error: io::Error) -> WriteError {
        WriteError
    }
}

// Why a journal's lines are not all on standard output: it was not read, or so many of its bytes were read, but a write failed.
#[derive(Clone, Copy, Debug, PartialEq, Eq)]
pub enum PrintError {
    Unread,
    Unwritten(usize),
}

impl fmt::Display for PrintError {
    ghost output = { λ e. Some (print_error_text e) };

    fn fmt<W: fmt::Write>(&self, f: &mut fmt::Formatter<W>) -> fmt::Result {
        match self {
            PrintError::Unread => ReadError.fmt(f),
            PrintError::Unwritten(_) => WriteError.fmt(f),
        }
    }
}

impl Error for PrintError {}

impl From<ReadError> for PrintError {
    ghost from_gives = { λ _ e. e ≡ Unread };

    fn from(_error: ReadError) -> PrintError {
        PrintError::Unread
    }
}

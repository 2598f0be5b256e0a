// A journal read to its end, and its lines on standard output.
#![tactic(auto)]

mod error;

ghost use Rattle.std.specs.Prelude.{◌≡◌, ◌≤◌, length};
ghost use Rattle.report.specs.Results.{written_size, report_result};
ghost use Rattle.journal_io.specs.Results.{HasRead, size_read, text_after, reading};

pub use crate::error::{PrintError, ReadError, WriteError};
use report::{JOURNAL_LIMIT, TooShort, lines};
use std::fmt::Display;
use std::io::Read;

// A buffer that a journal which is too long overfills.
pub const JOURNAL_SIZE: usize = JOURNAL_LIMIT + 1;

// Says an error on standard error, and gives it back. Where even that can't be written, nobody is left to be told.
fn told<E: Display + Copy>(rt: &impl Eprint, error: E) -> E
    ensures { result ≡ error }
{
    let _ = rt.eprintln(error);
    error
}

// Reads to the end of the input, or until the buffer is full. One that is full and has no more bytes than a journal may have is too short to tell
// whether the journal is whole. What failed is said on standard error.
// It gives how many bytes there are and not that part of the buffer: of a buffer whose part is lent on no contract can say what it holds.
pub fn read_journal<R: Read>(
    rt: &impl Eprint,
    reader: &mut R,
    journal: &mut [u8],
) -> Result<usize, ReadError>
    ensures in_bounds { size_read result ≤ length journal.new }
    ensures bytes { HasRead result (R.remaining reader.old) (R.remaining reader.new) journal.new }
{
    let size = journal.len();
    let mut done = 0;
    // no `for`: each read says how many bytes it gave, and 0 at the end
    while done < size {
        match reader.read(&mut journal[done..]) {
            Ok(0) => return Ok(done),
            Ok(more) => done += more,
            Err(_) => return Err(told(rt, ReadError)),
        }
    }
    if size <= JOURNAL_LIMIT {
        return Err(told(rt, ReadError));
    }
    Ok(size)
}

// Writes a text to standard output; what failed is said on standard error. An error where a write failed. The text is a size and its buffer, as `lines`
// gives it: of a buffer whose part is lent on no contract can say what it holds.
pub fn print_text(
    rt: &(impl Print + Eprint),
    report: Result<usize, TooShort>,
    text: &[u8],
) -> Result<(), WriteError>
    requires { written_size report ≤ length text.now }
{
    match report {
        Ok(size) => rt
            .write_all(&text[..size])
            .map_err(|_| told(rt, WriteError)),
        Err(error) => {
            told(rt, error);
            Ok(())
        }
    }
}

// Writes the text for a journal to standard output. An error where a write failed.
fn print_lines(
    rt: &(impl Print + Eprint),
    journal: &[u8],
    text: &mut [u8],
) -> Result<(), WriteError>
    ensures { text.new ≡ (report_result journal.now text.old).text }
{
    let report = lines(journal, text);
    print_text(rt, report, text)
}

// Reads a journal and prints its lines, or none where it could not be read whole; what failed is said on standard error. It gives how many bytes
// were read.
pub fn print_journal<R: Read>(
    rt: &(impl Print + Eprint),
    reader: &mut R,
    journal: &mut [u8],
    text: &mut [u8],
) -> Result<usize, PrintError>
    ensures result_in_bounds { size_read (reading result) ≤ length journal.new }
    ensures bytes { HasRead (reading result) (R.remaining reader.old) (R.remaining reader.new) journal.new }
    ensures text_after { text.new ≡ text_after (reading result) journal.new text.old }
{
    let size = read_journal(rt, reader, journal)?;
    print_lines(rt, &journal[..size], text).map_err(|_| PrintError::Unwritten(size))?;
    Ok(size)
}

// What is printed for a journal: a line for each message, or for each answer.
ghost use Rattle.std.specs.Prelude.{◌≤◌, length};
ghost use Rattle.journal_io.specs.Results.{HasRead, size_read, reading};

use board::BOARD_SIZE;
use journal_io::{PrintError, WriteError, print_journal, print_text, read_journal};
use replay::replay;
use report::{ANSWERS_SIZE, JOURNAL_LIMIT};
use std::io::Read;
use transcript::answer_lines;

// Room for the lines of the answers of a replay.
const LINES_SIZE: usize = 3 * ANSWERS_SIZE;

// A trait and no closure: a function that calls one has to require that it may be called.
pub trait Form {
    // Reads a journal and prints what is printed for it, or nothing where it could not be read whole; what failed is said on standard error. It gives
    // how many bytes were read.
    fn print<R: Read>(
        &self,
        rt: &(impl Print + Eprint),
        reader: &mut R,
        journal: &mut [u8],
        text: &mut [u8],
    ) -> Result<usize, PrintError>
        ensures in_bounds { size_read (reading result) ≤ length journal.new }
        ensures bytes { HasRead (reading result) (R.remaining reader.old) (R.remaining reader.new) journal.new };
}

// A line for each message.
#[derive(Clone, Copy)]
pub struct Lines;

impl Form for Lines {
    fn print<R: Read>(
        &self,
        rt: &(impl Print + Eprint),
        reader: &mut R,
        journal: &mut [u8],
        text: &mut [u8],
    ) -> Result<usize, PrintError> {
        print_journal(rt, reader, journal, text)
    }
}

// A line for each answer, or `long` where the journal has more bytes than one may have.
#[derive(Clone, Copy)]
pub struct Answers;

impl Form for Answers {
    fn print<R: Read>(
        &self,
        rt: &(impl Print + Eprint),
        reader: &mut R,
        journal: &mut [u8],
        _text: &mut [u8],
    ) -> Result<usize, PrintError> {
        let size = read_journal(rt, reader, journal)?;
        print_answers(rt, &journal[..size]).map_err(|_| PrintError::Unwritten(size))?;
        Ok(size)
    }
}

fn print_answers(rt: &(impl Print + Eprint), journal: &[u8]) -> Result<(), WriteError> {
    if JOURNAL_LIMIT < journal.len() {
        rt.write_all(b"long\n")?;
        return Ok(());
    }
    print_parts(rt, journal)
}

// The lines of the answers to a journal's messages from the empty board, for as many at a time as the answer buffer has room for.
fn print_parts(rt: &(impl Print + Eprint), journal: &[u8]) -> Result<(), WriteError> {
    let mut board = [0; BOARD_SIZE];
    let mut answers = [0; ANSWERS_SIZE];
    let mut text = [0; LINES_SIZE];
    let mut rest = journal;
    // no `for`: each replay says how far it came
    while !rest.is_empty() {
        let done = replay(rest, &mut board, &mut answers);
        let passed = done.passed;
        let report = answer_lines(&answers, done.messages, &mut text);
        print_text(rt, report, &text)?;
        // no message begins here
        if passed == 0 {
            break;
        }
        rest = &rest[passed..];
    }
    Ok(())
}

// The text that the program prints for a journal.
#![tactic(auto)]

mod line;
mod message_lines;
pub mod text;

ghost use Rattle.std.specs.Prelude.{◌≡◌, true, ◌+◌, ◌*◌, ◌≤◌, length, codes, Some};
ghost use Rattle.model.specs.Board.{decode};
ghost use Rattle.model.specs.Soundness.{is_sound};
ghost use Rattle.model.specs.Step.{answer_limit};
ghost use Rattle.report.specs.Report.{journal_limit, run_text};
ghost use Rattle.report.specs.Results.{reported, report_result};
ghost use Rattle.report.specs.Texts.{Writes};

use crate::message_lines::write_lines;
use crate::text::TextWriter;
use board::BOARD_SIZE;
use replay::{Stop, replay_sound};
use std::error::Error;
use std::fmt;
use step::ANSWER_LIMIT;

// "a journal of at most 60,000 bytes"
pub const JOURNAL_LIMIT: usize = 60000;

// No text is longer: 15,000 lines of at most fourteen bytes, and one of ten.
pub const REPORT_LIMIT: usize = 14 * (JOURNAL_LIMIT / 4) + 10;

// The greatest L of an answer.
pub const ANSWER_MOST: usize = ANSWER_LIMIT - 2;

// The answer buffer of the replays.
pub const ANSWERS_SIZE: usize = 4096;

// A text buffer is too short for the text that it might have to hold.
#[derive(Clone, Copy, Debug, PartialEq, Eq)]
pub struct TooShort;

impl fmt::Display for TooShort {
    ghost output = { λ _. Some (codes "the text buffer is too short") };

    fn fmt<W: fmt::Write>(&self, f: &mut fmt::Formatter<W>) -> fmt::Result {
        f.write_str("the text buffer is too short")
    }
}

impl Error for TooShort {}

// Writes the text of the rest of a journal that begins at `place` of the whole one. After a stop for want of room the answer buffer is used anew.
fn write_rest(
    journal: &[u8],
    place: usize,
    board: &mut [u8],
    answers: &mut [u8],
    writer: &mut TextWriter<'_>,
)
    requires { (is_sound board.old ≡ true) × (answer_limit ≤ length answers.old) × (place + length journal.now ≤ journal_limit) × (2 * writer.old.size + 7 * length journal.now + 20 ≤ 2 * length writer.old.text.now) }
    ensures { Writes writer.old (run_text (decode board.old) place journal.now) writer.new }
{
    let r = replay_sound(journal, board, answers);
    let passed = r.passed;
    write_lines(journal, answers, r.messages, writer);
    match r.stop {
        Stop::JournalUsed => {}
        // not taken: the board is sound
        Stop::BoardUnsound => {}
        Stop::BufferShort => write_rest(&journal[passed..], place + passed, board, answers, writer),
        Stop::FrameCut => writer.cut(place + passed),
    }
}

// The whole text for a journal of any length, and how many bytes it has.
pub fn lines(journal: &[u8], text: &mut [u8]) -> Result<usize, TooShort>
    ensures { reported result text.new ≡ report_result journal.now text.old }
{
    if text.len() < REPORT_LIMIT {
        return Err(TooShort);
    }
    let mut writer = TextWriter::new(text);
    if JOURNAL_LIMIT < journal.len() {
        writer.bytes(b"long\n");
        return Ok(writer.size());
    }
    let mut board = [0; BOARD_SIZE];
    let mut answers = [0; ANSWERS_SIZE];
    write_rest(journal, 0, &mut board, &mut answers, &mut writer);
    Ok(writer.size())
}

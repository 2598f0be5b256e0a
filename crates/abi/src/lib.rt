// The kernel as programs in C and Rust call it (include/staff_board.h): numbers and byte slices only. `abi_c` exports these functions.
#![tactic(auto)]

ghost use Rattle.std.specs.Prelude.{◌≡◌, cond, ◌+◌, ◌*◌, ◌<◌, ℕ, List, IfOk};
ghost use Rattle.reader.specs.Messages.{message_content};
ghost use Rattle.model.specs.Soundness.{is_sound};
ghost use Rattle.model.specs.Step.{step_of};
ghost use Rattle.writer.specs.Encoding.{outcome, encode_of};
ghost use Rattle.writer.specs.Words.{word_content, read_of};
ghost use Rattle.abi.specs.CallResults.{step_called, write_called, replay_called, replay_call_of};

use board::sound;
use layout::number::write_number;
use replay::replay;
use step::step;
use writer::{Refusal, read, write};

// Three numbers of eight bytes.
const COUNTS_SIZE: usize = 24;

// The refusal of counts that have another length.
const WRONG_COUNTS: u32 = 255;

// Whether a board is sound: 1 if it is, else 0.
pub fn staff_board_sound(board: &[u8]) -> u32
    ensures { result ≡ cond (is_sound board.now) 1 0 }
{
    u32::from(sound(board))
}

// One number for two: how much was written times 65,536, and the number.
fn packed(written: usize, number: u16) -> u32
    requires { written < 65536 }
    ensures { result ≡ written * 65536 + number }
{
    (written as u32) * 65536 + number as u32
}

// The same of what the writer returns: 0 and how much was written, or the number of the refusal, which writes nothing.
fn packed_result(done: Result<usize, Refusal>) -> u32
    requires { IfOk done (λ written. written < 65536) }
    ensures { (buffer : List ℕ) → write_called result buffer ≡ outcome done buffer }
{
    match done {
        Ok(written) => packed(written, 0),
        Err(refusal) => packed(0, u16::from(refusal)),
    }
}

// One message on a board.
pub fn staff_board_step(message: &[u8], board: &mut [u8], answer: &mut [u8]) -> u32
    ensures { step_called result board.new answer.new ≡ step_of message.now board.old answer.old }
{
    let done = step(message, board, answer);
    packed(done.written, done.number())
}

// A journal on a board: the number of the stop. The counts are messages done, journal bytes passed and answer bytes written; where they have not
// 24 bytes nothing is done.
pub fn staff_board_replay(
    journal: &[u8],
    board: &mut [u8],
    answers: &mut [u8],
    counts: &mut [u8],
) -> u32
    ensures { replay_called result board.new answers.new counts.new ≡ replay_call_of journal.now board.old answers.old counts.old }
{
    if counts.len() != COUNTS_SIZE {
        return WRONG_COUNTS;
    }
    let done = replay(journal, board, answers);
    write_number(counts, 0, 8, done.messages as u64);
    write_number(counts, 8, 8, done.passed as u64);
    write_number(counts, 16, 8, done.written as u64);
    u32::from(done.stop)
}

// The frame of a message that is given as its kind and the words of its values.
pub fn staff_board_write(kind: u32, values: &[u64], lent: &[u8], frame: &mut [u8]) -> u32
    ensures { write_called result frame.new ≡ encode_of (word_content lent.now kind values.now) frame.old }
{
    packed_result(write(kind, values, lent, frame))
}

// The way back: the words of a message's values.
pub fn staff_board_read(message: &[u8], values: &mut [u64]) -> u32
    ensures { write_called result values.new ≡ read_of (message_content message.now) values.old }
{
    packed_result(read(message, values))
}

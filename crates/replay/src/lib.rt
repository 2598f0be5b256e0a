// The replay: a journal on a board.
#![tactic(auto)]

ghost use Rattle.std.specs.Prelude.{◌≡◌, true, ◌≤◌, length};
ghost use Rattle.model.specs.Soundness.{is_sound};
ghost use Rattle.model.specs.Step.{answer_limit, step_of};
ghost use Rattle.model.specs.Replay.{replay_of};
ghost use Rattle.replay.specs.Results.{stop_number, replayed};
ghost use Rattle.replay.specs.RestResults.{none_done, Leaves, Replays};

use board::sound;
use reader::frame::frame_length;
use step::{ANSWER_LIMIT, step_sound};

// Why a replay stopped, with the number that callers see.
#[derive(Clone, Copy, PartialEq, Eq, Debug)]
pub enum Stop {
    JournalUsed = 0,
    BoardUnsound = 1,
    BufferShort = 2,
    FrameCut = 3,
}

impl From<Stop> for u32 {
    ghost from_gives = { λ stop number. number ≡ stop_number stop };

    fn from(stop: Stop) -> u32 {
        stop as u32
    }
}

// Why it stopped, the messages done, the journal bytes passed and the answer bytes written.
#[derive(Clone, Copy)]
pub struct Replayed {
    pub stop: Stop,
    pub messages: usize,
    pub passed: usize,
    pub written: usize,
}

// Stopped with no message done.
fn stopped(stop: Stop) -> Replayed
    ensures { result ≡ none_done stop }
{
    Replayed {
        stop,
        messages: 0,
        passed: 0,
        written: 0,
    }
}

// The step of one message, and how many bytes its answer has. It is kept out of `replay_rest`, which nests a call for each message: inlined there, the
// locals of the step and what it returns would take stack for each.
#[inline(never)]
fn answer_size(msg: &[u8], board: &mut [u8], out: &mut [u8]) -> usize
    requires { (is_sound board.old ≡ true) × (answer_limit ≤ length out.old) }
    ensures { Leaves (step_of msg.now board.old out.old) result board.new out.new }
{
    step_sound(msg, board, out).written
}

// The replay of the rest of a journal. The board is sound, and each message leaves it so: it is not tested again.
fn replay_rest(journal: &[u8], board: &mut [u8], out: &mut [u8]) -> Replayed
    requires { is_sound board.old ≡ true }
    ensures { Replays journal.now board.old out.old result board.new out.new }
{
    if journal.is_empty() {
        return stopped(Stop::JournalUsed);
    }
    if out.len() < ANSWER_LIMIT {
        return stopped(Stop::BufferShort);
    }
    let Some(size) = frame_length(journal) else {
        return stopped(Stop::FrameCut);
    };
    let written = answer_size(&journal[..size], board, out);
    let rest = replay_rest(&journal[size..], board, &mut out[written..]);
    Replayed {
        stop: rest.stop,
        messages: 1 + rest.messages,
        passed: size + rest.passed,
        written: written + rest.written,
    }
}

// The replay on a board that is known to be sound: it is not tested.
pub fn replay_sound(journal: &[u8], board: &mut [u8], out: &mut [u8]) -> Replayed
    requires { is_sound board.old ≡ true }
    ensures { replayed result board.new out.new ≡ replay_of journal.now board.old out.old }
{
    replay_rest(journal, board, out)
}

// The messages of a journal on a board, one behind the other, with their answers in the buffer.
pub fn replay(journal: &[u8], board: &mut [u8], out: &mut [u8]) -> Replayed
    ensures { replayed result board.new out.new ≡ replay_of journal.now board.old out.old }
{
    if !sound(board) {
        return stopped(Stop::BoardUnsound);
    }
    replay_sound(journal, board, out)
}

// The kernel for programs in C and Rust (include/staff_board.h): the functions of `abi`, exported under their names, one by one, as C
// calls them.
#![tactic(auto)]

ghost use Rattle.std.specs.Prelude.{◌≡◌, cond};
ghost use Rattle.reader.specs.Messages.{message_content};
ghost use Rattle.model.specs.Soundness.{is_sound};
ghost use Rattle.model.specs.Step.{step_of};
ghost use Rattle.writer.specs.Encoding.{encode_of};
ghost use Rattle.writer.specs.Words.{word_content, read_of};
ghost use Rattle.abi.specs.CallResults.{step_called, write_called, replay_called, replay_call_of};

// Whether a board is sound: 1 if it is, else 0.
#[unsafe(no_mangle)]
pub extern "C" fn staff_board_sound(board: &[u8]) -> u32
    ensures { result ≡ cond (is_sound board.now) 1 0 }
{
    abi::staff_board_sound(board)
}

// One message on a board.
#[unsafe(no_mangle)]
pub extern "C" fn staff_board_step(message: &[u8], board: &mut [u8], answer: &mut [u8]) -> u32
    ensures { step_called result board.new answer.new ≡ step_of message.now board.old answer.old }
{
    abi::staff_board_step(message, board, answer)
}

// A journal on a board: the number of the stop. The counts are messages done, journal bytes passed and answer bytes written; where they have not
// 24 bytes nothing is done.
#[unsafe(no_mangle)]
pub extern "C" fn staff_board_replay(
    journal: &[u8],
    board: &mut [u8],
    answers: &mut [u8],
    counts: &mut [u8],
) -> u32
    ensures { replay_called result board.new answers.new counts.new ≡ replay_call_of journal.now board.old answers.old counts.old }
{
    abi::staff_board_replay(journal, board, answers, counts)
}

// The frame of a message that is given as its kind and the words of its values.
#[unsafe(no_mangle)]
pub extern "C" fn staff_board_write(kind: u32, values: &[u64], lent: &[u8], frame: &mut [u8]) -> u32
    ensures { write_called result frame.new ≡ encode_of (word_content lent.now kind values.now) frame.old }
{
    abi::staff_board_write(kind, values, lent, frame)
}

// The way back: the words of a message's values.
#[unsafe(no_mangle)]
pub extern "C" fn staff_board_read(message: &[u8], values: &mut [u64]) -> u32
    ensures { write_called result values.new ≡ read_of (message_content message.now) values.old }
{
    abi::staff_board_read(message, values)
}

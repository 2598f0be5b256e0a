// The clauses about bytes: unused records, fillers and the strings of used records.
ghost use Rattle.std.specs.Prelude.{◌≡◌, ◌&&◌};
ghost use Rattle.model.specs.Board.{cut_board};
ghost use Rattle.model.specs.Soundness.{unused_records_zero, filler_zero};
ghost use Rattle.board.specs.BoardTests.{table_strings};

use crate::counted::CountedBoard;
use crate::tables::{fields_hold_strings, numbers_below, unused_zero};
use crate::{
    HEADER_FILLER, PENDING, PENDING_FILLER, PENDING_LIMIT, PENDING_NOTE, POST_LIMIT, POST_TEXT,
    POST_TITLE, POSTS, USER_INFO, USER_LIMIT, USER_NAME, USERS,
};
use layout::run::all_zero;
use reader::{INFO_LIMIT, NAME_LIMIT, NOTE_LIMIT, TEXT_LIMIT, TITLE_LIMIT};

// "used records come first and unused ones are zero"
fn unused_records_zero(board: &CountedBoard) -> bool
    ensures { result ≡ unused_records_zero (cut_board board.now.bytes.now) }
{
    unused_zero(board.bytes, USERS, USER_LIMIT, board.users)
        && unused_zero(board.bytes, POSTS, POST_LIMIT, board.posts)
        && unused_zero(board.bytes, PENDING, PENDING_LIMIT, board.pending)
}

// "string lengths are within their limits, bytes past them zero": name and info, title and text, and the notes of pending registrations.
// The notes of requests are tested with their request bits.
fn table_strings(board: &CountedBoard) -> bool
    ensures { result ≡ table_strings (cut_board board.now.bytes.now) }
{
    fields_hold_strings(board.users, USER_NAME, NAME_LIMIT)
        && fields_hold_strings(board.users, USER_INFO, INFO_LIMIT)
        && fields_hold_strings(board.posts, POST_TITLE, TITLE_LIMIT)
        && fields_hold_strings(board.posts, POST_TEXT, TEXT_LIMIT)
        && fields_hold_strings(board.pending, PENDING_NOTE, NOTE_LIMIT)
}

// "the filler bytes of header and pending records are zero"
fn filler_zero(board: &CountedBoard) -> bool
    ensures { result ≡ filler_zero (cut_board board.now.bytes.now) }
{
    all_zero(board.bytes, HEADER_FILLER, 10) && numbers_below(board.pending, PENDING_FILLER, 1)
}

// The clauses about bytes, but for the notes of requests.
pub(crate) fn records_sound(board: &CountedBoard) -> bool
    ensures { let records = cut_board board.now.bytes.now in result ≡ (unused_records_zero records && (table_strings records && filler_zero records)) }
{
    unused_records_zero(board) && table_strings(board) && filler_zero(board)
}

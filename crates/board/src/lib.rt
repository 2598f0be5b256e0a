// The soundness test of a board, by the clauses of "A board is sound if ..".
#![tactic(auto)]

mod counted;
mod friends;
mod notes;
mod numbers;
mod posts;
mod records;
mod tables;

ghost use Rattle.std.specs.Prelude.{◌≡◌};
ghost use Rattle.model.specs.Soundness.{is_sound};

use crate::counted::CountedBoard;
use crate::friends::friends_sound;
use crate::notes::notes_sound;
use crate::numbers::numbers_sound;
use crate::posts::posts_sound;
use crate::records::records_sound;
use layout::run::all_zero;

pub const BOARD_SIZE: usize = 50448;

// The limits of the tables.
pub const USER_LIMIT: usize = 32;

pub const POST_LIMIT: usize = 64;

pub const PENDING_LIMIT: usize = 16;

// The places of the tables and the sizes of their records.
pub const USERS: usize = 16;

pub const USER_SIZE: usize = 104;

pub const POSTS: usize = 3344;

pub const POST_SIZE: usize = 312;

pub const PENDING: usize = 23312;

pub const PENDING_SIZE: usize = 32;

pub const NOTES: usize = 23824;

pub const NOTE_SIZE: usize = 26;

// The 32 notes to one slot.
pub const SLOT_NOTES_SIZE: usize = 832;

// The places of fields in the header and within records; the number of a record comes first.
pub const HEADER_USERS: usize = 0;

pub const HEADER_POSTS: usize = 2;

pub const HEADER_PENDING: usize = 4;

pub const HEADER_FILLER: usize = 6;

pub const USER_PASSWORD: usize = 4;

pub const USER_FRIENDS: usize = 12;

pub const USER_REQUESTS: usize = 16;

pub const USER_NAME: usize = 20;

pub const USER_INFO: usize = 46;

pub const POST_PICTURE: usize = 4;

pub const POST_OWNER: usize = 8;

pub const POST_VISIBILITY: usize = 10;

pub const POST_TITLE: usize = 12;

pub const POST_TEXT: usize = 54;

pub const PENDING_NOTE: usize = 4;

pub const PENDING_FILLER: usize = 30;

// Whether a board is sound. With no users that is one run of zeros.
pub fn sound(board: &[u8]) -> bool
    ensures { result ≡ is_sound board.now }
{
    let Some(counted) = CountedBoard::new(board) else {
        return false;
    };
    if counted.users.is_empty() {
        return all_zero(board, 0, BOARD_SIZE);
    }
    records_sound(&counted)
        && numbers_sound(&counted)
        && friends_sound(&counted)
        && notes_sound(&counted)
        && posts_sound(&counted)
}

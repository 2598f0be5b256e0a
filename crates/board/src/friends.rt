// The clauses about friend rows and request rows.
ghost use Rattle.std.specs.Prelude.{◌≡◌, ◌&&◌, ◌<◌, ◌≤◌, length};
ghost use Rattle.model.specs.Lists.{all_below};
ghost use Rattle.model.specs.State.{user_limit};
ghost use Rattle.model.specs.Board.{decode, decode_user};
ghost use Rattle.model.specs.Soundness.{friends_symmetric, no_own_bit, bits_below_count, friends_not_requested};
ghost use Rattle.board.specs.BoardTests.{symmetric_at};

use crate::counted::CountedBoard;
use crate::{USER_FRIENDS, USER_REQUESTS, USER_SIZE};
use layout::bits::has_bit;
use layout::number::read_u32;

// The rows of a user: a function for each, since with the place as a parameter the calls would say less.
pub(crate) fn friend_row(user: &[u8; USER_SIZE]) -> u32
    ensures { result ≡ (decode_user user.now).friends }
{
    read_u32(user, USER_FRIENDS)
}

pub(crate) fn request_row(user: &[u8; USER_SIZE]) -> u32
    ensures { result ≡ (decode_user user.now).requests }
{
    read_u32(user, USER_REQUESTS)
}

// Whether slot i is a friend of each slot before it exactly if that one is a friend of slot i. Row i is shifted by one bit for each slot, so
// that the two bits stand lowest; the loop gathers whole rows, of which only the lowest bit counts, and never leaves early.
fn symmetric_row(users: &[[u8; USER_SIZE]], i: usize) -> bool
    requires { (i < length users.now) × (length users.now ≤ user_limit) }
    ensures { result ≡ all_below i (symmetric_at users.now i) }
{
    let mut rest = friend_row(&users[i]);
    let mut differing: u32 = 0;
    for j in 0..i {
        differing = differing | (rest ^ (friend_row(&users[j]) >> i));
        rest = rest >> 1;
    }
    differing % 2 == 0
}

// "friend rows are symmetric"
fn friends_symmetric(board: &CountedBoard) -> bool
    ensures { result ≡ friends_symmetric (decode board.now.bytes.now) }
{
    for i in 0..board.users.len() {
        if !symmetric_row(board.users, i) {
            return false;
        }
    }
    true
}

// "neither row has its own bit .."
fn no_own_bit(board: &CountedBoard) -> bool
    ensures { result ≡ no_own_bit (decode board.now.bytes.now) }
{
    for (i, user) in board.users.iter().enumerate() {
        if has_bit(friend_row(user), i) || has_bit(request_row(user), i) {
            return false;
        }
    }
    true
}

// ".. or a bit at or above n". With 32 users a row of 32 bits cannot be shifted by n: it is widened before.
fn bits_below_count(board: &CountedBoard) -> bool
    ensures { result ≡ bits_below_count (decode board.now.bytes.now) }
{
    let n = board.users.len();
    for user in board.users {
        if (friend_row(user) as u64) >> n != 0 || (request_row(user) as u64) >> n != 0 {
            return false;
        }
    }
    true
}

// "Friends with a request between them are no longer a sound board".
fn friends_not_requested(board: &CountedBoard) -> bool
    ensures { result ≡ friends_not_requested (decode board.now.bytes.now) }
{
    for user in board.users {
        if friend_row(user) & request_row(user) != 0 {
            return false;
        }
    }
    true
}

pub(crate) fn friends_sound(board: &CountedBoard) -> bool
    ensures { let state = decode board.now.bytes.now in result ≡ (friends_symmetric state && (no_own_bit state && (bits_below_count state && friends_not_requested state))) }
{
    friends_symmetric(board)
        && no_own_bit(board)
        && bits_below_count(board)
        && friends_not_requested(board)
}

// Friend rows, request rows and notes of requests, by their places. The board's length stays a clause, as the room of an answer buffer does (`queries`).
ghost use Rattle.std.specs.Prelude.{◌≡◌, ◌+◌, ◌≤◌, ◌<◌, length};
ghost use Rattle.model.specs.State.{user_limit};
ghost use Rattle.model.specs.Board.{board_size};
ghost use Rattle.model.proofs.ChangeWrites.{request_removed, requests_removed};
ghost use Rattle.changes.specs.Rows.{BitChanged, FriendsChanged};

use access::records::note_at;
use access::tables::Table;
use board::{NOTE_SIZE, USER_FRIENDS, USER_REQUESTS};
use layout::bits::clear_bit;
use layout::number::{read_u32, write_number};
use layout::run::zero_fill;

// Bit j of the row at a place is changed: set, or cleared.
pub(crate) fn change_bit<F: Fn(u32, usize) -> u32>(b: &mut [u8], at: usize, j: usize, change: F)
    requires within { at + 4 ≤ length b.old }
    requires callable { F.IsAlwaysCallable change }
    ensures { BitChanged (F.post change) b.old at j b.new }
{
    let row = read_u32(b, at);
    write_number(b, at, 4, change(row, j) as u64);
}

// Slot j's request to slot i is removed, with its note.
fn remove_request(b: &mut [u8], i: usize, j: usize)
    requires { (i < user_limit) × (j < user_limit) × (length b.old ≡ board_size) }
    ensures { b.new ≡ request_removed b.old i j }
{
    let row_at = Table::Users.field_at(i, USER_REQUESTS);
    change_bit(b, row_at, j, clear_bit);
    zero_fill(b, note_at(i, j), NOTE_SIZE);
}

// The requests of slots i and j to each other are removed, with their notes.
pub(crate) fn remove_requests(b: &mut [u8], i: usize, j: usize)
    requires { (i < user_limit) × (j < user_limit) × (length b.old ≡ board_size) }
    ensures { b.new ≡ requests_removed b.old i j }
{
    remove_request(b, i, j);
    remove_request(b, j, i);
}

// The bit of the other is changed in the friend rows of slots i and j: set, they become friends, and cleared, they cease to be.
pub(crate) fn change_friends<F: Fn(u32, usize) -> u32 + Copy>(
    b: &mut [u8],
    i: usize,
    j: usize,
    change: F,
)
    requires slots { (i < user_limit) × (j < user_limit) × (length b.old ≡ board_size) }
    requires callable { F.IsAlwaysCallable change }
    ensures { FriendsChanged (F.post change) b.old i j b.new }
{
    change_bit(b, Table::Users.field_at(i, USER_FRIENDS), j, change);
    change_bit(b, Table::Users.field_at(j, USER_FRIENDS), i, change);
}

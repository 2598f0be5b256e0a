// Actions that create: 0101 and 0201 to 0205.
ghost use Rattle.std.specs.Prelude.{◌≡◌, true, ◌<◌, length};
ghost use Rattle.layout.specs.StringFields.{is_string};
ghost use Rattle.reader.specs.Fields.{note_limit, title_limit};
ghost use Rattle.model.specs.State.{user_limit, post_limit, pending_limit};
ghost use Rattle.model.specs.Board.{board_size};
ghost use Rattle.model.specs.Actions.{start_sys, c_nu_req, c_user, c_post, c_friend_req, c_friend};
ghost use Rattle.model.proofs.ChangeWrites.{user_added, pending_added, post_added};
ghost use Rattle.model.proofs.SoundnessTheorems.{SoundState};
ghost use Rattle.changes.specs.ChangeResults.{changed, change_result};

use crate::rows::{change_bit, change_friends, remove_requests};
use access::records::note_at;
use access::refusals::Refusal;
use access::sound_board::SoundBoard;
use access::tables::Table;
use board::{
    HEADER_PENDING, HEADER_POSTS, HEADER_USERS, PENDING, PENDING_LIMIT, PENDING_NOTE, PENDING_SIZE,
    POST_LIMIT, POST_OWNER, POST_SIZE, POST_TITLE, POSTS, USER_LIMIT, USER_PASSWORD, USER_REQUESTS,
    USER_SIZE, USERS,
};
use layout::bits::set_bit;
use layout::number::write_number;
use layout::string::write_string;
use reader::{Login, NOTE_LIMIT, TITLE_LIMIT};

// A record is added at place n, where all bytes are zero: its table's count is written, then the fields that are not zero.
fn add_user(board: &mut [u8], n: usize, u: u32, password: u64)
    requires { (n < user_limit) × (length board.old ≡ board_size) }
    ensures { board.new ≡ user_added board.old n u password }
{
    let at = USERS + n * USER_SIZE;
    write_number(board, HEADER_USERS, 2, (n + 1) as u64);
    write_number(board, at, 4, u as u64);
    write_number(board, at + USER_PASSWORD, 8, password);
}

fn add_pending(board: &mut [u8], n: usize, u: u32, note: &[u8])
    requires { (n < pending_limit) × (length board.old ≡ board_size) × (is_string note_limit note.now ≡ true) }
    ensures { board.new ≡ pending_added board.old n u note.now }
{
    let at = PENDING + n * PENDING_SIZE;
    write_number(board, HEADER_PENDING, 2, (n + 1) as u64);
    write_number(board, at, 4, u as u64);
    write_string(board, at + PENDING_NOTE, NOTE_LIMIT, note);
}

fn add_post(board: &mut [u8], n: usize, number: u32, owner: usize, title: &[u8])
    requires { (n < post_limit) × (owner < user_limit) × (length board.old ≡ board_size) × (is_string title_limit title.now ≡ true) }
    ensures { board.new ≡ post_added board.old n number owner title.now }
{
    let at = POSTS + n * POST_SIZE;
    write_number(board, HEADER_POSTS, 2, (n + 1) as u64);
    write_number(board, at, 4, number as u64);
    write_number(board, at + POST_OWNER, 2, owner as u64);
    write_string(board, at + POST_TITLE, TITLE_LIMIT, title);
}

// 0101
pub fn start_system(board: &mut [u8], login: Login) -> Result<(), Refusal>
    requires { SoundState board.old }
    ensures { changed result board.new ≡ change_result board.old (start_sys login.user login.password) }
{
    let sound = SoundBoard { bytes: board };
    if sound.count(Table::Users) != 0 {
        return Err(Refusal::WrongStart);
    }
    add_user(board, 0, login.user, login.password);
    Ok(())
}

// 0201
pub fn request_registration(board: &mut [u8], u: u32, note: &[u8]) -> Result<(), Refusal>
    requires { SoundState board.old × (is_string note_limit note.now ≡ true) }
    ensures { changed result board.new ≡ change_result board.old (c_nu_req u note.now) }
{
    let sound = SoundBoard { bytes: board };
    if sound.count(Table::Users) == 0 {
        return Err(Refusal::WrongStart);
    }
    if sound.holds(Table::Users, u) || sound.holds(Table::Pending, u) {
        return Err(Refusal::AlreadyThere);
    }
    let n = sound.count(Table::Pending);
    if PENDING_LIMIT <= n {
        return Err(Refusal::Full);
    }
    add_pending(board, n, u, note);
    Ok(())
}

// 0202: the later pending ones move up, and the freed record is zero
pub fn register_user(board: &mut [u8], login: Login, v: u32, password: u64) -> Result<(), Refusal>
    requires { SoundState board.old }
    ensures { changed result board.new ≡ change_result board.old (c_user login.user login.password v password) }
{
    let sound = SoundBoard { bytes: board };
    let i = sound.permitted_pending(0x0202, login, v)?;
    let n = sound.count(Table::Users);
    if USER_LIMIT <= n {
        return Err(Refusal::Full);
    }
    let k = sound.count(Table::Pending);
    Table::Pending.records().remove(board, k, i);
    write_number(board, HEADER_PENDING, 2, (k - 1) as u64);
    add_user(board, n, v, password);
    Ok(())
}

// 0203
pub fn create_post(board: &mut [u8], login: Login, n: u32, title: &[u8]) -> Result<(), Refusal>
    requires { SoundState board.old × (is_string title_limit title.now ≡ true) }
    ensures { changed result board.new ≡ change_result board.old (c_post login.user login.password n title.now) }
{
    let sound = SoundBoard { bytes: board };
    let owner = sound.log_in(login)?;
    if sound.holds(Table::Posts, n) {
        return Err(Refusal::AlreadyThere);
    }
    let m = sound.count(Table::Posts);
    if POST_LIMIT <= m {
        return Err(Refusal::Full);
    }
    add_post(board, m, n, owner, title);
    Ok(())
}

// 0204
pub fn request_friend(board: &mut [u8], login: Login, v: u32, note: &[u8]) -> Result<(), Refusal>
    requires { SoundState board.old × (is_string note_limit note.now ≡ true) }
    ensures { changed result board.new ≡ change_result board.old (c_friend_req login.user login.password v note.now) }
{
    let sound = SoundBoard { bytes: board };
    let (i, j) = sound.log_in_with(login, v)?;
    if login.user == v || sound.are_friends(i, j) || sound.has_requested(j, i) {
        return Err(Refusal::AlreadyThere);
    }
    let row_at = Table::Users.field_at(j, USER_REQUESTS);
    change_bit(board, row_at, i, set_bit);
    write_string(board, note_at(j, i), NOTE_LIMIT, note);
    Ok(())
}

// 0205: the requests of both to each other are removed with their notes, and both become friends
pub fn accept_request(board: &mut [u8], login: Login, v: u32) -> Result<(), Refusal>
    requires { SoundState board.old }
    ensures { changed result board.new ≡ change_result board.old (c_friend login.user login.password v) }
{
    let sound = SoundBoard { bytes: board };
    let (i, j) = sound.log_in_with(login, v)?;
    if !sound.has_requested(i, j) {
        return Err(Refusal::Missing);
    }
    remove_requests(board, i, j);
    change_friends(board, i, j, set_bit);
    Ok(())
}

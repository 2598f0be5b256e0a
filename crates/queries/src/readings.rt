// Actions that read: 0501 to 050A.
ghost use Rattle.std.specs.Prelude.{◌≡◌, not, [], ◌∷◌, ◌≤◌, ◌<◌, length};
ghost use Rattle.layout.specs.Bits.{has_bit};
ghost use Rattle.layout.specs.StringFields.{string_bytes};
ghost use Rattle.model.specs.State.{user_limit, user_at, note_at};
ghost use Rattle.model.specs.Actions.{request_missing};
ghost use Rattle.model.specs.Actions.{r_user, r_nu_req, r_am_i_admin, r_title_post, r_text_post, r_img_post, r_vis_post, r_owner_post, r_friend_req_to_me, r_friend_req_from_me};
ghost use Rattle.model.specs.Step.{answer_limit};
ghost use Rattle.access.specs.SoundBoards.{state_of};
ghost use Rattle.queries.specs.QueryResults.{replied, reply_to, query_result};

use crate::HEAD_SIZE;
use crate::answers::{copy_string, write_field};
use access::records::note_at;
use access::refusals::Refusal;
use access::sound_board::SoundBoard;
use access::tables::Table;
use board::{PENDING_NOTE, POST_TEXT, POST_TITLE, USER_INFO, USER_NAME};
use reader::Login;

// 0501
pub fn read_user(board: &SoundBoard, login: Login, v: u32, out: &mut [u8]) -> Result<usize, Refusal>
    requires { answer_limit ≤ length out.old }
    ensures { replied result out.new ≡ query_result board.now.bytes.now (r_user login.user login.password v) out.old }
{
    let (_, j) = board.log_in_with(login, v)?;
    let name_at = Table::Users.field_at(j, USER_NAME);
    let info_at = Table::Users.field_at(j, USER_INFO);
    let name_len = copy_string(board.bytes, name_at, out, HEAD_SIZE);
    let info_len = copy_string(board.bytes, info_at, out, HEAD_SIZE + name_len);
    Ok(name_len + info_len)
}

// 0502
pub fn read_pending(
    board: &SoundBoard,
    login: Login,
    v: u32,
    out: &mut [u8],
) -> Result<usize, Refusal>
    requires { answer_limit ≤ length out.old }
    ensures { replied result out.new ≡ query_result board.now.bytes.now (r_nu_req login.user login.password v) out.old }
{
    let place = board.permitted_pending(0x0502, login, v)?;
    let at = Table::Pending.field_at(place, PENDING_NOTE);
    Ok(copy_string(board.bytes, at, out, HEAD_SIZE))
}

// 0503
pub fn read_admin(board: &SoundBoard, login: Login, out: &mut [u8]) -> Result<usize, Refusal>
    requires { answer_limit ≤ length out.old }
    ensures { replied result out.new ≡ query_result board.now.bytes.now (r_am_i_admin login.user login.password) out.old }
{
    board.log_in(login)?;
    let answer = board.is_admin(login.user);
    Ok(write_field(out, &[u8::from(answer)]))
}

// 0504
pub fn read_title(
    board: &SoundBoard,
    login: Login,
    n: u32,
    out: &mut [u8],
) -> Result<usize, Refusal>
    requires { answer_limit ≤ length out.old }
    ensures { replied result out.new ≡ query_result board.now.bytes.now (r_title_post login.user login.password n) out.old }
{
    let place = board.permitted_post(0x0504, login, n)?;
    let at = Table::Posts.field_at(place, POST_TITLE);
    Ok(copy_string(board.bytes, at, out, HEAD_SIZE))
}

// 0505
pub fn read_text(board: &SoundBoard, login: Login, n: u32, out: &mut [u8]) -> Result<usize, Refusal>
    requires { answer_limit ≤ length out.old }
    ensures { replied result out.new ≡ query_result board.now.bytes.now (r_text_post login.user login.password n) out.old }
{
    let place = board.permitted_post(0x0505, login, n)?;
    let at = Table::Posts.field_at(place, POST_TEXT);
    Ok(copy_string(board.bytes, at, out, HEAD_SIZE))
}

// 0506
pub fn read_picture(
    board: &SoundBoard,
    login: Login,
    n: u32,
    out: &mut [u8],
) -> Result<usize, Refusal>
    requires { answer_limit ≤ length out.old }
    ensures { replied result out.new ≡ query_result board.now.bytes.now (r_img_post login.user login.password n) out.old }
{
    let place = board.permitted_post(0x0506, login, n)?;
    Ok(write_field(out, &board.post_picture(place).to_le_bytes()))
}

// 0507
pub fn read_visibility(
    board: &SoundBoard,
    login: Login,
    n: u32,
    out: &mut [u8],
) -> Result<usize, Refusal>
    requires { answer_limit ≤ length out.old }
    ensures { replied result out.new ≡ query_result board.now.bytes.now (r_vis_post login.user login.password n) out.old }
{
    let place = board.permitted_post(0x0507, login, n)?;
    Ok(write_field(out, &[board.post_visibility(place) as u8]))
}

// 0508
pub fn read_owner(
    board: &SoundBoard,
    login: Login,
    n: u32,
    out: &mut [u8],
) -> Result<usize, Refusal>
    requires { answer_limit ≤ length out.old }
    ensures { replied result out.new ≡ query_result board.now.bytes.now (r_owner_post login.user login.password n) out.old }
{
    let place = board.permitted_post(0x0508, login, n)?;
    let owner = board.post_owner(place);
    Ok(write_field(out, &board.user_number(owner).to_le_bytes()))
}

// The note of the request to slot i from slot j.
fn read_request_note(
    board: &SoundBoard,
    i: usize,
    j: usize,
    out: &mut [u8],
) -> Result<usize, Refusal>
    requires { (i < user_limit) × (j < user_limit) × (answer_limit ≤ length out.old) }
    ensures { replied result out.new ≡ reply_to ((request_missing, not (has_bit (user_at (state_of board.now) i).requests j)) ∷ []) (string_bytes (note_at (state_of board.now) i j)) out.old }
{
    if !board.has_requested(i, j) {
        return Err(Refusal::Missing);
    }
    Ok(copy_string(board.bytes, note_at(i, j), out, HEAD_SIZE))
}

// 0509: the note of v's request to u
pub fn read_request_to(
    board: &SoundBoard,
    login: Login,
    v: u32,
    out: &mut [u8],
) -> Result<usize, Refusal>
    requires { answer_limit ≤ length out.old }
    ensures { replied result out.new ≡ query_result board.now.bytes.now (r_friend_req_to_me login.user login.password v) out.old }
{
    let (i, j) = board.log_in_with(login, v)?;
    read_request_note(board, i, j, out)
}

// 050A: the note of u's request to v
pub fn read_request_from(
    board: &SoundBoard,
    login: Login,
    v: u32,
    out: &mut [u8],
) -> Result<usize, Refusal>
    requires { answer_limit ≤ length out.old }
    ensures { replied result out.new ≡ query_result board.now.bytes.now (r_friend_req_from_me login.user login.password v) out.old }
{
    let (i, j) = board.log_in_with(login, v)?;
    read_request_note(board, j, i, out)
}

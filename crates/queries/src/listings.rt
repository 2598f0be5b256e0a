// Actions that list: 0601 to 0606.
ghost use Rattle.std.specs.Prelude.{◌≡◌, ◌≤◌, length};
ghost use Rattle.model.specs.Actions.{l_pending_u_reqs, l_all_users, l_all_posts, l_friend_reqs, l_friends, l_friends_of};
ghost use Rattle.model.specs.Step.{answer_limit};
ghost use Rattle.access.specs.SoundBoards.{state_of};
ghost use Rattle.queries.specs.QueryResults.{replied, query_result};

use crate::answers::{write_post_list, write_staff_list};
use access::refusals::{Refusal, right_of};
use access::sound_board::SoundBoard;
use access::tables::Table;
use layout::bits::low_bits;
use reader::Login;

// 0601
pub fn list_pending(board: &SoundBoard, login: Login, out: &mut [u8]) -> Result<usize, Refusal>
    requires { answer_limit ≤ length out.old }
    ensures { replied result out.new ≡ query_result board.now.bytes.now (l_pending_u_reqs login.user login.password) out.old }
{
    let i = board.log_in(login)?;
    // the right of the admin looks at no number and no place
    board.check_right(right_of(0x0601), login.user, 0, i, 0)?;
    let all = low_bits(board.count(Table::Pending));
    Ok(write_staff_list(board, Table::Pending, all, out))
}

// 0602
pub fn list_users(board: &SoundBoard, login: Login, out: &mut [u8]) -> Result<usize, Refusal>
    requires { answer_limit ≤ length out.old }
    ensures { replied result out.new ≡ query_result board.now.bytes.now (l_all_users login.user login.password) out.old }
{
    board.log_in(login)?;
    let all = low_bits(board.count(Table::Users));
    Ok(write_staff_list(board, Table::Users, all, out))
}

// 0603
pub fn list_posts(board: &SoundBoard, login: Login, out: &mut [u8]) -> Result<usize, Refusal>
    requires { answer_limit ≤ length out.old }
    ensures { replied result out.new ≡ query_result board.now.bytes.now (l_all_posts login.user login.password) out.old }
{
    board.log_in(login)?;
    Ok(write_post_list(board, out))
}

// 0604
pub fn list_requests(board: &SoundBoard, login: Login, out: &mut [u8]) -> Result<usize, Refusal>
    requires { answer_limit ≤ length out.old }
    ensures { replied result out.new ≡ query_result board.now.bytes.now (l_friend_reqs login.user login.password) out.old }
{
    let i = board.log_in(login)?;
    let row = board.user_requests(i);
    Ok(write_staff_list(board, Table::Users, row, out))
}

// 0605
pub fn list_friends(board: &SoundBoard, login: Login, out: &mut [u8]) -> Result<usize, Refusal>
    requires { answer_limit ≤ length out.old }
    ensures { replied result out.new ≡ query_result board.now.bytes.now (l_friends login.user login.password) out.old }
{
    let i = board.log_in(login)?;
    let row = board.user_friends(i);
    Ok(write_staff_list(board, Table::Users, row, out))
}

// 0606
pub fn list_friends_of(
    board: &SoundBoard,
    login: Login,
    v: u32,
    out: &mut [u8],
) -> Result<usize, Refusal>
    requires { answer_limit ≤ length out.old }
    ensures { replied result out.new ≡ query_result board.now.bytes.now (l_friends_of login.user login.password v) out.old }
{
    let (i, j) = board.log_in_with(login, v)?;
    board.check_right(right_of(0x0606), login.user, v, i, j)?;
    let row = board.user_friends(j);
    Ok(write_staff_list(board, Table::Users, row, out))
}

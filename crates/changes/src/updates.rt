// Actions that update: 0401 to 0405.
ghost use Rattle.std.specs.Prelude.{◌≡◌, true, ◌≤◌};
ghost use Rattle.layout.specs.StringFields.{is_string};
ghost use Rattle.reader.specs.Fields.{name_limit, info_limit, title_limit, text_limit};
ghost use Rattle.model.specs.Actions.{u_user, u_title_post, u_text_post, u_img_post, u_vis_post};
ghost use Rattle.model.proofs.SoundnessTheorems.{SoundState};
ghost use Rattle.changes.specs.ChangeResults.{changed, change_result};

use access::refusals::Refusal;
use access::sound_board::SoundBoard;
use access::tables::Table;
use board::{
    POST_PICTURE, POST_TEXT, POST_TITLE, POST_VISIBILITY, USER_INFO, USER_NAME, USER_PASSWORD,
};
use layout::number::write_number;
use layout::string::write_string;
use reader::{INFO_LIMIT, Login, NAME_LIMIT, TEXT_LIMIT, TITLE_LIMIT};

// 0401
pub fn update_user(
    board: &mut [u8],
    login: Login,
    password: u64,
    name: &[u8],
    info: &[u8],
) -> Result<(), Refusal>
    requires { SoundState board.old × (is_string name_limit name.now ≡ true) × (is_string info_limit info.now ≡ true) }
    ensures { changed result board.new ≡ change_result board.old (u_user login.user login.password password name.now info.now) }
{
    let sound = SoundBoard { bytes: board };
    let i = sound.log_in(login)?;
    let password_at = Table::Users.field_at(i, USER_PASSWORD);
    write_number(board, password_at, 8, password);
    let name_at = Table::Users.field_at(i, USER_NAME);
    write_string(board, name_at, NAME_LIMIT, name);
    let info_at = Table::Users.field_at(i, USER_INFO);
    write_string(board, info_at, INFO_LIMIT, info);
    Ok(())
}

// 0402
pub fn update_title(board: &mut [u8], login: Login, n: u32, title: &[u8]) -> Result<(), Refusal>
    requires { SoundState board.old × (is_string title_limit title.now ≡ true) }
    ensures { changed result board.new ≡ change_result board.old (u_title_post login.user login.password n title.now) }
{
    let sound = SoundBoard { bytes: board };
    let place = sound.permitted_post(0x0402, login, n)?;
    let at = Table::Posts.field_at(place, POST_TITLE);
    write_string(board, at, TITLE_LIMIT, title);
    Ok(())
}

// 0403
pub fn update_text(board: &mut [u8], login: Login, n: u32, text: &[u8]) -> Result<(), Refusal>
    requires { SoundState board.old × (is_string text_limit text.now ≡ true) }
    ensures { changed result board.new ≡ change_result board.old (u_text_post login.user login.password n text.now) }
{
    let sound = SoundBoard { bytes: board };
    let place = sound.permitted_post(0x0403, login, n)?;
    let at = Table::Posts.field_at(place, POST_TEXT);
    write_string(board, at, TEXT_LIMIT, text);
    Ok(())
}

// 0404
pub fn update_picture(board: &mut [u8], login: Login, n: u32, picture: u32) -> Result<(), Refusal>
    requires { SoundState board.old }
    ensures { changed result board.new ≡ change_result board.old (u_img_post login.user login.password n picture) }
{
    let sound = SoundBoard { bytes: board };
    let place = sound.permitted_post(0x0404, login, n)?;
    let at = Table::Posts.field_at(place, POST_PICTURE);
    write_number(board, at, 4, picture as u64);
    Ok(())
}

// 0405
pub fn update_visibility(
    board: &mut [u8],
    login: Login,
    n: u32,
    visibility: u8,
) -> Result<(), Refusal>
    requires { SoundState board.old × (visibility ≤ 1) }
    ensures { changed result board.new ≡ change_result board.old (u_vis_post login.user login.password n visibility) }
{
    let sound = SoundBoard { bytes: board };
    let place = sound.permitted_post(0x0405, login, n)?;
    let at = Table::Posts.field_at(place, POST_VISIBILITY);
    write_number(board, at, 2, visibility as u64);
    Ok(())
}

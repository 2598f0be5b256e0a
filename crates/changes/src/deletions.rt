// The action that deletes: 0301.
ghost use Rattle.std.specs.Prelude.{◌≡◌};
ghost use Rattle.model.specs.Actions.{d_friend};
ghost use Rattle.model.proofs.SoundnessTheorems.{SoundState};
ghost use Rattle.changes.specs.ChangeResults.{changed, change_result};

use crate::rows::change_friends;
use access::refusals::Refusal;
use access::sound_board::SoundBoard;
use layout::bits::clear_bit;
use reader::Login;

// 0301, "on both sides"
pub fn end_friendship(board: &mut [u8], login: Login, v: u32) -> Result<(), Refusal>
    requires { SoundState board.old }
    ensures { changed result board.new ≡ change_result board.old (d_friend login.user login.password v) }
{
    let sound = SoundBoard { bytes: board };
    let (i, j) = sound.log_in_with(login, v)?;
    if !sound.are_friends(i, j) {
        return Err(Refusal::Missing);
    }
    change_friends(board, i, j, clear_bit);
    Ok(())
}

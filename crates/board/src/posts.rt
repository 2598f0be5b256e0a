// The clauses about owner and visibility of posts.
ghost use Rattle.std.specs.Prelude.{◌≡◌, ◌&&◌};
ghost use Rattle.model.specs.Board.{decode};
ghost use Rattle.model.specs.Soundness.{owners_registered, visibility_valid};

use crate::counted::CountedBoard;
use crate::tables::numbers_below;
use crate::{POST_OWNER, POST_VISIBILITY};

// "owners' slots are below n"
fn owners_registered(board: &CountedBoard) -> bool
    ensures { result ≡ owners_registered (decode board.now.bytes.now) }
{
    numbers_below(board.posts, POST_OWNER, board.users.len())
}

// "visibility is 0 or 1"
fn visibility_valid(board: &CountedBoard) -> bool
    ensures { result ≡ visibility_valid (decode board.now.bytes.now) }
{
    numbers_below(board.posts, POST_VISIBILITY, 2)
}

pub(crate) fn posts_sound(board: &CountedBoard) -> bool
    ensures { let state = decode board.now.bytes.now in result ≡ (owners_registered state && visibility_valid state) }
{
    owners_registered(board) && visibility_valid(board)
}

// A board whose length and counts are tested, cut into its used records.
ghost use Rattle.std.specs.Prelude.{◌≡◌, MatchOption};
ghost use Rattle.board.specs.BoardTests.{BoardWithinLimits, used_users, used_posts, used_pending};

use crate::tables::records;
use crate::{
    BOARD_SIZE, HEADER_PENDING, HEADER_POSTS, HEADER_USERS, PENDING, PENDING_LIMIT, PENDING_SIZE,
    POST_LIMIT, POST_SIZE, POSTS, USER_LIMIT, USER_SIZE, USERS,
};
use layout::number::read_u16;

// All bytes of the board, and the used records of each table, as many as the header counts.
#[derive(Drop)]
pub(crate) struct CountedBoard<'a> {
    pub(crate) bytes: &'a [u8],
    pub(crate) users: &'a [[u8; USER_SIZE]],
    pub(crate) posts: &'a [[u8; POST_SIZE]],
    pub(crate) pending: &'a [[u8; PENDING_SIZE]],
    ghost within: { BoardWithinLimits bytes.now },
    ghost users_used: { users.now ≡ used_users bytes.now },
    ghost posts_used: { posts.now ≡ used_posts bytes.now },
    ghost pending_used: { pending.now ≡ used_pending bytes.now },
}

impl<'a> CountedBoard<'a> {
    // "its counts are within limits", and its length is that of a board; else there is none.
    pub(crate) fn new(bytes: &'a [u8]) -> Option<CountedBoard<'a>>
        ensures { MatchOption result (¬ BoardWithinLimits bytes.now) (λ board. board.bytes.now ≡ bytes.now) }
    {
        if bytes.len() != BOARD_SIZE {
            return None;
        }
        let users = read_u16(bytes, HEADER_USERS) as usize;
        let posts = read_u16(bytes, HEADER_POSTS) as usize;
        let pending = read_u16(bytes, HEADER_PENDING) as usize;
        if USER_LIMIT < users || POST_LIMIT < posts || PENDING_LIMIT < pending {
            return None;
        }
        Some(CountedBoard {
            bytes,
            users: records(bytes, USERS, users),
            posts: records(bytes, POSTS, posts),
            pending: records(bytes, PENDING, pending),
        })
    }
}

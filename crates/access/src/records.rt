// Single fields of the users and posts of a sound board, and where notes stand.
ghost use Rattle.std.specs.Prelude.{◌≡◌, cond, ◌+◌, ◌*◌, ◌≤◌, ◌<◌, ltb};
ghost use Rattle.reader.specs.Fields.{number_in};
ghost use Rattle.model.specs.State.{user_limit, user_at, post_at};
ghost use Rattle.access.specs.SoundBoards.{state_of};
ghost use Rattle.access.specs.Tables.{record_size, field_place, record_count};

use crate::sound_board::SoundBoard;
use crate::tables::Table;
use board::{
    NOTE_SIZE, NOTES, POST_OWNER, POST_PICTURE, POST_VISIBILITY, USER_FRIENDS, USER_LIMIT,
    USER_PASSWORD, USER_REQUESTS,
};
use layout::number::{read_u16, read_u32, read_u64};

impl<'a> SoundBoard<'a> {
    // The number in a field of record i of a table, or 0 where there is no such record, as `user_at` and `post_at` have it: a `requires` would give
    // tests that follow one another an order. One for each width, as `read_u16` and `read_u32` are.
    fn field_u16(&self, table: Table, i: usize, field: usize) -> u16
        requires { field + 2 ≤ record_size table }
        ensures { result ≡ cond (ltb i (record_count (state_of self.now) table)) (number_in self.now.bytes.now (field_place table i field) 2) 0 }
    {
        if self.count(table) <= i {
            return 0;
        }
        read_u16(self.bytes, table.field_at(i, field))
    }

    fn field_u32(&self, table: Table, i: usize, field: usize) -> u32
        requires { field + 4 ≤ record_size table }
        ensures { result ≡ cond (ltb i (record_count (state_of self.now) table)) (number_in self.now.bytes.now (field_place table i field) 4) 0 }
    {
        if self.count(table) <= i {
            return 0;
        }
        read_u32(self.bytes, table.field_at(i, field))
    }

    // The fields of the user in slot i, a method for each: with the field as a parameter the calls would say less. Without such a user they are 0, as in
    // `user_at`.
    pub fn user_number(&self, i: usize) -> u32
        ensures { result ≡ (user_at (state_of self.now) i).number }
    {
        self.field_u32(Table::Users, i, 0)
    }

    pub(crate) fn user_password(&self, i: usize) -> u64
        ensures { result ≡ (user_at (state_of self.now) i).password }
    {
        if self.count(Table::Users) <= i {
            return 0;
        }
        read_u64(self.bytes, Table::Users.field_at(i, USER_PASSWORD))
    }

    pub fn user_friends(&self, i: usize) -> u32
        ensures { result ≡ (user_at (state_of self.now) i).friends }
    {
        self.field_u32(Table::Users, i, USER_FRIENDS)
    }

    pub fn user_requests(&self, i: usize) -> u32
        ensures { result ≡ (user_at (state_of self.now) i).requests }
    {
        self.field_u32(Table::Users, i, USER_REQUESTS)
    }

    // The fields of post i.
    pub fn post_number(&self, i: usize) -> u32
        ensures { result ≡ (post_at (state_of self.now) i).number }
    {
        self.field_u32(Table::Posts, i, 0)
    }

    pub fn post_picture(&self, i: usize) -> u32
        ensures { result ≡ (post_at (state_of self.now) i).picture }
    {
        self.field_u32(Table::Posts, i, POST_PICTURE)
    }

    pub fn post_owner(&self, i: usize) -> usize
        ensures { result ≡ (post_at (state_of self.now) i).owner }
    {
        self.field_u16(Table::Posts, i, POST_OWNER) as usize
    }

    pub fn post_visibility(&self, i: usize) -> u16
        ensures { result ≡ (post_at (state_of self.now) i).visibility }
    {
        self.field_u16(Table::Posts, i, POST_VISIBILITY)
    }
}

// Where the note to slot i from slot j stands. That a slot is below the limit is a clause: `find` gives places in three tables, and the search decides it.
pub fn note_at(i: usize, j: usize) -> usize
    requires { (i < user_limit) × (j < user_limit) }
    ensures { result ≡ 23824 + (user_limit * i + j) * 26 }
{
    NOTES + (USER_LIMIT * i + j) * NOTE_SIZE
}

// The three tables of a sound board: how many records each has, and where a number stands.
ghost use Rattle.std.specs.Prelude.{◌≡◌, ◌≤◌, ◌<◌};
ghost use Rattle.access.specs.SoundBoards.{state_of};
ghost use Rattle.access.specs.Tables.{count_at, table_start, record_size, record_limit, field_place, record_count, is_in, place_in, place_if};

use crate::sound_board::SoundBoard;
use board::{
    HEADER_PENDING, HEADER_POSTS, HEADER_USERS, PENDING, PENDING_SIZE, POST_SIZE, POSTS, USER_SIZE,
    USERS,
};
use layout::number::read_u16;
use layout::table::Records;

#[derive(Clone, Copy)]
pub enum Table {
    Users,
    Posts,
    Pending,
}

impl Table {
    // Where the header has the count.
    fn count_at(self) -> usize
        ensures { result ≡ count_at self }
    {
        match self {
            Table::Users => HEADER_USERS,
            Table::Posts => HEADER_POSTS,
            Table::Pending => HEADER_PENDING,
        }
    }

    // Where its records stand.
    pub fn records(self) -> Records
        ensures { result ≡ record { base = table_start self; size = record_size self } }
    {
        let (base, size) = match self {
            Table::Users => (USERS, USER_SIZE),
            Table::Posts => (POSTS, POST_SIZE),
            Table::Pending => (PENDING, PENDING_SIZE),
        };
        Records { base, size }
    }

    // Where a field of record i stands, by its place in the record.
    pub fn field_at(self, i: usize, field: usize) -> usize
        requires { (i < record_limit self) × (field ≤ record_size self) }
        ensures { result ≡ field_place self i field }
    {
        let records = self.records();
        records.base + i * records.size + field
    }
}

impl<'a> SoundBoard<'a> {
    pub fn count(&self, table: Table) -> usize
        ensures { result ≡ record_count (state_of self.now) table }
    {
        read_u16(self.bytes, table.count_at()) as usize
    }

    // The place of the record with a number: a user's slot, a post's place.
    pub fn find(&self, table: Table, number: u32) -> Option<usize>
        ensures { result ≡ place_if (is_in (state_of self.now) table number) (place_in (state_of self.now) table number) }
    {
        table.records().find(self.bytes, self.count(table), number)
    }

    pub fn holds(&self, table: Table, number: u32) -> bool
        ensures { result ≡ is_in (state_of self.now) table number }
    {
        self.find(table, number).is_some()
    }
}

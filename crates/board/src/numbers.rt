// The clauses about the numbers of users, posts and pending registrations.
ghost use Rattle.std.specs.Prelude.{◌≡◌, ◌&&◌, not, ◌≤◌, ◌^◌, map, bit_or};
ghost use Rattle.layout.specs.Bits.{has_bit};
ghost use Rattle.layout.specs.Tables.{record_number};
ghost use Rattle.model.specs.Lists.{contains, distinct};
ghost use Rattle.model.specs.Board.{decode};
ghost use Rattle.model.specs.Soundness.{numbers_not_zero, numbers_distinct, pending_not_registered};
ghost use Rattle.board.specs.BoardTests.{first_place, second_place};

use crate::counted::CountedBoard;
use layout::number::read_u32;

// The number of a record comes first. That it has room is a clause here and below, for no type says it of a const parameter.
fn record_number<const SIZE: usize>(bytes: &[u8; SIZE]) -> u32
    requires { 4 ≤ SIZE }
    ensures { result ≡ record_number bytes.now }
{
    read_u32(bytes, 0)
}

// Whether no record has number x. All tests of numbers search by it. The loop gathers and never leaves early, so that it is done several
// records at a time.
fn is_absent<const SIZE: usize>(records: &[[u8; SIZE]], x: u32) -> bool
    requires { 4 ≤ SIZE }
    ensures { result ≡ not (contains x (map record_number records.now)) }
{
    let mut found = false;
    for record in records {
        found = found | (record_number(record) == x);
    }
    !found
}

// Two filters with a bit for each number that was added: a number that lacks one of its bits was not.
#[derive(Drop)]
struct Filters {
    first: u64,
    second: u64,
}

impl Filters {
    fn lacks(&self, x: u32) -> bool
        ensures { result ≡ not (has_bit self.now.first (first_place x) && has_bit self.now.second (second_place x)) }
    {
        ((self.first >> (x % 64)) & (self.second >> (x / 64 % 64))) % 2 == 0
    }

    fn add(&mut self, x: u32)
        ensures first { self.new.first ≡ bit_or self.old.first (2 ^ first_place x) }
        ensures second { self.new.second ≡ bit_or self.old.second (2 ^ second_place x) }
    {
        self.first = self.first | (1u64 << (x % 64));
        self.second = self.second | (1u64 << (x / 64 % 64));
    }
}

// Whether the numbers of a table are distinct: each is searched among those before it, but for most the filters spare the search.
fn distinct_numbers<const SIZE: usize>(records: &[[u8; SIZE]]) -> bool
    requires { 4 ≤ SIZE }
    ensures { result ≡ distinct (map record_number records.now) }
{
    let mut filters = Filters {
        first: 0,
        second: 0,
    };
    for (i, record) in records.iter().enumerate() {
        let x = record_number(record);
        if !filters.lacks(x) && !is_absent(&records[..i], x) {
            return false;
        }
        filters.add(x);
    }
    true
}

// "numbers are not 0 .."
fn numbers_not_zero(board: &CountedBoard) -> bool
    ensures { result ≡ numbers_not_zero (decode board.now.bytes.now) }
{
    is_absent(board.users, 0) && is_absent(board.posts, 0) && is_absent(board.pending, 0)
}

// ".. and distinct in each table"
fn numbers_distinct(board: &CountedBoard) -> bool
    ensures { result ≡ numbers_distinct (decode board.now.bytes.now) }
{
    distinct_numbers(board.users)
        && distinct_numbers(board.posts)
        && distinct_numbers(board.pending)
}

// "no pending number is registered"
fn pending_not_registered(board: &CountedBoard) -> bool
    ensures { result ≡ pending_not_registered (decode board.now.bytes.now) }
{
    board
        .pending
        .iter()
        .all(|record| is_absent(board.users, record_number(record)))
}

pub(crate) fn numbers_sound(board: &CountedBoard) -> bool
    ensures { let state = decode board.now.bytes.now in result ≡ (numbers_not_zero state && (numbers_distinct state && pending_not_registered state)) }
{
    numbers_not_zero(board) && numbers_distinct(board) && pending_not_registered(board)
}

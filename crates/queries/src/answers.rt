// Bodies of answers, written straight into the buffer; each function returns how many bytes it has written.
ghost use Rattle.std.specs.Prelude.{◌≡◌, [], ◌∷◌, ◌+◌, ◌^◌, ◌≤◌, ◌<◌, length};
ghost use Rattle.layout.specs.Bytes.{bytes_at, bytes_written, put_bytes};
ghost use Rattle.layout.specs.Numbers.{to_le_bytes};
ghost use Rattle.reader.specs.Fields.{number_in};
ghost use Rattle.model.specs.Answers.{staff_list, counted_list, post_entry};
ghost use Rattle.model.specs.Step.{answer_limit};
ghost use Rattle.access.specs.SoundBoards.{state_of};
ghost use Rattle.access.specs.Tables.{record_count};
ghost use Rattle.queries.specs.QueryResults.{head_size, numbers_in};

use crate::HEAD_SIZE;
use access::sound_board::SoundBoard;
use access::tables::Table;
use board::USER_LIMIT;
use layout::bits::{count_bits, has_bit};
use layout::number::{read_u16, read_u32, write_number};
use layout::run::write_bytes;

// Copies the string at a place of the board, with its length, to a place of the buffer.
pub(crate) fn copy_string(b: &[u8], at: usize, out: &mut [u8], to: usize) -> usize
    requires { (at + (2 + number_in b.now at 2) ≤ length b.now) × (to + (2 + number_in b.now at 2) ≤ length out.old) }
    ensures { bytes_written result out.new ≡ put_bytes out.old to (bytes_at b.now at (2 + number_in b.now at 2)) }
{
    let n = read_u16(b, at) as usize;
    write_bytes(out, to, &b[at..at + 2 + n]);
    2 + n
}

// The bytes of a field as the whole body.
pub(crate) fn write_field(out: &mut [u8], field: &[u8]) -> usize
    requires { (answer_limit ≤ length out.old) × (length field.now ≤ 4) }
    ensures { bytes_written result out.new ≡ put_bytes out.old head_size field.now }
{
    write_bytes(out, HEAD_SIZE, field);
    field.len()
}

// The list of the numbers of those records of a table whose bits are set in a row: "The count before a friend list is the number of set bits
// in the row."
pub(crate) fn write_staff_list(board: &SoundBoard, table: Table, row: u32, out: &mut [u8]) -> usize
    requires { (row < 2 ^ record_count (state_of board.now) table) × (answer_limit ≤ length out.old) }
    ensures { bytes_written result out.new ≡ put_bytes out.old head_size (staff_list (numbers_in (state_of board.now) table row)) }
{
    write_number(out, HEAD_SIZE, 2, count_bits(row) as u64);
    // counted by hand: which of the row's 32 bits are set is not known before
    let mut at = HEAD_SIZE + 2;
    for j in 0..USER_LIMIT {
        if has_bit(row, j) {
            write_number(
                out,
                at,
                4,
                read_u32(board.bytes, table.field_at(j, 0)) as u64,
            );
            at += 4;
        }
    }
    at - HEAD_SIZE
}

// "posts, each number followed by its owner's"
pub(crate) fn write_post_list(board: &SoundBoard, out: &mut [u8]) -> usize
    requires { answer_limit ≤ length out.old }
    ensures { bytes_written result out.new ≡ put_bytes out.old head_size (counted_list (post_entry (state_of board.now)) (state_of board.now).posts) }
{
    let m = board.count(Table::Posts);
    write_number(out, HEAD_SIZE, 2, m as u64);
    for i in 0..m {
        let at = HEAD_SIZE + 2 + i * 8;
        write_number(out, at, 4, board.post_number(i) as u64);
        write_number(
            out,
            at + 4,
            4,
            board.user_number(board.post_owner(i)) as u64,
        );
    }
    2 + m * 8
}

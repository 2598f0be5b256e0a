// The notes of requests: each holds a string, and is zero without its request bit.
ghost use Rattle.std.specs.Prelude.{◌≡◌, ◌&&◌, ◌≤◌, length};
ghost use Rattle.layout.specs.StringFields.{is_string_field};
ghost use Rattle.reader.specs.Fields.{note_limit};
ghost use Rattle.model.specs.Lists.{for_all, all_below};
ghost use Rattle.model.specs.State.{user_limit};
ghost use Rattle.model.specs.Board.{cut_board, decode};
ghost use Rattle.model.specs.Soundness.{notes_requested};
ghost use Rattle.board.specs.BoardTests.{note_within, note_allowed};

use crate::counted::CountedBoard;
use crate::friends::request_row;
use crate::tables::{records, unused_zero};
use crate::{NOTE_SIZE, NOTES, SLOT_NOTES_SIZE, USER_LIMIT};
use layout::bits::bit_at;
use layout::number::{read_u16, read_u64};
use layout::run::all_zero;
use reader::NOTE_LIMIT;

// Whether a note of at most `most` bytes stands in a field. Three words reach from the end of the string to that of the field and may
// overlap; where fewer than eight bytes are left, all three are the field's last word, with the string's last bytes in front. These, at most
// eight, are shifted out by two halves, as in `fits_width`, which would test for each note that they are not more.
fn is_note(field: &[u8; NOTE_SIZE], most: usize) -> bool
    requires { most ≤ note_limit }
    ensures { result ≡ note_within most field.now }
{
    let n = read_u16(field, 0) as usize;
    if most < n {
        return false;
    }
    let first = n.min(16);
    let word = read_u64(field, 2 + first) | read_u64(field, 10 + first / 2) | read_u64(field, 18);
    let half = 4 * (n - first);
    (word >> half) >> half == 0
}

// The 32 notes to a slot with this request row: behind the last request bit they are one run. Without its bit a note may have 0 bytes, so all
// 26 are zero.
fn notes_to(slot: &[u8; SLOT_NOTES_SIZE], row: u32) -> bool
    ensures { result ≡ all_below user_limit (note_allowed slot.now row) }
{
    let (fields, _) = slot.as_chunks::<NOTE_SIZE>();
    let requested = (u32::BITS - row.leading_zeros()) as usize;
    for (j, field) in fields[..requested].iter().enumerate() {
        if !is_note(field, bit_at(row, j) as usize * NOTE_LIMIT) {
            return false;
        }
    }
    all_zero(
        slot,
        requested * NOTE_SIZE,
        (USER_LIMIT - requested) * NOTE_SIZE,
    )
}

// "string lengths are within their limits, bytes past them zero", of notes, and "a note without its request bit is zero".
pub(crate) fn notes_sound(board: &CountedBoard) -> bool
    ensures { result ≡ (for_all (is_string_field note_limit) (cut_board board.now.bytes.now).notes && notes_requested (decode board.now.bytes.now)) }
{
    let slots = records::<SLOT_NOTES_SIZE>(board.bytes, NOTES, USER_LIMIT);
    board
        .users
        .iter()
        .zip(slots)
        .all(|(user, slot)| notes_to(slot, request_row(user)))
        && unused_zero(board.bytes, NOTES, USER_LIMIT, &slots[..board.users.len()])
}

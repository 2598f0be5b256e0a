// One value and its field: the words of the value stand first.
ghost use Rattle.std.specs.Prelude.{◌≡◌, true, ℕ, ◌+◌, ◌≤◌, ◌<◌, List, length, get_or};
ghost use Rattle.std.specs.Bool.{then_some};
ghost use Rattle.layout.specs.Bytes.{bytes_at, patch};
ghost use Rattle.layout.specs.Numbers.{to_le_bytes};
ghost use Rattle.layout.specs.StringFields.{string_bytes};
ghost use Rattle.reader.specs.Fields.{width_bytes, uint, string, value_fits, value_bytes};
ghost use Rattle.reader.specs.Messages.{span_value};
ghost use Rattle.writer.specs.Table.{field_type, words_fit, words_size};
ghost use Rattle.writer.specs.Words.{word_count, word_value};

use crate::table::Field;
use layout::number::write_number;
use layout::range::within;
use layout::run::write_bytes;
use reader::field::Width;

// How many words a value has.
pub(crate) fn word_count(field: Field) -> usize
    ensures { result ≡ word_count (field_type field) }
{
    match field {
        Field::Text(_) => 2,
        _ => 1,
    }
}

// Whether a string lies within the lent bytes, and within its limit. Start and length apart, as the words have them.
fn string_fits(limit: usize, start: usize, len: usize, lent: &[u8]) -> bool
    ensures { result ≡ value_fits (string limit) (span_value lent.now (record { start = start; len = len })) }
{
    if !within(lent.len(), start, len) {
        return false;
    }
    len <= limit
}

// How many bytes a number has; none where its word is not there, or it is out of its bounds.
fn number_size(words: &[u64], width: Width, least: u64, greatest: u64) -> Option<usize>
    ensures { (lent : List ℕ) → result ≡ then_some (words_fit lent (uint (width_bytes width) least greatest) words.now) (width_bytes width) }
{
    if words.is_empty() {
        return None;
    }
    let number = words[0];
    if number < least {
        return None;
    }
    if greatest < number {
        return None;
    }
    Some(width.bytes())
}

// How many bytes a string has; none where its words are not there, or it does not fit.
fn string_size(words: &[u64], limit: usize, lent: &[u8]) -> Option<usize>
    ensures { result ≡ then_some (words_fit lent.now (string limit) words.now) (words_size (string limit) words.now) }
{
    if words.len() < 2 {
        return None;
    }
    let start = words[0] as usize;
    let len = words[1] as usize;
    if !string_fits(limit, start, len, lent) {
        return None;
    }
    Some(2 + len)
}

// How many bytes a value has; none where its words are not there, or its field cannot hold it.
pub(crate) fn value_size(field: Field, words: &[u64], lent: &[u8]) -> Option<usize>
    ensures { result ≡ then_some (words_fit lent.now (field_type field) words.now) (words_size (field_type field) words.now) }
{
    match field {
        Field::StaffNumber => number_size(words, Width::Four, 1, 0xffff_ffff),
        Field::Password => number_size(words, Width::Eight, 0, 0xffff_ffff_ffff_ffff),
        Field::Picture => number_size(words, Width::Four, 0, 0xffff_ffff),
        Field::Visibility => number_size(words, Width::One, 0, 1),
        Field::Text(limit) => string_size(words, limit, lent),
    }
}

// Writes a number, and gives the place behind it.
fn put_number(words: &[u64], frame: &mut [u8], at: usize, width: Width) -> usize
    requires { (1 ≤ length words.now) × (at + width_bytes width ≤ length frame.old) }
    ensures written { frame.new ≡ patch frame.old at (to_le_bytes (width_bytes width) (get_or words.now 0 0)) }
    ensures behind { result ≡ at + width_bytes width }
{
    let number = words[0];
    let width = width.bytes();
    write_number(frame, at, width, number);
    at + width
}

// Writes a string with its length, and gives the place behind it.
fn put_string(words: &[u64], lent: &[u8], frame: &mut [u8], at: usize) -> usize
    requires { (2 ≤ length words.now) × (get_or words.now 0 0 + get_or words.now 1 0 ≤ length lent.now) × (get_or words.now 1 0 < 65536) × (at + (2 + get_or words.now 1 0) ≤ length frame.old) }
    ensures written { frame.new ≡ patch frame.old at (string_bytes (bytes_at lent.now (get_or words.now 0 0) (get_or words.now 1 0))) }
    ensures behind { result ≡ at + (2 + get_or words.now 1 0) }
{
    let start = words[0] as usize;
    let len = words[1] as usize;
    write_number(frame, at, 2, len as u64);
    write_bytes(frame, at + 2, &lent[start..start + len]);
    at + 2 + len
}

// Writes a value that its field can hold, and gives the place behind it.
pub(crate) fn put_value(
    field: Field,
    words: &[u64],
    lent: &[u8],
    frame: &mut [u8],
    at: usize,
) -> usize
    requires { (words_fit lent.now (field_type field) words.now ≡ true) × (words_size (field_type field) words.now < 65536) × (at + words_size (field_type field) words.now ≤ length frame.old) }
    ensures written { frame.new ≡ patch frame.old at (value_bytes (field_type field) (word_value lent.now (field_type field) words.now)) }
    ensures behind { result ≡ at + words_size (field_type field) words.now }
{
    match field {
        Field::StaffNumber => put_number(words, frame, at, Width::Four),
        Field::Password => put_number(words, frame, at, Width::Eight),
        Field::Picture => put_number(words, frame, at, Width::Four),
        Field::Visibility => put_number(words, frame, at, Width::One),
        Field::Text(_) => put_string(words, lent, frame, at),
    }
}

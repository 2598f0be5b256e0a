// The way back: the words of a body, field by field.
ghost use Rattle.std.specs.Prelude.{◌≡◌, true, ◌+◌, ◌≤◌, ◌<◌, [], ◌∷◌, length, map};
ghost use Rattle.std.proofs.Math.Option.{some};
ghost use Rattle.std.specs.Bool.{then_some};
ghost use Rattle.layout.specs.Bytes.{patch};
ghost use Rattle.reader.specs.Fields.{width_bytes, uint, string, number_in, field_fits, field_value, fields_fit, field_values};
ghost use Rattle.reader.specs.Frames.{found};
ghost use Rattle.writer.specs.Table.{AreOfKind, field_type, place_behind, body_word_count};
ghost use Rattle.writer.specs.Words.{word_count, value_words, values_words};

use crate::table::Field;
use layout::number::read_u16;
use reader::field::{Width, number, number_fits, string_fits};

// How far a body has been gone over: the place behind the fields, and how many words they have. That the words are fewer than 7 before a field stays a
// clause: behind the last field they are 7, and as a ghost field what always holds (`words ≤ at`) would split the equation of `place_behind` into its parts.
#[derive(Clone, Copy)]
pub struct Place {
    pub at: usize,
    pub words: usize,
}

// Behind a number; none where it does not stand there whole, or is out of its bounds.
fn behind_number(
    body: &[u8],
    place: Place,
    width: Width,
    least: u64,
    greatest: u64,
) -> Option<Place>
    requires { place.words < 7 }
    ensures { result ≡ then_some (field_fits (uint (width_bytes width) least greatest) body.now place.at) (place_behind (uint (width_bytes width) least greatest) body.now place) }
{
    let at = place.at;
    let words = place.words;
    if !number_fits(body, at, width, least, greatest) {
        return None;
    }
    Some(Place {
        at: at + width.bytes(),
        words: words + 1,
    })
}

// Behind a string; none where it does not stand there whole, or is over its limit.
fn behind_string(body: &[u8], place: Place, limit: usize) -> Option<Place>
    requires { place.words < 7 }
    ensures { result ≡ then_some (field_fits (string limit) body.now place.at) (place_behind (string limit) body.now place) }
{
    let at = place.at;
    let words = place.words;
    if !string_fits(body, at, limit) {
        return None;
    }
    Some(Place {
        at: at + 2 + read_u16(body, at) as usize,
        words: words + 2,
    })
}

// Behind a field; none where it does not stand there whole, or is not what its type allows. Widths and bounds stand in the arms and not in the list of
// fields, since a message took more instructions to read where they came from there.
fn behind_field(field: Field, body: &[u8], place: Place) -> Option<Place>
    requires { place.words < 7 }
    ensures { result ≡ then_some (field_fits (field_type field) body.now place.at) (place_behind (field_type field) body.now place) }
{
    match field {
        Field::StaffNumber => behind_number(body, place, Width::Four, 1, 0xffff_ffff),
        Field::Password => behind_number(body, place, Width::Eight, 0, 0xffff_ffff_ffff_ffff),
        Field::Picture => behind_number(body, place, Width::Four, 0, 0xffff_ffff),
        Field::Visibility => behind_number(body, place, Width::One, 0, 1),
        Field::Text(limit) => behind_string(body, place, limit),
    }
}

// How many words a body has; none where it does not fit the fields.
pub(crate) fn body_word_count(fields: &[Field], body: &[u8]) -> Option<usize>
    requires { AreOfKind (map field_type fields.now) }
    ensures { result ≡ found (body_word_count (some (map field_type fields.now)) body.now) }
{
    let mut place = Place { at: 0, words: 0 };
    for field in fields {
        place = behind_field(*field, body, place)?;
    }
    if body.len() != place.at {
        return None;
    }
    Some(place.words)
}

// Writes the word of a number, and gives the place behind it.
fn put_number(body: &[u8], place: Place, width: Width, values: &mut [u64]) -> Place
    requires { (place.at + width_bytes width ≤ length body.now) × (place.words < length values.old) }
    ensures written { values.new ≡ patch values.old place.words (number_in body.now place.at (width_bytes width) ∷ []) }
    ensures behind { result ≡ record { at = place.at + width_bytes width; words = place.words + 1 } }
{
    let at = place.at;
    let word = place.words;
    values[word] = number(body, at, width);
    Place {
        at: at + width.bytes(),
        words: word + 1,
    }
}

// Writes the two words of a string, its start and its length, and gives the place behind it.
fn put_string(body: &[u8], place: Place, values: &mut [u64]) -> Place
    requires { (place.at + 2 + number_in body.now place.at 2 ≤ length body.now) × (place.words + 2 ≤ length values.old) }
    ensures written { values.new ≡ patch values.old place.words ((place.at + 2) ∷ number_in body.now place.at 2 ∷ []) }
    ensures behind { result ≡ record { at = place.at + 2 + number_in body.now place.at 2; words = place.words + 2 } }
{
    let at = place.at;
    let word = place.words;
    let start = at + 2;
    let len = read_u16(body, at);
    values[word] = start as u64;
    values[word + 1] = len as u64;
    Place {
        at: start + len as usize,
        words: word + 2,
    }
}

// Writes the words of a field that fits, and gives the place behind it.
fn put_field(field: Field, body: &[u8], place: Place, values: &mut [u64]) -> Place
    requires { (field_fits (field_type field) body.now place.at ≡ true) × (place.words + word_count (field_type field) ≤ length values.old) }
    ensures written { values.new ≡ patch values.old place.words (value_words (field_value (field_type field) body.now place.at)) }
    ensures behind { result ≡ place_behind (field_type field) body.now place }
{
    match field {
        Field::StaffNumber => put_number(body, place, Width::Four, values),
        Field::Password => put_number(body, place, Width::Eight, values),
        Field::Picture => put_number(body, place, Width::Four, values),
        Field::Visibility => put_number(body, place, Width::One, values),
        Field::Text(_) => put_string(body, place, values),
    }
}

// Writes the words of a body that fits the fields.
pub(crate) fn put_words(fields: &[Field], body: &[u8], values: &mut [u64])
    requires { (fields_fit (map field_type fields.now) body.now 0 ≡ true) × (length (values_words (field_values (map field_type fields.now) body.now 0)) ≤ length values.old) }
    ensures { values.new ≡ patch values.old 0 (values_words (field_values (map field_type fields.now) body.now 0)) }
{
    let mut place = Place { at: 0, words: 0 };
    for field in fields {
        place = put_field(*field, body, place, values);
    }
}

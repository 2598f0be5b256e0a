// The frame of words: how long it is, and its body. Both go over the fields of the kind.
ghost use Rattle.std.specs.Prelude.{◌≡◌, true, ◌+◌, ◌≤◌, length, map};
ghost use Rattle.std.proofs.Math.Option.{some};
ghost use Rattle.layout.specs.Bytes.{patch};
ghost use Rattle.reader.specs.Frames.{found};
ghost use Rattle.writer.specs.Table.{AreOfKind, field_type, fields_hold, body_bytes, frame_size};

use crate::table::Field;
use crate::values::{put_value, value_size, word_count};

// The length of the frame; none where no frame carries the message.
pub(crate) fn frame_size(fields: &[Field], values: &[u64], lent: &[u8]) -> Option<usize>
    requires { AreOfKind (map field_type fields.now) }
    ensures { result ≡ found (frame_size lent.now (some (map field_type fields.now)) values.now) }
{
    let mut size = 4;
    let mut words = values;
    for field in fields {
        size += value_size(*field, words, lent)?;
        words = &words[word_count(*field)..];
    }
    if !words.is_empty() {
        return None;
    }
    Some(size)
}

// Writes the body behind the four head bytes.
pub(crate) fn put_body(fields: &[Field], values: &[u64], lent: &[u8], frame: &mut [u8])
    requires { AreOfKind (map field_type fields.now) × (fields_hold lent.now (map field_type fields.now) values.now ≡ true) × (4 + length (body_bytes lent.now (map field_type fields.now) values.now) ≤ length frame.old) }
    ensures { frame.new ≡ patch frame.old 4 (body_bytes lent.now (map field_type fields.now) values.now) }
{
    let mut at = 4;
    let mut words = values;
    for field in fields {
        at = put_value(*field, words, lent, frame, at);
        words = &words[word_count(*field)..];
    }
}

// Writes messages: the frame that the reader takes a message from. And the way back: the values of a message that is read. Words, lent bytes and the
// buffer go from function to function side by side, as C lends them.
#![tactic(auto)]

mod body;
mod frame;
mod message;
mod table;
mod values;

ghost use Rattle.std.specs.Prelude.{◌≡◌, IfErr};
ghost use Rattle.reader.specs.Messages.{message_content};
ghost use Rattle.writer.specs.Encoding.{refusal_number, outcome, encode_of, IsOfWriting, IsOfReading};
ghost use Rattle.writer.specs.Words.{word_content, read_of};
ghost use Rattle.writer.specs.declared.Refusal.TheVariants.{NotRead};

use crate::body::{body_word_count, put_words};
use crate::frame::{frame_size, put_body};
pub use crate::message::encode;
use crate::table::fields_of;
use layout::number::write_number;
use reader::frame::{body, is_frame, kind};

// Why nothing was written.
#[derive(Clone, Copy, Debug, PartialEq, Eq)]
pub enum Refusal {
    // No frame can carry the message.
    NotCarried,
    // What was to be read is no message.
    NotRead(reader::Refusal),
    // The buffer is shorter than what is to be written.
    BufferShort,
}

impl From<reader::Refusal> for Refusal {
    ghost from_gives = { λ refusal all. all ≡ NotRead refusal };

    fn from(refusal: reader::Refusal) -> Refusal {
        Refusal::NotRead(refusal)
    }
}

impl From<Refusal> for u16 {
    ghost from_gives = { λ refusal number. number ≡ refusal_number refusal };

    fn from(refusal: Refusal) -> u16 {
        match refusal {
            Refusal::NotCarried => 5,
            Refusal::NotRead(refusal) => u16::from(refusal),
            Refusal::BufferShort => 13,
        }
    }
}

// The frame of a message that is given as words: the values in field order, where a number is one word and a string two, its start in the lent bytes and
// its length. A message that no frame can carry comes before a buffer that is shorter than the frame.
pub fn write(kind: u32, values: &[u64], lent: &[u8], frame: &mut [u8]) -> Result<usize, Refusal>
    ensures outcome { outcome result frame.new ≡ encode_of (word_content lent.now kind values.now) frame.old }
    ensures refusal { IfErr result IsOfWriting }
{
    let fields = fields_of(kind).ok_or(Refusal::NotCarried)?;
    let size = frame_size(fields, values, lent).ok_or(Refusal::NotCarried)?;
    if frame.len() < size {
        return Err(Refusal::BufferShort);
    }
    write_number(frame, 0, 2, (size - 2) as u64);
    write_number(frame, 2, 2, kind as u64);
    put_body(fields, values, lent, frame);
    Ok(size)
}

// The values of a message, as words; strings are places of its body. What `decode` refuses comes before a slice that is shorter than the words.
// It does not call `decode`: with a second caller that would no longer become a part of the step (docs/DECISIONS.md).
pub fn read(message: &[u8], values: &mut [u64]) -> Result<usize, Refusal>
    ensures outcome { outcome result values.new ≡ read_of (message_content message.now) values.old }
    ensures refusal { IfErr result IsOfReading }
{
    if !is_frame(message) {
        return Err(Refusal::NotRead(reader::Refusal::Frame));
    }
    let fields = fields_of(kind(message) as u32).ok_or(reader::Refusal::Kind)?;
    let body = body(message);
    let count = body_word_count(fields, body).ok_or(reader::Refusal::Body)?;
    if values.len() < count {
        return Err(Refusal::BufferShort);
    }
    put_words(fields, body, values);
    Ok(count)
}

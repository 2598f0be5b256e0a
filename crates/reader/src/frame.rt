// The frame of a message: its length, its kind and its body.
ghost use Rattle.std.specs.Prelude.{◌≡◌};
ghost use Rattle.reader.specs.Frames.{found, frame_length_up_to, frame_length, is_frame, kind_of, body_of};

use layout::number::read_u16;

// The length of the frame that stands first; none where the head is cut, or L is outside 2 to `most` or reaches past the end.
pub fn frame_length_up_to(bytes: &[u8], most: usize) -> Option<usize>
    ensures { result ≡ found (frame_length_up_to most bytes.now) }
{
    if bytes.len() < 4 {
        return None;
    }
    let l = read_u16(bytes, 0) as usize;
    if l < 2 {
        return None;
    }
    if most < l {
        return None;
    }
    if bytes.len() < l + 2 {
        return None;
    }
    Some(l + 2)
}

// Of a message: "L is 2 to 276".
pub fn frame_length(bytes: &[u8]) -> Option<usize>
    ensures { result ≡ found (frame_length bytes.now) }
{
    frame_length_up_to(bytes, 276)
}

// Whether a message is one whole frame.
pub fn is_frame(msg: &[u8]) -> bool
    ensures { result ≡ is_frame msg.now }
{
    frame_length(msg) == Some(msg.len())
}

// The two-byte kind, or 0 where the head is cut: it is looked up among the kinds as it is, and 0 is none of them. Of an answer it is the number.
pub fn kind(msg: &[u8]) -> u16
    ensures { result ≡ kind_of msg.now }
{
    if msg.len() < 4 {
        return 0;
    }
    read_u16(msg, 2)
}

// The part of a message after the four head bytes, uncopied.
pub fn body(msg: &[u8]) -> &[u8]
    ensures { result.now ≡ body_of msg.now }
{
    if msg.len() < 4 {
        return &msg[msg.len()..];
    }
    &msg[4..]
}

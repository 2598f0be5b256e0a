// Reads one message: its frame, its body uncopied, and the message as one of its cases.
#![tactic(auto)]

mod bodies;
mod family;
pub mod field;
pub mod frame;

ghost use Rattle.std.specs.Prelude.{◌≡◌};
ghost use Rattle.reader.specs.Frames.{body_of};
ghost use Rattle.reader.specs.Messages.{enum_content, read_content, message_content, refusal_number};

use crate::family::{
    creation_action, deletion_action, listing_action, reading_action, start_action, update_action,
};
use crate::frame::{body, is_frame, kind};

// The limits of strings, in bytes.
pub const NAME_LIMIT: usize = 24;

pub const INFO_LIMIT: usize = 56;

pub const TITLE_LIMIT: usize = 40;

pub const TEXT_LIMIT: usize = 256;

pub const NOTE_LIMIT: usize = 24;

// Who sends: U and P.
#[derive(Clone, Copy)]
pub struct Login {
    pub user: u32,
    pub password: u64,
}

// The place of a string: within the body of a message, or in the bytes that are lent to write one. No slice, since the writer has to refuse a place
// that reaches past the lent bytes.
#[derive(Clone, Copy)]
pub struct Span {
    pub start: usize,
    pub len: usize,
}

// Refusals 3, 4 and 5: a bad frame, an unknown kind, a body that does not fit its fields.
#[derive(Clone, Copy, Debug, PartialEq, Eq)]
pub enum Refusal {
    Frame,
    Kind,
    Body,
}

impl From<Refusal> for u16 {
    ghost from_gives = { λ refusal number. number ≡ refusal_number refusal };

    fn from(refusal: Refusal) -> u16 {
        match refusal {
            Refusal::Frame => 3,
            Refusal::Kind => 4,
            Refusal::Body => 5,
        }
    }
}

// A message: a case for each kind with its fields, named by CoSMed's action, or the refusal, which the bureau wants as a case of the same enum.
#[derive(Clone, Copy)]
pub enum Message {
    // 0101 U P
    StartSys(Login),
    // 0201 U note
    CNUReq(u32, Span),
    // 0202 U P V P2
    CUser(Login, u32, u64),
    // 0203 U P N title
    CPost(Login, u32, Span),
    // 0204 U P V note
    CFriendReq(Login, u32, Span),
    // 0205 U P V
    CFriend(Login, u32),
    // 0301 U P V
    DFriend(Login, u32),
    // 0401 U P P2 name info
    UUser(Login, u64, Span, Span),
    // 0402 U P N title
    UTitlePost(Login, u32, Span),
    // 0403 U P N text
    UTextPost(Login, u32, Span),
    // 0404 U P N picture
    UImgPost(Login, u32, u32),
    // 0405 U P N visibility: a number, since the writer has to refuse one above 1
    UVisPost(Login, u32, u8),
    // 0501 U P V
    RUser(Login, u32),
    // 0502 U P V
    RNUReq(Login, u32),
    // 0503 U P
    RAmIAdmin(Login),
    // 0504 to 0508 U P N
    RTitlePost(Login, u32),
    RTextPost(Login, u32),
    RImgPost(Login, u32),
    RVisPost(Login, u32),
    ROwnerPost(Login, u32),
    // 0509 and 050A U P V
    RFriendReqToMe(Login, u32),
    RFriendReqFromMe(Login, u32),
    // 0601 to 0605 U P
    LPendingUReqs(Login),
    LAllUsers(Login),
    LAllPosts(Login),
    LFriendReqs(Login),
    LFriends(Login),
    // 0606 U P V
    LFriendsOf(Login, u32),
    Refused(Refusal),
}

// The message that bytes are, or why they are none.
fn read_message(msg: &[u8]) -> Result<Message, Refusal>
    ensures { read_content (body_of msg.now) result ≡ message_content msg.now }
{
    if !is_frame(msg) {
        return Err(Refusal::Frame);
    }
    let kind = kind(msg);
    let body = body(msg);
    // one place on the stack for what the reader of any family gives: where each arm made the refusal, the compiler kept one for each arm
    let message = match kind {
        0x0101 => start_action(body),
        0x0201..=0x0205 => creation_action(kind, body),
        0x0301 => deletion_action(body),
        0x0401..=0x0405 => update_action(kind, body),
        0x0501..=0x050a => reading_action(kind, body),
        0x0601..=0x0606 => listing_action(kind, body),
        _ => return Err(Refusal::Kind),
    };
    message.ok_or(Refusal::Body)
}

// The same as one of the cases of the enum, of which the refusal is one.
pub fn decode(msg: &[u8]) -> Message
    ensures { enum_content (body_of msg.now) result ≡ message_content msg.now }
{
    match read_message(msg) {
        Ok(message) => message,
        Err(refusal) => Message::Refused(refusal),
    }
}

// A message of the enum, written by its words: a number is one word, a string two, its start and its length. A function for each list of values that
// cases have, since one for all would need seven words with a count beside them. A kind is a number here, as in `write`, which C calls with one.
ghost use Rattle.std.specs.Prelude.{◌≡◌, [], ◌∷◌, IfErr};
ghost use Rattle.reader.specs.Messages.{enum_content};
ghost use Rattle.writer.specs.Encoding.{outcome, encode_of, IsOfWriting};
ghost use Rattle.writer.specs.Words.{word_content};

use crate::{Refusal, write};
use reader::{Login, Message, Span};

// U P
fn login(kind: u32, who: Login, lent: &[u8], frame: &mut [u8]) -> Result<usize, Refusal>
    ensures outcome { outcome result frame.new ≡ encode_of (word_content lent.now kind (who.user ∷ who.password ∷ [])) frame.old }
    ensures refusal { IfErr result IsOfWriting }
{
    write(kind, &[who.user as u64, who.password], lent, frame)
}

// U P and a staff or post number
fn target(
    kind: u32,
    who: Login,
    number: u32,
    lent: &[u8],
    frame: &mut [u8],
) -> Result<usize, Refusal>
    ensures outcome { outcome result frame.new ≡ encode_of (word_content lent.now kind (who.user ∷ who.password ∷ number ∷ [])) frame.old }
    ensures refusal { IfErr result IsOfWriting }
{
    write(
        kind,
        &[who.user as u64, who.password, number as u64],
        lent,
        frame,
    )
}

// U P, a staff or post number, and another number
fn number(
    kind: u32,
    who: Login,
    number: u32,
    value: u64,
    lent: &[u8],
    frame: &mut [u8],
) -> Result<usize, Refusal>
    ensures outcome { outcome result frame.new ≡ encode_of (word_content lent.now kind (who.user ∷ who.password ∷ number ∷ value ∷ [])) frame.old }
    ensures refusal { IfErr result IsOfWriting }
{
    write(
        kind,
        &[who.user as u64, who.password, number as u64, value],
        lent,
        frame,
    )
}

// U P, a staff or post number, and a string
fn string(
    kind: u32,
    who: Login,
    number: u32,
    span: Span,
    lent: &[u8],
    frame: &mut [u8],
) -> Result<usize, Refusal>
    ensures outcome { outcome result frame.new ≡ encode_of (word_content lent.now kind (who.user ∷ who.password ∷ number ∷ span.start ∷ span.len ∷ [])) frame.old }
    ensures refusal { IfErr result IsOfWriting }
{
    write(
        kind,
        &[
            who.user as u64,
            who.password,
            number as u64,
            span.start as u64,
            span.len as u64,
        ],
        lent,
        frame,
    )
}

// 0201: U and a note
fn request(user: u32, note: Span, lent: &[u8], frame: &mut [u8]) -> Result<usize, Refusal>
    ensures outcome { outcome result frame.new ≡ encode_of (word_content lent.now 0x0201 (user ∷ note.start ∷ note.len ∷ [])) frame.old }
    ensures refusal { IfErr result IsOfWriting }
{
    write(
        0x0201,
        &[user as u64, note.start as u64, note.len as u64],
        lent,
        frame,
    )
}

// 0401: U P, a new password, a name and an info
fn user(
    who: Login,
    password: u64,
    name: Span,
    info: Span,
    lent: &[u8],
    frame: &mut [u8],
) -> Result<usize, Refusal>
    ensures outcome { outcome result frame.new ≡ encode_of (word_content lent.now 0x0401 (who.user ∷ who.password ∷ password ∷ name.start ∷ name.len ∷ info.start ∷ info.len ∷ [])) frame.old }
    ensures refusal { IfErr result IsOfWriting }
{
    write(
        0x0401,
        &[
            who.user as u64,
            who.password,
            password,
            name.start as u64,
            name.len as u64,
            info.start as u64,
            info.len as u64,
        ],
        lent,
        frame,
    )
}

// The frame of a decoded message; its spans are places of the lent bytes, which for a message from `decode` are the body that it was read from.
pub fn encode(message: Message, lent: &[u8], frame: &mut [u8]) -> Result<usize, Refusal>
    ensures outcome { outcome result frame.new ≡ encode_of (enum_content lent.now message) frame.old }
    ensures refusal { IfErr result IsOfWriting }
{
    match message {
        Message::StartSys(who) => login(0x0101, who, lent, frame),
        Message::CNUReq(user, note) => request(user, note, lent, frame),
        Message::CUser(who, v, password) => number(0x0202, who, v, password, lent, frame),
        Message::CPost(who, n, title) => string(0x0203, who, n, title, lent, frame),
        Message::CFriendReq(who, v, note) => string(0x0204, who, v, note, lent, frame),
        Message::CFriend(who, v) => target(0x0205, who, v, lent, frame),
        Message::DFriend(who, v) => target(0x0301, who, v, lent, frame),
        Message::UUser(who, password, name, info) => user(who, password, name, info, lent, frame),
        Message::UTitlePost(who, n, title) => string(0x0402, who, n, title, lent, frame),
        Message::UTextPost(who, n, text) => string(0x0403, who, n, text, lent, frame),
        Message::UImgPost(who, n, picture) => number(0x0404, who, n, picture as u64, lent, frame),
        Message::UVisPost(who, n, public) => number(0x0405, who, n, public as u64, lent, frame),
        Message::RUser(who, v) => target(0x0501, who, v, lent, frame),
        Message::RNUReq(who, v) => target(0x0502, who, v, lent, frame),
        Message::RAmIAdmin(who) => login(0x0503, who, lent, frame),
        Message::RTitlePost(who, n) => target(0x0504, who, n, lent, frame),
        Message::RTextPost(who, n) => target(0x0505, who, n, lent, frame),
        Message::RImgPost(who, n) => target(0x0506, who, n, lent, frame),
        Message::RVisPost(who, n) => target(0x0507, who, n, lent, frame),
        Message::ROwnerPost(who, n) => target(0x0508, who, n, lent, frame),
        Message::RFriendReqToMe(who, v) => target(0x0509, who, v, lent, frame),
        Message::RFriendReqFromMe(who, v) => target(0x050a, who, v, lent, frame),
        Message::LPendingUReqs(who) => login(0x0601, who, lent, frame),
        Message::LAllUsers(who) => login(0x0602, who, lent, frame),
        Message::LAllPosts(who) => login(0x0603, who, lent, frame),
        Message::LFriendReqs(who) => login(0x0604, who, lent, frame),
        Message::LFriends(who) => login(0x0605, who, lent, frame),
        Message::LFriendsOf(who, v) => target(0x0606, who, v, lent, frame),
        Message::Refused(_) => Err(Refusal::NotCarried),
    }
}

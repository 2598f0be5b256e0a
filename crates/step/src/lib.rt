// The step: one message on a board.
#![tactic(auto)]

ghost use Rattle.std.specs.Prelude.{◌≡◌, true, ◌+◌, ◌≤◌, length, Err};
ghost use Rattle.layout.specs.Bytes.{bytes_at};
ghost use Rattle.model.specs.Actions.{action_of};
ghost use Rattle.model.specs.Soundness.{is_sound};
ghost use Rattle.model.specs.Step.{answer_limit, step_of};
ghost use Rattle.model.proofs.SoundnessTheorems.{SoundState};
ghost use Rattle.step.specs.ActionResults.{acted, action_result};
ghost use Rattle.step.specs.Results.{refusal_number, outcome_number, stepped};
ghost use Rattle.step.specs.declared.Refusal.TheVariants.{Message, Action};
ghost use Rattle.access.specs.Refusals.{result_number};
ghost use Rattle.std.specs.Result.{result_unwrap_or};

use access::refusals;
use access::sound_board::SoundBoard;
use board::sound;
use changes::creations::{
    accept_request, create_post, register_user, request_friend, request_registration, start_system,
};
use changes::deletions::end_friendship;
use changes::updates::{update_picture, update_text, update_title, update_user, update_visibility};
use layout::number::write_number;
use queries::HEAD_SIZE;
use queries::listings::{
    list_friends, list_friends_of, list_pending, list_posts, list_requests, list_users,
};
use queries::readings::{
    read_admin, read_owner, read_pending, read_picture, read_request_from, read_request_to,
    read_text, read_title, read_user, read_visibility,
};
use reader::frame::body;
use reader::{Message, Span, decode};

// The largest answer.
pub const ANSWER_LIMIT: usize = 518;

// Why a message is refused: the row of the table of refusals that applies.
#[derive(Clone, Copy, PartialEq, Eq, Debug)]
pub enum Refusal {
    BoardUnsound,
    BufferShort,
    Message(reader::Refusal),
    Action(refusals::Refusal),
}

impl From<reader::Refusal> for Refusal {
    ghost from_gives = { λ refusal given. given ≡ Message refusal };

    fn from(refusal: reader::Refusal) -> Refusal {
        Refusal::Message(refusal)
    }
}

impl From<refusals::Refusal> for Refusal {
    ghost from_gives = { λ refusal given. given ≡ Action refusal };

    fn from(refusal: refusals::Refusal) -> Refusal {
        Refusal::Action(refusal)
    }
}

impl From<Refusal> for u16 {
    ghost from_gives = { λ refusal number. number ≡ refusal_number refusal };

    fn from(refusal: Refusal) -> u16 {
        match refusal {
            Refusal::BoardUnsound => 1,
            Refusal::BufferShort => 2,
            Refusal::Message(refusal) => u16::from(refusal),
            Refusal::Action(refusal) => u16::from(refusal),
        }
    }
}

// What a message came to, and the bytes of its answer: a refusal of the message or of its action is answered too.
#[derive(Clone, Copy)]
pub struct Answer {
    pub outcome: Result<(), Refusal>,
    pub written: usize,
}

impl Answer {
    // The number that is returned, 0 for accepted.
    pub fn number(self) -> u16
        ensures { result ≡ outcome_number self.outcome }
    {
        match self.outcome {
            Ok(()) => 0,
            Err(refusal) => u16::from(refusal),
        }
    }
}

// The string that a span of the body names.
#[tactic(auto, unfolding(layout::specs::Bytes::bytes_at))]
fn span_bytes(body: &[u8], span: Span) -> &[u8]
    requires { span.start + span.len ≤ length body.now }
    ensures { result.now ≡ bytes_at body.now span.start span.len }
{
    &body[span.start..span.start + span.len]
}

// "no body for changes"
fn without_body(changed: Result<(), refusals::Refusal>) -> Result<usize, refusals::Refusal>
    ensures { (result_number result ≡ result_number changed) × (result_unwrap_or result 0 ≡ 0) }
{
    changed?;
    Ok(0)
}

// The action of a message: its refusals, its change, the length of the body of its answer.
fn act(msg: &[u8], board: &mut [u8], out: &mut [u8]) -> Result<usize, Refusal>
    requires { SoundState board.old × (answer_limit ≤ length out.old) }
    ensures { acted result board.new out.new ≡ action_result board.old (action_of msg.now) out.old }
{
    let message = decode(msg);
    let body = body(msg);
    let sound = SoundBoard { bytes: board };
    let done = match message {
        Message::StartSys(login) => without_body(start_system(board, login)),
        Message::CNUReq(u, note) => without_body(request_registration(
            board,
            u,
            span_bytes(body, note),
        )),
        Message::CUser(login, v, password) => without_body(register_user(
            board, login, v, password,
        )),
        Message::CPost(login, n, title) => without_body(create_post(
            board,
            login,
            n,
            span_bytes(body, title),
        )),
        Message::CFriendReq(login, v, note) => without_body(request_friend(
            board,
            login,
            v,
            span_bytes(body, note),
        )),
        Message::CFriend(login, v) => without_body(accept_request(board, login, v)),
        Message::DFriend(login, v) => without_body(end_friendship(board, login, v)),
        Message::UUser(login, password, name, info) => {
            without_body(update_user(
                board,
                login,
                password,
                span_bytes(body, name),
                span_bytes(body, info),
            ))
        }
        Message::UTitlePost(login, n, title) => without_body(update_title(
            board,
            login,
            n,
            span_bytes(body, title),
        )),
        Message::UTextPost(login, n, text) => without_body(update_text(
            board,
            login,
            n,
            span_bytes(body, text),
        )),
        Message::UImgPost(login, n, picture) => without_body(update_picture(
            board, login, n, picture,
        )),
        Message::UVisPost(login, n, visibility) => without_body(update_visibility(
            board, login, n, visibility,
        )),
        Message::RUser(login, v) => read_user(&sound, login, v, out),
        Message::RNUReq(login, v) => read_pending(&sound, login, v, out),
        Message::RAmIAdmin(login) => read_admin(&sound, login, out),
        Message::RTitlePost(login, n) => read_title(&sound, login, n, out),
        Message::RTextPost(login, n) => read_text(&sound, login, n, out),
        Message::RImgPost(login, n) => read_picture(&sound, login, n, out),
        Message::RVisPost(login, n) => read_visibility(&sound, login, n, out),
        Message::ROwnerPost(login, n) => read_owner(&sound, login, n, out),
        Message::RFriendReqToMe(login, v) => read_request_to(&sound, login, v, out),
        Message::RFriendReqFromMe(login, v) => read_request_from(&sound, login, v, out),
        Message::LPendingUReqs(login) => list_pending(&sound, login, out),
        Message::LAllUsers(login) => list_users(&sound, login, out),
        Message::LAllPosts(login) => list_posts(&sound, login, out),
        Message::LFriendReqs(login) => list_requests(&sound, login, out),
        Message::LFriends(login) => list_friends(&sound, login, out),
        Message::LFriendsOf(login, v) => list_friends_of(&sound, login, v, out),
        Message::Refused(refusal) => return Err(Refusal::from(refusal)),
    };
    Ok(done?)
}

// One message on a board that is known to be sound, with room for the answer: the board is not tested. That it is sound is a clause, as in `changes`,
// here and in the replay: it is lent to be written.
// It is not inlined: in the programs the replay alone calls it, and inlined there its loops ran slower than they do in the archive.
#[inline(never)]
pub fn step_sound(msg: &[u8], board: &mut [u8], out: &mut [u8]) -> Answer
    requires { (is_sound board.old ≡ true) × (answer_limit ≤ length out.old) }
    ensures { stepped result board.new out.new ≡ step_of msg.now board.old out.old }
{
    let (outcome, len) = match act(msg, board, out) {
        Ok(len) => (Ok(()), len),
        Err(refusal) => (Err(refusal), 0),
    };
    let answer = Answer {
        outcome,
        written: HEAD_SIZE + len,
    };
    write_number(out, 0, 2, (2 + len) as u64);
    write_number(out, 2, 2, answer.number() as u64);
    answer
}

// "If nothing is written the count is 0."
fn unanswered(refusal: Refusal) -> Answer
    ensures { result ≡ record { outcome = Err refusal; written = 0 } }
{
    Answer {
        outcome: Err(refusal),
        written: 0,
    }
}

// One message on a board: the board changed if it is accepted, the answer's frame in the buffer.
pub fn step(msg: &[u8], board: &mut [u8], out: &mut [u8]) -> Answer
    ensures { stepped result board.new out.new ≡ step_of msg.now board.old out.old }
{
    if !sound(board) {
        return unanswered(Refusal::BoardUnsound);
    }
    if out.len() < ANSWER_LIMIT {
        return unanswered(Refusal::BufferShort);
    }
    step_sound(msg, board, out)
}

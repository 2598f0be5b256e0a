// A reader for each family of kinds, which are matched over ranges as the two bytes that they are: the bureau wants it so. None where the body does not
// fit the fields of the kind.
ghost use Rattle.std.specs.Prelude.{◌≤◌};
ghost use Rattle.reader.specs.Messages.{FamilyRead};

use crate::bodies::{login, request, target, target_number, target_string, user};
use crate::field::Width;
use crate::{Message, NOTE_LIMIT, TEXT_LIMIT, TITLE_LIMIT};

// 0101
pub(crate) fn start_action(body: &[u8]) -> Option<Message>
    ensures { FamilyRead result 0x0101 body.now }
{
    Some(Message::StartSys(login(body)?))
}

// 0201 to 0205
pub(crate) fn creation_action(kind: u16, body: &[u8]) -> Option<Message>
    requires { (0x0201 ≤ kind) × (kind ≤ 0x0205) }
    ensures { FamilyRead result kind body.now }
{
    match kind {
        0x0201 => {
            let (user, note) = request(body, NOTE_LIMIT)?;
            Some(Message::CNUReq(user, note))
        }
        0x0202 => {
            let (login, v, password) = target_number(body, Width::Eight, 0, 0xffff_ffff_ffff_ffff)?;
            Some(Message::CUser(login, v, password))
        }
        0x0203 => {
            let (login, n, title) = target_string(body, TITLE_LIMIT)?;
            Some(Message::CPost(login, n, title))
        }
        0x0204 => {
            let (login, v, note) = target_string(body, NOTE_LIMIT)?;
            Some(Message::CFriendReq(login, v, note))
        }
        _ => {
            let (login, v) = target(body)?;
            Some(Message::CFriend(login, v))
        }
    }
}

// 0301
pub(crate) fn deletion_action(body: &[u8]) -> Option<Message>
    ensures { FamilyRead result 0x0301 body.now }
{
    let (login, v) = target(body)?;
    Some(Message::DFriend(login, v))
}

// 0401 to 0405
pub(crate) fn update_action(kind: u16, body: &[u8]) -> Option<Message>
    requires { (0x0401 ≤ kind) × (kind ≤ 0x0405) }
    ensures { FamilyRead result kind body.now }
{
    match kind {
        0x0401 => {
            let (login, password, name, info) = user(body)?;
            Some(Message::UUser(login, password, name, info))
        }
        0x0402 => {
            let (login, n, title) = target_string(body, TITLE_LIMIT)?;
            Some(Message::UTitlePost(login, n, title))
        }
        0x0403 => {
            let (login, n, text) = target_string(body, TEXT_LIMIT)?;
            Some(Message::UTextPost(login, n, text))
        }
        0x0404 => {
            let (login, n, picture) = target_number(body, Width::Four, 0, 0xffff_ffff)?;
            Some(Message::UImgPost(login, n, picture as u32))
        }
        _ => {
            let (login, n, visibility) = target_number(body, Width::One, 0, 1)?;
            Some(Message::UVisPost(login, n, visibility as u8))
        }
    }
}

// 0501 to 050A
pub(crate) fn reading_action(kind: u16, body: &[u8]) -> Option<Message>
    requires { (0x0501 ≤ kind) × (kind ≤ 0x050a) }
    ensures { FamilyRead result kind body.now }
{
    if kind == 0x0503 {
        return Some(Message::RAmIAdmin(login(body)?));
    }
    let (login, number) = target(body)?;
    match kind {
        0x0501 => Some(Message::RUser(login, number)),
        0x0502 => Some(Message::RNUReq(login, number)),
        0x0504 => Some(Message::RTitlePost(login, number)),
        0x0505 => Some(Message::RTextPost(login, number)),
        0x0506 => Some(Message::RImgPost(login, number)),
        0x0507 => Some(Message::RVisPost(login, number)),
        0x0508 => Some(Message::ROwnerPost(login, number)),
        0x0509 => Some(Message::RFriendReqToMe(login, number)),
        _ => Some(Message::RFriendReqFromMe(login, number)),
    }
}

// 0601 to 0606
pub(crate) fn listing_action(kind: u16, body: &[u8]) -> Option<Message>
    requires { (0x0601 ≤ kind) × (kind ≤ 0x0606) }
    ensures { FamilyRead result kind body.now }
{
    if kind == 0x0606 {
        let (login, v) = target(body)?;
        return Some(Message::LFriendsOf(login, v));
    }
    let login = login(body)?;
    match kind {
        0x0601 => Some(Message::LPendingUReqs(login)),
        0x0602 => Some(Message::LAllUsers(login)),
        0x0603 => Some(Message::LAllPosts(login)),
        0x0604 => Some(Message::LFriendReqs(login)),
        _ => Some(Message::LFriends(login)),
    }
}

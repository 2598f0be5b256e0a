// Whole bodies: a reader for each list of fields that kinds have, as docs/FORMAT.md lists them, with what differs between kinds of one list as a
// parameter. None where the body does not fit.
ghost use Rattle.std.specs.Prelude.{◌≡◌, ◌+◌, [], ◌∷◌};
ghost use Rattle.std.specs.Bool.{then_some};
ghost use Rattle.reader.specs.Fields.{width_bytes, begins_login, begins_target, fields_fit, staff_number, password, uint, string, user_name, user_info, number_in};
ghost use Rattle.reader.specs.Messages.{login_at, span_at};

use crate::field::{Width, number, number_fits, password, span, staff_number};
use crate::{INFO_LIMIT, Login, NAME_LIMIT, Span};

// A staff number and a password, which stand first.
fn read_login(body: &[u8]) -> Option<Login>
    ensures { result ≡ then_some (begins_login body.now) (login_at body.now) }
{
    let user = staff_number(body, 0)?;
    let password = password(body, 4)?;
    Some(Login { user, password })
}

// A staff number, a password and a staff or post number, which stand first.
fn read_target(body: &[u8]) -> Option<(Login, u32)>
    ensures { result ≡ then_some (begins_target body.now) (login_at body.now, number_in body.now 12 4) }
{
    let login = read_login(body)?;
    let number = staff_number(body, 12)?;
    Some((login, number))
}

// U P
pub(crate) fn login(body: &[u8]) -> Option<Login>
    ensures { result ≡ then_some (fields_fit (staff_number ∷ password ∷ []) body.now 0) (login_at body.now) }
{
    let login = read_login(body)?;
    if body.len() != 12 {
        return None;
    }
    Some(login)
}

// U and a string
pub(crate) fn request(body: &[u8], limit: usize) -> Option<(u32, Span)>
    ensures { result ≡ then_some (fields_fit (staff_number ∷ string limit ∷ []) body.now 0) (number_in body.now 0 4, span_at body.now 4) }
{
    let user = staff_number(body, 0)?;
    let note = span(body, 4, limit)?;
    if body.len() != note.start + note.len {
        return None;
    }
    Some((user, note))
}

// U P and a staff or post number
pub(crate) fn target(body: &[u8]) -> Option<(Login, u32)>
    ensures { result ≡ then_some (fields_fit (staff_number ∷ password ∷ staff_number ∷ []) body.now 0) (login_at body.now, number_in body.now 12 4) }
{
    let target = read_target(body)?;
    if body.len() != 16 {
        return None;
    }
    Some(target)
}

// U P, a staff or post number, and another number
pub(crate) fn target_number(
    body: &[u8],
    width: Width,
    least: u64,
    greatest: u64,
) -> Option<(Login, u32, u64)>
    ensures { result ≡ then_some (fields_fit (staff_number ∷ password ∷ staff_number ∷ uint (width_bytes width) least greatest ∷ []) body.now 0) (login_at body.now, number_in body.now 12 4, number_in body.now 16 (width_bytes width)) }
{
    let (login, target) = read_target(body)?;
    if !number_fits(body, 16, width, least, greatest) {
        return None;
    }
    if body.len() != 16 + width.bytes() {
        return None;
    }
    Some((login, target, number(body, 16, width)))
}

// U P, a staff or post number, and a string
pub(crate) fn target_string(body: &[u8], limit: usize) -> Option<(Login, u32, Span)>
    ensures { result ≡ then_some (fields_fit (staff_number ∷ password ∷ staff_number ∷ string limit ∷ []) body.now 0) (login_at body.now, number_in body.now 12 4, span_at body.now 16) }
{
    let (login, target) = read_target(body)?;
    let text = span(body, 16, limit)?;
    if body.len() != text.start + text.len {
        return None;
    }
    Some((login, target, text))
}

// U P, a new password, a name and an info
pub(crate) fn user(body: &[u8]) -> Option<(Login, u64, Span, Span)>
    ensures { result ≡ then_some (fields_fit (staff_number ∷ password ∷ password ∷ user_name ∷ user_info ∷ []) body.now 0) (login_at body.now, number_in body.now 12 8, span_at body.now 20, span_at body.now (22 + number_in body.now 20 2)) }
{
    let login = read_login(body)?;
    let password = password(body, 12)?;
    let name = span(body, 20, NAME_LIMIT)?;
    let info = span(body, name.start + name.len, INFO_LIMIT)?;
    if body.len() != info.start + info.len {
        return None;
    }
    Some((login, password, name, info))
}

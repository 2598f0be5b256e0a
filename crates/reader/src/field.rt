// Single fields of a body.
ghost use Rattle.std.specs.Prelude.{◌≡◌, ◌+◌, ◌≤◌, length};
ghost use Rattle.std.specs.Bool.{then_some};
ghost use Rattle.reader.specs.Messages.{span_at};
ghost use Rattle.reader.specs.Fields.{width_bytes, field_fits, number_in, uint, string, staff_number, password};

use crate::Span;
use layout::number::{read_u16, read_u32, read_u64};
use layout::range::within;

// How many bytes a number has.
#[derive(Clone, Copy, PartialEq, Eq)]
pub enum Width {
    One,
    Four,
    Eight,
}

impl Width {
    pub fn bytes(self) -> usize
        ensures { result ≡ width_bytes self }
    {
        match self {
            Width::One => 1,
            Width::Four => 4,
            Width::Eight => 8,
        }
    }
}

// The number at a place.
pub fn number(body: &[u8], at: usize, width: Width) -> u64
    requires { at + width_bytes width ≤ length body.now }
    ensures { result ≡ number_in body.now at (width_bytes width) }
{
    match width {
        Width::One => body[at] as u64,
        Width::Four => read_u32(body, at) as u64,
        Width::Eight => read_u64(body, at),
    }
}

// Whether a number of this width stands at a place, from the least to the greatest.
pub fn number_fits(body: &[u8], at: usize, width: Width, least: u64, greatest: u64) -> bool
    ensures { result ≡ field_fits (uint (width_bytes width) least greatest) body.now at }
{
    if !within(body.len(), at, width.bytes()) {
        return false;
    }
    let n = number(body, at, width);
    if n < least {
        return false;
    }
    n <= greatest
}

// Whether a string stands at a place whole, of at most `limit` bytes.
pub fn string_fits(body: &[u8], at: usize, limit: usize) -> bool
    ensures { result ≡ field_fits (string limit) body.now at }
{
    if !within(body.len(), at, 2) {
        return false;
    }
    let n = read_u16(body, at) as usize;
    if !within(body.len(), at + 2, n) {
        return false;
    }
    n <= limit
}

// The staff or post number at a place: four bytes, not 0. It and the password differ in the type of what they give, as `read_u32` and `read_u64` do.
pub(crate) fn staff_number(body: &[u8], at: usize) -> Option<u32>
    ensures { result ≡ then_some (field_fits staff_number body.now at) (number_in body.now at 4) }
{
    if !number_fits(body, at, Width::Four, 1, 0xffff_ffff) {
        return None;
    }
    Some(read_u32(body, at))
}

// The password at a place: any eight bytes.
pub(crate) fn password(body: &[u8], at: usize) -> Option<u64>
    ensures { result ≡ then_some (field_fits password body.now at) (number_in body.now at 8) }
{
    if !number_fits(body, at, Width::Eight, 0, 0xffff_ffff_ffff_ffff) {
        return None;
    }
    Some(read_u64(body, at))
}

// Where the string at a place stands.
pub(crate) fn span(body: &[u8], at: usize, limit: usize) -> Option<Span>
    ensures { result ≡ then_some (field_fits (string limit) body.now at) (span_at body.now at) }
{
    if !string_fits(body, at, limit) {
        return None;
    }
    Some(Span {
        start: at + 2,
        len: read_u16(body, at) as usize,
    })
}

// String fields: a two-byte length, the bytes, and zeros up to the limit.
ghost use Rattle.std.specs.Prelude.{◌≡◌, ◌+◌, ◌-◌, ◌≤◌, length};
ghost use Rattle.layout.specs.Bytes.{bytes_at, all_zero};
ghost use Rattle.layout.specs.StringFields.{is_string_field, write_string};

use crate::number::{fits_width, read_u16, read_u64, write_number};
use crate::range::within;
use crate::run::{all_zero, write_bytes, zero_fill};

// The field at a place becomes s; where s is too long or the field reaches past the end, nothing changes.
pub fn write_string(b: &mut [u8], at: usize, limit: usize, s: &[u8])
    ensures { b.new ≡ write_string b.old at limit s.now }
{
    let n = s.len();
    if limit < n {
        return;
    }
    if b.len() < 2 {
        return;
    }
    if !within(b.len() - 2, at, limit) {
        return;
    }
    write_number(b, at, 2, n as u64);
    write_bytes(b, at + 2, s);
    zero_fill(b, at + 2 + n, limit - n);
}

// Whether the bytes from a place up to an end are zero, eight at a time. The last word ends there; of it only the bytes count that the loop
// has not seen.
fn words_zero(b: &[u8], at: usize, end: usize) -> bool
    requires { (at ≤ end) × (8 ≤ end) × (end ≤ length b.now) }
    ensures { result ≡ all_zero (bytes_at b.now at (end - at)) }
{
    let run = &b[at..end];
    let mut gathered: u64 = 0;
    for word in run.chunks_exact(8) {
        gathered |= read_u64(word, 0);
    }
    if gathered != 0 {
        return false;
    }
    fits_width(read_u64(b, end - 8), 8 - run.len() % 8)
}

// The same for a run of at most `most` bytes. As many words are read however long the run is, so that no branch depends on it: they may
// overlap, and none ends behind the run.
fn short_zero(b: &[u8], at: usize, end: usize, most: usize) -> bool
    requires { (at ≤ end) × (end ≤ at + most) × (most ≤ 64) × (8 ≤ end) × (end ≤ length b.now) }
    ensures { result ≡ all_zero (bytes_at b.now at (end - at)) }
{
    let last = end - 8;
    let first = at.min(last);
    let mut gathered: u64 = 0;
    for k in 0..most.div_ceil(8) {
        gathered |= read_u64(b, (first + 8 * k).min(last));
    }
    fits_width(gathered, at - first)
}

// Whether the field at a place holds a string of this limit; one that reaches past the end does not.
pub fn is_string_field(b: &[u8], at: usize, limit: usize) -> bool
    ensures { result ≡ is_string_field limit (bytes_at b.now at (2 + limit)) }
{
    if b.len() < 2 {
        return false;
    }
    if !within(b.len() - 2, at, limit) {
        return false;
    }
    let n = read_u16(b, at) as usize;
    if limit < n {
        return false;
    }
    let tail = at + 2 + n;
    let end = at + 2 + limit;
    // No word of eight bytes ends there.
    if end < 8 {
        return all_zero(b, tail, limit - n);
    }
    if limit <= 64 {
        return short_zero(b, tail, end, limit);
    }
    words_zero(b, tail, end)
}

// Little-endian numbers: read from 2, 4 and 8 bytes, and written with any width; and whether a number has room in a width.
ghost use Rattle.std.specs.Prelude.{◌≡◌, ◌+◌, ◌^◌, ◌≤◌, length, ltb};
ghost use Rattle.layout.specs.Bytes.{bytes_at, write_at};
ghost use Rattle.layout.specs.Numbers.{to_le_bytes, from_le_bytes};

use crate::range::within;

// The reads require their range: they are the innermost steps of the test of a board, where a check would cost. A part of as many bytes as the
// array leaves no check at run time. There are three of them, since the result's type decides how many bytes are read.
pub fn read_u16(b: &[u8], at: usize) -> u16
    requires { at + 2 ≤ length b.now }
    ensures { result ≡ from_le_bytes (bytes_at b.now at 2) }
{
    u16::from_le_bytes(b[at..at + 2].try_into().unwrap())
}

pub fn read_u32(b: &[u8], at: usize) -> u32
    requires { at + 4 ≤ length b.now }
    ensures { result ≡ from_le_bytes (bytes_at b.now at 4) }
{
    u32::from_le_bytes(b[at..at + 4].try_into().unwrap())
}

pub fn read_u64(b: &[u8], at: usize) -> u64
    requires { at + 8 ≤ length b.now }
    ensures { result ≡ from_le_bytes (bytes_at b.now at 8) }
{
    u64::from_le_bytes(b[at..at + 8].try_into().unwrap())
}

// Whether a number has room in so many bytes: nothing is left of it behind them. A shift by 64 is not allowed, so there are two of half the bits.
pub fn fits_width(x: u64, width: usize) -> bool
    ensures { result ≡ ltb x (256 ^ width) }
{
    if 8 < width {
        return true;
    }
    let half = 4 * width;
    (x >> half) >> half == 0
}

// A number of any width written, the lowest byte first; where it would reach past the end, nothing changes. By a loop, so that the width needs no bound:
// `to_le_bytes` gives eight bytes, and no more can be cut from them.
pub fn write_number(b: &mut [u8], at: usize, width: usize, x: u64)
    ensures { b.new ≡ write_at b.old at (to_le_bytes width x) }
{
    if !within(b.len(), at, width) {
        return;
    }
    let mut rest = x;
    for byte in &mut b[at..at + width] {
        *byte = (rest % 256) as u8;
        rest /= 256;
    }
}

// Runs of bytes: copied, zeroed, tested for zeros.
ghost use Rattle.std.specs.Prelude.{◌≡◌, ◌-◌, ◌≤◌, length, replicate};
ghost use Rattle.layout.specs.Bytes.{bytes_at, write_at, all_zero};

use crate::range::within;

// s is written to a place; where it would reach past the end, nothing changes.
pub fn write_bytes(b: &mut [u8], at: usize, s: &[u8])
    ensures { b.new ≡ write_at b.old at s.now }
{
    if !within(b.len(), at, s.len()) {
        return;
    }
    b[at..at + s.len()].copy_from_slice(s);
}

// n bytes from a place on become zero; where they would reach past the end, nothing changes.
pub fn zero_fill(b: &mut [u8], at: usize, n: usize)
    ensures { b.new ≡ write_at b.old at (replicate n 0) }
{
    if !within(b.len(), at, n) {
        return;
    }
    b[at..at + n].fill(0);
}

// Whether all bytes are zero. The loop gathers and never leaves early, so that it is done many bytes at a time.
fn is_zero(bytes: &[u8]) -> bool
    ensures { result ≡ all_zero bytes.now }
{
    bytes.iter().fold(0, |gathered, byte| gathered | *byte) == 0
}

// Whether n bytes from a place on are zero, as far as they are there.
pub fn all_zero(b: &[u8], at: usize, n: usize) -> bool
    ensures { result ≡ all_zero (bytes_at b.now at n) }
{
    let there = &b[at.min(b.len())..];
    is_zero(&there[..n.min(there.len())])
}

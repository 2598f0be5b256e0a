// Tables: records of one size, one behind the other, each with its number in its first four bytes.
ghost use Rattle.std.specs.Prelude.{◌≡◌, ◌+◌, ◌*◌, ◌≤◌, length, leb};
ghost use Rattle.layout.specs.Search.{index_of, place_below};
ghost use Rattle.layout.specs.Bytes.{bytes_at, patch};
ghost use Rattle.layout.specs.Tables.{record_numbers, remove_record};

use crate::number::read_u32;
use crate::run::zero_fill;

// The records of a table: where the first one begins, and how many bytes each has. How many there are is no field, since the header has it and it
// changes. The soundness test, which only reads, goes over slices of arrays instead.
#[derive(Clone, Copy)]
pub struct Records {
    pub base: usize,
    pub size: usize,
}

impl Records {
    // The first of n whose number is x. It goes from the last one to the first and never leaves early. In the loop n stands for none: that is one
    // conditional move for each record, where an option takes two.
    pub fn find(self, b: &[u8], n: usize, x: u32) -> Option<usize>
        requires { (4 ≤ self.size) × (self.base + n * self.size ≤ length b.now) }
        ensures { result ≡ place_below n (index_of x (record_numbers b.now self.base self.size n)) }
    {
        let mut found = n;
        for i in (0..n).rev() {
            if read_u32(b, self.base + i * self.size) == x {
                found = i;
            }
        }
        if found < n { Some(found) } else { None }
    }

    // Whether n of them lie within a length.
    fn lie_within(self, len: usize, n: usize) -> bool
        ensures { result ≡ leb (self.base + n * self.size) len }
    {
        self.base <= len && (self.size == 0 || n <= (len - self.base) / self.size)
    }

    // Removes record i of n: the later ones move up by one, and the last one becomes zero. Without a record i, or out of range, nothing changes.
    pub fn remove(self, b: &mut [u8], n: usize, i: usize)
        ensures { b.new ≡ remove_record b.old self.base self.size n i }
    {
        if n <= i {
            return;
        }
        if !self.lie_within(b.len(), n) {
            return;
        }
        let to = self.base + i * self.size;
        let from = self.base + (i + 1) * self.size;
        let rest = (n - (i + 1)) * self.size;
        b.copy_within(from..from + rest, to);
        zero_fill(b, to + rest, self.size);
    }
}

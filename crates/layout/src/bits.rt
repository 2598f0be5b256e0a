// Bits of a 32-bit row.
ghost use Rattle.std.specs.Prelude.{◌≡◌, ◌-◌, ◌^◌, min, length};
ghost use Rattle.layout.specs.Bits.{bit_at, has_bit, set_bit, clear_bit, set_places};

// Bit j, 0 or 1; a row has none at or above 32. A number, since a limit is multiplied by it.
pub fn bit_at(row: u32, j: usize) -> u32
    ensures { result ≡ bit_at row j }
{
    if 32 <= j {
        return 0;
    }
    (row >> j) % 2
}

pub fn has_bit(row: u32, j: usize) -> bool
    ensures { result ≡ has_bit row j }
{
    bit_at(row, j) == 1
}

// The row with bit j set; at or above 32 there is none to set.
pub fn set_bit(row: u32, j: usize) -> u32
    ensures { result ≡ set_bit row j }
{
    if 32 <= j {
        return row;
    }
    row | (1u32 << j)
}

// The row with bit j cleared.
pub fn clear_bit(row: u32, j: usize) -> u32
    ensures { result ≡ clear_bit row j }
{
    if 32 <= j {
        return row;
    }
    row & !(1u32 << j)
}

// The row with its first n bits set; all 32 from n = 32 on.
pub fn low_bits(n: usize) -> u32
    ensures { result ≡ 2 ^ min n 32 - 1 }
{
    if 32 <= n {
        return u32::MAX;
    }
    (1u32 << n) - 1
}

// The number of set bits, which is that of the set places.
pub fn count_bits(row: u32) -> u32
    ensures { result ≡ length (set_places row 32) }
{
    row.count_ones()
}

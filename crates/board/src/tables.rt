// Tables: records of one size, one behind the other from a base on, and tests of the records of any table.
ghost use Rattle.std.specs.Prelude.{◌≡◌, ◌+◌, ◌*◌, ◌<◌, ◌≤◌, length, drop};
ghost use Rattle.layout.specs.Bytes.{all_zero};
ghost use Rattle.model.specs.Lists.{for_all};
ghost use Rattle.board.specs.BoardTests.{records_at, holds_string, number_below};

use layout::number::read_u16;
use layout::run::all_zero;
use layout::string::is_string_field;

// The first n records of a table.
pub(crate) fn records<const SIZE: usize>(bytes: &[u8], base: usize, n: usize) -> &[[u8; SIZE]]
    requires { (0 < SIZE) × (base + n * SIZE ≤ length bytes.now) }
    ensures { result.now ≡ records_at bytes.now base SIZE n }
{
    let (whole, _) = bytes[base..base + n * SIZE].as_chunks::<SIZE>();
    whole
}

// Whether the records of a table behind the used ones are zero: they are one run.
pub(crate) fn unused_zero<const SIZE: usize>(
    bytes: &[u8],
    base: usize,
    limit: usize,
    used: &[[u8; SIZE]],
) -> bool
    requires { (length used.now ≤ limit) × (base + limit * SIZE ≤ length bytes.now) }
    ensures { result ≡ for_all all_zero (drop (length used.now) (records_at bytes.now base SIZE limit)) }
{
    let n = used.len();
    all_zero(bytes, base + n * SIZE, (limit - n) * SIZE)
}

// Whether a field of each record holds a string. A loop and no `all`, here and in most tests: a closure in a generic function does not know how long its
// arrays are, and in the others a fact about the row is lost in it.
pub(crate) fn fields_hold_strings<const SIZE: usize>(
    records: &[[u8; SIZE]],
    at: usize,
    limit: usize,
) -> bool
    ensures { result ≡ for_all (holds_string at limit) records.now }
{
    for record in records {
        if !is_string_field(record, at, limit) {
            return false;
        }
    }
    true
}

// Whether a two-byte number in each record is below a bound.
pub(crate) fn numbers_below<const SIZE: usize>(
    records: &[[u8; SIZE]],
    at: usize,
    bound: usize,
) -> bool
    requires { at + 2 ≤ SIZE }
    ensures { result ≡ for_all (number_below at bound) records.now }
{
    for record in records {
        if bound <= read_u16(record, at) as usize {
            return false;
        }
    }
    true
}

// Places and ranges of them.
ghost use Rattle.std.specs.Prelude.{◌≡◌, ◌+◌, leb};

// Whether n bytes from a place on lie within a length.
pub fn within(len: usize, at: usize, n: usize) -> bool
    ensures { result ≡ leb (at + n) len }
{
    n <= len && at <= len - n
}

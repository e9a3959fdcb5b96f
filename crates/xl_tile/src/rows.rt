ghost use Rattle.std.specs.Prelude.{◌≡◌, ◌+◌, ◌≤◌, length, take, drop};

/// So many bytes from a place on.
pub fn piece(bytes: &[u8], at: usize, len: usize) -> &[u8]
    requires { at + len ≤ length bytes.now }
    ensures value { result.now ≡ take len (drop at bytes.now) }
    ensures size { length result.now ≡ len }
{
    &bytes[at..at + len]
}

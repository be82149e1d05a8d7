//! What stands at the front of bytes.

ghost use Rattle.std.specs.Prelude.{◌≡◌, ◌≢◌, ◌≤◌, ◌++◌, ℕ, List, length, take_while, MatchOption};
ghost use Rattle.std.specs.Char.{is_ascii_digit};
ghost use Rattle.std.specs.List.{prefix_len};

/// What stands behind the prefix, with no copy; `None` where the bytes don't begin with it.
///
/// Of bytes that are the prefix, and of any bytes with an empty prefix, that is all that is left. It takes no memory.
pub fn behind_prefix<'a>(bytes: &'a [u8], prefix: &[u8]) -> Option<&'a [u8]>
    ensures { MatchOption result ((rest : List ℕ) → bytes.now ≢ prefix.now ++ rest) (λ rest. bytes.now ≡ prefix.now ++ rest.now) }
{
    bytes.strip_prefix(prefix)
}

/// How many decimal digits (`0` to `9`, in ASCII) the bytes begin with, 0 where the first is none. It takes no memory.
pub fn digits_len(bytes: &[u8]) -> usize
    ensures exact { result ≡ prefix_len is_ascii_digit bytes.now }
    ensures run { result ≡ length (take_while is_ascii_digit bytes.now) }
    ensures within { result ≤ length bytes.now }
{
    bytes.iter().take_while(|c| c.is_ascii_digit()).count()
}

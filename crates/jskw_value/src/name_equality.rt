//! Whether two names are equal, for names that are compared with many others.
ghost use Rattle.std.specs.Prelude.{◌≡◌, length};
ghost use Rattle.std.specs.Int.{w16, w32, w64, from_le_bytes, to_le_bytes};
ghost use Rattle.std.specs.Str.{bytes_eq};

/// Returns whether the names are equal, for names that are compared with many others, of which most
/// differ in length. Allocates nothing.
#[inline(always)]
pub fn is_same_name(name: &str, other: &str) -> bool
    ensures { result ≡ bytes_eq name.now other.now }
{
    name.len() == other.len() && is_same(name, other)
}

// Returns whether the texts, which have the same length, are equal. Those of eight bytes and more are
// compared by their first and their last eight bytes, which are all that most names have: where these
// differ, as in names that are numbered, no call is made. Shorter ones are compared as two words of four
// bytes, or of two, as `id`.
#[inline(always)]
fn is_same(text: &str, other: &str) -> bool
    requires { length text.now ≡ length other.now }
    ensures { result ≡ bytes_eq text.now other.now }
{
    let (left, right) = (text.as_bytes(), other.as_bytes());
    let length = left.len();
    if length < 2 {
        return is_equal(text, other);
    }
    if length < 4 {
        return half(&left[..2]) == half(&right[..2])
            && half(&left[length - 2..]) == half(&right[length - 2..]);
    }
    if length < 8 {
        return word(&left[..4]) == word(&right[..4])
            && word(&left[length - 4..]) == word(&right[length - 4..]);
    }
    if double(&left[..8]) != double(&right[..8])
        || double(&left[length - 8..]) != double(&right[length - 8..])
    {
        return false;
    }
    length <= 16 || is_equal(text, other)
}

// Returns eight bytes as a number, the lowest byte first.
fn double(bytes: &[u8]) -> u64
    requires { length bytes.now ≡ 8 }
    ensures value { result ≡ from_le_bytes w64 bytes.now }
    ensures bytes { to_le_bytes w64 result ≡ bytes.now }
{
    let mut eight = [0u8; 8];
    eight.copy_from_slice(bytes);
    u64::from_le_bytes(eight)
}

// Returns four bytes as a number, the lowest byte first.
fn word(bytes: &[u8]) -> u32
    requires { length bytes.now ≡ 4 }
    ensures value { result ≡ from_le_bytes w32 bytes.now }
    ensures bytes { to_le_bytes w32 result ≡ bytes.now }
{
    let mut four = [0u8; 4];
    four.copy_from_slice(bytes);
    u32::from_le_bytes(four)
}

// Returns two bytes as a number, the lowest byte first.
fn half(bytes: &[u8]) -> u16
    requires { length bytes.now ≡ 2 }
    ensures value { result ≡ from_le_bytes w16 bytes.now }
    ensures bytes { to_le_bytes w16 result ≡ bytes.now }
{
    let mut two = [0u8; 2];
    two.copy_from_slice(bytes);
    u16::from_le_bytes(two)
}

// Returns whether the texts are equal. By a call, so that what the comparison prepares is not done
// for every name.
#[inline(never)]
fn is_equal(text: &str, other: &str) -> bool
    ensures { result ≡ bytes_eq text.now other.now }
{
    text == other
}

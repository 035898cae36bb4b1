//! The order of keys. Their first eight bytes are compared as one number, and the others only where these are the same.

ghost use Rattle.std.specs.Prelude.{◌≡◌, ℕ, ◌+◌, ◌<◌, ◌≤◌, length, drop, slice_index};
ghost use Rattle.hy_page.specs.Bytes.{AreBytes};
ghost use Rattle.hy_trees.specs.Trees.{is_less_bytes};
ghost use Rattle.hy_nodes.specs.Words.{first_word};

/// How many bytes are compared as one number.
pub const WORD_BYTES: usize = 8;

/// The number that eight bytes spell, the highest first.
pub fn word(bytes: &[u8]) -> u64
    requires { length bytes.now ≡ 8 }
    ensures value { result ≡ first_word bytes.now }
    ensures range { AreBytes bytes.now }
{
    let mut digits = [0; WORD_BYTES];
    let whole = &mut digits[..];
    whole.copy_from_slice(bytes);
    u64::from_be_bytes(digits)
}

/// The number that the first eight bytes of a key spell, the highest first. Behind a shorter one stand zeros.
pub fn first_word(key: &[u8]) -> u64
    ensures value { result ≡ first_word key.now }
    ensures range { AreBytes key.now }
{
    let mut number = 0;
    for place in 0..WORD_BYTES {
        number = number * 256 + byte_or_zero(key, place);
    }
    number
}

/// The byte at a place, and zero behind the last one.
fn byte_or_zero(bytes: &[u8], place: usize) -> u64
    ensures value { result ≡ slice_index bytes.now place }
    ensures small { result < 256 }
{
    if place < bytes.len() {
        return u64::from(bytes[place]);
    }
    0
}

/// Whether what stands behind the first eight bytes of a key is less than that of another one.
pub fn is_less_behind(key: &[u8], other: &[u8]) -> bool
    requires { length key.now ≡ length other.now }
    ensures { result ≡ is_less_bytes (drop 8 key.now) (drop 8 other.now) }
{
    if key.len() <= WORD_BYTES {
        return false;
    }
    key[WORD_BYTES..].cmp(&other[WORD_BYTES..]).is_lt()
}

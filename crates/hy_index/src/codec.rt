//! The columns of keys as bytes.

ghost use Rattle.std.specs.Prelude.{◌≡◌, ◌+◌, ◌^◌, ◌<◌, ◌≤◌, ◌++◌, length};
ghost use Rattle.arrayvec.specs.ArrayVec.{array_vec_len};
ghost use Rattle.hy_page.specs.Bytes.{bytes_at};
ghost use Rattle.hy_index.specs.KeyBytes.{high_bytes_of, high_number_of};
ghost use Rattle.hy_joins.specs.of_nodes.declared.key.TheConstants.{MAX_KEY_BYTES};

use hy_joins::hy_nodes::KeyBytes;
pub use hy_joins::hy_nodes::push_bytes;

/// Appends the lowest `width` bytes of a number, the highest first.
pub fn push_number(key: &mut KeyBytes, number: u64, width: usize)
    requires width { width ≤ 8 }
    requires room { array_vec_len key.old + width ≤ MAX_KEY_BYTES }
    ensures bytes { key.new.items ≡ key.old.items ++ high_bytes_of width number }
    ensures len { array_vec_len key.new ≡ array_vec_len key.old + width }
{
    let digits = number.to_be_bytes();
    let whole = &digits[..];
    push_bytes(key, &whole[8 - width..]);
}

/// The number that the `width` bytes from an offset on spell, the highest first.
pub fn read_number(bytes: &[u8], offset: usize, width: usize) -> u64
    requires within { offset + width ≤ length bytes.now }
    requires width { width ≤ 8 }
    ensures value { result ≡ high_number_of (bytes_at bytes.now offset width) }
    ensures range { result < 256 ^ width }
{
    number(&bytes[offset..offset + width])
}

/// The number that bytes spell, the highest first.
fn number(bytes: &[u8]) -> u64
    requires { length bytes.now ≤ 8 }
    ensures value { result ≡ high_number_of bytes.now }
    ensures range { result < 256 ^ length bytes.now }
{
    let mut number = 0;
    for byte in bytes {
        number = number * 256 + u64::from(*byte);
    }
    number
}

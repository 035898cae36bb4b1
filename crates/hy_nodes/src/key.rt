//! The bytes of keys, as they are put together.

ghost use Rattle.std.specs.Prelude.{◌≡◌, ◌+◌, ◌≤◌, ◌++◌, length};
ghost use Rattle.arrayvec.specs.ArrayVec.{array_vec_len};
ghost use Rattle.hy_nodes.specs.declared.key.TheConstants.{MAX_KEY_BYTES};

use arrayvec::ArrayVec;

/// How many bytes a key has at most.
pub const MAX_KEY_BYTES: usize = 48;

/// The bytes of a key, as they are put together.
pub type KeyBytes = ArrayVec<u8, MAX_KEY_BYTES>;

/// The bytes of an item of a page: those of a key, and a number.
pub type ItemBytes = ArrayVec<u8, 56>;

/// Appends bytes, as those of a text that has its width.
pub fn push_bytes(key: &mut KeyBytes, bytes: &[u8])
    requires { array_vec_len key.old + length bytes.now ≤ MAX_KEY_BYTES }
    ensures bytes { key.new.items ≡ key.old.items ++ bytes.now }
    ensures len { array_vec_len key.new ≡ array_vec_len key.old + length bytes.now }
{
    for byte in bytes {
        key.push(*byte);
    }
}

//! Keys, and the entries of an index.

ghost use Rattle.std.specs.Prelude.{◌≡◌, ℕ, ◌+◌, ◌≤◌, ◌++◌, Bool, List, length};
ghost use Rattle.arrayvec.specs.ArrayVec.{array_vec_len};
ghost use Rattle.hy_trees.specs.Trees.{is_less_bytes};
ghost use Rattle.hy_joins.specs.of_nodes.declared.key.TheConstants.{MAX_KEY_BYTES};

use hy_joins::hy_nodes::KeyBytes;

/// A key and its slot.
#[derive(Clone, Copy, Debug)]
pub struct Entry<K> {
    /// The key.
    pub key: K,
    /// The number of the row.
    pub slot: u64,
}

/// A key of an index: a record of numbers and texts, with a total order. On pages it stands in a form
/// whose byte order is that order.
pub trait Key: Copy {
    /// How many bytes a key has.
    const BYTES: usize;

    /// The number of bytes, as clauses name it.
    ghost BYTES: { ℕ };

    /// The bytes of a key: numbers with their highest byte first, texts padded with zero bytes.
    ghost bytes_of_key: { Self → List ℕ };

    /// The key that bytes say.
    ghost key_of_bytes: { List ℕ → Self };

    /// The values that the types of the columns can have.
    ghost IsKey: { Self → Type 0 };

    /// The order, column by column.
    ghost is_less: { Self → Self → Bool };

    /// Appends the bytes of the key.
    fn encode(&self, bytes: &mut KeyBytes)
        requires { array_vec_len bytes.old + BYTES ≤ MAX_KEY_BYTES }
        ensures bytes { bytes.new.items ≡ bytes.old.items ++ bytes_of_key self.now }
        ensures is_key { IsKey self.now };

    /// The key that these bytes say.
    fn decode(bytes: &[u8]) -> Self
        requires { length bytes.now ≡ BYTES }
        ensures { result ≡ key_of_bytes bytes.now };

    /// A key has a byte at least, and no more than fit.
    ghost some: { 1 ≤ BYTES };

    ghost fits: { BYTES ≤ MAX_KEY_BYTES };

    /// Each key has as many bytes, and they say that key.
    ghost width: { (key : Self) → IsKey key → length (bytes_of_key key) ≡ BYTES };

    ghost reads_back: { (key : Self) → IsKey key → key_of_bytes (bytes_of_key key) ≡ key };

    /// The order of the keys is that of their bytes.
    ghost ordered: { (one other : Self) → IsKey one → IsKey other
        → is_less one other ≡ is_less_bytes (bytes_of_key one) (bytes_of_key other) };
}

//! Parts of rows: some columns, one behind another, that are read and written without the others.

ghost use Rattle.std.specs.Prelude.{◌≡◌, ℕ, ◌+◌, ◌≤◌, List, length};
ghost use Rattle.hy_page.specs.Bytes.{bytes_at, overwritten};

use crate::codec::ByteBuffer;
use crate::row::Row;

/// Some columns of a row, one behind another.
pub trait Part<R: Row>: Drop {
    /// Where the first of them begins among the bytes of a row.
    const OFFSET: usize;

    /// How many bytes they have.
    const WIDTH: usize;

    /// The same, as clauses name them.
    ghost OFFSET: { ℕ };

    ghost WIDTH: { ℕ };

    /// What a row has of them.
    ghost part_of: { R → Self };

    /// What bytes say of them.
    ghost part_of_bytes: { List ℕ → Self };

    /// What these bytes say of them.
    fn decode_part(bytes: &[u8]) -> Self
        requires { length bytes.now ≡ WIDTH }
        ensures { result ≡ part_of_bytes bytes.now };

    /// They lie within the bytes of a row, and a row's bytes say of them what their own do.
    ghost inside: { OFFSET + WIDTH ≤ R.BYTES };

    ghost said: { (row : List ℕ) → length row ≡ R.BYTES
        → part_of (R.row_of_bytes row) ≡ part_of_bytes (bytes_at row OFFSET WIDTH) };
}

/// Some columns of a row that are written without the others.
pub trait WrittenPart<R: Row>: Part<R> {
    /// Their bytes, put together.
    type Bytes: ByteBuffer;

    /// A row with others of them.
    ghost with_part: { R → Self → R };

    /// The bytes that are written for them.
    ghost bytes_of_part: { Self → List ℕ };

    /// Those bytes. A row in whose place they are written has these columns, and its others as before.
    fn bytes(&self) -> Self::Bytes
        ensures bytes { Self.Bytes.bytes result ≡ bytes_of_part self.now }
        ensures width { length (bytes_of_part self.now) ≤ Self.Part.WIDTH }
        ensures written { (row : List ℕ) → length row ≡ R.BYTES
            → R.row_of_bytes (overwritten row Self.Part.OFFSET (bytes_of_part self.now)) ≡ with_part (R.row_of_bytes row) self.now };
}

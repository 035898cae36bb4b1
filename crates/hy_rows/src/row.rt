//! What the rows of all tables have in common.

ghost use Rattle.std.specs.Prelude.{◌≡◌, ◌≢◌, ℕ, ◌+◌, ◌<◌, ◌≤◌, ◌++◌, ◌∷◌, Bool, List, filter, length, slice_index, slice_set, IfOk};
ghost use Rattle.std.specs.List.{flat_map};
ghost use Rattle.hy_rows.specs.Tables.{Lists, Tables, all_of, of_warehouse, row_counts};
ghost use Rattle.hy_rows.specs.Spelling.{IsTable, list_at, rows_of as rows_of_pages, slot_width, tables_of};
ghost use Rattle.hy_rows.specs.Catalogue.{segment_of, segments};
ghost use Rattle.hy_rows.specs.declared.catalogue.Table.TheVariants as tables;
ghost use Rattle.hy_rows.specs.declared.item.Item.{Item as ItemRow};
ghost use Rattle.hy_rows.specs.declared.catalogue.TheConstants.{MAX_SLOT_BYTES};

use crate::codec::ByteBuffer;
use crate::item::Item;
use crate::lists::Lists;
use crate::record::{FixedRecord, OwnedRecord};
use crate::tables::Tables;
use std::alloc::{AllocError, Global};

/// A row of a table: how it lies in the slots of its segment, and where lists of all tables have it.
pub trait Row: OwnedRecord {
    /// The segment of the table.
    const SEGMENT: u32;

    /// How many bytes a row has.
    const BYTES: usize;

    /// The bytes of a slot.
    type Slot: ByteBuffer;

    /// The segment and the number of bytes, as clauses name them.
    ghost SEGMENT: { ℕ };

    ghost BYTES: { ℕ };

    /// The bytes of a row.
    ghost bytes_of_row: { Self → List ℕ };

    /// The row that bytes say.
    ghost row_of_bytes: { List ℕ → Self };

    /// The rows of this table.
    ghost rows_in: { Tables → List Self };

    /// The rows of all tables, with these as the rows of this one.
    ghost with_rows: { Tables → List Self → Tables };

    /// The rows of a table stand by themselves beside those of the others.
    ghost own_rows: { (tables : Tables) (rows : List Self) → rows_in (with_rows tables rows) ≡ rows };

    ghost own_rows_again: { (tables : Tables) → with_rows tables (rows_in tables) ≡ tables };

    ghost last_rows: { (tables : Tables) (rows others : List Self)
        → with_rows (with_rows tables rows) others ≡ with_rows tables others };

    /// The rows of several warehouses are those of each behind those of the one before.
    ghost joined_rows: { (several : List Tables) → rows_in (all_of several) ≡ flat_map rows_in several };

    /// Whether a row belongs to a warehouse.
    ghost is_of: { ℕ → Self → Bool };

    /// The rows of a warehouse are those of the table that belong to it.
    ghost own_in: { (number : ℕ) (all : Tables)
        → rows_in (of_warehouse number all) ≡ filter (is_of number) (rows_in all) };

    /// How many rows there are stands at the table's place among all counts.
    ghost counted: { (all : Tables) (others : List ℕ)
        → slice_index (row_counts all ++ others) SEGMENT ≡ length (rows_in all) };

    /// A slot with the row: the mark of a live one, and the bytes of the row.
    fn slot(&self) -> Self::Slot
        ensures bytes { Self.Slot.bytes result ≡ 1 ∷ bytes_of_row self.now }
        ensures width { length (bytes_of_row self.now) ≡ BYTES }
        ensures reads_back { row_of_bytes (bytes_of_row self.now) ≡ self.now };

    /// The row that these bytes say. Only memory can lack.
    fn decode(alloc: Global, bytes: &[u8]) -> Result<Self, AllocError>
        requires { length bytes.now ≡ BYTES }
        ensures { IfOk result (λ row. row ≡ row_of_bytes bytes.now) };

    /// The rows of this table.
    fn rows_of(tables: &Tables) -> &[Self]
        ensures { result.now ≡ rows_in tables.now };

    /// Whether the row belongs to a warehouse.
    fn belongs_to(&self, warehouse: u8) -> bool
        ensures { result ≡ is_of warehouse self.now };

    /// No slot is longer.
    ghost fits: { slot_width BYTES ≤ MAX_SLOT_BYTES };

    /// The segment and the width are those of one of the tables.
    ghost is_table: { IsTable SEGMENT BYTES };

    /// Of the rows that the bytes of a page table say, those of this table are the rows of its segment.
    ghost spelled: { (n : ℕ) (bytes : List (List (List ℕ))) → rows_in (tables_of n bytes)
        ≡ rows_of_pages n BYTES row_of_bytes (list_at bytes SEGMENT) };

    /// Where this segment has other pages, this table has their rows, and the other tables stay.
    ghost respelled: { (n : ℕ) (bytes : List (List (List ℕ))) (pages : List (List ℕ))
        → segments ≤ length bytes
        → tables_of n (slice_set bytes SEGMENT pages)
        ≡ with_rows (tables_of n bytes) (rows_of_pages n BYTES row_of_bytes pages) };
}

/// A row that is read without memory of its own.
pub trait FixedRow: Row + FixedRecord {
    /// The row that these bytes say.
    fn read(bytes: &[u8]) -> Self
        requires { length bytes.now ≡ Self.Row.BYTES }
        ensures { result ≡ Self.Row.row_of_bytes bytes.now };
}

/// A row of a table that never loses one.
pub trait Lasting: Row {
    /// NEW-ORDER alone loses rows.
    ghost lasts: { Self.Row.SEGMENT ≢ segment_of tables.NewOrder };
}

/// A row of any table, also of one that no pages hold: where the lists of a load have it.
pub trait Listed: OwnedRecord {
    /// The rows of this table.
    ghost list_in: { Lists → List Self };

    /// The rows of this table.
    fn list_of(lists: &Lists) -> &[Self]
        ensures { result.now ≡ list_in lists.now };

    /// A copy of the rows of this table. Only memory can lack.
    fn copy_from<S: Source>(source: &S) -> Result<Vec<Self>, AllocError>
        ensures { IfOk result (λ rows. rows.items
            ≡ list_in (record { items = S.items_of source.now; tables = S.tables_of source.now })) };
}

/// What has the rows of the tables that lie on pages.
pub trait RowSource {
    /// The rows of these tables.
    ghost tables_of: { Self → Tables };

    /// A copy of the rows of a table. Only memory can lack.
    fn copy_rows<R: Row>(&self) -> Result<Vec<R>, AllocError>
        ensures { IfOk result (λ rows. rows.items ≡ R.rows_in (tables_of self.now)) };
}

/// What has the rows of all tables: also those of ITEM.
pub trait Source: RowSource {
    /// The rows of ITEM.
    ghost items_of: { Self → List ItemRow };

    /// A copy of the rows of ITEM. Only memory can lack.
    fn copy_items(&self) -> Result<Vec<Item>, AllocError>
        ensures { IfOk result (λ items. items.items ≡ items_of self.now) };
}

// The rows of a table in a segment are those of its list.
impl<R: Row> Listed for R {
    ghost list_in = { λ lists. R.rows_in lists.tables };

    fn list_of(lists: &Lists) -> &[R] {
        R::rows_of(&lists.tables)
    }

    fn copy_from<S: Source>(source: &S) -> Result<Vec<R>, AllocError> {
        source.copy_rows()
    }
}

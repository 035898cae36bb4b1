//! Rows of WAREHOUSE.

use crate::catalogue::{Table, WAREHOUSE};
use crate::codec::{
    marked, push_number, push_signed, push_text, read_number, read_signed, read_text,
};
use crate::record::{FixedRecord, Record, ValueSink, ValueSource};
use crate::row::{FixedRow, Lasting, Row};
use crate::tables::Tables;
use crate::text::Text;
use arrayvec::ArrayVec;
use std::alloc::{AllocError, Global};

/// The greatest W_ID.
pub const MAX_WAREHOUSES: u8 = 16;

/// The greatest amount in cents that a loaded row may have.
pub const MAX_CENTS: i64 = 1_000_000_000_000_000;

/// The whole, in ten-thousandths.
pub const MAX_RATE: u16 = 10_000;

/// A row of WAREHOUSE (TPC-C clause 1.3.1).
#[derive(Clone, Copy, Debug, PartialEq, Eq)]
pub struct Warehouse {
    /// W_ID, from 1 to `MAX_WAREHOUSES`.
    pub id: u8,
    /// W_NAME.
    pub name: Text<10>,
    /// W_TAX in ten-thousandths.
    pub tax: u16,
    /// W_YTD in cents.
    pub ytd: i64,
}

impl Record for Warehouse {
    ghost use Rattle.std.proofs.Common.{refl};
    ghost use Rattle.hy_rows.specs.declared.catalogue.Table.TheVariants as tables;
    ghost use Rattle.hy_rows.specs.Rows.{warehouse_values, warehouse_with};

    const TABLE: Table = Table::Warehouse;

    ghost TABLE = { tables.Warehouse };

    ghost values_of = { warehouse_values };

    ghost row_with = { warehouse_with };

    fn put<S: ValueSink>(&self, sink: &mut S) -> Result<(), S::Refused> {
        let [id, name, tax, ytd] = WAREHOUSE;
        sink.u8(id, self.id)?;
        sink.text(name, self.name.as_bytes())?;
        sink.u16(tax, self.tax)?;
        sink.i64(ytd, self.ytd)
    }

    ghost has_all = { λ row. refl };

    ghost same_row = { λ row. refl };
}

impl FixedRecord for Warehouse {
    fn take<S: ValueSource>(source: &S) -> Option<Warehouse> {
        Some(Warehouse {
            id: source.u8(0)?,
            name: Text::of_bytes(source.text(1, 10)?),
            tax: source.u16(2)?,
            ytd: source.i64(3)?,
        })
    }
}

impl Row for Warehouse {
    ghost use Rattle.std.specs.Prelude.{◌≡◌, ◌==◌, slice_set};
    ghost use Rattle.std.proofs.Common.{refl, rules};
    ghost use Rattle.hy_rows.specs.Spelling.{rows_of, tables_of};
    ghost use Rattle.hy_rows.specs.inside.Places.{by_places};
    ghost use Rattle.hy_rows.specs.Rows.{warehouse_bytes, warehouse_of};

    const SEGMENT: u32 = 0;

    const BYTES: usize = 21;

    type Slot = ArrayVec<u8, 22>;

    ghost SEGMENT = { 0 };

    ghost BYTES = { 21 };

    ghost bytes_of_row = { warehouse_bytes };

    ghost row_of_bytes = { warehouse_of };

    ghost rows_in = { λ tables. tables.warehouses };

    ghost is_of = { λ warehouse row. row.id == warehouse };

    ghost with_rows = { λ tables rows. record tables { warehouses = rows } };

    fn slot(&self) -> ArrayVec<u8, 22> {
        let mut slot = marked();
        push_number(&mut slot, self.id.into(), 1);
        push_text(&mut slot, &self.name);
        push_number(&mut slot, self.tax.into(), 2);
        push_signed(&mut slot, self.ytd);
        slot
    }

    fn decode(_alloc: Global, bytes: &[u8]) -> Result<Warehouse, AllocError> {
        Ok(Warehouse::read(bytes))
    }

    fn rows_of(tables: &Tables) -> &[Warehouse] {
        tables.warehouses.as_slice()
    }

    fn belongs_to(&self, warehouse: u8) -> bool {
        self.id == warehouse
    }

    ghost fits = { Prim.search rules };

    ghost is_table = { refl };

    ghost own_rows = { λ tables rows. refl };

    ghost own_rows_again = { λ tables. refl };

    ghost last_rows = { λ tables rows others. refl };

    ghost joined_rows = { λ several. refl };

    ghost own_in = { λ number all. refl };

    ghost counted = { λ all others. refl };

    ghost spelled = { λ n bytes. refl };

    ghost respelled = { λ n bytes pages whole. by_places (λ all. tables_of n (slice_set all 0 pages)
        ≡ record (tables_of n all) { warehouses = rows_of n 21 warehouse_of pages }) bytes whole refl };
}

impl FixedRow for Warehouse {
    fn read(bytes: &[u8]) -> Warehouse {
        Warehouse {
            id: read_number(bytes, 0, 1) as u8,
            name: read_text(bytes, 1),
            tax: read_number(bytes, 11, 2) as u16,
            ytd: read_signed(bytes, 13),
        }
    }
}

impl Lasting for Warehouse {
    ghost use Rattle.std.proofs.Common.{rules};

    ghost lasts = { Prim.search rules };
}

impl Warehouse {
    ghost use Rattle.std.specs.Prelude.{◌≡◌, length};
    ghost use Rattle.hy_rows.specs.Rows.{warehouse_of};

    /// W_TAX, in the bytes of a row.
    pub fn tax_in(bytes: &[u8]) -> u16
        requires { length bytes.now ≡ 21 }
        ensures { result ≡ (warehouse_of bytes.now).tax }
    {
        read_number(bytes, 11, 2) as u16
    }
}

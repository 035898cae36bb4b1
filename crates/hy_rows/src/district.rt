//! Rows of DISTRICT.

use crate::catalogue::{DISTRICT, Table};
use crate::codec::{
    marked, push_number, push_signed, push_text, read_number, read_signed, read_text,
};
use crate::record::{FixedRecord, Record, ValueSink, ValueSource};
use crate::row::{FixedRow, Lasting, Row};
use crate::tables::Tables;
use crate::text::Text;
use arrayvec::ArrayVec;
use std::alloc::{AllocError, Global};

/// How many districts a warehouse has (TPC-C clause 1.2.1).
pub const DISTRICTS_PER_WAREHOUSE: u8 = 10;

/// The greatest number of an order.
pub const MAX_ORDER: u32 = 1_000_000_000;

/// A row of DISTRICT (TPC-C clause 1.3.1).
#[derive(Clone, Copy, Debug, PartialEq, Eq)]
pub struct District {
    /// D_ID, from 1 to `DISTRICTS_PER_WAREHOUSE`.
    pub id: u8,
    /// D_W_ID, from 1 to `MAX_WAREHOUSES`.
    pub warehouse: u8,
    /// D_NAME.
    pub name: Text<10>,
    /// D_TAX in ten-thousandths.
    pub tax: u16,
    /// D_YTD in cents.
    pub ytd: i64,
    /// D_NEXT_O_ID.
    pub next_order: u32,
}

impl Record for District {
    ghost use Rattle.std.proofs.Common.{refl};
    ghost use Rattle.hy_rows.specs.declared.catalogue.Table.TheVariants as tables;
    ghost use Rattle.hy_rows.specs.Rows.{district_values, district_with};

    const TABLE: Table = Table::District;

    ghost TABLE = { tables.District };

    ghost values_of = { district_values };

    ghost row_with = { district_with };

    fn put<S: ValueSink>(&self, sink: &mut S) -> Result<(), S::Refused> {
        let [id, warehouse, name, tax, ytd, next_order] = DISTRICT;
        sink.u8(id, self.id)?;
        sink.u8(warehouse, self.warehouse)?;
        sink.text(name, self.name.as_bytes())?;
        sink.u16(tax, self.tax)?;
        sink.i64(ytd, self.ytd)?;
        sink.u32(next_order, self.next_order)
    }

    ghost has_all = { λ row. refl };

    ghost same_row = { λ row. refl };
}

impl FixedRecord for District {
    fn take<S: ValueSource>(source: &S) -> Option<District> {
        Some(District {
            id: source.u8(0)?,
            warehouse: source.u8(1)?,
            name: Text::of_bytes(source.text(2, 10)?),
            tax: source.u16(3)?,
            ytd: source.i64(4)?,
            next_order: source.u32(5)?,
        })
    }
}

impl Row for District {
    ghost use Rattle.std.specs.Prelude.{◌≡◌, ◌==◌, slice_set};
    ghost use Rattle.std.proofs.Common.{refl, rules};
    ghost use Rattle.hy_rows.specs.Spelling.{rows_of, tables_of};
    ghost use Rattle.hy_rows.specs.inside.Places.{by_places};
    ghost use Rattle.hy_rows.specs.Rows.{district_bytes, district_of};

    const SEGMENT: u32 = 1;

    const BYTES: usize = 26;

    type Slot = ArrayVec<u8, 27>;

    ghost SEGMENT = { 1 };

    ghost BYTES = { 26 };

    ghost bytes_of_row = { district_bytes };

    ghost row_of_bytes = { district_of };

    ghost rows_in = { λ tables. tables.districts };

    ghost is_of = { λ warehouse row. row.warehouse == warehouse };

    ghost with_rows = { λ tables rows. record tables { districts = rows } };

    fn slot(&self) -> ArrayVec<u8, 27> {
        let mut slot = marked();
        push_number(&mut slot, self.id.into(), 1);
        push_number(&mut slot, self.warehouse.into(), 1);
        push_text(&mut slot, &self.name);
        push_number(&mut slot, self.tax.into(), 2);
        push_signed(&mut slot, self.ytd);
        push_number(&mut slot, self.next_order.into(), 4);
        slot
    }

    fn decode(_alloc: Global, bytes: &[u8]) -> Result<District, AllocError> {
        Ok(District::read(bytes))
    }

    fn rows_of(tables: &Tables) -> &[District] {
        tables.districts.as_slice()
    }

    fn belongs_to(&self, warehouse: u8) -> bool {
        self.warehouse == warehouse
    }

    ghost fits = { Prim.search rules };

    ghost is_table = { refl };

    ghost own_rows = { λ tables rows. refl };

    ghost own_rows_again = { λ tables. refl };

    ghost last_rows = { λ tables rows others. refl };

    ghost joined_rows = { λ several. refl };

    ghost own_in = { λ number all. refl };

    ghost counted = { λ all others. refl };

    ghost spelled = { λ n bytes. refl };

    ghost respelled = { λ n bytes pages whole. by_places (λ all. tables_of n (slice_set all 1 pages)
        ≡ record (tables_of n all) { districts = rows_of n 26 district_of pages }) bytes whole refl };
}

impl FixedRow for District {
    fn read(bytes: &[u8]) -> District {
        District {
            id: read_number(bytes, 0, 1) as u8,
            warehouse: read_number(bytes, 1, 1) as u8,
            name: read_text(bytes, 2),
            tax: read_number(bytes, 12, 2) as u16,
            ytd: read_signed(bytes, 14),
            next_order: read_number(bytes, 22, 4) as u32,
        }
    }
}

impl Lasting for District {
    ghost use Rattle.std.proofs.Common.{rules};

    ghost lasts = { Prim.search rules };
}

impl District {
    ghost use Rattle.std.specs.Prelude.{◌≡◌, length};
    ghost use Rattle.hy_rows.specs.Rows.{district_of};

    /// D_TAX, in the bytes of a row.
    pub fn tax_in(bytes: &[u8]) -> u16
        requires { length bytes.now ≡ 26 }
        ensures { result ≡ (district_of bytes.now).tax }
    {
        read_number(bytes, 12, 2) as u16
    }

    /// D_NEXT_O_ID, in the bytes of a row.
    pub fn next_order_in(bytes: &[u8]) -> u32
        requires { length bytes.now ≡ 26 }
        ensures { result ≡ (district_of bytes.now).next_order }
    {
        read_number(bytes, 22, 4) as u32
    }
}

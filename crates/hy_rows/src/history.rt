//! Rows of HISTORY.

use crate::catalogue::{HISTORY, Table};
use crate::codec::{
    marked, push_number, push_signed, push_text, read_number, read_signed, read_text,
};
use crate::record::{FixedRecord, Record, ValueSink, ValueSource};
use crate::row::{FixedRow, Lasting, Row};
use crate::tables::Tables;
use crate::text::Text;
use arrayvec::ArrayVec;
use std::alloc::{AllocError, Global};

/// The last moment.
pub const MAX_MOMENT: u64 = 1_000_000_000_000_000;

/// A row of HISTORY (TPC-C clause 1.3.1).
#[derive(Clone, Copy, Debug, PartialEq, Eq)]
pub struct History {
    /// H_C_ID, from 1 to `MAX_CUSTOMERS`.
    pub customer: u16,
    /// H_C_D_ID, from 1 to `DISTRICTS_PER_WAREHOUSE`.
    pub customer_district: u8,
    /// H_C_W_ID, from 1 to `MAX_WAREHOUSES`: the warehouse of the customer who paid.
    pub customer_warehouse: u8,
    /// H_D_ID, from 1 to `DISTRICTS_PER_WAREHOUSE`.
    pub district: u8,
    /// H_W_ID, from 1 to `MAX_WAREHOUSES`: the warehouse that was paid.
    pub warehouse: u8,
    /// H_DATE, a moment from 1 to `MAX_MOMENT`.
    pub date: u64,
    /// H_AMOUNT in cents.
    pub amount: i64,
    /// H_DATA.
    pub information: Text<24>,
}

impl Record for History {
    ghost use Rattle.std.proofs.Common.{refl};
    ghost use Rattle.hy_rows.specs.declared.catalogue.Table.TheVariants as tables;
    ghost use Rattle.hy_rows.specs.Rows.{history_values, history_with};

    const TABLE: Table = Table::History;

    ghost TABLE = { tables.History };

    ghost values_of = { history_values };

    ghost row_with = { history_with };

    fn put<S: ValueSink>(&self, sink: &mut S) -> Result<(), S::Refused> {
        let [
            customer,
            customer_district,
            customer_warehouse,
            district,
            warehouse,
            date,
            amount,
            information,
        ] = HISTORY;
        sink.u16(customer, self.customer)?;
        sink.u8(customer_district, self.customer_district)?;
        sink.u8(customer_warehouse, self.customer_warehouse)?;
        sink.u8(district, self.district)?;
        sink.u8(warehouse, self.warehouse)?;
        sink.u64(date, self.date)?;
        sink.i64(amount, self.amount)?;
        sink.text(information, self.information.as_bytes())
    }

    ghost has_all = { λ row. refl };

    ghost same_row = { λ row. refl };
}

impl FixedRecord for History {
    fn take<S: ValueSource>(source: &S) -> Option<History> {
        Some(History {
            customer: source.u16(0)?,
            customer_district: source.u8(1)?,
            customer_warehouse: source.u8(2)?,
            district: source.u8(3)?,
            warehouse: source.u8(4)?,
            date: source.u64(5)?,
            amount: source.i64(6)?,
            information: Text::of_bytes(source.text(7, 24)?),
        })
    }
}

impl Row for History {
    ghost use Rattle.std.specs.Prelude.{◌≡◌, ◌==◌, slice_set};
    ghost use Rattle.std.proofs.Common.{refl, rules};
    ghost use Rattle.hy_rows.specs.Spelling.{rows_of, tables_of};
    ghost use Rattle.hy_rows.specs.inside.Places.{by_places};
    ghost use Rattle.hy_rows.specs.Rows.{history_bytes, history_of};

    const SEGMENT: u32 = 3;

    const BYTES: usize = 46;

    type Slot = ArrayVec<u8, 47>;

    ghost SEGMENT = { 3 };

    ghost BYTES = { 46 };

    ghost bytes_of_row = { history_bytes };

    ghost row_of_bytes = { history_of };

    ghost rows_in = { λ tables. tables.history };

    ghost is_of = { λ warehouse row. row.warehouse == warehouse };

    ghost with_rows = { λ tables rows. record tables { history = rows } };

    fn slot(&self) -> ArrayVec<u8, 47> {
        let mut slot = marked();
        push_number(&mut slot, self.customer.into(), 2);
        push_number(&mut slot, self.customer_district.into(), 1);
        push_number(&mut slot, self.customer_warehouse.into(), 1);
        push_number(&mut slot, self.district.into(), 1);
        push_number(&mut slot, self.warehouse.into(), 1);
        push_number(&mut slot, self.date, 8);
        push_signed(&mut slot, self.amount);
        push_text(&mut slot, &self.information);
        slot
    }

    fn decode(_alloc: Global, bytes: &[u8]) -> Result<History, AllocError> {
        Ok(History::read(bytes))
    }

    fn rows_of(tables: &Tables) -> &[History] {
        tables.history.as_slice()
    }

    fn belongs_to(&self, warehouse: u8) -> bool {
        self.warehouse == warehouse
    }

    ghost fits = { Prim.search rules };

    ghost is_table = { refl };

    ghost own_rows = { λ tables rows. refl };

    ghost own_rows_again = { λ tables. refl };

    ghost last_rows = { λ tables rows others. refl };

    ghost joined_rows = { λ several. refl };

    ghost own_in = { λ number all. refl };

    ghost counted = { λ all others. refl };

    ghost spelled = { λ n bytes. refl };

    ghost respelled = { λ n bytes pages whole. by_places (λ all. tables_of n (slice_set all 3 pages)
        ≡ record (tables_of n all) { history = rows_of n 46 history_of pages }) bytes whole refl };
}

impl FixedRow for History {
    fn read(bytes: &[u8]) -> History {
        History {
            customer: read_number(bytes, 0, 2) as u16,
            customer_district: read_number(bytes, 2, 1) as u8,
            customer_warehouse: read_number(bytes, 3, 1) as u8,
            district: read_number(bytes, 4, 1) as u8,
            warehouse: read_number(bytes, 5, 1) as u8,
            date: read_number(bytes, 6, 8),
            amount: read_signed(bytes, 14),
            information: read_text(bytes, 22),
        }
    }
}

impl Lasting for History {
    ghost use Rattle.std.proofs.Common.{rules};

    ghost lasts = { Prim.search rules };
}

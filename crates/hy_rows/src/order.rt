//! Rows of ORDER.

use crate::catalogue::{ORDER, Table};
use crate::codec::{marked, push_number, read_number};
use crate::record::{FixedRecord, Record, ValueSink, ValueSource};
use crate::row::{FixedRow, Lasting, Row};
use crate::tables::Tables;
use arrayvec::ArrayVec;
use std::alloc::{AllocError, Global};

/// The greatest O_CARRIER_ID (TPC-C clause 2.7.1.2).
pub const MAX_CARRIERS: u8 = 10;

/// The least and the greatest number of lines of an order (TPC-C clause 2.4.1.3).
pub const MIN_LINES: u8 = 5;

pub const MAX_LINES: u8 = 15;

/// A row of ORDER (TPC-C clause 1.3.1).
#[derive(Clone, Copy, Debug, PartialEq, Eq)]
pub struct Order {
    /// O_ID, from 1 to `MAX_ORDER`.
    pub id: u32,
    /// O_D_ID, from 1 to `DISTRICTS_PER_WAREHOUSE`.
    pub district: u8,
    /// O_W_ID, from 1 to `MAX_WAREHOUSES`.
    pub warehouse: u8,
    /// O_C_ID, from 1 to `MAX_CUSTOMERS`.
    pub customer: u16,
    /// O_ENTRY_D, a moment from 1 to `MAX_MOMENT`.
    pub entry_date: u64,
    /// O_CARRIER_ID, from 1 to `MAX_CARRIERS`, or 0 before the delivery.
    pub carrier: u8,
    /// O_OL_CNT, from `MIN_LINES` to `MAX_LINES`.
    pub line_count: u8,
    /// O_ALL_LOCAL: 1 where the warehouse of the order supplies each line, else 0.
    pub all_local: u8,
}

impl Record for Order {
    ghost use Rattle.std.proofs.Common.{refl};
    ghost use Rattle.hy_rows.specs.declared.catalogue.Table.TheVariants as tables;
    ghost use Rattle.hy_rows.specs.Rows.{order_values, order_with};

    const TABLE: Table = Table::Order;

    ghost TABLE = { tables.Order };

    ghost values_of = { order_values };

    ghost row_with = { order_with };

    fn put<S: ValueSink>(&self, sink: &mut S) -> Result<(), S::Refused> {
        let [
            id,
            district,
            warehouse,
            customer,
            entry_date,
            carrier,
            line_count,
            all_local,
        ] = ORDER;
        sink.u32(id, self.id)?;
        sink.u8(district, self.district)?;
        sink.u8(warehouse, self.warehouse)?;
        sink.u16(customer, self.customer)?;
        sink.u64(entry_date, self.entry_date)?;
        sink.u8(carrier, self.carrier)?;
        sink.u8(line_count, self.line_count)?;
        sink.u8(all_local, self.all_local)
    }

    ghost has_all = { λ row. refl };

    ghost same_row = { λ row. refl };
}

impl FixedRecord for Order {
    fn take<S: ValueSource>(source: &S) -> Option<Order> {
        Some(Order {
            id: source.u32(0)?,
            district: source.u8(1)?,
            warehouse: source.u8(2)?,
            customer: source.u16(3)?,
            entry_date: source.u64(4)?,
            carrier: source.u8(5)?,
            line_count: source.u8(6)?,
            all_local: source.u8(7)?,
        })
    }
}

impl Row for Order {
    ghost use Rattle.std.specs.Prelude.{◌≡◌, ◌==◌, slice_set};
    ghost use Rattle.std.proofs.Common.{refl, rules};
    ghost use Rattle.hy_rows.specs.Spelling.{rows_of, tables_of};
    ghost use Rattle.hy_rows.specs.inside.Places.{by_places};
    ghost use Rattle.hy_rows.specs.Rows.{order_bytes, order_of};

    const SEGMENT: u32 = 5;

    const BYTES: usize = 19;

    type Slot = ArrayVec<u8, 20>;

    ghost SEGMENT = { 5 };

    ghost BYTES = { 19 };

    ghost bytes_of_row = { order_bytes };

    ghost row_of_bytes = { order_of };

    ghost rows_in = { λ tables. tables.orders };

    ghost is_of = { λ warehouse row. row.warehouse == warehouse };

    ghost with_rows = { λ tables rows. record tables { orders = rows } };

    fn slot(&self) -> ArrayVec<u8, 20> {
        let mut slot = marked();
        push_number(&mut slot, self.id.into(), 4);
        push_number(&mut slot, self.district.into(), 1);
        push_number(&mut slot, self.warehouse.into(), 1);
        push_number(&mut slot, self.customer.into(), 2);
        push_number(&mut slot, self.entry_date, 8);
        push_number(&mut slot, self.carrier.into(), 1);
        push_number(&mut slot, self.line_count.into(), 1);
        push_number(&mut slot, self.all_local.into(), 1);
        slot
    }

    fn decode(_alloc: Global, bytes: &[u8]) -> Result<Order, AllocError> {
        Ok(Order::read(bytes))
    }

    fn rows_of(tables: &Tables) -> &[Order] {
        tables.orders.as_slice()
    }

    fn belongs_to(&self, warehouse: u8) -> bool {
        self.warehouse == warehouse
    }

    ghost fits = { Prim.search rules };

    ghost is_table = { refl };

    ghost own_rows = { λ tables rows. refl };

    ghost own_rows_again = { λ tables. refl };

    ghost last_rows = { λ tables rows others. refl };

    ghost joined_rows = { λ several. refl };

    ghost own_in = { λ number all. refl };

    ghost counted = { λ all others. refl };

    ghost spelled = { λ n bytes. refl };

    ghost respelled = { λ n bytes pages whole. by_places (λ all. tables_of n (slice_set all 5 pages)
        ≡ record (tables_of n all) { orders = rows_of n 19 order_of pages }) bytes whole refl };
}

impl FixedRow for Order {
    fn read(bytes: &[u8]) -> Order {
        Order {
            id: read_number(bytes, 0, 4) as u32,
            district: read_number(bytes, 4, 1) as u8,
            warehouse: read_number(bytes, 5, 1) as u8,
            customer: read_number(bytes, 6, 2) as u16,
            entry_date: read_number(bytes, 8, 8),
            carrier: read_number(bytes, 16, 1) as u8,
            line_count: read_number(bytes, 17, 1) as u8,
            all_local: read_number(bytes, 18, 1) as u8,
        }
    }
}

impl Lasting for Order {
    ghost use Rattle.std.proofs.Common.{rules};

    ghost lasts = { Prim.search rules };
}

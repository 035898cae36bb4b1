//! Rows of ORDER-LINE.

use crate::catalogue::{ORDER_LINE, Table};
use crate::codec::{marked, push_number, push_signed, read_number, read_signed};
use crate::record::{FixedRecord, Record, ValueSink, ValueSource};
use crate::row::{FixedRow, Lasting, Row};
use crate::tables::Tables;
use arrayvec::ArrayVec;
use std::alloc::{AllocError, Global};

/// The greatest quantity of an order line (TPC-C clause 2.4.1.5).
pub const MAX_QUANTITY: u8 = 10;

/// The greatest amount of an order line in cents: `MAX_QUANTITY` items of `MAX_PRICE`.
pub const MAX_LINE_CENTS: i64 = 10_000_000;

/// A row of ORDER-LINE (TPC-C clause 1.3.1).
#[derive(Clone, Copy, Debug, PartialEq, Eq)]
pub struct OrderLine {
    /// OL_O_ID, from 1 to `MAX_ORDER`.
    pub order: u32,
    /// OL_D_ID, from 1 to `DISTRICTS_PER_WAREHOUSE`.
    pub district: u8,
    /// OL_W_ID, from 1 to `MAX_WAREHOUSES`.
    pub warehouse: u8,
    /// OL_NUMBER, from 1 to `MAX_LINES`.
    pub number: u8,
    /// OL_I_ID, from 1 to `MAX_ITEMS`.
    pub item: u32,
    /// OL_SUPPLY_W_ID, from 1 to `MAX_WAREHOUSES`: the warehouse whose stock the line takes.
    pub supply_warehouse: u8,
    /// OL_DELIVERY_D, a moment up to `MAX_MOMENT`, or 0 before the delivery.
    pub delivery_date: u64,
    /// OL_QUANTITY, from 1 to `MAX_QUANTITY`.
    pub quantity: u8,
    /// OL_AMOUNT in cents, from 0 to `MAX_LINE_CENTS`.
    pub amount: i64,
}

impl Record for OrderLine {
    ghost use Rattle.std.proofs.Common.{refl};
    ghost use Rattle.hy_rows.specs.declared.catalogue.Table.TheVariants as tables;
    ghost use Rattle.hy_rows.specs.Rows.{order_line_values, order_line_with};

    const TABLE: Table = Table::OrderLine;

    ghost TABLE = { tables.OrderLine };

    ghost values_of = { order_line_values };

    ghost row_with = { order_line_with };

    fn put<S: ValueSink>(&self, sink: &mut S) -> Result<(), S::Refused> {
        let [
            order,
            district,
            warehouse,
            number,
            item,
            supply_warehouse,
            delivery_date,
            quantity,
            amount,
        ] = ORDER_LINE;
        sink.u32(order, self.order)?;
        sink.u8(district, self.district)?;
        sink.u8(warehouse, self.warehouse)?;
        sink.u8(number, self.number)?;
        sink.u32(item, self.item)?;
        sink.u8(supply_warehouse, self.supply_warehouse)?;
        sink.u64(delivery_date, self.delivery_date)?;
        sink.u8(quantity, self.quantity)?;
        sink.i64(amount, self.amount)
    }

    ghost has_all = { λ row. refl };

    ghost same_row = { λ row. refl };
}

impl FixedRecord for OrderLine {
    fn take<S: ValueSource>(source: &S) -> Option<OrderLine> {
        Some(OrderLine {
            order: source.u32(0)?,
            district: source.u8(1)?,
            warehouse: source.u8(2)?,
            number: source.u8(3)?,
            item: source.u32(4)?,
            supply_warehouse: source.u8(5)?,
            delivery_date: source.u64(6)?,
            quantity: source.u8(7)?,
            amount: source.i64(8)?,
        })
    }
}

impl Row for OrderLine {
    ghost use Rattle.std.specs.Prelude.{◌≡◌, ◌==◌, slice_set};
    ghost use Rattle.std.proofs.Common.{refl, rules};
    ghost use Rattle.hy_rows.specs.Spelling.{rows_of, tables_of};
    ghost use Rattle.hy_rows.specs.inside.Places.{by_places};
    ghost use Rattle.hy_rows.specs.Rows.{order_line_bytes, order_line_of};

    const SEGMENT: u32 = 6;

    const BYTES: usize = 29;

    type Slot = ArrayVec<u8, 30>;

    ghost SEGMENT = { 6 };

    ghost BYTES = { 29 };

    ghost bytes_of_row = { order_line_bytes };

    ghost row_of_bytes = { order_line_of };

    ghost rows_in = { λ tables. tables.order_lines };

    ghost is_of = { λ warehouse row. row.warehouse == warehouse };

    ghost with_rows = { λ tables rows. record tables { order_lines = rows } };

    fn slot(&self) -> ArrayVec<u8, 30> {
        let mut slot = marked();
        push_number(&mut slot, self.order.into(), 4);
        push_number(&mut slot, self.district.into(), 1);
        push_number(&mut slot, self.warehouse.into(), 1);
        push_number(&mut slot, self.number.into(), 1);
        push_number(&mut slot, self.item.into(), 4);
        push_number(&mut slot, self.supply_warehouse.into(), 1);
        push_number(&mut slot, self.delivery_date, 8);
        push_number(&mut slot, self.quantity.into(), 1);
        push_signed(&mut slot, self.amount);
        slot
    }

    fn decode(_alloc: Global, bytes: &[u8]) -> Result<OrderLine, AllocError> {
        Ok(OrderLine::read(bytes))
    }

    fn rows_of(tables: &Tables) -> &[OrderLine] {
        tables.order_lines.as_slice()
    }

    fn belongs_to(&self, warehouse: u8) -> bool {
        self.warehouse == warehouse
    }

    ghost fits = { Prim.search rules };

    ghost is_table = { refl };

    ghost own_rows = { λ tables rows. refl };

    ghost own_rows_again = { λ tables. refl };

    ghost last_rows = { λ tables rows others. refl };

    ghost joined_rows = { λ several. refl };

    ghost own_in = { λ number all. refl };

    ghost counted = { λ all others. refl };

    ghost spelled = { λ n bytes. refl };

    ghost respelled = { λ n bytes pages whole. by_places (λ all. tables_of n (slice_set all 6 pages)
        ≡ record (tables_of n all) { order_lines = rows_of n 29 order_line_of pages }) bytes whole refl };
}

impl FixedRow for OrderLine {
    fn read(bytes: &[u8]) -> OrderLine {
        OrderLine {
            order: read_number(bytes, 0, 4) as u32,
            district: read_number(bytes, 4, 1) as u8,
            warehouse: read_number(bytes, 5, 1) as u8,
            number: read_number(bytes, 6, 1) as u8,
            item: read_number(bytes, 7, 4) as u32,
            supply_warehouse: read_number(bytes, 11, 1) as u8,
            delivery_date: read_number(bytes, 12, 8),
            quantity: read_number(bytes, 20, 1) as u8,
            amount: read_signed(bytes, 21),
        }
    }
}

impl Lasting for OrderLine {
    ghost use Rattle.std.proofs.Common.{rules};

    ghost lasts = { Prim.search rules };
}

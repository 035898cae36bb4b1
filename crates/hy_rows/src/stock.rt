//! Rows of STOCK.

use crate::catalogue::{STOCK, Table};
use crate::codec::{marked, push_number, read_number};
use crate::record::{FixedRecord, Record, ValueSink, ValueSource};
use crate::row::{FixedRow, Lasting, Row};
use crate::tables::Tables;
use arrayvec::ArrayVec;
use std::alloc::{AllocError, Global};

/// The greatest quantity of an item that a loaded row has in stock.
pub const MAX_STOCK: u16 = 9_999;

/// A row of STOCK (TPC-C clause 1.3.1).
#[derive(Clone, Copy, Debug, PartialEq, Eq)]
pub struct Stock {
    /// S_I_ID, from 1 to `MAX_ITEMS`.
    pub item: u32,
    /// S_W_ID, from 1 to `MAX_WAREHOUSES`.
    pub warehouse: u8,
    /// S_QUANTITY, up to `MAX_STOCK`.
    pub quantity: u16,
    /// S_YTD, how many were sold, up to `MAX_COUNT`.
    pub ytd: u64,
    /// S_ORDER_CNT, up to `MAX_COUNT`.
    pub order_count: u64,
    /// S_REMOTE_CNT, up to `MAX_COUNT`.
    pub remote_count: u64,
}

impl Record for Stock {
    ghost use Rattle.std.proofs.Common.{refl};
    ghost use Rattle.hy_rows.specs.declared.catalogue.Table.TheVariants as tables;
    ghost use Rattle.hy_rows.specs.Rows.{stock_values, stock_with};

    const TABLE: Table = Table::Stock;

    ghost TABLE = { tables.Stock };

    ghost values_of = { stock_values };

    ghost row_with = { stock_with };

    fn put<S: ValueSink>(&self, sink: &mut S) -> Result<(), S::Refused> {
        let [item, warehouse, quantity, ytd, order_count, remote_count] = STOCK;
        sink.u32(item, self.item)?;
        sink.u8(warehouse, self.warehouse)?;
        sink.u16(quantity, self.quantity)?;
        sink.u64(ytd, self.ytd)?;
        sink.u64(order_count, self.order_count)?;
        sink.u64(remote_count, self.remote_count)
    }

    ghost has_all = { λ row. refl };

    ghost same_row = { λ row. refl };
}

impl FixedRecord for Stock {
    fn take<S: ValueSource>(source: &S) -> Option<Stock> {
        Some(Stock {
            item: source.u32(0)?,
            warehouse: source.u8(1)?,
            quantity: source.u16(2)?,
            ytd: source.u64(3)?,
            order_count: source.u64(4)?,
            remote_count: source.u64(5)?,
        })
    }
}

impl Row for Stock {
    ghost use Rattle.std.specs.Prelude.{◌≡◌, ◌==◌, slice_set};
    ghost use Rattle.std.proofs.Common.{refl, rules};
    ghost use Rattle.hy_rows.specs.Spelling.{rows_of, tables_of};
    ghost use Rattle.hy_rows.specs.inside.Places.{by_places};
    ghost use Rattle.hy_rows.specs.Rows.{stock_bytes, stock_of};

    const SEGMENT: u32 = 7;

    const BYTES: usize = 31;

    type Slot = ArrayVec<u8, 32>;

    ghost SEGMENT = { 7 };

    ghost BYTES = { 31 };

    ghost bytes_of_row = { stock_bytes };

    ghost row_of_bytes = { stock_of };

    ghost rows_in = { λ tables. tables.stock };

    ghost is_of = { λ warehouse row. row.warehouse == warehouse };

    ghost with_rows = { λ tables rows. record tables { stock = rows } };

    fn slot(&self) -> ArrayVec<u8, 32> {
        let mut slot = marked();
        push_number(&mut slot, self.item.into(), 4);
        push_number(&mut slot, self.warehouse.into(), 1);
        push_number(&mut slot, self.quantity.into(), 2);
        push_number(&mut slot, self.ytd, 8);
        push_number(&mut slot, self.order_count, 8);
        push_number(&mut slot, self.remote_count, 8);
        slot
    }

    fn decode(_alloc: Global, bytes: &[u8]) -> Result<Stock, AllocError> {
        Ok(Stock::read(bytes))
    }

    fn rows_of(tables: &Tables) -> &[Stock] {
        tables.stock.as_slice()
    }

    fn belongs_to(&self, warehouse: u8) -> bool {
        self.warehouse == warehouse
    }

    ghost fits = { Prim.search rules };

    ghost is_table = { refl };

    ghost own_rows = { λ tables rows. refl };

    ghost own_rows_again = { λ tables. refl };

    ghost last_rows = { λ tables rows others. refl };

    ghost joined_rows = { λ several. refl };

    ghost own_in = { λ number all. refl };

    ghost counted = { λ all others. refl };

    ghost spelled = { λ n bytes. refl };

    ghost respelled = { λ n bytes pages whole. by_places (λ all. tables_of n (slice_set all 7 pages)
        ≡ record (tables_of n all) { stock = rows_of n 31 stock_of pages }) bytes whole refl };
}

impl FixedRow for Stock {
    fn read(bytes: &[u8]) -> Stock {
        Stock {
            item: read_number(bytes, 0, 4) as u32,
            warehouse: read_number(bytes, 4, 1) as u8,
            quantity: read_number(bytes, 5, 2) as u16,
            ytd: read_number(bytes, 7, 8),
            order_count: read_number(bytes, 15, 8),
            remote_count: read_number(bytes, 23, 8),
        }
    }
}

impl Lasting for Stock {
    ghost use Rattle.std.proofs.Common.{rules};

    ghost lasts = { Prim.search rules };
}

//! Rows of NEW-ORDER.

use crate::catalogue::{NEW_ORDER, Table};
use crate::codec::{marked, push_number, read_number};
use crate::record::{FixedRecord, Record, ValueSink, ValueSource};
use crate::row::{FixedRow, Row};
use crate::tables::Tables;
use arrayvec::ArrayVec;
use std::alloc::{AllocError, Global};

/// A row of NEW-ORDER (TPC-C clause 1.3.1).
#[derive(Clone, Copy, Debug, PartialEq, Eq)]
pub struct NewOrder {
    /// NO_O_ID, from 1 to `MAX_ORDER`.
    pub order: u32,
    /// NO_D_ID, from 1 to `DISTRICTS_PER_WAREHOUSE`.
    pub district: u8,
    /// NO_W_ID, from 1 to `MAX_WAREHOUSES`.
    pub warehouse: u8,
}

impl Record for NewOrder {
    ghost use Rattle.std.proofs.Common.{refl};
    ghost use Rattle.hy_rows.specs.declared.catalogue.Table.TheVariants as tables;
    ghost use Rattle.hy_rows.specs.Rows.{new_order_values, new_order_with};

    const TABLE: Table = Table::NewOrder;

    ghost TABLE = { tables.NewOrder };

    ghost values_of = { new_order_values };

    ghost row_with = { new_order_with };

    fn put<S: ValueSink>(&self, sink: &mut S) -> Result<(), S::Refused> {
        let [order, district, warehouse] = NEW_ORDER;
        sink.u32(order, self.order)?;
        sink.u8(district, self.district)?;
        sink.u8(warehouse, self.warehouse)
    }

    ghost has_all = { λ row. refl };

    ghost same_row = { λ row. refl };
}

impl FixedRecord for NewOrder {
    fn take<S: ValueSource>(source: &S) -> Option<NewOrder> {
        Some(NewOrder {
            order: source.u32(0)?,
            district: source.u8(1)?,
            warehouse: source.u8(2)?,
        })
    }
}

impl Row for NewOrder {
    ghost use Rattle.std.specs.Prelude.{◌≡◌, ◌==◌, slice_set};
    ghost use Rattle.std.proofs.Common.{refl, rules};
    ghost use Rattle.hy_rows.specs.Spelling.{rows_of, tables_of};
    ghost use Rattle.hy_rows.specs.inside.Places.{by_places};
    ghost use Rattle.hy_rows.specs.Rows.{new_order_bytes, new_order_of};

    const SEGMENT: u32 = 4;

    const BYTES: usize = 6;

    type Slot = ArrayVec<u8, 7>;

    ghost SEGMENT = { 4 };

    ghost BYTES = { 6 };

    ghost bytes_of_row = { new_order_bytes };

    ghost row_of_bytes = { new_order_of };

    ghost rows_in = { λ tables. tables.new_orders };

    ghost is_of = { λ warehouse row. row.warehouse == warehouse };

    ghost with_rows = { λ tables rows. record tables { new_orders = rows } };

    fn slot(&self) -> ArrayVec<u8, 7> {
        let mut slot = marked();
        push_number(&mut slot, self.order.into(), 4);
        push_number(&mut slot, self.district.into(), 1);
        push_number(&mut slot, self.warehouse.into(), 1);
        slot
    }

    fn decode(_alloc: Global, bytes: &[u8]) -> Result<NewOrder, AllocError> {
        Ok(NewOrder::read(bytes))
    }

    fn rows_of(tables: &Tables) -> &[NewOrder] {
        tables.new_orders.as_slice()
    }

    fn belongs_to(&self, warehouse: u8) -> bool {
        self.warehouse == warehouse
    }

    ghost fits = { Prim.search rules };

    ghost is_table = { refl };

    ghost own_rows = { λ tables rows. refl };

    ghost own_rows_again = { λ tables. refl };

    ghost last_rows = { λ tables rows others. refl };

    ghost joined_rows = { λ several. refl };

    ghost own_in = { λ number all. refl };

    ghost counted = { λ all others. refl };

    ghost spelled = { λ n bytes. refl };

    ghost respelled = { λ n bytes pages whole. by_places (λ all. tables_of n (slice_set all 4 pages)
        ≡ record (tables_of n all) { new_orders = rows_of n 6 new_order_of pages }) bytes whole refl };
}

impl FixedRow for NewOrder {
    fn read(bytes: &[u8]) -> NewOrder {
        NewOrder {
            order: read_number(bytes, 0, 4) as u32,
            district: read_number(bytes, 4, 1) as u8,
            warehouse: read_number(bytes, 5, 1) as u8,
        }
    }
}

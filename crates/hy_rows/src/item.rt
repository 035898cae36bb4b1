//! Rows of ITEM. Loads list them, and no pages hold them.

use crate::catalogue::{ITEM, Table};
use crate::lists::Lists;
use crate::record::{FixedRecord, Record, ValueSink, ValueSource};
use crate::row::{Listed, Source};
use crate::text::Text;
use std::alloc::AllocError;

/// The greatest I_ID (TPC-C clause 1.2.1).
pub const MAX_ITEMS: u32 = 100_000;

/// The greatest I_IM_ID (TPC-C clause 4.3.3.1).
pub const MAX_IMAGES: u32 = 10_000;

/// The greatest I_PRICE in cents.
pub const MAX_PRICE: u32 = 1_000_000;

/// A row of ITEM (TPC-C clause 1.3.1).
#[derive(Clone, Copy, Debug, PartialEq, Eq)]
pub struct Item {
    /// I_ID, from 1 to `MAX_ITEMS`.
    pub id: u32,
    /// I_IM_ID, from 1 to `MAX_IMAGES`.
    pub image: u32,
    /// I_NAME.
    pub name: Text<24>,
    /// I_PRICE in cents, from 1 to `MAX_PRICE`.
    pub price: u32,
}

impl Record for Item {
    ghost use Rattle.std.proofs.Common.{refl};
    ghost use Rattle.hy_rows.specs.declared.catalogue.Table.TheVariants as tables;
    ghost use Rattle.hy_rows.specs.Rows.{item_values, item_with};

    const TABLE: Table = Table::Item;

    ghost TABLE = { tables.Item };

    ghost values_of = { item_values };

    ghost row_with = { item_with };

    fn put<S: ValueSink>(&self, sink: &mut S) -> Result<(), S::Refused> {
        let [id, image, name, price] = ITEM;
        sink.u32(id, self.id)?;
        sink.u32(image, self.image)?;
        sink.text(name, self.name.as_bytes())?;
        sink.u32(price, self.price)
    }

    ghost has_all = { λ row. refl };

    ghost same_row = { λ row. refl };
}

impl FixedRecord for Item {
    fn take<S: ValueSource>(source: &S) -> Option<Item> {
        Some(Item {
            id: source.u32(0)?,
            image: source.u32(1)?,
            name: Text::of_bytes(source.text(2, 24)?),
            price: source.u32(3)?,
        })
    }
}

impl Listed for Item {
    ghost list_in = { λ lists. lists.items };

    fn list_of(lists: &Lists) -> &[Item] {
        lists.items.as_slice()
    }

    fn copy_from<S: Source>(source: &S) -> Result<Vec<Item>, AllocError> {
        source.copy_items()
    }
}

//! The catalogue: the name of each table, the word that stands for it, its segment and its columns (TPC-C clauses 1.2
//! and 1.3).

ghost use Rattle.std.specs.Prelude.{◌≡◌, Some, map};
ghost use Rattle.hy_rows.specs.Catalogue.{columns_of, definition_of};
ghost use Rattle.hy_rows.specs.Columns.{defined};

use crate::column::{ColumnDefinition, Domain};
use crate::customer::{MAX_COUNT, MAX_CUSTOMERS};
use crate::district::{DISTRICTS_PER_WAREHOUSE, MAX_ORDER};
use crate::history::MAX_MOMENT;
use crate::item::{MAX_IMAGES, MAX_ITEMS, MAX_PRICE};
use crate::order::{MAX_CARRIERS, MAX_LINES, MIN_LINES};
use crate::order_line::{MAX_LINE_CENTS, MAX_QUANTITY};
use crate::stock::MAX_STOCK;
use crate::warehouse::{MAX_CENTS, MAX_RATE, MAX_WAREHOUSES};
use std::fmt;

/// A table: those on pages in the order of their segments, and ITEM.
#[derive(Clone, Copy, Debug, PartialEq, Eq)]
pub enum Table {
    /// WAREHOUSE.
    Warehouse,
    /// DISTRICT.
    District,
    /// CUSTOMER.
    Customer,
    /// HISTORY.
    History,
    /// NEW-ORDER.
    NewOrder,
    /// ORDER.
    Order,
    /// ORDER-LINE.
    OrderLine,
    /// STOCK.
    Stock,
    /// ITEM, which no pages hold.
    Item,
}

/// How many tables there are.
pub const TABLES: usize = 9;

/// How many segments hold the tables, one each; others may follow them.
pub const SEGMENTS: u32 = 8;

/// No table has more columns.
pub const MAX_COLUMNS: usize = 16;

/// The greatest slot: its mark, and the bytes of the longest row.
pub const MAX_SLOT_BYTES: usize = 575;

/// All tables, in their order.
pub const ALL_TABLES: [Table; TABLES] = [
    Table::Warehouse,
    Table::District,
    Table::Customer,
    Table::History,
    Table::NewOrder,
    Table::Order,
    Table::OrderLine,
    Table::Stock,
    Table::Item,
];

/// All tables, in the order in which the files of a load are read.
pub const TABLES_BY_FILE: [Table; TABLES] = [
    Table::Warehouse,
    Table::District,
    Table::Customer,
    Table::Item,
    Table::Stock,
    Table::Order,
    Table::NewOrder,
    Table::OrderLine,
    Table::History,
];

// A column of whole numbers of so many bytes, from one to another.
macro_rules! number {
    ($name:literal, $width:literal, $low:expr, $high:expr) => {
        ColumnDefinition {
            name: $name,
            domain: Domain::Unsigned {
                width: $width,
                low: $low as u64,
                high: $high as u64,
            },
        }
    };
}

// A column of amounts in cents.
macro_rules! amount {
    ($name:literal, $low:expr, $high:expr) => {
        ColumnDefinition {
            name: $name,
            domain: Domain::Signed {
                low: $low,
                high: $high,
            },
        }
    };
}

// A column of texts of at most so many bytes.
macro_rules! text {
    ($name:literal, $width:literal) => {
        ColumnDefinition {
            name: $name,
            domain: Domain::Text { width: $width },
        }
    };
}

// A column of texts, each one of these, in a field of so many bytes.
macro_rules! one_of {
    ($name:literal, $width:literal, $($word:literal),+) => {
        ColumnDefinition {
            name: $name,
            domain: Domain::OneOf {
                width: $width,
                words: &[$($word),+],
            },
        }
    };
}

/// The columns of WAREHOUSE.
pub(crate) const WAREHOUSE: &[ColumnDefinition; 4] = &[
    number!(b"W_ID", 1, 1, MAX_WAREHOUSES),
    text!(b"W_NAME", 10),
    number!(b"W_TAX", 2, 0, MAX_RATE),
    amount!(b"W_YTD", -MAX_CENTS, MAX_CENTS),
];

/// The columns of DISTRICT.
pub(crate) const DISTRICT: &[ColumnDefinition; 6] = &[
    number!(b"D_ID", 1, 1, DISTRICTS_PER_WAREHOUSE),
    number!(b"D_W_ID", 1, 1, MAX_WAREHOUSES),
    text!(b"D_NAME", 10),
    number!(b"D_TAX", 2, 0, MAX_RATE),
    amount!(b"D_YTD", -MAX_CENTS, MAX_CENTS),
    number!(b"D_NEXT_O_ID", 4, 1, MAX_ORDER),
];

/// The columns of CUSTOMER.
pub(crate) const CUSTOMER: &[ColumnDefinition; 13] = &[
    number!(b"C_ID", 2, 1, MAX_CUSTOMERS),
    number!(b"C_D_ID", 1, 1, DISTRICTS_PER_WAREHOUSE),
    number!(b"C_W_ID", 1, 1, MAX_WAREHOUSES),
    text!(b"C_FIRST", 16),
    text!(b"C_MIDDLE", 2),
    text!(b"C_LAST", 16),
    one_of!(b"C_CREDIT", 2, b"GC", b"BC"),
    number!(b"C_DISCOUNT", 2, 0, MAX_RATE),
    amount!(b"C_BALANCE", -MAX_CENTS, MAX_CENTS),
    amount!(b"C_YTD_PAYMENT", -MAX_CENTS, MAX_CENTS),
    number!(b"C_PAYMENT_CNT", 8, 0, MAX_COUNT),
    number!(b"C_DELIVERY_CNT", 8, 0, MAX_COUNT),
    text!(b"C_DATA", 500),
];

/// The columns of HISTORY.
pub(crate) const HISTORY: &[ColumnDefinition; 8] = &[
    number!(b"H_C_ID", 2, 1, MAX_CUSTOMERS),
    number!(b"H_C_D_ID", 1, 1, DISTRICTS_PER_WAREHOUSE),
    number!(b"H_C_W_ID", 1, 1, MAX_WAREHOUSES),
    number!(b"H_D_ID", 1, 1, DISTRICTS_PER_WAREHOUSE),
    number!(b"H_W_ID", 1, 1, MAX_WAREHOUSES),
    number!(b"H_DATE", 8, 1, MAX_MOMENT),
    amount!(b"H_AMOUNT", -MAX_CENTS, MAX_CENTS),
    text!(b"H_DATA", 24),
];

/// The columns of NEW-ORDER.
pub(crate) const NEW_ORDER: &[ColumnDefinition; 3] = &[
    number!(b"NO_O_ID", 4, 1, MAX_ORDER),
    number!(b"NO_D_ID", 1, 1, DISTRICTS_PER_WAREHOUSE),
    number!(b"NO_W_ID", 1, 1, MAX_WAREHOUSES),
];

/// The columns of ORDER.
pub(crate) const ORDER: &[ColumnDefinition; 8] = &[
    number!(b"O_ID", 4, 1, MAX_ORDER),
    number!(b"O_D_ID", 1, 1, DISTRICTS_PER_WAREHOUSE),
    number!(b"O_W_ID", 1, 1, MAX_WAREHOUSES),
    number!(b"O_C_ID", 2, 1, MAX_CUSTOMERS),
    number!(b"O_ENTRY_D", 8, 1, MAX_MOMENT),
    number!(b"O_CARRIER_ID", 1, 0, MAX_CARRIERS),
    number!(b"O_OL_CNT", 1, MIN_LINES, MAX_LINES),
    number!(b"O_ALL_LOCAL", 1, 0, 1),
];

/// The columns of ORDER-LINE.
pub(crate) const ORDER_LINE: &[ColumnDefinition; 9] = &[
    number!(b"OL_O_ID", 4, 1, MAX_ORDER),
    number!(b"OL_D_ID", 1, 1, DISTRICTS_PER_WAREHOUSE),
    number!(b"OL_W_ID", 1, 1, MAX_WAREHOUSES),
    number!(b"OL_NUMBER", 1, 1, MAX_LINES),
    number!(b"OL_I_ID", 4, 1, MAX_ITEMS),
    number!(b"OL_SUPPLY_W_ID", 1, 1, MAX_WAREHOUSES),
    number!(b"OL_DELIVERY_D", 8, 0, MAX_MOMENT),
    number!(b"OL_QUANTITY", 1, 1, MAX_QUANTITY),
    amount!(b"OL_AMOUNT", 0, MAX_LINE_CENTS),
];

/// The columns of STOCK.
pub(crate) const STOCK: &[ColumnDefinition; 6] = &[
    number!(b"S_I_ID", 4, 1, MAX_ITEMS),
    number!(b"S_W_ID", 1, 1, MAX_WAREHOUSES),
    number!(b"S_QUANTITY", 2, 0, MAX_STOCK),
    number!(b"S_YTD", 8, 0, MAX_COUNT),
    number!(b"S_ORDER_CNT", 8, 0, MAX_COUNT),
    number!(b"S_REMOTE_CNT", 8, 0, MAX_COUNT),
];

/// The columns of ITEM.
pub(crate) const ITEM: &[ColumnDefinition; 4] = &[
    number!(b"I_ID", 4, 1, MAX_ITEMS),
    number!(b"I_IM_ID", 4, 1, MAX_IMAGES),
    text!(b"I_NAME", 24),
    number!(b"I_PRICE", 4, 1, MAX_PRICE),
];

impl Table {
    /// Its name (TPC-C clause 1.2).
    pub fn name(self) -> &'static str
        ensures { result.now ≡ (definition_of self).name }
    {
        match self {
            Table::Warehouse => "WAREHOUSE",
            Table::District => "DISTRICT",
            Table::Customer => "CUSTOMER",
            Table::History => "HISTORY",
            Table::NewOrder => "NEW-ORDER",
            Table::Order => "ORDER",
            Table::OrderLine => "ORDER-LINE",
            Table::Stock => "STOCK",
            Table::Item => "ITEM",
        }
    }

    /// The word that stands for it in queries and, before `.csv`, in the name of its file.
    pub fn word(self) -> &'static str
        ensures { result.now ≡ (definition_of self).word }
    {
        match self {
            Table::Warehouse => "warehouse",
            Table::District => "district",
            Table::Customer => "customer",
            Table::History => "history",
            Table::NewOrder => "neworder",
            Table::Order => "orders",
            Table::OrderLine => "orderline",
            Table::Stock => "stock",
            Table::Item => "item",
        }
    }

    /// The segment on whose pages its rows lie, where they lie on pages.
    pub fn segment(self) -> Option<u32>
        ensures { result ≡ (definition_of self).segment }
    {
        match self {
            Table::Item => None,
            stored => Some(stored as u32),
        }
    }

    /// Its columns, in the order of its rows.
    pub fn columns(self) -> &'static [ColumnDefinition]
        ensures { map defined result.now ≡ columns_of self }
    {
        match self {
            Table::Warehouse => WAREHOUSE,
            Table::District => DISTRICT,
            Table::Customer => CUSTOMER,
            Table::History => HISTORY,
            Table::NewOrder => NEW_ORDER,
            Table::Order => ORDER,
            Table::OrderLine => ORDER_LINE,
            Table::Stock => STOCK,
            Table::Item => ITEM,
        }
    }
}

// A table is printed by its name.
impl fmt::Display for Table {
    ghost output = { λ table. Some (definition_of table).name };

    fn fmt<W: fmt::Write>(&self, f: &mut fmt::Formatter<W>) -> fmt::Result {
        f.write_str(self.name())
    }
}

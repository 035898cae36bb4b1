//! The rows of the order-entry database: their columns, their bytes in slots, and what the bytes of pages spell.
#![tactic(auto)]

mod catalogue;
mod codec;
mod column;
mod customer;
mod district;
mod history;
mod item;
mod lists;
mod long_text;
mod new_order;
mod order;
mod order_line;
mod part;
mod record;
mod row;
mod stock;
mod tables;
mod text;
mod value;
mod warehouse;

pub use catalogue::{
    ALL_TABLES, MAX_COLUMNS, MAX_SLOT_BYTES, SEGMENTS, TABLES, TABLES_BY_FILE, Table,
};
pub use codec::ByteBuffer;
pub use column::{ColumnDefinition, Domain, row_width};
pub use customer::{
    Customer, CustomerAccount, CustomerDiscount, CustomerIdentity, CustomerNumber, MAX_COUNT,
    MAX_CUSTOMERS,
};
pub use district::{DISTRICTS_PER_WAREHOUSE, District, MAX_ORDER};
pub use history::{History, MAX_MOMENT};
pub use item::{Item, MAX_IMAGES, MAX_ITEMS, MAX_PRICE};
pub use lists::Lists;
pub use long_text::LongText;
pub use new_order::NewOrder;
pub use order::{MAX_CARRIERS, MAX_LINES, MIN_LINES, Order};
pub use order_line::{MAX_LINE_CENTS, MAX_QUANTITY, OrderLine};
pub use part::{Part, WrittenPart};
pub use record::{FixedRecord, Never, OwnedRecord, Record, ValueSink, ValueSource};
pub use row::{FixedRow, Lasting, Listed, Row, RowSource, Source};
pub use stock::{MAX_STOCK, Stock};
pub use tables::{PerTable, Tables};
pub use text::{Text, is_printable};
pub use value::{Letters, Value};
pub use warehouse::{MAX_CENTS, MAX_RATE, MAX_WAREHOUSES, Warehouse};

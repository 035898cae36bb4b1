//! Why a call of the order-entry database refuses, and how far the files of its first rows were read.
#![tactic(auto)]

mod files;
mod refusal;

pub use files::FileEnd;
pub use hy_rows::{
    Customer, DISTRICTS_PER_WAREHOUSE, District, History, MAX_CENTS, MAX_COUNT, MAX_CUSTOMERS,
    MAX_MOMENT, MAX_ORDER, MAX_RATE, MAX_WAREHOUSES, NewOrder, Order, OrderLine, Row, SEGMENTS,
    Stock, Table, Tables, Text, Warehouse,
};
pub use refusal::{LoadFault, Refusal};

//! Commands of the five transactions, and what they mean.
#![tactic(auto)]

mod command;
mod commits;
mod customer;
mod edition;
mod lines;
mod named;
mod numbers;
mod reply;
mod theorem;

pub use command::{
    Command, Commit, Delivery, MAX_CARRIER, MAX_LINE_QUANTITY, MAX_NAME, MAX_PAYMENT,
    MAX_PURCHASE_LINES, MAX_THRESHOLD, MIN_PAYMENT, MIN_PURCHASE_LINES, MIN_THRESHOLD, Name,
    OrderStatus, Payment, Purchase, PurchaseLine, StockLevel, Who,
};
pub use customer::{CustomerRef, WhoRef};
pub use edition::Edition;
pub use lines::PurchaseLines;
pub use named::Warehouses;
pub use reply::{PlacedOrder, Reply, StatusLines};
pub use theorem::{conditions_are_kept, numbers_stay_small};

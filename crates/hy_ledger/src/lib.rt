//! Accounts over all threads: what each partition's book has, and what the clients' purses have of it.
#![tactic(auto)]

mod accounts;
mod balance;
mod book;
mod crossing;
mod dealer;
mod law;
mod laws;
mod purse;
mod purses;
mod share;
mod totals;
mod view;

pub use balance::Balance;
pub use book::{Book, MAX_CENTS, MAX_COMMITS};
pub use dealer::{Blank, Ledger};
pub use laws::audited_purses_are_covered;
pub use purse::Purse;
pub use purses::Purses;
pub use share::Share;
pub use totals::Totals;

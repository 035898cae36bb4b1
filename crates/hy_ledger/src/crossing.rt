//! Books, shares, purses and balances may go from thread to thread, and all threads may share what makes purses.

use crate::{Balance, Book, Ledger, Purse, Purses, Share};
use hy_worlds::World;

fn crosses<T: Send>(_value: &T) {}

fn all_cross<K: World + Send>(
    ledger: &Ledger<K>,
    book: &Book<K>,
    share: &Share<K>,
    purse: &Purse<K>,
    balance: &Balance<K>,
) {
    crosses(ledger);
    crosses(book);
    crosses(share);
    crosses(purse);
    crosses(balance);
}

fn shared<T: Sync>(_value: &T) {}

fn all_share<K: World + Send + Sync>(purses: &Purses<K>) {
    crosses(purses);
    shared(purses);
}

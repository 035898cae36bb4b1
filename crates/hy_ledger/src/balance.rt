//! All books beside the purses.

ghost use Rattle.std.specs.Prelude.{◌≡◌, suc, [], ◌∷◌};
ghost use Rattle.hy_ledger.specs.Books.{no_totals, totals_of, with_book, IsCovered};

use crate::book::Book;
use crate::purse::Purse;
use crate::totals::Totals;
use hy_worlds::World;
use std::marker::Model;

/// A purse, into which all purses were merged, beside the books of the first warehouses.
#[derive(Drop)]
pub struct Balance<K: World> {
    purse: Purse<K>,
    audited: u8,
    books: Totals,
}

impl<K: World> Model for Balance<K> {
    ghost use Rattle.hy_ledger.specs.Books.{BalanceState};
    ghost use Rattle.hy_ledger.specs.Inside.{IsBalance};

    ghost Value = { BalanceState };

    ghost view = { λ b. record { shares = b.purse.shares; audited = b.audited; books = b.books } };

    ghost invariant = { λ b. IsBalance b.purse.shares b.audited b.books };
}

impl<K: World> Balance<K> {
    /// No book was audited yet.
    pub fn new(purse: Purse<K>) -> Balance<K>
        ensures { result ≡ record { shares = purse.shares; audited = 0; books = no_totals } }
    {
        purse.sound();
        Balance {
            purse,
            audited: 0,
            books: Totals {
                commits: 0,
                cents: 0,
            },
        }
    }

    /// The book of the next warehouse is laid beside the purse. The book stays as it is.
    pub fn audit(&mut self, book: &mut Book<K>)
        requires next { book.old.warehouse ≡ suc self.old.audited }
        ensures book { book.new ≡ book.old }
        ensures audited { self.new ≡ record { shares = self.old.shares; audited = suc self.old.audited; books = with_book self.old.books book.old } }
    {
        book.audit(&mut self.purse);
        self.audited = book.warehouse();
        self.books.commits += book.commits();
        self.books.cents += book.cents();
    }

    /// What the purse comes to.
    pub fn purses(&self) -> Totals
        ensures { result ≡ totals_of self.now.shares }
    {
        self.purse.totals()
    }

    /// What the books that were audited come to.
    pub fn books(&self) -> Totals
        ensures { result ≡ self.now.books }
    {
        self.books
    }

    /// Once all books were audited, they cover the purse.
    pub fn settle(&self)
        requires all { self.now.audited ≡ K.passes.partitions }
        ensures { IsCovered (totals_of self.now.shares) self.now.books }
    {
        self.purse.sound();
        let _audited = self.audited;
    }
}

//! What the clients' purses come to, beside the books of all warehouses.

ghost use Rattle.std.specs.Prelude.{◌≡◌, ◌+◌, length};
ghost use Rattle.hy_ledger.specs.Books.{no_totals, totals_of, with_book, IsCovered};
ghost use Rattle.hy_crossing.specs.Crossings.{ArePartitions};
ghost use Rattle.hy_crossing.specs.of_partition.Accounts.{IsBookOf};
ghost use Rattle.hy_crossing.specs.of_partition.Jobs.{Log};
ghost use Rattle.hy_forks.specs.Accounts.{HaveBooks, HaveKept, warehouses_of_load};

use crate::partitions::Partitions;
use hy_crossing::Parts;
use hy_crossing::hy_partition::{Loaded, Partition};
use hy_ledger::{Balance, Purse, Totals};

/// What all purses come to, and what the books of all warehouses do.
#[derive(Clone, Copy, Debug)]
pub struct Gathered {
    /// The accepted commits and the cents of the shares that the purses hold.
    pub purses: Totals,
    /// Those of the books: each commit counts at its home.
    pub books: Totals,
}

impl<const N: usize, K: Loaded, P: Parts<Part = Partition<N, K>>> Partitions<N, K, P> {
    /// What the purse comes to into which all purses were merged, beside the books of all warehouses: never more commits
    /// than these have, and where as many, as many cents. A book has the commits that its warehouse kept as their home, and
    /// what W_YTD has grown by with them. Takes no memory.
    pub fn gather(&mut self, purse: Purse<K>) -> Gathered
        requires { K.passes.partitions ≡ warehouses_of_load K.load }
        ensures same { self.new ≡ self.old }
        ensures purses { result.purses ≡ totals_of purse.shares }
        ensures covered { IsCovered result.purses result.books }
        ensures books { (log : Log) → HaveKept log self.old
            → HaveBooks K.load log (warehouses_of_load K.load) result.books }
    {
        let mut balance = Balance::new(purse);
        audit_all(&mut self.parts, &mut balance);
        balance.settle();
        Gathered {
            purses: balance.purses(),
            books: balance.books(),
        }
    }
}

/// Lays the books of all warehouses beside the purse.
fn audit_all<const N: usize, K: Loaded, P: Parts<Part = Partition<N, K>>>(
    parts: &mut P,
    balance: &mut Balance<K>,
)
    requires parts { ArePartitions K.load (P.states parts.old) }
    requires first { (balance.old.audited ≡ 0) × (balance.old.books ≡ no_totals) }
    ensures same { P.states parts.new ≡ P.states parts.old }
    ensures all { balance.new.audited ≡ warehouses_of_load K.load }
    ensures shares { balance.new.shares ≡ balance.old.shares }
    ensures books { (log : Log) → HaveKept log (P.states parts.old)
        → HaveBooks K.load log (warehouses_of_load K.load) balance.new.books }
{
    for place in 0..parts.len() {
        audit(parts.part(place), balance);
    }
}

/// Lays the book of the next warehouse beside the purse.
fn audit<const N: usize, K: Loaded>(part: &mut Partition<N, K>, balance: &mut Balance<K>)
    requires next { part.old.warehouse ≡ balance.old.audited + 1 }
    ensures same { part.new ≡ part.old }
    ensures balance { balance.new ≡ record {
      shares = balance.old.shares;
      audited = balance.old.audited + 1;
      books = with_book balance.old.books part.old.book;
    } }
    ensures book { IsBookOf part.old.load part.old.warehouse part.old.kept part.old.book }
{
    part.ties();
    part.audit(balance);
}

//! The book of one warehouse.

ghost use Rattle.std.specs.Prelude.{◌≡◌, ◌+◌, ◌*◌, ◌<◌, ◌≤◌};
ghost use Rattle.hy_ledger.specs.Books.{max_cents, max_commits, Audits, IsWarehouse};

use crate::accounts::Accounts;
use crate::purse::Purse;
use crate::share::Share;
use crate::totals::Totals;
use crate::view::View;
use atomic_table::Seat;
use hy_worlds::World;
use std::alloc::Global;
use std::marker::{Model, PhantomData};
use std::sync::Arc;

/// So many commands one book enters at most.
pub const MAX_COMMITS: u64 = 4_294_967_296;

/// So many cents a command has at most.
pub const MAX_CENTS: u64 = 8_000_000;

/// The book of a warehouse: how many commands were accepted there, and their cents.
#[derive(Drop)]
pub struct Book<K: World> {
    pub(crate) accounts: Arc<Accounts, Global>,
    pub(crate) seat: Seat<(), View>,
    pub(crate) warehouse: u8,
    pub(crate) commits: u64,
    pub(crate) cents: u64,
    pub(crate) of: PhantomData<K>,
}

impl<K: World> Model for Book<K> {
    ghost use Rattle.std.specs.Arc.{arc_value};
    ghost use Rattle.hy_ledger.specs.Books.{BookState};
    ghost use Rattle.hy_ledger.specs.Inside.{IsBook};

    ghost Value = { BookState };

    ghost view = { λ b. record { warehouse = b.warehouse; commits = b.commits; cents = b.cents } };

    ghost invariant = { λ b. IsBook K.passes (arc_value b.accounts) b.seat.table_id b.seat.me record { warehouse = b.warehouse; commits = b.commits; cents = b.cents } };
}

impl<K: World> Book<K> {
    /// The book's warehouse.
    pub fn warehouse(&self) -> u8
        ensures warehouse { result ≡ self.now.warehouse }
        ensures range { IsWarehouse K.passes.partitions result }
    {
        self.warehouse
    }

    /// How many commands were entered.
    pub fn commits(&self) -> u64
        ensures commits { result ≡ self.now.commits }
        ensures few { result ≤ max_commits }
    {
        self.commits
    }

    /// What was paid with all of them.
    pub fn cents(&self) -> u64
        ensures cents { result ≡ self.now.cents }
        ensures small { result ≤ max_cents * self.now.commits }
    {
        self.cents
    }

    /// Enters an accepted command. Its share is for whoever handed it in. It takes no memory, and waits for nobody.
    pub fn enter(&mut self, cents: u64) -> Share<K>
        requires few { self.old.commits < max_commits }
        requires small { cents ≤ max_cents }
        ensures book { self.new ≡ record self.old { commits = self.old.commits + 1; cents = self.old.cents + cents } }
        ensures share { result ≡ record { warehouse = self.old.warehouse; cents = cents } }
    {
        let seat = self.accounts.enter(&mut self.seat, cents);
        self.commits += 1;
        self.cents += cents;
        Share {
            seat,
            warehouse: self.warehouse,
            cents,
            of: PhantomData,
        }
    }

    /// Lays a purse beside the book: the purse's shares of this warehouse are covered by it. Nothing changes.
    pub fn audit(&mut self, purse: &mut Purse<K>)
        ensures book { self.new ≡ self.old }
        ensures purse { purse.new ≡ purse.old }
        ensures audited { Audits self.old purse.old.shares }
    {
        self.accounts.meet(&mut self.seat, &mut purse.seat);
    }
}

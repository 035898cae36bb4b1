//! How the accounts of a kit are made, and where books and purses come from.

ghost use Rattle.std.specs.Prelude.{◌≡◌, suc, ◌≤◌, IfOk, OnErr, OnOk};
ghost use Rattle.hy_ledger.specs.Books.{new_book};

use crate::accounts::Accounts;
use crate::book::Book;
use crate::purses::Purses;
use crate::view::View;
use atomic_table::{Seat, Table};
use hy_worlds::World;
use std::alloc::{AllocError, Global};
use std::marker::{Model, PhantomData};
use std::sync::Arc;

/// Accounts with no book yet, which belong to no world yet.
#[derive(Drop)]
pub struct Blank {
    accounts: Arc<Accounts, Global>,
    seat: Seat<(), View>,
}

impl Model for Blank {
    ghost use Rattle.std.specs.Prelude.{◌≡◌, []};
    ghost use Rattle.std.specs.Arc.{arc_value};
    ghost use Rattle.atomic_table.specs.Seated.{TableId};
    ghost use Rattle.hy_ledger.specs.Law.{dealer};

    ghost Value = { TableId };

    ghost view = { λ b. arc_value b.accounts };

    ghost invariant = { λ b. (b.seat.table_id ≡ arc_value b.accounts) × (b.seat.me ≡ (dealer 0, [])) };
}

impl Blank {
    /// Makes the accounts. All memory that they ever take is taken here. E1.
    pub fn new(alloc: Global) -> Result<Blank, AllocError>
        ensures { IfOk result (λ blank. blank.words ≡ 1) }
    {
        let (table, seat) = Table::of_words(alloc, &[0], &())?;
        let accounts = Arc::new(alloc, Accounts { table })?;
        Ok(Blank { accounts, seat })
    }

    /// Opens the accounts in the world that names them.
    pub fn open<K: World>(self) -> Ledger<K>
        requires { self ≡ K.passes.accounts }
        ensures { result ≡ 0 }
    {
        let Blank { accounts, seat } = self;
        Ledger {
            accounts,
            seat,
            of: PhantomData,
        }
    }
}

/// Deals the books of warehouses 1, 2, 3 and so on. Clauses see it as how many it has dealt.
#[derive(Drop)]
pub struct Ledger<K: World> {
    accounts: Arc<Accounts, Global>,
    seat: Seat<(), View>,
    of: PhantomData<K>,
}

impl<K: World> Model for Ledger<K> {
    ghost use Rattle.std.specs.Prelude.{◌≡◌, ℕ, []};
    ghost use Rattle.std.specs.Arc.{arc_value};
    ghost use Rattle.hy_ledger.specs.Law.{dealer};

    ghost Value = { ℕ };

    ghost view = { λ l. l.seat.me.0.dealt };

    ghost invariant = { λ l. (arc_value l.accounts ≡ K.passes.accounts) × (l.seat.table_id ≡ K.passes.accounts) × (l.seat.me ≡ (dealer l.seat.me.0.dealt, [])) };
}

impl<K: World> Ledger<K> {
    /// The book of the next warehouse. It is refused only where too many books and purses share the accounts. E1.
    pub fn deal(&mut self, warehouse: u8) -> Result<Book<K>, AllocError>
        requires next { warehouse ≡ suc self.old }
        requires range { warehouse ≤ K.passes.partitions }
        ensures dealt { OnOk result (self.new ≡ warehouse) }
        ensures refused { OnErr result (self.new ≡ self.old) }
        ensures book { IfOk result (λ book. book ≡ new_book warehouse) }
    {
        let accounts = Arc::try_clone(&self.accounts)?;
        let seat = self.accounts.deal(&mut self.seat);
        Ok(Book {
            accounts,
            seat,
            warehouse,
            commits: 0,
            cents: 0,
            of: PhantomData,
        })
    }

    /// What makes purses. It is refused only where too many share the accounts. E1.
    pub fn purses(&self) -> Result<Purses<K>, AllocError> {
        let accounts = Arc::try_clone(&self.accounts)?;
        Ok(Purses {
            accounts,
            of: PhantomData,
        })
    }
}

//! A client's shares.

ghost use Rattle.std.specs.Prelude.{◌≡◌, ◌*◌, ◌≤◌, [], ◌∷◌, ◌++◌, length, All};
ghost use Rattle.hy_ledger.specs.Books.{cents_of, max_cents, totals_of, IsWarehouse};

use crate::accounts::Accounts;
use crate::share::Share;
use crate::totals::Totals;
use crate::view::View;
use atomic_table::Seat;
use hy_worlds::World;
use std::alloc::Global;
use std::marker::{Model, PhantomData};
use std::sync::Arc;

/// The shares that a client got. In memory there are two counts.
#[derive(Drop)]
pub struct Purse<K: World> {
    pub(crate) accounts: Arc<Accounts, Global>,
    pub(crate) seat: Seat<(), View>,
    pub(crate) commits: u64,
    pub(crate) cents: u64,
    pub(crate) of: PhantomData<K>,
}

impl<K: World> Model for Purse<K> {
    ghost use Rattle.std.specs.Arc.{arc_value};
    ghost use Rattle.hy_ledger.specs.Books.{PurseState};
    ghost use Rattle.hy_ledger.specs.Inside.{IsPurse};

    ghost Value = { PurseState };

    ghost view = { λ p. record { shares = p.seat.me.0.held } };

    ghost invariant = { λ p. IsPurse K.passes (arc_value p.accounts) p.seat.table_id p.seat.me p.commits p.cents };
}

impl<K: World> Purse<K> {
    /// Puts a share behind the others. It takes no memory, waits for nobody and can't fail: there are no more shares than
    /// the books entered commands.
    pub fn add(&mut self, share: Share<K>)
        ensures { self.new ≡ record { shares = self.old.shares ++ share ∷ [] } }
    {
        let Share {
            seat,
            warehouse: _,
            cents,
            of: _,
        } = share;
        self.accounts.gather(&mut self.seat, seat);
        self.commits += 1;
        self.cents += cents;
    }

    /// Puts all shares of another purse behind the others.
    pub fn merge(&mut self, other: Purse<K>)
        ensures { self.new ≡ record { shares = self.old.shares ++ other.shares } }
    {
        let Purse {
            accounts: _,
            seat: shares,
            commits,
            cents,
            of: _,
        } = other;
        self.accounts.gather(&mut self.seat, shares);
        self.commits += commits;
        self.cents += cents;
    }

    /// How many shares there are.
    pub fn commits(&self) -> u64
        ensures { result ≡ length self.now.shares }
    {
        self.commits
    }

    /// The cents of all of them.
    pub fn cents(&self) -> u64
        ensures cents { result ≡ cents_of self.now.shares }
        ensures small { result ≤ max_cents * length self.now.shares }
    {
        self.cents
    }

    /// What the purse comes to.
    pub fn totals(&self) -> Totals
        ensures { result ≡ totals_of self.now.shares }
    {
        Totals {
            commits: self.commits,
            cents: self.cents,
        }
    }

    /// Each share is of a warehouse of the kit.
    pub fn sound(&self)
        ensures { All (λ share. IsWarehouse K.passes.partitions share.warehouse) self.now.shares }
    {
        let _commits = self.commits;
    }
}

//! What an accepted command gives.

ghost use Rattle.std.specs.Prelude.{◌≡◌, ◌≤◌};
ghost use Rattle.hy_ledger.specs.Books.{max_cents, IsWarehouse};

use crate::view::View;
use atomic_table::Seat;
use hy_worlds::World;
use std::marker::{Model, PhantomData};

/// A share of a book: one command that was accepted there, and its cents. It can't be cloned, and only a book gives one.
#[derive(Drop)]
pub struct Share<K: World> {
    pub(crate) seat: Seat<(), View>,
    pub(crate) warehouse: u8,
    pub(crate) cents: u64,
    pub(crate) of: PhantomData<K>,
}

impl<K: World> Model for Share<K> {
    ghost use Rattle.hy_ledger.specs.Inside.{IsShare};
    ghost use Rattle.hy_ledger.specs.declared.view.ShareState.{ShareState};

    ghost Value = { ShareState };

    ghost view = { λ s. record { warehouse = s.warehouse; cents = s.cents } };

    ghost invariant = { λ s. IsShare K.passes s.seat.table_id s.seat.me record { warehouse = s.warehouse; cents = s.cents } };
}

impl<K: World> Share<K> {
    /// The warehouse whose book gave it.
    pub fn warehouse(&self) -> u8
        ensures warehouse { result ≡ self.now.warehouse }
        ensures range { IsWarehouse K.passes.partitions result }
    {
        self.warehouse
    }

    /// What was paid.
    pub fn cents(&self) -> u64
        ensures cents { result ≡ self.now.cents }
        ensures small { result ≤ max_cents }
    {
        self.cents
    }
}

//! The shared table. Its one word is read, and never written: all that steps do, they do in the rule.

ghost use Rattle.std.specs.Prelude.{◌≡◌, ℕ, suc, ◌<◌, ◌≤◌, true, [], ◌∷◌, ◌++◌, length};
ghost use Rattle.hy_ledger.specs.Books.{max_commits};
ghost use Rattle.hy_ledger.specs.Law.{dealer, entered, holder, keeper, weigh, weigh_own};

use crate::law::{Amount, Board, Come, Count, Deal, Enter, Gather, Hand, Leave, Meet, Word};
use crate::view::View;
use atomic_table::Seat;
use std::marker::{Brand, Model};
use std::mem;

/// The table that all books and purses of a kit share.
#[derive(Drop)]
pub(crate) struct Accounts {
    pub(crate) table: Word,
}

impl Model for Accounts {
    ghost use Rattle.std.specs.Prelude.{◌≡◌};
    ghost use Rattle.atomic_table.specs.Seated.{TableId};

    ghost Value = { TableId };

    ghost view = { λ a. a.table.shared.table_id };

    ghost invariant = { λ a. a.table.shared.table_id.words ≡ 1 };
}

impl Accounts {
    // A seat that has nothing.
    pub(crate) fn admit(&self) -> Seat<(), View>
        ensures { (result.table_id ≡ self.now) × (result.me ≡ (holder [], [])) }
    {
        self.table.shared.load_new_seat::<Come>(0).1
    }

    // The seat of the next book.
    pub(crate) fn deal(&self, seat: &mut Seat<(), View>) -> Seat<(), View>
        requires place { seat.old.table_id ≡ self.now }
        requires dealer { seat.old.me ≡ (dealer seat.old.me.0.dealt, []) }
        ensures place { (seat.new.table_id ≡ self.now) × (result.table_id ≡ self.now) }
        ensures dealer { seat.new.me ≡ (dealer (suc seat.old.me.0.dealt), []) }
        ensures book { result.me ≡ (keeper (suc seat.old.me.0.dealt) [], []) }
    {
        self.table.shared.split_seat::<Deal>(seat)
    }

    // A book tells the rule of one command more.
    fn tell<Q: Amount>(&self, seat: &mut Seat<(), View>, cents: u64)
        requires amount { cents ≡ Q.cents }
        requires place { seat.old.table_id ≡ self.now }
        requires book { seat.old.me.0.is_book ≡ true }
        requires few { length seat.old.me.0.paid < max_commits }
        ensures place { seat.new.table_id ≡ self.now }
        ensures entered { seat.new.me ≡ (entered cents seat.old.me.0, seat.old.me.1) }
    {
        self.table.shared.load::<Enter<Q>>(seat, 0);
    }

    // A book enters a command, and gives its share.
    pub(crate) fn enter(&self, seat: &mut Seat<(), View>, cents: u64) -> Seat<(), View>
        requires place { seat.old.table_id ≡ self.now }
        requires book { seat.old.me ≡ (keeper seat.old.me.0.warehouse seat.old.me.0.paid, []) }
        requires few { length seat.old.me.0.paid < max_commits }
        ensures place { (seat.new.table_id ≡ self.now) × (result.table_id ≡ self.now) }
        ensures book { seat.new.me ≡ (keeper seat.old.me.0.warehouse (seat.old.me.0.paid ++ cents ∷ []), []) }
        ensures share { result.me ≡ (holder (record { warehouse = seat.old.me.0.warehouse; cents = cents } ∷ []), []) }
    {
        self.tell::<Brand>(seat, cents);
        self.table.shared.split_seat::<Hand>(seat)
    }

    // A purse takes all shares of another seat. It has no more of a warehouse than its book can give.
    pub(crate) fn gather(&self, purse: &mut Seat<(), View>, other: Seat<(), View>)
        requires place { (purse.old.table_id ≡ self.now) × (other.table_id ≡ self.now) }
        requires purse { purse.old.me ≡ (holder purse.old.me.0.held, []) }
        requires other { other.me ≡ (holder other.me.0.held, []) }
        ensures place { purse.new.table_id ≡ self.now }
        ensures purse { purse.new.me ≡ (holder (purse.old.me.0.held ++ other.me.0.held), []) }
        ensures few { (warehouse : ℕ) → weigh_own (λ _. 1) warehouse (purse.old.me.0.held ++ other.me.0.held) ≤ max_commits }
    {
        self.table.shared.join_seat::<Gather>(purse, other);
        self.table.shared.load::<Count>(purse, 0);
    }

    // A purse is laid beside a book, and taken away again.
    pub(crate) fn meet(&self, book: &mut Seat<(), View>, purse: &mut Seat<(), View>)
        requires place { (book.old.table_id ≡ self.now) × (purse.old.table_id ≡ self.now) }
        requires book { book.old.me ≡ (keeper book.old.me.0.warehouse book.old.me.0.paid, []) }
        requires purse { purse.old.me ≡ (holder purse.old.me.0.held, []) }
        ensures place { (book.new.table_id ≡ self.now) × (purse.new.table_id ≡ self.now) }
        ensures same { (book.new.me ≡ book.old.me) × (purse.new.me ≡ purse.old.me) }
        ensures within { (h : ℕ → ℕ) → weigh_own h book.old.me.0.warehouse purse.old.me.0.held ≤ weigh h book.old.me.0.paid }
    {
        let boarding = mem::replace(purse, self.admit());
        self.table.shared.join_seat::<Board>(book, boarding);
        self.table.shared.load::<Meet>(book, 0);
        *purse = self.table.shared.split_seat::<Leave>(book);
    }
}

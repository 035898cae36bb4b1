//! The rule of the shared table, and the steps on it.

use crate::view::View;
use atomic_table::{Join, Play, Split, Table, TableRule};
use std::alloc::Global;
use std::marker::{Brand, PhantomData};

/// Of each warehouse no more is held than its book entered.
pub struct Law;

impl TableRule<(), View, ()> for Law {
    ghost use Rattle.hy_ledger.specs.Law.{IsKept, dealer};

    ghost holds = { λ _ s. IsKept s.views };

    ghost first = { λ _. dealer 0 };
}

pub type Word = Table<(), View, (), Law, Global>;

/// Names the cents that one step tells the rule, so that the step need not write them to the word.
pub trait Amount {
    ghost use Rattle.std.specs.Prelude.{ℕ};

    ghost cents: { ℕ };
}

impl Amount for Brand {
    ghost cents = { 0 };
}

/// A book enters a command of so many cents, and has its share.
pub struct Enter<Q: Amount> {
    of: PhantomData<Q>,
}

impl<Q: Amount> Play<(), View> for Enter<Q> {
    ghost use Rattle.hy_ledger.specs.Law.{Enters};

    ghost then = { λ step before found after. Enters Q.cents before after };
}

/// A book compares what its guest has with what it entered.
pub struct Meet;

impl Play<(), View> for Meet {
    ghost use Rattle.hy_ledger.specs.Law.{Meets};

    ghost then = { λ step before found after. Meets before after };
}

/// A purse learns that it has at most so many shares of each warehouse.
pub struct Count;

impl Play<(), View> for Count {
    ghost use Rattle.hy_ledger.specs.Law.{Counts};

    ghost then = { λ step before found after. Counts before after };
}

/// A new seat, which has nothing.
pub struct Come;

impl Play<(), View> for Come {
    ghost use Rattle.std.specs.Prelude.{◌≡◌, []};
    ghost use Rattle.hy_ledger.specs.Law.{holder};

    ghost then = { λ step before found after. after ≡ (holder [], []) };
}

/// A book for the next warehouse.
pub struct Deal;

impl Split<View> for Deal {
    ghost use Rattle.hy_ledger.specs.Law.{after_dealing, new_keeper};

    ghost left = { after_dealing };

    ghost right = { new_keeper };
}

/// All shares that a seat has go to a new one.
pub struct Hand;

impl Split<View> for Hand {
    ghost use Rattle.hy_ledger.specs.Law.{after_handing, handed};

    ghost left = { after_handing };

    ghost right = { handed };
}

/// The shares of two seats are put together.
pub struct Gather;

impl Join<View> for Gather {
    ghost use Rattle.std.specs.Prelude.{[]};
    ghost use Rattle.hy_ledger.specs.Law.{gathered, holder};

    ghost both = { gathered };

    ghost spent = { holder [] };
}

/// A purse is laid beside a book.
pub struct Board;

impl Join<View> for Board {
    ghost use Rattle.std.specs.Prelude.{[]};
    ghost use Rattle.hy_ledger.specs.Law.{boarded, holder};

    ghost both = { boarded };

    ghost spent = { holder [] };
}

/// The purse is taken from the book again.
pub struct Leave;

impl Split<View> for Leave {
    ghost use Rattle.hy_ledger.specs.Law.{after_leaving, leaving};

    ghost left = { after_leaving };

    ghost right = { leaving };
}

//! The rule of the shared word, and the steps on it.

use crate::entry::{Commits, Entry};
use crate::view::View;
use atomic_table::{Join, Play, Split, Table, TableRule};
use std::alloc::Global;

/// The word is the length of the serial list, and each seat knows a beginning of it.
pub struct Law;

impl<C: Commits> TableRule<Entry<C>, View<C>, ()> for Law {
    ghost use Rattle.hy_passes.specs.Law.{IsKept, beginner};

    ghost holds = { λ _ s. IsKept C.warehouses s.words s.views };

    ghost first = { λ _. beginner };
}

pub type Word<C> = Table<Entry<C>, View<C>, (), Law, Global>;

/// A pass looks: it then knows the whole list.
pub struct Look;

impl<C: Commits> Play<Entry<C>, View<C>> for Look {
    ghost use Rattle.hy_passes.specs.Law.{Looks};

    ghost then = { λ step before found after. Looks before found after };
}

/// The journal compares what its guest knows with the list.
pub struct Meet;

impl<C: Commits> Play<Entry<C>, View<C>> for Meet {
    ghost use Rattle.hy_passes.specs.Law.{Meets};

    ghost then = { λ step before found after. Meets C.warehouses before after };
}

/// A commit enters the end of the list.
pub struct Append;

impl<C: Commits> Play<Entry<C>, View<C>> for Append {
    ghost use Rattle.hy_passes.specs.Law.{Appends};

    ghost then = { λ step before found after. Appends C.warehouses step.said before after };
}

/// A partition's seat, for the next warehouse, which knows what the journal knows.
pub struct Deal;

impl<C: Commits> Split<View<C>> for Deal {
    ghost use Rattle.hy_passes.specs.Law.{after_dealing, new_seat};

    ghost left = { after_dealing };

    ghost right = { new_seat };
}

/// A client's pass, which knows what the journal knows.
pub struct Admit;

impl<C: Commits> Split<View<C>> for Admit {
    ghost use Rattle.hy_passes.specs.Law.{new_pass};

    ghost left = { λ v. v };

    ghost right = { new_pass };
}

/// What a guest knows is laid beside what the journal knows.
pub struct Board;

impl<C: Commits> Join<View<C>> for Board {
    ghost use Rattle.hy_passes.specs.Law.{boarded, beginner};

    ghost both = { boarded };

    ghost spent = { beginner };
}

/// The guest leaves, and knows the whole list.
pub struct Leave;

impl<C: Commits> Split<View<C>> for Leave {
    ghost use Rattle.hy_passes.specs.Law.{after_leaving, leaving};

    ghost left = { after_leaving };

    ghost right = { leaving };
}

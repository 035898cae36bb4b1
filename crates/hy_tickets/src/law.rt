//! The rule of a desk's table, and the steps on it.

use crate::view::View;
use atomic_table::{Join, Play, Split, Table, TableRule};
use std::alloc::Global;

/// Each ticket has a number that is out, and no other ticket has it.
pub struct Law;

impl TableRule<(), View, ()> for Law {
    ghost use Rattle.hy_tickets.specs.Law.{IsKept, empty_desk};

    ghost holds = { λ _ s. IsKept s.views };

    ghost first = { λ _. empty_desk };
}

pub type Word = Table<(), View, (), Law, Global>;

/// The desk writes a ticket.
pub struct Write;

impl Play<(), View> for Write {
    ghost use Rattle.hy_tickets.specs.Law.{Writes};

    ghost then = { λ step before found after. Writes step.first before after };
}

/// It hands the ticket out.
pub struct Hand;

impl Split<View> for Hand {
    ghost use Rattle.hy_tickets.specs.Law.{handed, handing};

    ghost left = { handed };

    ghost right = { handing };
}

/// A ticket is laid on the desk.
pub struct Lay;

impl Join<View> for Lay {
    ghost use Rattle.hy_tickets.specs.Law.{laid, spent};

    ghost both = { laid };

    ghost spent = { spent };
}

/// The desk takes the ticket that lies on it off its list.
pub struct Take;

impl Play<(), View> for Take {
    ghost use Rattle.hy_tickets.specs.Law.{Takes};

    ghost then = { λ step before found after. Takes before after };
}

//! Tickets.

ghost use Rattle.std.specs.Prelude.{◌≡◌};

use crate::view::View;
use atomic_table::Seat;
use std::marker::Model;

/// A ticket, which is given back to its desk.
pub struct Ticket {
    pub(crate) seat: Seat<(), View>,
    pub(crate) warehouse: u8,
    pub(crate) name: u64,
    pub(crate) number: u64,
}

// Clauses see the numbers, and which desk it is of.
impl Model for Ticket {
    ghost use Rattle.std.specs.Prelude.{◌≡◌, [], Some};
    ghost use Rattle.hy_tickets.specs.Desks.{TicketState};
    ghost use Rattle.hy_tickets.specs.Law.{ticket_of};

    ghost Value = { TicketState };

    ghost view = { λ t. record { warehouse = t.warehouse; name = t.name; desk = t.seat.table_id; number = t.number } };

    ghost invariant = { λ t. t.seat.me ≡ (ticket_of (Some t.number), []) };
}

impl Ticket {
    /// The warehouse of its desk.
    pub fn warehouse(&self) -> u8
        ensures { result ≡ self.now.warehouse }
    {
        self.warehouse
    }

    /// The name of its kit.
    pub fn name(&self) -> u64
        ensures { result ≡ self.now.name }
    {
        self.name
    }

    /// Its number.
    pub fn number(&self) -> u64
        ensures { result ≡ self.now.number }
    {
        self.number
    }
}

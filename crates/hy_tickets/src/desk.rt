//! A desk that gives out tickets.

ghost use Rattle.std.specs.Prelude.{◌≡◌, ◌∷◌, [], true, false, IfOk};
ghost use Rattle.hy_worlds.specs.Origins.{desk_of};
ghost use Rattle.hy_tickets.specs.Desks.{is_from, is_out, without};

use crate::law::{Hand, Lay, Take, Word, Write};
use crate::ticket::Ticket;
use crate::view::View;
use atomic_table::{Seat, Table};
use hy_worlds::World;
use std::alloc::{AllocError, Global};
use std::marker::{Model, PhantomData};

/// A desk without tickets, which belongs to no world yet.
#[derive(Drop)]
pub struct Blank {
    table: Word,
    seat: Seat<(), View>,
}

// Clauses see which table it is.
impl Model for Blank {
    ghost use Rattle.std.specs.Prelude.{◌≡◌, []};
    ghost use Rattle.atomic_table.specs.Seated.{TableId, table_id_coded};
    ghost use Rattle.hy_tickets.specs.Law.{empty_desk};

    ghost Value = { TableId };

    ghost coded = { table_id_coded };

    ghost view = { λ b. b.table.shared.table_id };

    ghost invariant = { λ b. (b.table.shared.table_id.words ≡ 1) × (b.seat.table_id ≡ b.table.shared.table_id) × (b.seat.id ≡ 0) × (b.seat.me ≡ (empty_desk, [])) };
}

impl Blank {
    /// A new desk. E1.
    pub fn new(alloc: Global) -> Result<Blank, AllocError> {
        let (table, seat) = Table::of_words(alloc, &[0], &())?;
        Ok(Blank { table, seat })
    }

    /// The desk of a warehouse, in the world that names it. No ticket is out.
    pub fn open<K: World>(self, warehouse: u8, name: u64) -> Desk<K>
        requires desk { self ≡ desk_of K.passes warehouse }
        requires name { name ≡ K.passes.name }
        ensures { result ≡ record { warehouse = warehouse; out = [] } }
    {
        let Blank { table, seat } = self;
        Desk {
            table,
            seat,
            warehouse,
            name,
            of: PhantomData,
        }
    }
}

/// A desk that gives out numbered tickets and takes them back. A number is out once at most.
#[derive(Drop)]
pub struct Desk<K: World> {
    table: Word,
    seat: Seat<(), View>,
    warehouse: u8,
    name: u64,
    of: PhantomData<K>,
}

// Clauses see the warehouse and the numbers that are out.
impl<K: World> Model for Desk<K> {
    ghost use Rattle.std.specs.Prelude.{◌≡◌, []};
    ghost use Rattle.hy_worlds.specs.Origins.{desk_of};
    ghost use Rattle.hy_tickets.specs.Desks.{DeskState};
    ghost use Rattle.hy_tickets.specs.Law.{desk_with};

    ghost Value = { DeskState };

    ghost view = { λ d. record { warehouse = d.warehouse; out = d.seat.me.0.out } };

    ghost invariant = { λ d. (d.table.shared.table_id ≡ desk_of K.passes d.warehouse) × (d.table.shared.table_id.words ≡ 1) × (d.seat.table_id ≡ d.table.shared.table_id) × (d.seat.id ≡ 0) × (d.seat.me ≡ (desk_with d.seat.me.0.out, [])) × (d.name ≡ K.passes.name) };
}

impl<K: World> Desk<K> {
    /// The warehouse.
    pub fn warehouse(&self) -> u8
        ensures { result ≡ self.now.warehouse }
    {
        self.warehouse
    }

    /// The name of the kit.
    pub fn name(&self) -> u64
        ensures { result ≡ K.passes.name }
    {
        self.name
    }

    /// Whether a ticket says that it comes from here: it has the desk's warehouse and the kit's name.
    pub fn is_from_here(&self, ticket: &Ticket) -> bool
        ensures { result ≡ is_from ticket.now self.now.warehouse K.passes.name }
    {
        ticket.warehouse == self.warehouse && ticket.name == self.name
    }

    /// Gives out a ticket with a number that isn't out. It takes no memory.
    pub fn give(&mut self, number: u64) -> Ticket
        requires { is_out self.old.out number ≡ false }
        ensures desk { self.new ≡ record self.old { out = number ∷ self.old.out } }
        ensures ticket { result ≡ record { warehouse = self.old.warehouse; name = K.passes.name; desk = desk_of K.passes self.old.warehouse; number = number } }
    {
        let table = &self.table;
        table
            .shared
            .compare_exchange::<Write>(&mut self.seat, 0, number, number);
        let seat = table.shared.split_seat::<Hand>(&mut self.seat);
        Ticket {
            seat,
            warehouse: self.warehouse,
            name: self.name,
            number,
        }
    }

    /// Takes a ticket of this desk back: its number was out, and is so no more. It takes no memory.
    pub fn take_back(&mut self, ticket: Ticket) -> u64
        requires { ticket.desk ≡ desk_of K.passes self.old.warehouse }
        ensures number { result ≡ ticket.number }
        ensures was_out { is_out self.old.out ticket.number ≡ true }
        ensures desk { self.new ≡ record self.old { out = without self.old.out ticket.number } }
    {
        let Ticket {
            seat,
            warehouse: _,
            name: _,
            number,
        } = ticket;
        let table = &self.table;
        table.shared.join_seat::<Lay>(&mut self.seat, seat);
        table.shared.load::<Take>(&mut self.seat, 0);
        number
    }
}

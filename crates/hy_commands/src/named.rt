//! The warehouses that a command names, one after the other.

ghost use Rattle.std.specs.Prelude.{◌≡◌, ◌≤◌, ◌<◌, ◌==◌, ◌||◌, ◌^◌, ℕ, suc, IfSome, slice_get, take};
ghost use Rattle.std.specs.Iterator.{YieldsFirst, item_count};
ghost use Rattle.std.specs.List.{list_all, list_any};
ghost use Rattle.hy_rows.specs.Ranges.{is_between};
ghost use Rattle.hy_commands.specs.Commands.{AreNamedPlaces, is_marked, warehouses_of};
ghost use Rattle.hy_commands.specs.inside.Named.{numbers_in};

use crate::Command;
use hy_rows::MAX_WAREHOUSES;
use std::marker::Model;

/// The warehouses that a command names, its home first, each once.
#[derive(Drop)]
pub struct Warehouses<'a> {
    command: &'a Command,
    // How many of the numbers that stand in the command were looked at.
    place: usize,
}

// Clauses see those that are left.
impl<'a> Model for Warehouses<'a> {
    ghost use Rattle.std.specs.Prelude.{ℕ, List};
    ghost use Rattle.hy_commands.specs.inside.Named.{named_from};

    ghost Value = { List ℕ };

    ghost view = { λ named. named_from named.command.now named.place };
}

impl<'a> Iterator for Warehouses<'a> {
    type Item = u64;

    ghost next_gives = { YieldsFirst (λ left. left) };

    ghost remaining = { item_count (λ left. left) };

    fn next(&mut self) -> Option<u64> {
        while let Some(number) = self.command.number_at(self.place) {
            let place = self.place;
            self.place += 1;
            if !self.command.has_before(place, number) {
                return Some(number);
            }
        }
        None
    }
}

impl Command {
    /// The warehouses that the command names, its home first, each once, whatever else stands in it. Takes no memory, and
    /// for the suppliers of n lines at most n times n steps.
    pub fn warehouses(&self) -> Warehouses<'_>
        ensures { result ≡ warehouses_of self.now }
    {
        Warehouses {
            command: self,
            place: 0,
        }
    }

    /// Which of the warehouses that there may be the command names, the one with number 1 at place 0. Takes no memory, and a
    /// step for each number that stands in the command.
    pub fn named_places(&self) -> [bool; MAX_WAREHOUSES as usize]
        ensures { AreNamedPlaces self.now result }
    {
        let mut places = [false; MAX_WAREHOUSES as usize];
        let mut place = 0;
        while let Some(number) = self.number_at(place) {
            mark(&mut places, number);
            place += 1;
        }
        places
    }

    /// Whether the warehouses that the command names have the numbers from 1 to another one. Takes no memory.
    pub fn names_up_to(&self, last: u64) -> bool
        ensures { result ≡ list_all (is_between 1 last) (warehouses_of self.now) }
    {
        self.warehouses().all(|named| (1..=last).contains(&named))
    }

    /// Whether the command names one warehouse alone, the one with a number. Takes no memory.
    pub fn names_only(&self, warehouse: u64) -> bool
        ensures { result ≡ list_all (λ named. named == warehouse) (warehouses_of self.now) }
    {
        self.warehouses().all(|named| named == warehouse)
    }

    /// The number of a warehouse at a place: that of the home, and behind it those of the suppliers, line by line, or that
    /// of the customer's warehouse. None behind these.
    fn number_at(&self, place: usize) -> Option<u64>
        ensures number { result ≡ slice_get (numbers_in self.now) place }
        ensures few { IfSome result (λ number. place ≤ 2 ^ 63) }
    {
        let Some(before) = place.checked_sub(1) else {
            return Some(self.home());
        };
        match self {
            Command::NewOrder(order) => order.lines.supplier(before),
            Command::Payment(payment) if before == 0 => Some(payment.customer_warehouse),
            _ => None,
        }
    }

    /// Whether a number stands before a place.
    fn has_before(&self, place: usize, number: u64) -> bool
        ensures { result ≡ list_any (λ other. other == number) (take place (numbers_in self.now)) }
    {
        for before in 0..place {
            if self.number_at(before) == Some(number) {
                return true;
            }
        }
        false
    }
}

/// Notes that the warehouse of a number is named, where there may be one.
fn mark(places: &mut [bool; MAX_WAREHOUSES as usize], number: u64)
    ensures { (place : ℕ) → place < 16
        → is_marked places.new place ≡ (is_marked places.old place || (number == suc place)) }
{
    if 1 <= number && number <= u64::from(MAX_WAREHOUSES) {
        places[number as usize - 1] = true;
    }
}

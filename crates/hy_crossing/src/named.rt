//! Which warehouses a command names, found once.

ghost use Rattle.std.specs.Prelude.{◌≡◌, ◌≤◌, None, Some, IfErr, IfOk, OnOk, nat_lt};
ghost use Rattle.std.specs.List.{take_while};
ghost use Rattle.hy_rows.specs.Ranges.{is_between};
ghost use Rattle.hy_commands.specs.Commands.{customer_home_of, refusal_of_numbers};
ghost use Rattle.hy_crossing.specs.Named.{places_before, places_of};

use arrayvec::ArrayVec;
use hy_commands::Command;
use hy_rows::MAX_WAREHOUSES;
use hy_schema::Refusal;
use std::alloc::AllocError;
use std::marker::Model;

/// The places of the warehouses that a command names, of the sixteen that there may be, in rising order. They lie in the
/// value itself and take no memory.
#[derive(Drop)]
pub struct NamedPlaces {
    list: ArrayVec<usize, 16>,
}

// Clauses see the list.
impl Model for NamedPlaces {
    ghost use Rattle.std.specs.Prelude.{ℕ, List};

    ghost Value = { List ℕ };

    ghost view = { λ places. places.list.items };
}

impl NamedPlaces {
    /// Those of a command, whose numbers are gone over once.
    pub fn of(command: &Command) -> NamedPlaces
        ensures { result ≡ places_of command.now }
    {
        let named = command.named_places();
        let mut list = ArrayVec::new();
        for place in 0..MAX_WAREHOUSES as usize {
            if named[place] {
                list.push(place);
            }
        }
        NamedPlaces { list }
    }

    /// Those in front of the first that isn't less than an end.
    fn before(&self, end: usize) -> &[usize]
        ensures { result.now ≡ take_while (λ place. nat_lt place end) self.now }
    {
        let count = self.list.iter().take_while(|place| **place < end).count();
        &self.list[..count]
    }
}

/// A command with the places that it names: its numbers are gone over once for all steps, and a step goes over these places
/// alone.
#[derive(Drop)]
pub struct NamedCommand<'a> {
    command: &'a Command,
    places: &'a NamedPlaces,
}

// Clauses see the command.
impl<'a> Model for NamedCommand<'a> {
    ghost use Rattle.std.specs.Prelude.{◌≡◌};
    ghost use Rattle.hy_commands.specs.declared.command.Command.{Command};
    ghost use Rattle.hy_crossing.specs.Named.{places_of};

    ghost Value = { Command };

    ghost view = { λ named. named.command.now };

    ghost invariant = { λ named. named.places.now ≡ places_of named.command.now };
}

impl<'a> NamedCommand<'a> {
    /// A command with its places. They may come from another command that names the same warehouses.
    pub fn new(command: &'a Command, places: &'a NamedPlaces) -> NamedCommand<'a>
        requires { places.now ≡ places_of command.now }
        ensures { result ≡ command.entry.now }
    {
        NamedCommand { command, places }
    }

    /// The command.
    pub fn command(&self) -> &Command
        ensures { result.now ≡ self.now }
    {
        self.command
    }

    /// What its numbers refuse in a database of so many warehouses, as `Command::check_within` says.
    pub fn check_within(&self, warehouses: u64) -> Result<(), Refusal>
        ensures refused { IfErr result (λ why. refusal_of_numbers (is_between 1 warehouses) self.now ≡ Some why) }
        ensures passed { OnOk result (refusal_of_numbers (is_between 1 warehouses) self.now ≡ None) }
    {
        self.command.check_within(warehouses)
    }

    /// The same command once more. An error where it finds no memory.
    pub fn copy(&self) -> Result<Command, AllocError>
        ensures { IfOk result (λ copy. copy ≡ self.now) }
    {
        self.command.copy()
    }

    /// The warehouse of its customer; its home, where it names none.
    pub fn customer_home(&self) -> u64
        ensures { result ≡ customer_home_of self.now }
    {
        self.command.customer_home()
    }

    /// The places that it names before an end, in rising order.
    pub fn places_before(&self, end: usize) -> &[usize]
        requires { end ≤ 16 }
        ensures { result.now ≡ places_before self.now end }
    {
        self.places.before(end)
    }
}

//! What a load says of commands.

ghost use Rattle.std.specs.Prelude.{◌≡◌, ◌≤◌, None, IfOk, IfSome, length};
ghost use Rattle.hy_rows.specs.Limits.{max_warehouses};
ghost use Rattle.hy_rows.specs.Ranges.{is_between};
ghost use Rattle.hy_commands.specs.Commands.{customer_home_of, refusal_of_numbers};
ghost use Rattle.hy_commands.specs.Transactions.{has_customer};
ghost use Rattle.hy_layout.specs.Layout.{own_rows};
ghost use Rattle.hy_sound.specs.Sound.{is_known};
ghost use Rattle.hy_sound.specs.inside.Places.{AreLayouts, knows_customer};

use crate::customers::is_customer_among;
use hy_commands::Command;
use hy_layout::{Layout, has_items};
use hy_loads::Load;
use hy_rows::Warehouse;
use std::alloc::{AllocError, Global};
use std::marker::Model;

/// The warehouses of a load, with the places of their customers where there is memory for these.
#[derive(Drop)]
pub(crate) struct Known<'a> {
    load: &'a Load,
    // how many warehouses there are
    count: usize,
    layouts: Option<Vec<Layout>>,
}

// Clauses see the load.
impl<'a> Model for Known<'a> {
    ghost use Rattle.std.specs.Prelude.{◌≡◌, IfSome, length};
    ghost use Rattle.hy_rows.specs.Tables.{Lists};
    ghost use Rattle.hy_sound.specs.inside.Places.{AreLayouts};

    ghost Value = { Lists };

    ghost view = { λ known. known.load.now };

    ghost invariant = { λ known. (known.count ≡ length known.load.now.tables.warehouses)
        × IfSome known.layouts (λ layouts. AreLayouts known.load.now layouts.items) };
}

impl<'a> Known<'a> {
    /// What this load says. Takes time n log n for its n customers.
    pub(crate) fn new(alloc: Global, load: &'a Load) -> Known<'a>
        ensures { result ≡ load.entry.now }
    {
        let count = load.list::<Warehouse>().len();
        match layouts_of(alloc, load) {
            Ok(layouts) => Known {
                load,
                count,
                layouts: Some(layouts),
            },
            Err(_) => Known {
                load,
                count,
                layouts: None,
            },
        }
    }

    /// How many warehouses there are.
    pub(crate) fn count(&self) -> usize
        ensures count { result ≡ length self.now.tables.warehouses }
        ensures few { result ≤ max_warehouses }
    {
        self.load.sound();
        self.count
    }

    /// Whether the database of the load refuses a command for no reason.
    pub(crate) fn accepts(&self, command: &Command) -> bool
        ensures { result ≡ is_known self.now command.now }
    {
        match command.check_within(self.count() as u64) {
            Ok(()) => self.has_customer(command) && has_items(self.load, command),
            Err(_) => false,
        }
    }

    /// Whether the customer whom a command names is there; a command whose warehouses and districts are.
    fn has_customer(&self, command: &Command) -> bool
        requires { refusal_of_numbers (is_between 1 (length self.now.tables.warehouses)) command.now ≡ None }
        ensures { result ≡ knows_customer self.now command.now }
    {
        match self.layout_for(command) {
            Some(layout) => is_customer_of(layout, command),
            None => is_customer_among(self.load, command),
        }
    }

    /// The warehouse of the customer whom a command names; a command whose warehouses are there. None where there was no
    /// memory for it.
    fn layout_for(&self, command: &Command) -> Option<&Layout>
        requires { refusal_of_numbers (is_between 1 (length self.now.tables.warehouses)) command.now ≡ None }
        ensures layout { IfSome result (λ layout.
            layout.now ≡ record { load = self.now; warehouse = customer_home_of command.now }) }
        ensures rows { IfSome result (λ layout.
            has_customer command.now (own_rows layout.now) ≡ knows_customer self.now command.now) }
    {
        let home = command.customer_home() as usize;
        match &self.layouts {
            Some(layouts) => Some(&layouts[home - 1]),
            None => None,
        }
    }
}

/// The layouts of all warehouses of a load.
fn layouts_of(alloc: Global, load: &Load) -> Result<Vec<Layout>, AllocError>
    ensures { IfOk result (λ layouts. AreLayouts load.now layouts.items) }
{
    let count = count_of(load);
    let mut layouts = Vec::with_capacity(alloc, usize::from(count))?;
    for before in 0..count {
        layouts.push_reserved(Layout::new(alloc, load, before + 1)?);
    }
    Ok(layouts)
}

/// How many warehouses a load has.
fn count_of(load: &Load) -> u8
    ensures { result ≡ length load.now.tables.warehouses }
{
    load.sound();
    load.list::<Warehouse>().len() as u8
}

/// Whether the customer whom a command names is one of a warehouse, which is the customer's.
fn is_customer_of(layout: &Layout, command: &Command) -> bool
    requires { customer_home_of command.now ≡ layout.now.warehouse }
    ensures { result ≡ has_customer command.now (own_rows layout.now) }
{
    layout.know_places();
    match command.customer() {
        Some(customer) => layout.place_of_customer(customer).is_some(),
        None => true,
    }
}

//! Why a warehouse doesn't begin a command, and where its customer stands.

ghost use Rattle.std.specs.Prelude.{◌≡◌, None, Some, IfErr, IfOk, OnOk};
ghost use Rattle.hy_rows.specs.Tables.{Tables};
ghost use Rattle.hy_commands.specs.Commands.{customer_home_of};
ghost use Rattle.hy_commands.specs.Transactions.{begin_refusal_of};
ghost use Rattle.hy_layout.specs.Layout.{KeepsPlaces, own_rows};
ghost use Rattle.hy_space.specs.Space.{owner_bytes};
ghost use Rattle.hy_writers.specs.of_store.Stored.{HasStore};
ghost use Rattle.hy_writers.specs.of_store.Writes.{stored_in};
ghost use Rattle.hy_writers.specs.Waiting.{IsSoundStore};
ghost use Rattle.hy_tpcc.specs.Executor.{FindsCustomer, KnowsCustomer};

use hy_commands::Command;
use hy_layout::Layout;
use hy_schema::Refusal;
use hy_space::Space;
use hy_writers::hy_store::know_store;

/// The place of the customer whom a command names, who is one of this warehouse, and 0 where it names none; none where
/// there is no such customer.
pub(crate) fn customer_place(layout: &Layout, command: &Command) -> Option<u64>
    requires { customer_home_of command.now ≡ layout.now.warehouse }
    ensures { (tables : Tables) → KeepsPlaces (own_rows layout.now) tables
        → FindsCustomer layout.now.warehouse command.now tables result }
{
    match command.customer() {
        Some(customer) => layout.place_of_customer(customer),
        None => Some(0),
    }
}

/// The place of the customer whom a command names, where the warehouse begins the command, and 0 where it names none. Else
/// the first of these that holds: E8, E4, E5, E6.
pub(crate) fn begin_place<const N: usize>(
    layout: &Layout,
    space: &Space<N>,
    command: &Command,
) -> Result<u64, Refusal>
    requires store { HasStore N (owner_bytes space.now) }
    requires sound { IsSoundStore layout.now (stored_in N space.now) }
    ensures begun { OnOk result
        (begin_refusal_of layout.now.warehouse command.now (stored_in N space.now).tables ≡ None) }
    ensures customer { IfOk result (KnowsCustomer layout.now command.now) }
    ensures refused { IfErr result (λ refusal. begin_refusal_of layout.now.warehouse command.now
        (stored_in N space.now).tables ≡ Some refusal) }
{
    know_store(space);
    command.check_at(layout.warehouse() as u64)?;
    match customer_place(layout, command) {
        Some(place) => Ok(place),
        None => Err(Refusal::NoSuchCustomer),
    }
}

//! The items of a load.

ghost use Rattle.std.specs.Prelude.{◌≡◌};
ghost use Rattle.hy_commands.specs.Transactions.{has_items};

use hy_commands::Command;
use hy_loads::Load;
use hy_rows::Item;

/// Whether the items that a command names are those of a load, which have the numbers 1, 2, 3 and so on. Takes no memory.
pub fn has_items(load: &Load, command: &Command) -> bool
    ensures { result ≡ has_items load.now.items command.now }
{
    load.sound();
    command.names_items_up_to(load.list::<Item>().len() as u64)
}

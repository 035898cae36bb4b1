//! What the slices of a command do together, and what holds between them.

ghost use Rattle.std.specs.Prelude.{◌≡◌, ℕ, ◌+◌, List, None, Some, length};
ghost use Rattle.hy_rows.specs.declared.item.Item.{Item};
ghost use Rattle.hy_rows.specs.Tables.{Lists, Tables};
ghost use Rattle.hy_schema.specs.declared.refusal.Refusal.TheVariants as refusals;
ghost use Rattle.hy_commands.specs.declared.command.Command.{Command};
ghost use Rattle.hy_commands.specs.declared.command.Commit.{Commit};
ghost use Rattle.hy_commands.specs.declared.command.Delivery.{Delivery};
ghost use Rattle.hy_commands.specs.declared.command.Purchase.{Purchase};
ghost use Rattle.hy_commands.specs.declared.edition.Edition.{Edition};
ghost use Rattle.hy_commands.specs.Deliveries.{oldest};
ghost use Rattle.hy_commands.specs.Growth.{HasGrownBy};
ghost use Rattle.hy_commands.specs.NewOrders.{order_number};
ghost use Rattle.hy_commands.specs.Parts.{part};
ghost use Rattle.hy_commands.specs.Replay.{rows_after};
ghost use Rattle.hy_commands.specs.Transactions.{accepted, act, refusal_of};
ghost use Rattle.hy_slices.specs.Begun.{AreLinesBefore, BeginsAlone, BeginsPart, DeliversBefore, HasAllItems, HasItemsOfLines, IsBegunBehind, IsUnderWay, LacksItemAt, PlacesLines, after_districts, after_lines};
ghost use Rattle.hy_slices.specs.Between.{IsWholeWarehouse};
ghost use Rattle.hy_commands.specs.Commands.{slice_count};
ghost use Rattle.hy_slices.specs.Slices.{after_slices};

/// Does nothing: its contract says that all slices of a command leave the rows of the accepted command. So those of a
/// command that a warehouse begins by itself, where the items of all its lines are there, leave the rows that the
/// command leaves, and such a command is refused E7 exactly where one of its slices asks for an item that isn't there;
/// and those of a purchase over several warehouses leave, at its home, the rows of the home's part.
pub fn slices_are_the_command()
    ensures whole { (items : List Item) (number : ℕ) (edition : Edition) (command : Command) (tables : Tables)
        → after_slices items number edition command (slice_count command) tables
        ≡ (accepted items number edition command tables).tables }
    ensures rows { (items : List Item) (number : ℕ) (edition : Edition) (command : Command) (tables : Tables)
        → BeginsAlone number command tables → HasAllItems items command
        → after_slices items number edition command (slice_count command) tables
        ≡ (act items number edition command tables).tables }
    ensures part { (items : List Item) (number : ℕ) (edition : Edition) (command : Command) (tables : Tables)
        → BeginsPart number command tables
        → after_slices items number edition command (slice_count command) tables
        ≡ part items number edition command tables }
    ensures accepted { (items : List Item) (number : ℕ) (command : Command) (tables : Tables)
        → BeginsAlone number command tables → HasAllItems items command
        → refusal_of items number command tables ≡ None }
    ensures refused { (items : List Item) (number : ℕ) (command : Command) (tables : Tables) (done : ℕ)
        → BeginsAlone number command tables → LacksItemAt items command done
        → refusal_of items number command tables ≡ Some refusals.NoSuchItem }
{}

/// Does nothing: its contract says what holds of the rows of a warehouse between the slices of a command that it
/// begins, or of its part of a purchase over several warehouses, where it holds before.
pub fn rows_stay_whole()
    ensures { (items : List Item) (number : ℕ) (edition : Edition) (command : Command) (tables : Tables) (done : ℕ)
        → IsUnderWay items number command done tables
        → IsWholeWarehouse items number (after_slices items number edition command done tables) }
{}

/// Does nothing: its contract says that between the slices of a purchase the next number of its district is one more
/// than before, and that its order has no line but those of the slices done.
pub fn lines_are_new()
    ensures number { (items : List Item) (number : ℕ) (edition : Edition) (order : Purchase) (tables : Tables)
        (lines : ℕ) → PlacesLines items number order lines tables
        → order_number order (after_lines items number edition order lines tables) ≡ order_number order tables + 1 }
    ensures lines { (items : List Item) (number : ℕ) (edition : Edition) (order : Purchase) (tables : Tables)
        (lines : ℕ) → PlacesLines items number order lines tables → HasItemsOfLines items order lines
        → AreLinesBefore order lines tables (after_lines items number edition order lines tables) }
{}

/// Does nothing: its contract says that the slices of a delivery before a district leave the oldest undelivered order
/// of that district.
pub fn deliveries_stay_the_same()
    ensures { (items : List Item) (number : ℕ) (edition : Edition) (delivery : Delivery) (tables : Tables)
        (done district : ℕ) → DeliversBefore items number delivery done district tables
        → oldest number district (after_districts items number edition delivery done tables)
        ≡ oldest number district tables }
{}

/// Does nothing: its contract says how far the numbers of a warehouse of a load can have grown between the slices of a
/// command, or of its part of one, that comes behind a list of commits.
pub fn numbers_stay_small_between()
    ensures { (lists : Lists) (number : ℕ) (commits : List Commit) (edition : Edition) (command : Command) (done : ℕ)
        → IsBegunBehind lists number commits command done → HasGrownBy (length commits + 1)
        (after_slices lists.items number edition command done (rows_after lists number commits)) }
{}

//! What holds of a database after every serial list of commits.

ghost use Rattle.std.specs.Prelude.{◌≡◌, ℕ, List, None, length};
ghost use Rattle.hy_passes.specs.SerialList.{projection};
ghost use Rattle.hy_rows.specs.Tables.{Lists};
ghost use Rattle.hy_schema.specs.Conditions.{first_broken};
ghost use Rattle.hy_schema.specs.Loads.{IsLoad};
ghost use Rattle.hy_commands.specs.declared.command.Command.{Command};
ghost use Rattle.hy_commands.specs.declared.command.Commit.{Commit};
ghost use Rattle.hy_commands.specs.declared.command.Commit.TheVariants as commits;
ghost use Rattle.hy_commands.specs.declared.edition.Edition.{Edition};
ghost use Rattle.hy_commands.specs.Commands.{warehouses_of_commit};
ghost use Rattle.hy_commands.specs.Parts.{Database, database_of, refusal_in, rows_of};
ghost use Rattle.hy_commands.specs.Replay.{HasWarehouse, rows_after};
ghost use Rattle.hy_database.specs.Database.{act_on_all, all_rows, committed_in, database_after, kept_in};

/// Does nothing: its contract says that the rows of all warehouses of a load, after each list of commits, meet the
/// consistency conditions 1 to 10 and 12 (TPC-C clause 3.3.2).
pub fn every_database_is_consistent()
    ensures { (lists : Lists) (commits : List Commit) → IsLoad lists
        → first_broken (all_rows (database_after lists commits)) ≡ None }
{}

/// Does nothing: its contract says that what a list of commits makes of a whole database leaves, in each warehouse, the
/// rows after the commits that name it, replayed there alone; and that no warehouse comes or goes.
pub fn warehouses_are_replays()
    ensures rows { (lists : Lists) (commits : List Commit) (number : ℕ) → IsLoad lists → HasWarehouse lists number
        → rows_of number (database_after lists commits)
        ≡ rows_after lists number (projection warehouses_of_commit number commits) }
    ensures count { (lists : Lists) (commits : List Commit)
        → length (database_after lists commits).warehouses ≡ length lists.tables.warehouses }
{}

/// Does nothing: its contract says that whether a database refuses a command, and why, is known from its load, whatever
/// was committed since.
pub fn refusals_never_change()
    ensures { (lists : Lists) (commits : List Commit) (command : Command) → IsLoad lists
        → refusal_in (database_after lists commits) command ≡ refusal_in (database_of lists) command }
{}

/// Does nothing: its contract says that the commit that a database keeps of a command which it doesn't refuse does to
/// the database what the command did. The commit has the command with the customer who pays named by number.
pub fn kept_commands_do_the_same()
    ensures { (database : Database) (edition : Edition) (command : Command) (number : ℕ)
        → refusal_in database command ≡ None
        → (act_on_all edition command database).database
        ≡ committed_in database (commits.Cross edition number (kept_in database command)) }
{}

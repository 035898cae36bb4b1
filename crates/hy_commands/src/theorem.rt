//! What no list of commits breaks.

ghost use Rattle.std.specs.Prelude.{ℕ, length, List};
ghost use Rattle.hy_rows.specs.Tables.{Lists};
ghost use Rattle.hy_schema.specs.Loads.{IsLoad};
ghost use Rattle.hy_commands.specs.declared.command.Commit.{Commit};
ghost use Rattle.hy_commands.specs.Growth.{HasGrownBy};
ghost use Rattle.hy_commands.specs.Invariant.{IsSoundWarehouse};
ghost use Rattle.hy_commands.specs.Replay.{HasWarehouse, rows_after};

/// Does nothing: its contract says that the rows of each warehouse of a load, after each list of commits, are those of
/// one warehouse with complete orders, and meet the consistency conditions 1 to 9 and 12 (TPC-C clause 3.3.2).
pub fn conditions_are_kept()
    ensures { (lists : Lists) (number : ℕ) (commits : List Commit) → IsLoad lists → HasWarehouse lists number
        → IsSoundWarehouse lists.items number (rows_after lists number commits) }
{}

/// Does nothing: its contract says how far the numbers of each warehouse of a load can have grown after each list of
/// commits, by the number of these.
pub fn numbers_stay_small()
    ensures { (lists : Lists) (number : ℕ) (commits : List Commit) → IsLoad lists → HasWarehouse lists number
        → HasGrownBy (length commits) (rows_after lists number commits) }
{}

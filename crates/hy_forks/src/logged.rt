//! What batches and a serial list have in common.

ghost use Rattle.std.specs.Prelude.{[]};
ghost use Rattle.hy_rows.specs.Tables.{Lists};
ghost use Rattle.hy_forks.specs.Logged.{SaySame};

/// Does nothing: its contract says that no batch and an empty serial list say the same, with which a log and a database
/// begin that is new.
pub fn logs_begin()
    ensures fresh { (lists : Lists) → SaySame lists [] [] }
{}

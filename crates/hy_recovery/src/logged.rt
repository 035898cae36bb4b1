//! What the batches of a recovered database and its serial list have in common.

ghost use Rattle.std.specs.Prelude.{◌≡◌, ℕ, true, List, length};
ghost use Rattle.hy_rows.specs.Tables.{Lists};
ghost use Rattle.hy_batches.specs.Batches.{Batch};
ghost use Rattle.hy_batches.specs.Grammar.{are_batches};
ghost use Rattle.hy_forks.specs.of_partition.Jobs.{Log};
ghost use Rattle.hy_forks.specs.of_partition.Partition.{PartitionState};
ghost use Rattle.hy_forks.specs.Histories.{IsOneHistory};
ghost use Rattle.hy_forks.specs.Logged.{SaySame};
ghost use Rattle.hy_recovery.specs.Recovering.{AreRecovered, GoesOn};

/// Does nothing: its contract says that the batches from which partitions were recovered, and the serial list that `recover`
/// gave with them, say the same.
pub fn recovered_say_the_same()
    ensures { (lists : Lists) (frames most : ℕ) (batches : List Batch) (log : Log) (parts : List PartitionState)
        → are_batches batches ≡ true → AreRecovered lists frames most batches parts
        → IsOneHistory (length lists.tables.warehouses) log parts → GoesOn lists batches log
        → SaySame lists batches log }
{}

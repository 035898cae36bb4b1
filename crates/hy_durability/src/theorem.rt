//! What a database gives to its log is what it is recovered from.

ghost use Rattle.std.specs.Prelude.{◌≡◌, ◌+◌, ◌<◌, ◌≤◌, ◌++◌, ℕ, suc, true, IfSome, IsTrue, List, [], ◌∷◌, Ok, Some, length, slice_get};
ghost use mathlib.Core.List.{IsPrefix};
ghost use Rattle.hy_rows.specs.Tables.{Lists};
ghost use Rattle.hy_schema.specs.Loads.{IsLoad};
ghost use Rattle.hy_batches.specs.Batches.{Batch};
ghost use Rattle.hy_batches.specs.Grammar.{are_batches};
ghost use Rattle.hy_batches.specs.Logs.{Reads};
ghost use Rattle.hy_partition.specs.Jobs.{Log};
ghost use Rattle.hy_partition.specs.Limits.{most_kept};
ghost use Rattle.hy_partition.specs.Partition.{PartitionState};
ghost use Rattle.hy_forks.specs.Drains.{drained_of};
ghost use Rattle.hy_forks.specs.Histories.{IsOneHistory};
ghost use Rattle.hy_redo.specs.Calls.{AreCalls, Call, LogState, acknowledged, handed, log_behind};
ghost use Rattle.hy_redo.specs.Disk.{BeginsBehind, MayLeave};
ghost use Rattle.hy_sound.specs.Sound.{IsSoundLog};
ghost use Rattle.hy_recovery.specs.Recovering.{AreRecovered, GoesOn};
ghost use Rattle.hy_schedules.specs.Schedules.{DoesAll, EventOfAll, IsDrainedTo, IsWholeOf, Whole, drains, fresh_whole, rested_whole};
ghost use Rattle.hy_durability.specs.Durability.{AllAreThere, AreDurable, AreLed, BeginsLife, HasRoom, IsRecoverable, Life, RunsGiving, batch_of, last_of};

use hy_redo::stops_leave_batches;
use hy_schedules::every_schedule_of_all;

/// Does nothing: its contract says with what a life of a database begins. The first one begins with the load and no
/// batch. A later one begins behind the batches that were read from its log, with the partitions and the serial list that
/// `recover` of hy_recovery gave for them, whatever its clients know of that list. And no warehouse of partitions keeps
/// more commits than it may, which each partition promises.
pub fn lives_begin()
    ensures first { (lists : Lists) → BeginsLife lists [] (fresh_whole lists) }
    ensures later { (n frames most : ℕ) (lists : Lists) (batches : List Batch) (log : Log) (parts : List PartitionState)
        (known : ℕ → ℕ) → are_batches batches ≡ true → AreRecovered lists frames most batches parts
        → IsOneHistory (length lists.tables.warehouses) log parts → GoesOn lists batches log
        → ((client : ℕ) → known client ≤ length log)
        → IsWholeOf n log parts (rested_whole lists log known)
        × BeginsLife lists batches (rested_whole lists log known) }
    ensures room { (n : ℕ) (log : Log) (parts : List PartitionState) (whole : Whole) → IsWholeOf n log parts whole
        → ((place : ℕ) → IfSome (slice_get parts place) (λ p. length p.kept ≤ most_kept)) → HasRoom whole }
{}

/// Does nothing: its contract says that after any list of events on all warehouses of a load, in a life that begins behind
/// some batches, these and those that the drains among the events gave are sound beside the load, can be told by their
/// bytes, and have of each warehouse what it had kept at the last drain.
pub fn drained_logs_are_sound()
    ensures { (lists : Lists) (front : List Batch) (events : List EventOfAll) (old whole : Whole) (batches : List Batch)
        → IsLoad lists → BeginsLife lists front old → RunsGiving events old whole batches
        → AreDurable lists whole (front ++ batches) }
{
    every_schedule_of_all();
}

/// Does nothing: its contract says that whatever list of events made the batches which a log was handed in a life that
/// began behind those that stood in it, and however its calls ended, a stop behind some of the calls or at any later moment
/// leaves bytes from which the database is recovered as it was behind a number of whole batches, none missing that was
/// acknowledged in this life or stood there before it.
pub fn stops_are_recovered()
    ensures { (lists : Lists) (front : List Batch) (events : List EventOfAll) (old whole : Whole) (log : LogState)
        (calls more : List Call) (left : List ℕ) → IsLoad lists → BeginsLife lists front old
        → RunsGiving events old whole (handed (calls ++ more)) → HasRoom whole → BeginsBehind front log
        → AreCalls log (calls ++ more)
        → MayLeave (log_behind log calls).told (log_behind log (calls ++ more)).told left
        → IsRecoverable lists whole (front ++ handed (calls ++ more)) (length front + acknowledged calls) left }
{
    every_schedule_of_all();
    stops_leave_batches();
}

/// Does nothing: its contract says that what was acknowledged is there. Partitions are drained, the log is handed the batch,
/// and the call acknowledges it; the log is stopped behind that call or at any later moment; what it has left is read, and
/// partitions are recovered from that: then each of them has kept all that the partition of its warehouse had kept at the
/// drain, and perhaps more behind it.
pub fn acknowledged_commits_are_recovered()
    ensures { (lists : Lists) (front before rest : List Batch) (events later : List EventOfAll)
        (old mid next whole : Whole) (log : LogState) (calls more : List Call) (call : Call) (left : List ℕ)
        → IsLoad lists → BeginsLife lists front old → RunsGiving events old mid before → DoesAll drains mid next
        → RunsGiving later next whole rest → handed (calls ++ more) ≡ before ++ batch_of mid.places ∷ rest
        → slice_get calls (length before) ≡ Some call → call.answer ≡ Ok tt → HasRoom whole
        → BeginsBehind front log → AreCalls log (calls ++ more)
        → MayLeave (log_behind log calls).told (log_behind log (calls ++ more)).told left
        → (n : ℕ) (journal : Log) (parts : List PartitionState) → IsWholeOf n journal parts mid
        → (frames most : ℕ) (batches : List Batch) (recovered : List PartitionState) → Reads left (Ok batches)
        → AreRecovered lists frames most batches recovered → (place : ℕ)
        → IfSome (slice_get parts place) (λ p. IfSome (slice_get recovered place) (λ q. IsPrefix p.kept q.kept)) }
{
    every_schedule_of_all();
    stops_leave_batches();
}

/// Does nothing: its contract says that however many lives a log has, one behind another, each behind what was read at the
/// end of the one before, what is read at the last end is sound beside the load, can be told by its bytes, and begins with
/// all batches that were acknowledged in any of the lives.
pub fn lives_are_recovered()
    ensures sound { (lists : Lists) (lives : List Life) → IsLoad lists → AreLed lists [] lives
        → IsSoundLog lists (last_of [] lives) × IsTrue (are_batches (last_of [] lives)) }
    ensures acknowledged { (lists : Lists) (lives : List Life) → IsLoad lists → AreLed lists [] lives
        → AllAreThere (last_of [] lives) lives }
{
    every_schedule_of_all();
    stops_leave_batches();
}

/// Does nothing: its contract says that what `drain` of hy_forks answers, the commits of each partition behind the place of a
/// cursor, is the batch that the model's drain gives where it was drained up to that place (`drains_come_to_the_end` of
/// hy_schedules).
pub fn drains_give_batches()
    ensures { (n : ℕ) (log seen : Log) (parts : List PartitionState) (whole : Whole) → IsWholeOf n log parts whole
        → IsDrainedTo seen whole → drained_of seen parts ≡ batch_of whole.places }
{}

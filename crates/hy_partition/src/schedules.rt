//! What the calls on a partition come to, in whatever order they are made.

ghost use Rattle.std.specs.Prelude.{◌≡◌, ℕ, ◌≤◌, List, [], ◌∷◌, ◌++◌, false, length, None, Some, IsSome};
ghost use Rattle.hy_worlds.specs.Origins.{Origin};
ghost use Rattle.hy_passes.specs.declared.entry.Entry.{Entry};
ghost use Rattle.hy_passes.specs.SerialList.{names};
ghost use Rattle.hy_rows.specs.Tables.{Lists};
ghost use Rattle.hy_schema.specs.Loads.{IsLoad};
ghost use Rattle.hy_commands.specs.declared.command.Commit.{Commit};
ghost use Rattle.hy_commands.specs.declared.edition.Edition.TheVariants as editions;
ghost use Rattle.hy_commands.specs.Commands.{warehouses_of_commit};
ghost use Rattle.hy_commands.specs.Replay.{HasWarehouse};
ghost use Rattle.hy_partition.specs.declared.job.Progress.{Progress};
ghost use Rattle.hy_partition.specs.Jobs.{JobState, Log, RunningJob};
ghost use Rattle.hy_partition.specs.Partition.{PartitionState};
ghost use Rattle.hy_partition.specs.Schedules.{Event, IsWorldOf, KeepsAll, Leads, Runs, World, begins, closes, enters, forks, forks_from, fresh_world, looks, steps, takes};
ghost use Rattle.hy_partition.specs.Snapshots.{SnapshotState};
ghost use Rattle.hy_partition.specs.Steps.{begin_refusal, Begins, Closes, Forks, ForksFrom, StaysUnforked, StepsTo, with_job};

/// Does nothing: its contract says what holds after every list of events on a warehouse of a load. Each open snapshot
/// has the rows after a beginning of the commits that are kept, replayed one by one, and these rows and those after all
/// commits meet the consistency conditions 1 to 9 and 12 (TPC-C clause 3.3.2). The commits that are kept are those of the
/// warehouse in the serial list, which respects its stamps.
pub fn every_schedule()
    ensures { (lists : Lists) (number : ℕ) (events : List Event) (world : World) → IsLoad lists
        → HasWarehouse lists number → Runs events (fresh_world lists number) world → KeepsAll lists number world }
{}

/// Does nothing: its contract says that the calls on a partition are events of the model: what `new`, `begin`, `step`,
/// `take_done`, `fork`, `fork_from` and `close` promise leads from a partition with its world to one with the world after
/// the event; a job that begins is of the second edition, as it has to be where no log is replayed. A call that is refused
/// leaves the world, also a fork that was refused half-way. A look of a client, and a commit that enters the serial list
/// from another partition, leave the partition, and are events too.
pub fn calls_are_events()
    ensures new { (n : ℕ) (lists : Lists) (number frames commits : ℕ) (p : PartitionState)
        → Begins lists number frames commits p → IsWorldOf n [] p (fresh_world lists number) }
    ensures begin { (n : ℕ) (log : Log) (p q : PartitionState) (world : World) (job : JobState) → IsWorldOf n log p world
        → world.known job.pass.client ≡ length job.pass.seen → job.edition ≡ editions.Second
        → begin_refusal p job.command ≡ None → q ≡ with_job p job
        → Leads n (begins job.pass.client job.command) world log q }
    ensures step { (n : ℕ) (log after : Log) (p q : PartitionState) (world : World) (job : RunningJob)
        (progress : Progress) → IsWorldOf n log p world → p.running ≡ Some job
        → StepsTo job (Some log) (Some after) p q progress → Leads n steps world after q }
    ensures take { (n : ℕ) (log : Log) (p q : PartitionState) (world : World) → IsWorldOf n log p world
        → IsSome p.finished → q ≡ record p { finished = None } → Leads n takes world log q }
    ensures fork { (n : ℕ) (kit : Origin) (log known : Log) (client : ℕ) (p q : PartitionState) (world : World)
        (snapshot : SnapshotState) → IsWorldOf n log p world → Forks n kit log known p q snapshot
        → Leads n (forks client snapshot.child) world log q }
    ensures fork_from { (n : ℕ) (kit : Origin) (log : Log) (p q : PartitionState) (world : World)
        (from snapshot : SnapshotState) → IsWorldOf n log p world → ForksFrom kit from p q snapshot
        → Leads n (forks_from from.child snapshot.child) world log q }
    ensures refused_fork { (n : ℕ) (log : Log) (p q : PartitionState) (world : World) → IsWorldOf n log p world
        → StaysUnforked p q → IsWorldOf n log q world }
    ensures close { (n : ℕ) (log : Log) (p q : PartitionState) (world : World) (child : ℕ) → IsWorldOf n log p world
        → Closes p q child → Leads n (closes child) world log q }
    ensures look { (n : ℕ) (log : Log) (client : ℕ) (p : PartitionState) (world : World) → IsWorldOf n log p world
        → Leads n (looks client) world log p }
    ensures enter { (n : ℕ) (log : Log) (entry : Entry Commit) (p : PartitionState) (world : World)
        → IsWorldOf n log p world → names warehouses_of_commit p.warehouse entry.commit ≡ false
        → entry.stamp ≤ length log → Leads n (enters entry) world (log ++ entry ∷ []) p }
{}

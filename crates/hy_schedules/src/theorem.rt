//! What holds after every list of calls on the partitions of all warehouses.

ghost use Rattle.std.specs.Prelude.{◌≡◌, ◌≢◌, ℕ, suc, ◌<◌, ◌≤◌, All, IsSome, IfSome, List, [], ◌∷◌, ◌++◌, None, Some, length, map, nat_lt, slice_get, true};
ghost use Rattle.std.specs.List.{range_with_len};
ghost use Rattle.std.specs.List.Sorted.{IsPermutation};
ghost use Rattle.hy_worlds.specs.Origins.{Origin};
ghost use Rattle.hy_rows.specs.Tables.{Lists};
ghost use Rattle.hy_schema.specs.Loads.{IsLoad};
ghost use Rattle.hy_commands.specs.declared.command.Commit.{Commit};
ghost use Rattle.hy_commands.specs.declared.edition.Edition.TheVariants as editions;
ghost use Rattle.hy_passes.specs.SerialList.{IsSerial};
ghost use Rattle.hy_passes.specs.Worlds.{PassState, new_client};
ghost use Rattle.hy_commands.specs.Commands.{number_of, warehouses_of, warehouses_of_commit};
ghost use Rattle.hy_forks.specs.of_partition.declared.job.Progress.{Progress};
ghost use Rattle.hy_forks.specs.of_partition.Jobs.{DoneState, JobState, Log, RunningJob, told};
ghost use Rattle.hy_forks.specs.of_partition.Partition.{PartitionState};
ghost use Rattle.hy_forks.specs.of_partition.Schedules.{begins, closes, forks, forks_from, steps, takes};
ghost use Rattle.hy_forks.specs.of_partition.Snapshots.{SnapshotState};
ghost use Rattle.hy_forks.specs.of_partition.Steps.{begin_refusal, Begins, Closes, Forks, ForksFrom, StaysUnforked, StepsTo, with_job};
ghost use Rattle.hy_forks.specs.of_crossing.Crossings.{ArePartitions, Crosses, database_behind};
ghost use Rattle.hy_forks.specs.of_crossing.Lists.{ChangesAt, Pairwise};
ghost use Rattle.hy_forks.specs.Drains.{TellsHere};
ghost use Rattle.hy_forks.specs.Forks.{ClosesHere, ForksAll, ForksAllFrom, IsUnforked};
ghost use Rattle.hy_schedules.specs.Clients.{AreApart, IsWholeKnowing, KnowsClients, LeadsKnowing, passes_in};
ghost use Rattle.hy_schedules.specs.Looking.{CrossesLooking, Moment};
ghost use Rattle.hy_schedules.specs.Schedules.{DoesAll, EventOfAll, HasSnapshotOf, IsDrainedTo, IsWholeOf, KeepsEverything, LeadsAll, LooksAmid, RunsAll, Whole, at, children_of, closes_all, crosses, drains, forks_all, forks_all_from, fresh_whole, looks, no_looks, place_at, rested_whole};

use hy_commands::{Command, Commit, Edition, StockLevel};
use hy_forks::hy_partition::calls_are_events;
use hy_passes::projections_agree;

/// Does nothing that is seen: its contract says what holds after every list of events on all warehouses of a load. Each
/// keeps what `every_schedule` of hy_partition says of it alone, and has the rows of its warehouse in the database
/// behind the serial list. That list numbers the commits of several warehouses without a gap and respects its stamps,
/// and the kept lists agree on these commits. All rows together meet the consistency conditions 1 to 10 and 12 (TPC-C
/// clause 3.3.2). So do those of the snapshots that are taken together, which have the rows of one database. The same holds
/// after events that go on from any moment at which it held, and of a database at rest behind any serial list, as recovery
/// leaves one.
pub fn every_schedule_of_all()
    ensures keeps { (lists : Lists) (events : List EventOfAll) (whole : Whole) → IsLoad lists
        → RunsAll events (fresh_whole lists) whole → KeepsEverything lists whole }
    ensures rests { (lists : Lists) (log : Log) (known : ℕ → ℕ) → IsLoad lists
        → IsSerial warehouses_of_commit number_of (length lists.tables.warehouses) log
        → ((client : ℕ) → known client ≤ length log) → KeepsEverything lists (rested_whole lists log known) }
    ensures goes_on { (lists : Lists) (events : List EventOfAll) (old new : Whole) → IsLoad lists
        → KeepsEverything lists old → RunsAll events old new → KeepsEverything lists new }
    ensures one_moment { (lists : Lists) (client : ℕ) (children : ℕ → ℕ) (old new : Whole) → KeepsEverything lists old
        → DoesAll (forks_all client children) old new → (number : ℕ) → IfSome (place_at new.places number)
        (HasSnapshotOf (database_behind lists new.log) number (children number)) }
{
    // the law on kept lists holds for commits of any kind, and is called with one of this kind
    let level = StockLevel {
        warehouse: 1,
        district: 1,
        threshold: 10,
    };
    projections_agree(&Commit::Local(Edition::Second, Command::StockLevel(level)));
}

/// Does nothing: its contract says that the calls on the partitions of all warehouses are events of the model. What a
/// call on one of them promises (`at`), and what `cross`, `fork_all`, `close_all` and `drain` promise of all of them,
/// leads from partitions with their whole to partitions with the whole after the event. A command over several
/// warehouses is one event, whether it is accepted or refused, and whatever looks of clients fell within it. Jobs are of the
/// second edition, as they have to be where no log is replayed. Forks that are refused, and partitions that are told the
/// serial list, leave the whole; a look of a client leaves the partitions.
pub fn calls_of_all_are_events()
    ensures new { (n : ℕ) (lists : Lists) (frames commits : ℕ) (parts : List PartitionState)
        → length parts ≡ length lists.tables.warehouses
        → ((place : ℕ) → IfSome (slice_get parts place) (Begins lists (suc place) frames commits))
        → IsWholeOf n [] parts (fresh_whole lists) }
    ensures begin { (n place : ℕ) (log : Log) (parts news : List PartitionState) (whole : Whole) (job : JobState)
        → IsWholeOf n log parts whole → place < length parts → whole.known job.pass.client ≡ length job.pass.seen
        → job.edition ≡ editions.Second
        → ChangesAt (λ p q. (begin_refusal p job.command ≡ None) × (q ≡ with_job p job)) place parts news
        → LeadsAll n (at (suc place) (begins job.pass.client job.command)) whole log news }
    ensures step { (n place : ℕ) (log after : Log) (parts news : List PartitionState) (whole : Whole) (job : RunningJob)
        (progress : Progress) → IsWholeOf n log parts whole → place < length parts
        → ChangesAt (λ p q. (p.running ≡ Some job) × StepsTo job (Some log) (Some after) p q progress) place parts news
        → LeadsAll n (at (suc place) steps) whole after news }
    ensures take { (n place : ℕ) (log : Log) (parts news : List PartitionState) (whole : Whole)
        → IsWholeOf n log parts whole → place < length parts
        → ChangesAt (λ p q. IsSome p.finished × (q ≡ record p { finished = None })) place parts news
        → LeadsAll n (at (suc place) takes) whole log news }
    ensures fork { (n place : ℕ) (kit : Origin) (log known : Log) (client : ℕ) (parts news : List PartitionState)
        (whole : Whole) (snapshot : SnapshotState) → IsWholeOf n log parts whole → place < length parts
        → ChangesAt (λ p q. Forks n kit log known p q snapshot) place parts news
        → LeadsAll n (at (suc place) (forks client snapshot.child)) whole log news }
    ensures fork_from { (n place : ℕ) (kit : Origin) (log : Log) (parts news : List PartitionState) (whole : Whole)
        (from snapshot : SnapshotState) → IsWholeOf n log parts whole → place < length parts
        → ChangesAt (λ p q. ForksFrom kit from p q snapshot) place parts news
        → LeadsAll n (at (suc place) (forks_from from.child snapshot.child)) whole log news }
    ensures refused_fork { (n place : ℕ) (log : Log) (parts news : List PartitionState) (whole : Whole)
        → IsWholeOf n log parts whole → place < length parts → ChangesAt StaysUnforked place parts news
        → IsWholeOf n log news whole }
    ensures close { (n place : ℕ) (log : Log) (parts news : List PartitionState) (whole : Whole) (child : ℕ)
        → IsWholeOf n log parts whole → place < length parts → ChangesAt (λ p q. Closes p q child) place parts news
        → LeadsAll n (at (suc place) (closes child)) whole log news }
    ensures cross { (n : ℕ) (lists : Lists) (job : JobState) (amid : LooksAmid) (log after : Log)
        (parts news : List PartitionState) (answer : DoneState) (whole : Whole) → IsWholeOf n log parts whole
        → IsLoad lists → ArePartitions lists parts → nat_lt 1 (length (warehouses_of job.command)) ≡ true
        → whole.known job.pass.client ≡ length job.pass.seen → job.edition ≡ editions.Second
        → Crosses lists job log after parts news answer
        → LeadsAll n (crosses job.pass.client job.command amid) whole after news }
    ensures fork_all { (n : ℕ) (kit : Origin) (log known : Log) (client : ℕ) (parts news : List PartitionState)
        (whole : Whole) (snapshots : List SnapshotState) → IsWholeOf n log parts whole
        → ForksAll n kit log known parts news snapshots
        → LeadsAll n (forks_all client (children_of snapshots)) whole log news }
    ensures fork_all_from { (n : ℕ) (kit : Origin) (log : Log) (parts news : List PartitionState) (whole : Whole)
        (all snapshots : List SnapshotState) → IsWholeOf n log parts whole → ForksAllFrom kit all parts news snapshots
        → LeadsAll n (forks_all_from (children_of all) (children_of snapshots)) whole log news }
    ensures refused_fork_all { (n : ℕ) (log : Log) (parts news : List PartitionState) (whole : Whole)
        → IsWholeOf n log parts whole → Pairwise (λ number. IsUnforked log) 1 parts news → IsWholeOf n log news whole }
    ensures close_all { (n : ℕ) (log : Log) (parts news : List PartitionState) (whole : Whole)
        (snapshots : List SnapshotState) → IsWholeOf n log parts whole → Pairwise (ClosesHere snapshots) 1 parts news
        → LeadsAll n (closes_all (children_of snapshots)) whole log news }
    ensures drain { (n : ℕ) (log : Log) (parts news : List PartitionState) (whole : Whole)
        → IsWholeOf n log parts whole → Pairwise (TellsHere log) 1 parts news → LeadsAll n drains whole log news }
    ensures tell { (n : ℕ) (log : Log) (parts news : List PartitionState) (whole : Whole)
        → IsWholeOf n log parts whole → Pairwise (TellsHere log) 1 parts news → IsWholeOf n log news whole }
    ensures look { (n : ℕ) (log : Log) (client : ℕ) (parts : List PartitionState) (whole : Whole)
        → IsWholeOf n log parts whole → LeadsAll n (looks client) whole log parts }
{
    calls_are_events();
}

/// Does nothing: its contract says that each call of `calls_of_all_are_events` gives back what the next one asks for. Passes
/// lie in the partitions and in the hands of clients, no two are of one client, and the model knows of each client what
/// its pass has seen (`KnowsClients`). So it is with the passes of a kit beside new partitions, and so it can be beside
/// those of a database at rest. A client hands its pass in with a job, and has the one that the answer gives back: told the
/// whole serial list where the job was accepted, though it may only read, and as it was where it was refused. A fork tells
/// its client, and so does a look at the whole list. Clients that look by passes in their hands while a command over several
/// warehouses is done have seen what the serial list had by then, and one look more. In which order passes are held doesn't
/// matter, and one that is thrown away isn't missed.
pub fn calls_of_all_tell_clients()
    ensures new { (n : ℕ) (lists : Lists) (frames commits clients : ℕ) (parts : List PartitionState)
        → length parts ≡ length lists.tables.warehouses
        → ((place : ℕ) → IfSome (slice_get parts place) (Begins lists (suc place) frames commits))
        → IsWholeKnowing n [] parts (map new_client (range_with_len 0 clients)) (fresh_whole lists) }
    ensures kit { (clients : ℕ) → AreApart (map new_client (range_with_len 0 clients)) }
    ensures rests { (log : Log) (passes : List (PassState Commit)) → AreApart passes
        → All (λ pass. length pass.seen ≤ length log) passes
        → (known : ℕ → ℕ) × ((client : ℕ) → known client ≤ length log) × KnowsClients known passes }
    ensures rested { (n : ℕ) (lists : Lists) (log : Log) (before : ℕ → ℕ) (parts : List PartitionState)
        (held : List (PassState Commit)) → IsWholeOf n log parts (rested_whole lists log before) → AreApart held
        → All (λ pass. length pass.seen ≤ length log) held
        → (known : ℕ → ℕ) × ((client : ℕ) → known client ≤ length log)
        × IsWholeKnowing n log parts held (rested_whole lists log known) }
    ensures begin { (n place : ℕ) (log : Log) (parts news : List PartitionState) (held : List (PassState Commit))
        (whole : Whole) (job : JobState) → IsWholeOf n log parts whole → place < length parts
        → KnowsClients whole.known (passes_in parts ++ job.pass ∷ held) → job.edition ≡ editions.Second
        → ChangesAt (λ p q. (begin_refusal p job.command ≡ None) × (q ≡ with_job p job)) place parts news
        → LeadsKnowing n (at (suc place) (begins job.pass.client job.command)) whole log news held }
    ensures step { (n place : ℕ) (log after : Log) (parts news : List PartitionState) (held : List (PassState Commit))
        (whole : Whole) (job : RunningJob) (progress : Progress) → IsWholeOf n log parts whole → place < length parts
        → KnowsClients whole.known (passes_in parts ++ held)
        → ChangesAt (λ p q. (p.running ≡ Some job) × StepsTo job (Some log) (Some after) p q progress) place parts news
        → LeadsKnowing n (at (suc place) steps) whole after news held }
    ensures take { (n place : ℕ) (log : Log) (parts news : List PartitionState) (held : List (PassState Commit))
        (whole : Whole) (answer : DoneState) → IsWholeOf n log parts whole → place < length parts
        → KnowsClients whole.known (passes_in parts ++ held)
        → ChangesAt (λ p q. (p.finished ≡ Some answer) × (q ≡ record p { finished = None })) place parts news
        → LeadsKnowing n (at (suc place) takes) whole log news (answer.pass ∷ held) }
    ensures fork { (n place : ℕ) (kit : Origin) (log known : Log) (pass : PassState Commit)
        (parts news : List PartitionState) (held : List (PassState Commit)) (whole : Whole) (snapshot : SnapshotState)
        → IsWholeOf n log parts whole → place < length parts
        → KnowsClients whole.known (passes_in parts ++ pass ∷ held)
        → ChangesAt (λ p q. Forks n kit log known p q snapshot) place parts news
        → LeadsKnowing n (at (suc place) (forks pass.client snapshot.child)) whole log news (told pass log ∷ held) }
    ensures fork_from { (n place : ℕ) (kit : Origin) (log : Log) (parts news : List PartitionState)
        (held : List (PassState Commit)) (whole : Whole) (from snapshot : SnapshotState) → IsWholeOf n log parts whole
        → place < length parts → KnowsClients whole.known (passes_in parts ++ held)
        → ChangesAt (λ p q. ForksFrom kit from p q snapshot) place parts news
        → LeadsKnowing n (at (suc place) (forks_from from.child snapshot.child)) whole log news held }
    ensures refused_fork { (n place : ℕ) (log : Log) (parts news : List PartitionState)
        (held : List (PassState Commit)) (whole : Whole) → IsWholeOf n log parts whole → place < length parts
        → KnowsClients whole.known (passes_in parts ++ held) → ChangesAt StaysUnforked place parts news
        → IsWholeKnowing n log news held whole }
    ensures close { (n place : ℕ) (log : Log) (parts news : List PartitionState) (held : List (PassState Commit))
        (whole : Whole) (child : ℕ) → IsWholeOf n log parts whole → place < length parts
        → KnowsClients whole.known (passes_in parts ++ held) → ChangesAt (λ p q. Closes p q child) place parts news
        → LeadsKnowing n (at (suc place) (closes child)) whole log news held }
    ensures cross { (n : ℕ) (lists : Lists) (job : JobState) (log after : Log) (parts news : List PartitionState)
        (held : List (PassState Commit)) (answer : DoneState) (whole : Whole) → IsWholeOf n log parts whole
        → IsLoad lists → ArePartitions lists parts → nat_lt 1 (length (warehouses_of job.command)) ≡ true
        → KnowsClients whole.known (passes_in parts ++ job.pass ∷ held) → job.edition ≡ editions.Second
        → Crosses lists job log after parts news answer
        → LeadsKnowing n (crosses job.pass.client job.command no_looks) whole after news (answer.pass ∷ held) }
    ensures cross_looking { (n : ℕ) (lists : Lists) (job : JobState) (amid : LooksAmid) (before after : Moment)
        (parts news : List PartitionState) (answer : DoneState) (whole : Whole) → IsWholeOf n before.log parts whole
        → IsLoad lists → ArePartitions lists parts → nat_lt 1 (length (warehouses_of job.command)) ≡ true
        → KnowsClients whole.known (passes_in parts ++ job.pass ∷ before.held) → job.edition ≡ editions.Second
        → CrossesLooking lists job amid before after parts news answer
        → LeadsKnowing n (crosses job.pass.client job.command amid) whole after.log news (answer.pass ∷ after.held) }
    ensures fork_all { (n : ℕ) (kit : Origin) (log known : Log) (pass : PassState Commit)
        (parts news : List PartitionState) (held : List (PassState Commit)) (whole : Whole)
        (snapshots : List SnapshotState) → IsWholeOf n log parts whole
        → KnowsClients whole.known (passes_in parts ++ pass ∷ held) → ForksAll n kit log known parts news snapshots
        → LeadsKnowing n (forks_all pass.client (children_of snapshots)) whole log news (told pass log ∷ held) }
    ensures fork_all_from { (n : ℕ) (kit : Origin) (log : Log) (parts news : List PartitionState)
        (held : List (PassState Commit)) (whole : Whole) (all snapshots : List SnapshotState)
        → IsWholeOf n log parts whole → KnowsClients whole.known (passes_in parts ++ held)
        → ForksAllFrom kit all parts news snapshots
        → LeadsKnowing n (forks_all_from (children_of all) (children_of snapshots)) whole log news held }
    ensures refused_fork_all { (n : ℕ) (log : Log) (parts news : List PartitionState) (held : List (PassState Commit))
        (whole : Whole) → IsWholeOf n log parts whole → KnowsClients whole.known (passes_in parts ++ held)
        → Pairwise (λ number. IsUnforked log) 1 parts news → IsWholeKnowing n log news held whole }
    ensures close_all { (n : ℕ) (log : Log) (parts news : List PartitionState) (held : List (PassState Commit))
        (whole : Whole) (snapshots : List SnapshotState) → IsWholeOf n log parts whole
        → KnowsClients whole.known (passes_in parts ++ held) → Pairwise (ClosesHere snapshots) 1 parts news
        → LeadsKnowing n (closes_all (children_of snapshots)) whole log news held }
    ensures drain { (n : ℕ) (log : Log) (parts news : List PartitionState) (held : List (PassState Commit))
        (whole : Whole) → IsWholeOf n log parts whole → KnowsClients whole.known (passes_in parts ++ held)
        → Pairwise (TellsHere log) 1 parts news → LeadsKnowing n drains whole log news held }
    ensures tell { (n : ℕ) (log : Log) (parts news : List PartitionState) (held : List (PassState Commit))
        (whole : Whole) → IsWholeOf n log parts whole → KnowsClients whole.known (passes_in parts ++ held)
        → Pairwise (TellsHere log) 1 parts news → IsWholeKnowing n log news held whole }
    ensures look { (n : ℕ) (log : Log) (pass now : PassState Commit) (parts : List PartitionState)
        (held : List (PassState Commit)) (whole : Whole) → IsWholeOf n log parts whole
        → KnowsClients whole.known (passes_in parts ++ pass ∷ held) → now.client ≡ pass.client → now.seen ≡ log
        → LeadsKnowing n (looks pass.client) whole log parts (now ∷ held) }
    ensures any_order { (known : ℕ → ℕ) (passes others : List (PassState Commit)) → IsPermutation passes others
        → KnowsClients known passes → KnowsClients known others }
    ensures fewer { (known : ℕ → ℕ) (passes others : List (PassState Commit)) (pass : PassState Commit)
        → KnowsClients known (passes ++ pass ∷ others) → KnowsClients known (passes ++ others) }
{
    calls_of_all_are_events();
}

/// Does nothing: its contract says how far the warehouses were drained, in terms of the serial list: not at all at first, to
/// its end in a database at rest and behind a drain, and no other event changes it.
pub fn drains_come_to_the_end()
    ensures fresh { (lists : Lists) → IsDrainedTo [] (fresh_whole lists) }
    ensures rested { (lists : Lists) (log : Log) (known : ℕ → ℕ) → IsDrainedTo log (rested_whole lists log known) }
    ensures stays { (seen : Log) (event : EventOfAll) (old new : Whole) → event ≢ drains → DoesAll event old new
        → IsDrainedTo seen old → IsDrainedTo seen new }
    ensures moves { (lists : Lists) (old new : Whole) → KeepsEverything lists old → DoesAll drains old new
        → IsDrainedTo old.log new }
{}

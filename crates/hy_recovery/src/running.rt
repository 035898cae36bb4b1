//! One commit is run again.

ghost use Rattle.std.specs.Prelude.{◌≡◌, ℕ, IfErr, IfOk, IfSome, None, OnOk, slice_get};
ghost use Rattle.hy_commands.specs.declared.command.Commit.TheVariants as commits;
ghost use Rattle.hy_commands.specs.declared.reply.Reply.TheVariants as replies;
ghost use Rattle.hy_schema.specs.declared.refusal.Refusal.{Refusal};
ghost use Rattle.hy_forks.specs.of_partition.Headline.{Headline};
ghost use Rattle.hy_forks.specs.of_partition.Steps.{begin_refusal};
ghost use Rattle.hy_forks.specs.of_crossing.Crossings.{ArePartitions, HaveNoPart};
ghost use Rattle.hy_forks.specs.of_crossing.Lists.{Pairwise};
ghost use Rattle.hy_recovery.specs.inside.Ways.{CanRunCrossing, CanRunLocal, Enters, HasNoFrameFor, IsShortage, KeepsOne, KeepsWhereNamed, SomeHasNoFrame};

use hy_commands::{Command, Commit, Edition, Reply};
use hy_forks::hy_crossing::cross;
use hy_forks::hy_partition::{Done, Job, Loaded, Partition};
use hy_passes::{Journal, Pass};
use hy_schema::Refusal;

/// The pass of an accepted command, or why it was refused.
fn pass_of<K: Loaded>(done: Done<K>) -> Result<Pass<Commit, K>, Refusal>
    ensures accepted { IfOk result (λ pass. (pass ≡ done.pass)
        × ((why : Refusal) → done.reply ≡ replies.Refused why → ⊥)) }
    ensures refused { IfErr result (λ why. done.reply ≡ replies.Refused why) }
{
    let (reply, pass, _share) = done.open();
    match reply {
        Reply::Refused(refusal) => Err(refusal),
        _ => Ok(pass),
    }
}

/// Runs a command of one warehouse by an edition, and the warehouse keeps it. E2 where no frame is left for it, or E1.
pub(crate) fn run_local<const N: usize, K: Loaded>(
    part: &mut Partition<N, K>,
    journal: &mut Journal<Commit, K>,
    edition: Edition,
    command: Command,
    pass: Pass<Commit, K>,
) -> Result<Pass<Commit, K>, Refusal>
    requires can { CanRunLocal edition command part.old }
    requires begins { begin_refusal part.old command ≡ None }
    ensures kept { OnOk result (KeepsOne (commits.Local edition command) part.old part.new) }
    ensures log { OnOk result (Enters (commits.Local edition command) journal.old.list.log journal.new.list.log) }
    ensures client { IfOk result (λ after. after.client ≡ pass.client) }
    ensures refused { IfErr result (IsShortage (HasNoFrameFor N command part.old)) }
{
    part.headline();
    if let Err((_job, refusal)) = part.begin(Job::of_edition(edition, command, pass)) {
        return Err(refusal);
    }
    part.finish_running(journal);
    let Some(done) = part.take_done() else {
        unreachable!();
    };
    pass_of(done)
}

/// Does nothing: its contract says what holds of every partition.
fn know_all<const N: usize, K: Loaded>(parts: &[Partition<N, K>])
    ensures { (place : ℕ) → IfSome (slice_get parts.now place) (Headline N) }
{
    for place in 0..parts.len() {
        parts[place].headline();
    }
}

/// Runs a command of several warehouses by an edition, and they keep it under the next number. E2 where one has no frame
/// left, or E1.
pub(crate) fn run_crossing<const N: usize, K: Loaded>(
    parts: &mut Vec<Partition<N, K>>,
    journal: &mut Journal<Commit, K>,
    edition: Edition,
    number: u64,
    command: Command,
    pass: Pass<Commit, K>,
) -> Result<Pass<Commit, K>, Refusal>
    requires parts { ArePartitions K.load parts.old.items }
    requires whole { HaveNoPart parts.old.items }
    requires can { CanRunCrossing K.load number command journal.old.list.log parts.old.items }
    ensures kept { OnOk result
        (Pairwise (KeepsWhereNamed command (commits.Cross edition number command)) 1 parts.old.items parts.new.items) }
    ensures log { OnOk result (Enters (commits.Cross edition number command) journal.old.list.log journal.new.list.log) }
    ensures client { IfOk result (λ after. after.client ≡ pass.client) }
    ensures refused { IfErr result (IsShortage (SomeHasNoFrame N parts.old.items)) }
{
    know_all(parts.as_slice());
    let done = cross(parts, journal, Job::of_edition(edition, command, pass));
    pass_of(done)
}

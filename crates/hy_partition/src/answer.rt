//! How an accepted command is kept, told and answered.

ghost use Rattle.std.specs.Prelude.{◌≡◌, ◌++◌, ◌∷◌, [], ◌<◌, ◌≤◌, ◌+◌, false, true, length, None, Some};
ghost use mathlib.Core.List.{IsPrefix};
ghost use Rattle.hy_passes.specs.SerialList.{max_commits};
ghost use Rattle.hy_ledger.specs.Books.{max_cents, max_commits as most_entered};
ghost use Rattle.hy_commands.specs.declared.command.Commit.TheVariants as commits;
ghost use Rattle.hy_commands.specs.Commands.{cents_of, is_reader, kept_of, warehouses_of};
ghost use Rattle.hy_partition.specs.Accounts.{with_command};
ghost use Rattle.hy_partition.specs.Jobs.{accepted_answer, entered_by};
ghost use Rattle.hy_partition.specs.Partition.{projection_of};
ghost use Rattle.hy_partition.specs.Parts.{share_of_part, with_part_entered};

use crate::job::{Done, Running};
use hy_commands::{Command, Commit, Edition, Reply};
use hy_ledger::{Book, Share};
use hy_passes::{Entry, Journal, KeptList, Pass};
use hy_worlds::World;

/// The answer to an accepted command. It is kept, enters the serial list and the book, where it doesn't only read; list
/// and client are told all of the serial list. Takes no memory.
pub fn accept<K: World>(
    kept: &mut KeptList<Commit, K>,
    book: &mut Book<K>,
    journal: &mut Journal<Commit, K>,
    running: Running<K>,
    reply: Reply,
) -> Done<K>
    requires alone { warehouses_of running.command ≡ kept.old.warehouse ∷ [] }
    requires few { length (projection_of kept.old.warehouse kept.old.seen) < max_commits }
    requires room { is_reader running.command ≡ false → 1 ≤ kept.old.room }
    requires few_entered { book.old.commits < most_entered }
    requires small { cents_of running.command ≤ max_cents }
    ensures log { journal.new.list.log ≡ journal.old.list.log ++ entered_by running.edition running.command running.pass }
    ensures warehouse { kept.new.warehouse ≡ kept.old.warehouse }
    ensures seen { kept.new.seen ≡ journal.old.list.log ++ entered_by running.edition running.command running.pass }
    ensures told { IsPrefix kept.old.seen journal.old.list.log }
    ensures client_told { IsPrefix running.pass.seen journal.old.list.log }
    ensures kept { projection_of kept.old.warehouse kept.new.seen ≡ projection_of kept.old.warehouse kept.old.seen ++ kept_of running.edition running.command }
    ensures book { book.new ≡ with_command book.old running.command }
    ensures done { result ≡ accepted_answer running book.old.warehouse reply
        (journal.old.list.log ++ entered_by running.edition running.command running.pass) }
{
    let (edition, command, pass) = running.part();
    if command.is_reader() {
        tell(kept, journal, pass, reply)
    } else {
        keep(kept, book, journal, pass, edition, command, reply)
    }
}

/// The answer to a command that only reads.
fn tell<K: World>(
    kept: &mut KeptList<Commit, K>,
    journal: &mut Journal<Commit, K>,
    mut pass: Pass<Commit, K>,
    reply: Reply,
) -> Done<K>
    ensures log { journal.new.list.log ≡ journal.old.list.log }
    ensures warehouse { kept.new.warehouse ≡ kept.old.warehouse }
    ensures seen { kept.new.seen ≡ journal.old.list.log }
    ensures told { IsPrefix kept.old.seen journal.old.list.log }
    ensures client_told { IsPrefix pass.seen journal.old.list.log }
    ensures kept { projection_of kept.old.warehouse kept.new.seen ≡ projection_of kept.old.warehouse kept.old.seen }
    ensures done { result ≡ record { reply = reply; pass = record pass { seen = journal.old.list.log }; share = None } }
{
    kept.tell(journal);
    journal.tell_client(&mut pass);
    Done::new(reply, pass, None)
}

/// The answer to another one, which is kept, and is stamped with what its client knew when it began.
fn keep<K: World>(
    kept: &mut KeptList<Commit, K>,
    book: &mut Book<K>,
    journal: &mut Journal<Commit, K>,
    mut pass: Pass<Commit, K>,
    edition: Edition,
    command: Command,
    reply: Reply,
) -> Done<K>
    requires alone { warehouses_of command ≡ kept.old.warehouse ∷ [] }
    requires few { length (projection_of kept.old.warehouse kept.old.seen) < max_commits }
    requires room { 1 ≤ kept.old.room }
    requires few_entered { book.old.commits < most_entered }
    requires small { cents_of command ≤ max_cents }
    ensures log { journal.new.list.log ≡ journal.old.list.log ++ record { commit = commits.Local edition command; stamp = length pass.seen } ∷ [] }
    ensures warehouse { kept.new.warehouse ≡ kept.old.warehouse }
    ensures seen { kept.new.seen ≡ journal.old.list.log ++ record { commit = commits.Local edition command; stamp = length pass.seen } ∷ [] }
    ensures told { IsPrefix kept.old.seen journal.old.list.log }
    ensures client_told { IsPrefix pass.seen journal.old.list.log }
    ensures kept { projection_of kept.old.warehouse kept.new.seen ≡ projection_of kept.old.warehouse kept.old.seen ++ commits.Local edition command ∷ [] }
    ensures book { book.new ≡ record book.old { commits = book.old.commits + 1; cents = book.old.cents + cents_of command } }
    ensures done { result ≡ record {
      reply = reply;
      pass = record pass { seen = journal.old.list.log ++ record { commit = commits.Local edition command; stamp = length pass.seen } ∷ [] };
      share = Some (record { warehouse = book.old.warehouse; cents = cents_of command });
    } }
{
    let share = book.enter(command.cents());
    let stamp = pass.known();
    let commit = Commit::Local(edition, command);
    kept.commit(journal, &mut pass, Entry { commit, stamp });
    Done::new(reply, pass, Some(share))
}

/// Enters a command over several warehouses into the book of its home, which gives the share; that of another warehouse
/// stays.
pub fn enter_part<K: World>(
    book: &mut Book<K>,
    warehouse: u8,
    command: &Command,
) -> Option<Share<K>>
    requires here { book.old.warehouse ≡ warehouse }
    requires writes { is_reader command.now ≡ false }
    requires few_entered { book.old.commits < most_entered }
    requires small { cents_of command.now ≤ max_cents }
    ensures book { book.new ≡ with_part_entered warehouse book.old command.now }
    ensures share { result ≡ share_of_part warehouse command.now }
{
    if command.home() != u64::from(warehouse) {
        return None;
    }
    Some(book.enter(command.cents()))
}

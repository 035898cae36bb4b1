//! A command whose parts are done enters the serial list.

ghost use Rattle.std.specs.Prelude.{◌≡◌, ◌≤◌, ◌∷◌, ◌++◌, [], IfSome, IsSome, length, nat_lt, true};
ghost use Rattle.std.specs.List.{list_all};
ghost use mathlib.Core.List.{IsPrefix};
ghost use Rattle.hy_rows.specs.Ranges.{is_between};
ghost use Rattle.hy_commands.specs.Commands.{home_of, warehouses_of};
ghost use Rattle.hy_partition.specs.Jobs.{share_of, told};
ghost use Rattle.hy_crossing.specs.Crossings.{AreDone, AreKnown, ArePartitions, KeepsPartIfNamed, crossing_entry, next_number};
ghost use Rattle.hy_crossing.specs.Lists.{Pairwise};
ghost use Rattle.hy_crossing.specs.Named.{places_of};
ghost use Rattle.hy_crossing.specs.Unsettled.{AreCounted};

use crate::keeping::keep_parts;
use crate::named::{NamedCommand, NamedPlaces};
use crate::parts::Parts;
use hy_commands::{Command, Commit, Edition};
use hy_partition::{Done, Loaded, Partition, UnsettledParts};
use hy_passes::{Entry, Journal, Pass};

/// What is known of the partitions of the warehouses that a command names. Changes nothing.
pub(crate) fn know_named<const N: usize, K: Loaded, P: Parts<Part = Partition<N, K>>>(
    parts: &mut P,
    command: &NamedCommand<'_>,
)
    requires few { length (P.states parts.old) ≤ 16 }
    ensures known { AreKnown command.now K.passes.partitions (P.states parts.old) }
    ensures same { P.states parts.new ≡ P.states parts.old }
{
    let places = command.places_before(parts.len());
    for &place in places {
        let part = parts.part(place);
        part.headline();
        part.ties();
    }
}

/// Lets a command whose parts are done, with the places that it names, enter the serial list, with the next number among
/// those of several warehouses, and keeps its parts. The client is told the whole list, and gets their reply. Takes no memory.
pub fn keep_all<const N: usize, K: Loaded, P: Parts<Part = Partition<N, K>>>(
    parts: &mut P,
    mut unsettled: UnsettledParts<K>,
    journal: &mut Journal<Commit, K>,
    edition: Edition,
    command: Command,
    places: &NamedPlaces,
    mut pass: Pass<Commit, K>,
) -> Done<K>
    requires parts { ArePartitions K.load (P.states parts.old) }
    requires few { length (P.states parts.old) ≤ 16 }
    requires named { places.now ≡ places_of command }
    requires there { list_all (is_between 1 (length (P.states parts.old))) (warehouses_of command) ≡ true }
    requires several { nat_lt 1 (length (warehouses_of command)) ≡ true }
    requires done { AreDone edition command journal.old.list.log (P.states parts.old) }
    requires counted { AreCounted edition command (length (P.states parts.old)) unsettled }
    requires replied { IsSome unsettled.reply }
    ensures log { journal.new.list.log
        ≡ journal.old.list.log ++ crossing_entry edition command (length pass.seen) journal.old.list.log ∷ [] }
    ensures kept { Pairwise (KeepsPartIfNamed edition command (next_number journal.old.list.log) journal.new.list.log) 1
        (P.states parts.old) (P.states parts.new) }
    ensures client { IsPrefix pass.seen journal.old.list.log }
    ensures answer { IfSome unsettled.reply (λ reply. result ≡ record {
      reply = reply;
      pass = told pass journal.new.list.log;
      share = share_of (home_of command) command;
    }) }
{
    know_named(parts, &NamedCommand::new(&command, places));
    let stamp = pass.known();
    journal.tell_client(&mut pass);
    let crossing = journal.list.next_crossing();
    let entry = Entry {
        commit: Commit::Cross(edition, crossing, command),
        stamp,
    };
    journal.list.append(&entry);
    keep_parts(
        parts,
        &mut unsettled,
        &mut journal.list,
        edition,
        &NamedCommand::new(entry.commit.command(), places),
        crossing,
    );
    journal.list.tell_client(&mut pass);
    unsettled.answer(pass)
}

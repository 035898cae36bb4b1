//! The parts of a command are kept.

ghost use Rattle.std.specs.Prelude.{◌≡◌, ◌-◌, ◌≤◌, ◌==◌, not, true, [], IfSome, filter, length, slice_get};
ghost use Rattle.std.specs.List.{list_all};
ghost use Rattle.hy_rows.specs.Ranges.{IsBetween, is_between};
ghost use Rattle.hy_commands.specs.Commands.{home_of, warehouses_of};
ghost use Rattle.hy_partition.specs.Jobs.{share_of};
ghost use Rattle.hy_partition.specs.Unsettled.{part_of};
ghost use Rattle.hy_crossing.specs.Crossings.{ArePartitions, AreReady, IsPartition, IsReadyIfNamed, KeepsPartIfNamed, is_named};
ghost use Rattle.hy_crossing.specs.Lists.{Pairwise};
ghost use Rattle.hy_crossing.specs.Unsettled.{AreCounted, KeepsAt, one_if_named, unsettled_of};

use crate::named::NamedCommand;
use crate::parts::Parts;
use hy_commands::{Commit, Edition};
use hy_partition::{Loaded, Partition, UnsettledParts};
use hy_passes::SerialList;

/// Keeps the part of the warehouse with a number, which the command names.
fn keep_here<const N: usize, K: Loaded, P: Parts<Part = Partition<N, K>>>(
    parts: &mut P,
    unsettled: &mut UnsettledParts<K>,
    list: &mut SerialList<Commit, K>,
    number: u64,
    edition: Edition,
    command: &NamedCommand<'_>,
    crossing: u64,
)
    requires there { IsBetween 1 (length (P.states parts.old)) number }
    requires named { is_named command.now number ≡ true }
    requires is { IfSome (slice_get (P.states parts.old) (number - 1)) (IsPartition K.load number) }
    requires ready { IfSome (slice_get (P.states parts.old) (number - 1))
        (IsReadyIfNamed edition command.now crossing list.old.log number) }
    requires same { part_of unsettled.old ≡ record { edition = edition; command = command.now } }
    requires counted { one_if_named command.now number ≤ unsettled.old.count }
    ensures kept { KeepsAt edition command.now crossing list.old.log number unsettled.old unsettled.new
        (P.states parts.old) (P.states parts.new) }
    ensures log { list.new.log ≡ list.old.log }
    ensures behind { list.new.behind ≡ filter (λ w. not (w == number)) list.old.behind }
{
    let part = parts.part(number as usize - 1);
    part.keep_part(unsettled, list, crossing);
}

/// Keeps the parts of a command that has just entered the serial list under a number among those of several warehouses,
/// and notes the share of its home. Each warehouse that it names is told the whole list. Takes no memory.
pub fn keep_parts<const N: usize, K: Loaded, P: Parts<Part = Partition<N, K>>>(
    parts: &mut P,
    unsettled: &mut UnsettledParts<K>,
    list: &mut SerialList<Commit, K>,
    edition: Edition,
    command: &NamedCommand<'_>,
    crossing: u64,
)
    requires parts { ArePartitions K.load (P.states parts.old) }
    requires few { length (P.states parts.old) ≤ 16 }
    requires there { list_all (is_between 1 (length (P.states parts.old))) (warehouses_of command.now) ≡ true }
    requires ready { AreReady edition command.now crossing list.old.log (P.states parts.old) }
    requires behind { list.old.behind ≡ warehouses_of command.now }
    requires counted { AreCounted edition command.now (length (P.states parts.old)) unsettled.old }
    ensures kept { Pairwise (KeepsPartIfNamed edition command.now crossing list.old.log) 1 (P.states parts.old)
        (P.states parts.new) }
    ensures settled { unsettled.new ≡ unsettled_of edition command.now 0 unsettled.old.reply
        (share_of (home_of command.now) command.now) }
    ensures log { list.new.log ≡ list.old.log }
    ensures told { list.new.behind ≡ [] }
{
    let places = command.places_before(parts.len());
    for &place in places {
        keep_here(
            parts,
            unsettled,
            list,
            place as u64 + 1,
            edition,
            command,
            crossing,
        );
    }
}

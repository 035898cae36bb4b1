//! The parts of a command are done, in all warehouses that it names or in none.

ghost use Rattle.std.specs.Prelude.{◌≡◌, ◌+◌, ◌-◌, ◌^◌, ◌<◌, ◌≤◌, true, IfErr, IfOk, IfSome, OnErr, OnOk, length, slice_get};
ghost use Rattle.hy_rows.specs.Ranges.{IsBetween};
ghost use Rattle.hy_commands.specs.Commands.{customer_home_of};
ghost use Rattle.hy_partition.specs.Unsettled.{part_of};
ghost use Rattle.hy_crossing.specs.Crossings.{AllMayRun, ArePartitions, CanDoIfNamed, CanDoParts, DoesIfNamed, FailsHere, IsWhyNotDone, LeavesIfNamed, MayRunIfNamed, is_named};
ghost use Rattle.hy_crossing.specs.Lists.{ChangesAt, Pairwise};
ghost use Rattle.hy_crossing.specs.Unsettled.{AreAllDone, DoesAt};

use crate::named::NamedCommand;
use crate::parts::Parts;
use crate::undoing::undo_parts;
use hy_commands::Edition;
use hy_partition::{Loaded, Partition, UnsettledParts};
use hy_schema::Refusal;

/// Does the part of the warehouse with a number, which the command names.
fn do_here<const N: usize, K: Loaded, P: Parts<Part = Partition<N, K>>>(
    parts: &mut P,
    unsettled: &mut UnsettledParts<K>,
    number: u64,
    edition: Edition,
    command: &NamedCommand<'_>,
) -> Result<(), Refusal>
    requires there { IsBetween 1 (length (P.states parts.old)) number }
    requires named { is_named command.now number ≡ true }
    requires can { IfSome (slice_get (P.states parts.old) (number - 1)) (CanDoIfNamed command.now number) }
    requires edition { IfSome (slice_get (P.states parts.old) (number - 1)) (MayRunIfNamed edition command.now number) }
    requires same { part_of unsettled.old ≡ record { edition = edition; command = command.now } }
    requires countable { unsettled.old.count + 1 < 2 ^ 64 }
    ensures done { OnOk result (DoesAt edition command.now number unsettled.old unsettled.new
        (P.states parts.old) (P.states parts.new)) }
    ensures refused { IfErr result (λ why. ChangesAt (FailsHere command.now why number) (number - 1)
        (P.states parts.old) (P.states parts.new)) }
    ensures uncounted { OnErr result (unsettled.new ≡ unsettled.old) }
{
    let part = parts.part(number as usize - 1);
    part.headline();
    let copy = command.copy()?;
    part.do_part(unsettled, edition, copy)
}

/// Does the part of each warehouse that a command names, so that they are to be kept, and notes the reply of the warehouse
/// whose customer is named. Where a part is refused, E2 where no frame is free or E1, those before it are undone, so that
/// none is done.
pub fn do_parts<const N: usize, K: Loaded, P: Parts<Part = Partition<N, K>>>(
    parts: &mut P,
    edition: Edition,
    command: &NamedCommand<'_>,
) -> Result<UnsettledParts<K>, Refusal>
    requires parts { ArePartitions K.load (P.states parts.old) }
    requires few { length (P.states parts.old) ≤ 16 }
    requires can { CanDoParts command.now (P.states parts.old) }
    requires edition { AllMayRun edition command.now (P.states parts.old) }
    requires there { IsBetween 1 (length (P.states parts.old)) (customer_home_of command.now) }
    ensures done { OnOk result (Pairwise (DoesIfNamed edition command.now) 1 (P.states parts.old) (P.states parts.new)) }
    ensures all { IfOk result (AreAllDone edition command.now (P.states parts.old)) }
    ensures left { OnErr result (Pairwise (LeavesIfNamed command.now) 1 (P.states parts.old) (P.states parts.new)) }
    ensures refused { IfErr result (IsWhyNotDone (P.states parts.old) (P.states parts.new)) }
{
    let mut unsettled = UnsettledParts::none(edition, command.command());
    let places = command.places_before(parts.len());
    for &place in places {
        if let Err(refusal) = do_here(parts, &mut unsettled, place as u64 + 1, edition, command) {
            undo_parts(parts, unsettled, command, place);
            return Err(refusal);
        }
    }
    Ok(unsettled)
}

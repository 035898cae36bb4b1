//! The parts of a command are undone.

ghost use Rattle.std.specs.Prelude.{◌≡◌, ◌⊎◌, ◌≤◌, None, length};
ghost use Rattle.hy_partition.specs.Unsettled.{part_of};
ghost use Rattle.hy_crossing.specs.Crossings.{AreQuiet, UndoesIfNamed};
ghost use Rattle.hy_crossing.specs.Lists.{IsDoneUpTo};
ghost use Rattle.hy_crossing.specs.Unsettled.{AreHeldBefore, named_before};

use crate::named::NamedCommand;
use crate::parts::Parts;
use hy_partition::{Loaded, Partition, UnsettledParts};

/// Undoes the parts of a command in the warehouses before a place, which are all that are done. Takes no memory and no frame.
pub fn undo_parts<const N: usize, K: Loaded, P: Parts<Part = Partition<N, K>>>(
    parts: &mut P,
    mut unsettled: UnsettledParts<K>,
    command: &NamedCommand<'_>,
    end: usize,
)
    requires end { end ≤ length (P.states parts.old) }
    requires few { length (P.states parts.old) ≤ 16 }
    requires quiet { AreQuiet command.now (P.states parts.old) }
    requires held { AreHeldBefore command.now end (part_of unsettled) (P.states parts.old) }
    requires counted { unsettled.count ≡ named_before command.now end }
    requires replied { (unsettled.reply ≡ None) ⊎ (1 ≤ unsettled.count) }
    requires unshared { unsettled.share ≡ None }
    ensures { IsDoneUpTo (UndoesIfNamed command.now) end (P.states parts.old) (P.states parts.new) }
{
    let places = command.places_before(end);
    for &place in places {
        parts.part(place).undo_part(&mut unsettled);
    }
    unsettled.close();
}

//! The slices of a purchase.

ghost use Rattle.std.specs.Prelude.{◌≡◌, ◌+◌, ◌<◌, ◌⊎◌, ◌↔◌, false, length, IfErr, IfOk, IsErrOf, OnOk, Some};
ghost use Rattle.hy_frames.specs.FrameTable.{free_of};
ghost use Rattle.hy_space.specs.Space.{owner_bytes};
ghost use Rattle.hy_slices.specs.Slices.{has_item_at, line_behind};
ghost use Rattle.hy_writers.specs.of_store.Stored.{HasStore};
ghost use Rattle.hy_writers.specs.of_store.Writes.{IsWritableStore, LeavesStore, WritesStore, stored_in};
ghost use Rattle.hy_tpcc.specs.Executor.{DoesSlice, IsAnswer, IsPartlyDone, IsReply};

use crate::refused::refusal_of_shortage;
use hy_commands::{Command, Purchase, PurchaseLine, Reply};
use hy_frames::Shortage;
use hy_layout::Layout;
use hy_schema::Refusal;
use hy_space::Space;
use hy_undo::Undo;
use hy_writers::hy_store::know_store;
use hy_writers::{add_line, add_order, own_next_order, purchase_total};

/// The first slice of a purchase: its head.
fn place_order<const N: usize>(
    layout: &Layout,
    space: &mut Space<N>,
    undo: &mut Undo<N>,
    order: &Purchase,
    place: u64,
) -> Result<(), Shortage>
    requires writable { IsWritableStore N space.old undo.old }
    requires done { IsPartlyDone layout.now (Command.NewOrder order.now) place 0 (stored_in N space.old) }
    ensures done { OnOk result (LeavesStore N space.old space.new
        (DoesSlice layout.now (Command.NewOrder order.now) place 0)) }
    ensures writes { WritesStore N space.old space.new undo.old undo.new }
    ensures no_frame { IsErrOf result Shortage.NoFrame → free_of space.new.frames ≡ 0 }
{
    know_store(space);
    layout.load().sound();
    layout.know_places();
    add_order(layout, space, undo, order)
}

/// The line behind so many.
fn line_behind(order: &Purchase, lines: u64) -> PurchaseLine
    requires { lines < length order.now.lines }
    ensures { line_behind order.now lines ≡ Some result }
{
    order.lines.line(lines as usize)
}

/// The next slice of a purchase behind its head and so many slices in all: its next line. E7 where the item of the line
/// isn't there.
fn place_line<const N: usize>(
    layout: &Layout,
    space: &mut Space<N>,
    undo: &mut Undo<N>,
    order: &Purchase,
    place: u64,
    done: u64,
) -> Result<(), Refusal>
    requires writable { IsWritableStore N space.old undo.old }
    requires behind { 0 < done }
    requires next { done < length order.now.lines + 1 }
    requires done { IsPartlyDone layout.now (Command.NewOrder order.now) place done (stored_in N space.old) }
    ensures done { OnOk result (LeavesStore N space.old space.new
        (DoesSlice layout.now (Command.NewOrder order.now) place done)) }
    ensures no_item { IsErrOf result Refusal.NoSuchItem
        ↔ (has_item_at layout.now.load.items (Command.NewOrder order.now) done ≡ false) }
    ensures still { IsErrOf result Refusal.NoSuchItem → (space.new ≡ space.old) × (undo.new ≡ undo.old) }
    ensures refused { IfErr result (λ refusal. (refusal ≡ Refusal.NoSuchItem)
        ⊎ (refusal ≡ Refusal.NoFrame) ⊎ (refusal ≡ Refusal.NoMemory)) }
    ensures writes { WritesStore N space.old space.new undo.old undo.new }
    ensures no_frame { IsErrOf result Refusal.NoFrame → free_of space.new.frames ≡ 0 }
{
    layout.load().sound();
    layout.know_places();
    let lines = done - 1;
    let line = line_behind(order, lines);
    let Some(item) = layout.item(line.item) else {
        return Err(Refusal::NoSuchItem);
    };
    match add_line(layout, space, undo, order, lines as u8, &line, item) {
        Ok(()) => Ok(()),
        Err(shortage) => Err(refusal_of_shortage(shortage)),
    }
}

/// The reply to a purchase all of whose slices are done, for the customer at a place.
fn reply_to_order<const N: usize>(
    layout: &Layout,
    space: &Space<N>,
    order: &Purchase,
    place: u64,
) -> Reply
    requires store { HasStore N (owner_bytes space.now) }
    requires done { IsPartlyDone layout.now (Command.NewOrder order.now) place (length order.now.lines + 1)
        (stored_in N space.now) }
    ensures { IsReply layout.now (Command.NewOrder order.now) place (length order.now.lines + 1)
        (stored_in N space.now) result }
{
    layout.load().sound();
    layout.know_places();
    let number = own_next_order(layout, space, order.district) - 1;
    Reply::NewOrder {
        order: number,
        total: purchase_total(layout, space, order, place),
    }
}

/// The next slice of a purchase behind so many: its head, and then each of its lines, the last one with the reply.
pub(crate) fn buy<const N: usize>(
    layout: &Layout,
    space: &mut Space<N>,
    undo: &mut Undo<N>,
    order: &Purchase,
    place: u64,
    done: u64,
) -> Result<Option<Reply>, Refusal>
    requires writable { IsWritableStore N space.old undo.old }
    requires next { done < length order.now.lines + 1 }
    requires done { IsPartlyDone layout.now (Command.NewOrder order.now) place done (stored_in N space.old) }
    ensures done { OnOk result (LeavesStore N space.old space.new
        (DoesSlice layout.now (Command.NewOrder order.now) place done)) }
    ensures reply { IfOk result (IsAnswer layout.now (Command.NewOrder order.now) place done (stored_in N space.old)) }
    ensures no_item { IsErrOf result Refusal.NoSuchItem
        ↔ (has_item_at layout.now.load.items (Command.NewOrder order.now) done ≡ false) }
    ensures still { IsErrOf result Refusal.NoSuchItem → (space.new ≡ space.old) × (undo.new ≡ undo.old) }
    ensures refused { IfErr result (λ refusal. (refusal ≡ Refusal.NoSuchItem)
        ⊎ (refusal ≡ Refusal.NoFrame) ⊎ (refusal ≡ Refusal.NoMemory)) }
    ensures writes { WritesStore N space.old space.new undo.old undo.new }
    ensures no_frame { IsErrOf result Refusal.NoFrame → free_of space.new.frames ≡ 0 }
{
    if done == 0 {
        return match place_order(layout, space, undo, order, place) {
            Ok(()) => Ok(None),
            Err(shortage) => Err(refusal_of_shortage(shortage)),
        };
    }
    place_line(layout, space, undo, order, place, done)?;
    if done < order.lines.len() as u64 {
        return Ok(None);
    }
    Ok(Some(reply_to_order(layout, space, order, place)))
}

//! The slices of a delivery.

ghost use Rattle.std.specs.Prelude.{◌≡◌, ◌<◌, IfOk, IsErrOf, OnOk, length};
ghost use Rattle.hy_undo.specs.Writes.{IsOutOfFrames};
ghost use Rattle.hy_writers.specs.of_store.Writes.{IsWritableStore, LeavesStore, WritesStore, stored_in};
ghost use Rattle.hy_tpcc.specs.Deliveries.{AnswersDelivery, DeliversNext, IsNextDelivered, RunsDelivery, noting};
ghost use Rattle.hy_tpcc.specs.Executor.{DoesSlice, IsPartlyDone};

use arrayvec::ArrayVec;
use hy_commands::{Command, Delivery, Reply};
use hy_frames::Shortage;
use hy_layout::Layout;
use hy_space::Space;
use hy_undo::Undo;
use hy_writers::deliver_in;
use hy_writers::hy_index::Entry;
use hy_writers::hy_store::LineKey;

/// The next slice of a delivery behind so many: that of district `done + 1`. Gives the number of the order that was
/// delivered, or 0.
fn deliver_next<const N: usize>(
    layout: &Layout,
    space: &mut Space<N>,
    undo: &mut Undo<N>,
    delivery: &Delivery,
    place: u64,
    done: u8,
    entries: &mut Vec<Entry<LineKey>>,
) -> Result<u32, Shortage>
    requires writable { IsWritableStore N space.old undo.old }
    requires next { done < 10 }
    requires done { IsPartlyDone layout.now (Command.Delivery delivery.now) place done (stored_in N space.old) }
    ensures done { OnOk result (LeavesStore N space.old space.new
        (DoesSlice layout.now (Command.Delivery delivery.now) place done)) }
    ensures number { IfOk result (IsNextDelivered layout.now delivery.now place done (stored_in N space.old)) }
    ensures writes { WritesStore N space.old space.new undo.old undo.new }
    ensures no_frame { IsErrOf result Shortage.NoFrame → IsOutOfFrames space.new }
{
    let number = deliver_in(layout, space, undo, delivery, done + 1, entries)?;
    Ok(number)
}

/// The numbers of the orders that ten slices have delivered.
fn orders_of(delivered: &ArrayVec<u32, 10>) -> [u32; 10]
    requires { length delivered.now.items ≡ 10 }
    ensures { result ≡ delivered.now.items }
{
    match <[u32; 10]>::try_from(delivered.as_slice()) {
        Ok(orders) => orders,
        Err(_) => unreachable!(),
    }
}

/// The next slice of a delivery behind so many, which notes the order that it delivers; the last one with the reply.
pub(crate) fn deliver<const N: usize>(
    layout: &Layout,
    space: &mut Space<N>,
    undo: &mut Undo<N>,
    delivery: &Delivery,
    place: u64,
    done: u64,
    entries: &mut Vec<Entry<LineKey>>,
    delivered: &mut ArrayVec<u32, 10>,
) -> Result<Option<Reply>, Shortage>
    requires writable { IsWritableStore N space.old undo.old }
    requires next { done < 10 }
    requires under_way { RunsDelivery (noting layout.now place delivered.old.items) delivery.now done
        (stored_in N space.old) }
    ensures under_way { OnOk result (LeavesStore N space.old space.new
        (DeliversNext (noting layout.now place delivered.old.items) (noting layout.now place delivered.new.items)
        delivery.now done)) }
    ensures reply { IfOk result
        (AnswersDelivery (noting layout.now place delivered.old.items) delivery.now done (stored_in N space.old)) }
    ensures writes { WritesStore N space.old space.new undo.old undo.new }
    ensures no_frame { IsErrOf result Shortage.NoFrame → IsOutOfFrames space.new }
{
    let number = deliver_next(layout, space, undo, delivery, place, done as u8, entries)?;
    delivered.push(number);
    if done < 9 {
        return Ok(None);
    }
    let orders = orders_of(delivered);
    Ok(Some(Reply::Delivery { orders }))
}

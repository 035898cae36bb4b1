//! How few frames an order needs behind a snapshot.

ghost use Rattle.std.specs.Prelude.{◌≡◌, [], length};

use crate::commands::order_of;
use crate::halls::{Hall, MAX_FRAMES, Request};
use crate::model::Rows;
use hy_commands::{Commit, Reply};
use hy_loads::Load;
use hy_partition::Loaded;
use hy_passes::{Kit, make};
use hy_schema::Refusal;
use hy_tables::generate;
use std::marker::Brand;
use std::process::Abort;

/// Whether an order is done behind a snapshot where so many frames are free. Where it isn't, it is refused with E2, and a new
/// snapshot has no order.
fn is_done_with<K: Loaded, R: Abort + AllocGlobal>(rt: &R, mut hall: Hall<K>, frames: u64) -> bool {
    let taken = hall.fork(rt, rt.alloc()).expect(rt, "a snapshot");
    let used = MAX_FRAMES.saturating_sub(hall.part(rt, 1).free());
    let limit = Request::Frames(used.saturating_add(frames));
    assert!(rt; hall.ask(rt, 1, limit).is_ok() && hall.part(rt, 1).free() == frames);
    let order = order_of(rt, 1, &[(1, 1), (2, 1), (3, 1), (4, 1), (5, 1)]);
    let is_done = match hall.run(rt, order) {
        Reply::NewOrder {
            order: 1,
            total: 5536,
        } => true,
        Reply::Refused(Refusal::NoFrame) => false,
        _ => panic!(rt; "an order, or no frame"),
    };
    let again = hall.fork(rt, rt.alloc()).expect(rt, "a snapshot");
    let (old, new) = (Rows::of(rt, &taken, 1), Rows::of(rt, &again, 1));
    assert!(rt; old.orders.is_empty() && new.is_same(&old) != is_done);
    assert!(rt; new.orders.len() == usize::from(is_done));
    hall.close(rt, again);
    hall.close(rt, taken);
    is_done
}

/// The same in the world of the load and the kit.
fn is_done_in<K: Loaded, R: Abort + AllocGlobal>(
    rt: &R,
    load: &Load,
    kit: Kit<Commit>,
    frames: u64,
) -> bool
    requires load { load.now ≡ K.load }
    requires kit { kit ≡ K.passes }
    requires partitions { kit.partitions ≡ length load.now.tables.warehouses }
    requires new { kit.replayed ≡ [] }
{
    is_done_with(rt, Hall::<K>::new(rt, load, kit, 100), frames)
}

/// The same on a load of its own.
fn is_done<R: Abort + AllocGlobal>(rt: &R, frames: u64) -> bool {
    let load = generate(rt.alloc(), 2, 3, 20).expect(rt, "a load");
    assert!(rt; load.tables().warehouses.len() == 2);
    let kit = make::<Commit>(rt.alloc(), 2, 2, 1).expect(rt, "a kit");
    is_done_in::<Brand, R>(rt, &load, kit, frames)
}

#[test]
fn least_frames(rt: HostRuntime) {
    for frames in 0..=100 {
        if is_done(&rt, frames) {
            assert!(&rt; frames > 0);
            return;
        }
    }
    panic!(&rt; "a hundred frames are enough");
}

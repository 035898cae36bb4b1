//! The slices of a payment.

ghost use Rattle.std.specs.Prelude.{◌≡◌, ◌<◌, ◌⊎◌, IfErr, IfOk, IsErrOf, OnOk, Some, length, slice_get};
ghost use Rattle.hy_rows.specs.declared.customer.Customer.{Customer};
ghost use Rattle.hy_space.specs.Space.{owner_bytes};
ghost use Rattle.hy_writers.specs.of_store.Stored.{HasStore};
ghost use Rattle.hy_writers.specs.of_store.Writes.{IsWritableStore, LeavesStore, WritesStore, stored_in};
ghost use Rattle.hy_tpcc.specs.Payments.{AnswersPayment, IsPartlyPaid, PaysNext};
ghost use Rattle.hy_tpcc.specs.Shortages.{FindsNoFrame};

use crate::refused::refusal_of_shortage;
use hy_commands::{Command, Edition, Payment, Reply};
use hy_layout::Layout;
use hy_rows::CustomerNumber;
use hy_schema::Refusal;
use hy_space::Space;
use hy_undo::Undo;
use hy_writers::hy_store::part_at;
use hy_writers::{pay_customer, pay_home};

/// The number of the customer at a place.
pub(crate) fn number_at<const N: usize>(space: &Space<N>, place: u64) -> u16
    requires store { HasStore N (owner_bytes space.now) }
    requires there { place < length (stored_in N space.now).tables.customers }
    ensures { (row : Customer) × (slice_get (stored_in N space.now).tables.customers place ≡ Some row)
        × (result ≡ row.id) }
{
    let customer: CustomerNumber = part_at(space, place);
    customer.number
}

/// The next slice of a payment behind so many: the home warehouse's, then the customer's with the reply.
pub(crate) fn pay<const N: usize>(
    layout: &Layout,
    space: &mut Space<N>,
    undo: &mut Undo<N>,
    edition: Edition,
    payment: &Payment,
    place: u64,
    done: u64,
) -> Result<Option<Reply>, Refusal>
    requires writable { IsWritableStore N space.old undo.old }
    requires next { done < 2 }
    requires done { IsPartlyPaid layout.now edition payment.now place done (stored_in N space.old) }
    ensures done { OnOk result (LeavesStore N space.old space.new
        (PaysNext layout.now edition payment.now place done)) }
    ensures reply { IfOk result (AnswersPayment layout.now edition payment.now place done (stored_in N space.old)) }
    ensures refused { IfErr result (λ refusal. (refusal ≡ Refusal.NoFrame) ⊎ (refusal ≡ Refusal.NoMemory)) }
    ensures writes { WritesStore N space.old space.new undo.old undo.new }
    ensures no_frame { IsErrOf result Refusal.NoFrame → FindsNoFrame (Command.Payment payment.now) done space.new }
{
    if done == 0 {
        layout.load().sound();
        layout.know_places();
        let customer = number_at(space, place);
        return match pay_home(layout, space, undo, payment, customer) {
            Ok(()) => Ok(None),
            Err(shortage) => Err(refusal_of_shortage(shortage)),
        };
    }
    match pay_customer(layout, space, undo, edition, payment, place) {
        Ok(reply) => Ok(Some(reply)),
        Err(shortage) => Err(refusal_of_shortage(shortage)),
    }
}

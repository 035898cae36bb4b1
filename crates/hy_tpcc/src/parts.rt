//! What one warehouse does of a command over several warehouses.

ghost use Rattle.std.specs.Prelude.{◌≡◌, ◌≢◌, ◌+◌, ◌<◌, ◌⊎◌, true, length, Some, IfErr, IfOk, IsErrOf, OnOk};
ghost use Rattle.hy_frames.specs.FrameTable.{free_of};
ghost use Rattle.hy_commands.specs.Growth.{HasGrownBy};
ghost use Rattle.hy_commands.specs.Commands.{customer_home_of};
ghost use Rattle.hy_commands.specs.Parts.{is_number, number_in, payer_number};
ghost use Rattle.hy_commands.specs.Transactions.{has_items};
ghost use Rattle.hy_space.specs.Space.{owner_bytes};
ghost use Rattle.hy_writers.specs.of_store.Stored.{HasStore};
ghost use Rattle.hy_writers.specs.of_store.Writes.{IsWritableStore, LeavesStore, WritesStore, stored_in};
ghost use Rattle.hy_undo.specs.Writes.{IsOutOfFrames};
ghost use Rattle.hy_writers.specs.Waiting.{IsSoundStore};
ghost use Rattle.hy_tpcc.specs.Executor.{DoesSlice, DoesSlices, HasCustomerAt, IsAnswer, IsPartlyDone};
ghost use Rattle.hy_tpcc.specs.Parts.{DoesPart, DoesPartInEach, FindsPayer, HasPart, IsReplyInEach, reply_of_part};

use crate::begin::customer_place;
use crate::payment::number_at;
use crate::purchase::buy;
use crate::refused::refusal_of_shortage;
use hy_commands::{Command, Edition, Payment, Purchase, Reply, Who};
use hy_frames::Shortage;
use hy_layout::Layout;
use hy_schema::Refusal;
use hy_space::Space;
use hy_undo::Undo;
use hy_writers::{pay_customer, pay_home, sell_line};

/// The number of the customer who pays, and stands at a place; 0 where nobody pays.
fn payer_at<const N: usize>(space: &Space<N>, command: &Command, place: u64) -> u64
    requires store { HasStore N (owner_bytes space.now) }
    requires customer { HasCustomerAt (customer_home_of command.now) command.now (stored_in N space.now).tables place }
    ensures { result ≡ payer_number (stored_in N space.now).tables command.now }
{
    match command {
        Command::Payment(_) => u64::from(number_at(space, place)),
        _ => 0,
    }
}

/// The number of the customer who pays, who is one of this warehouse, and 0 where nobody does; none where the customer
/// whom a command names isn't there.
pub(crate) fn find_payer<const N: usize>(
    layout: &Layout,
    space: &Space<N>,
    command: &Command,
) -> Option<u64>
    requires store { HasStore N (owner_bytes space.now) }
    requires sound { IsSoundStore layout.now (stored_in N space.now) }
    requires here { customer_home_of command.now ≡ layout.now.warehouse }
    ensures { FindsPayer command.now (stored_in N space.now).tables result }
{
    match customer_place(layout, command) {
        Some(place) => Some(payer_at(space, command, place)),
        None => None,
    }
}

/// The next slice of a purchase behind so many, whose items are all there.
fn buy_known<const N: usize>(
    layout: &Layout,
    space: &mut Space<N>,
    undo: &mut Undo<N>,
    order: &Purchase,
    place: u64,
    done: u64,
) -> Result<Option<Reply>, Refusal>
    requires writable { IsWritableStore N space.old undo.old }
    requires next { done < length order.now.lines + 1 }
    requires known { has_items layout.now.load.items (Command.NewOrder order.now) ≡ true }
    requires done { IsPartlyDone layout.now (Command.NewOrder order.now) place done (stored_in N space.old) }
    ensures done { OnOk result (LeavesStore N space.old space.new
        (DoesSlice layout.now (Command.NewOrder order.now) place done)) }
    ensures reply { IfOk result (IsAnswer layout.now (Command.NewOrder order.now) place done (stored_in N space.old)) }
    ensures refused { IfErr result (λ refusal. (refusal ≡ Refusal.NoFrame) ⊎ (refusal ≡ Refusal.NoMemory)) }
    ensures writes { WritesStore N space.old space.new undo.old undo.new }
    ensures no_frame { IsErrOf result Refusal.NoFrame → free_of space.new.frames ≡ 0 }
{
    buy(layout, space, undo, order, place, done)
}

/// All slices of a purchase but the last one, whose items are all there.
fn buy_all_but_last<const N: usize>(
    layout: &Layout,
    space: &mut Space<N>,
    undo: &mut Undo<N>,
    order: &Purchase,
    place: u64,
) -> Result<(), Refusal>
    requires writable { IsWritableStore N space.old undo.old }
    requires known { has_items layout.now.load.items (Command.NewOrder order.now) ≡ true }
    requires begun { IsPartlyDone layout.now (Command.NewOrder order.now) place 0 (stored_in N space.old) }
    ensures done { OnOk result (LeavesStore N space.old space.new
        (DoesSlices layout.now (Command.NewOrder order.now) place (length order.now.lines))) }
    ensures refused { IfErr result (λ refusal. (refusal ≡ Refusal.NoFrame) ⊎ (refusal ≡ Refusal.NoMemory)) }
    ensures writes { WritesStore N space.old space.new undo.old undo.new }
    ensures no_frame { IsErrOf result Refusal.NoFrame → free_of space.new.frames ≡ 0 }
{
    for done in 0..order.lines.len() {
        buy_known(layout, space, undo, order, place, done as u64)?;
    }
    Ok(())
}

/// The home's part of a purchase: all of it but the stock of the lines that others supply, with the reply.
fn order_at_home<const N: usize>(
    layout: &Layout,
    space: &mut Space<N>,
    undo: &mut Undo<N>,
    order: &Purchase,
) -> Result<Option<Reply>, Refusal>
    requires writable { IsWritableStore N space.old undo.old }
    requires sound { IsSoundStore layout.now (stored_in N space.old) }
    requires part { HasPart layout.now (Command.NewOrder order.now) }
    requires small { HasGrownBy 100_000_000 (stored_in N space.old).tables }
    requires home { order.now.warehouse ≡ layout.now.warehouse }
    ensures done { OnOk result (LeavesStore N space.old space.new
        (DoesPartInEach layout.now (Command.NewOrder order.now))) }
    ensures reply { IfOk result
        (IsReplyInEach layout.now (Command.NewOrder order.now) (stored_in N space.old).tables) }
    ensures refused { IfErr result (λ refusal. (refusal ≡ Refusal.NoFrame) ⊎ (refusal ≡ Refusal.NoMemory)) }
    ensures writes { WritesStore N space.old space.new undo.old undo.new }
    ensures no_frame { IsErrOf result Refusal.NoFrame → free_of space.new.frames ≡ 0 }
{
    layout.load().sound();
    layout.know_places();
    let Some(place) = layout.place_of_number(order.district, order.customer) else {
        unreachable!()
    };
    buy_all_but_last(layout, space, undo, order, place)?;
    buy_known(layout, space, undo, order, place, order.lines.len() as u64)
}

/// The part of a purchase of another home: the stock of the lines that this warehouse supplies, one after the other.
fn sell_lines<const N: usize>(
    layout: &Layout,
    space: &mut Space<N>,
    undo: &mut Undo<N>,
    order: &Purchase,
) -> Result<(), Shortage>
    requires writable { IsWritableStore N space.old undo.old }
    requires sound { IsSoundStore layout.now (stored_in N space.old) }
    requires part { HasPart layout.now (Command.NewOrder order.now) }
    requires small { HasGrownBy 100_000_000 (stored_in N space.old).tables }
    requires elsewhere { order.now.warehouse ≢ layout.now.warehouse }
    ensures done { OnOk result (LeavesStore N space.old space.new
        (DoesPartInEach layout.now (Command.NewOrder order.now))) }
    ensures writes { WritesStore N space.old space.new undo.old undo.new }
    ensures no_frame { IsErrOf result Shortage.NoFrame → IsOutOfFrames space.new }
{
    layout.load().sound();
    layout.know_places();
    for place in 0..order.lines.len() {
        sell_line(layout, space, undo, &order.lines.line(place), true)?;
    }
    Ok(())
}

/// This warehouse's part of a purchase.
pub(crate) fn order_part<const N: usize>(
    layout: &Layout,
    space: &mut Space<N>,
    undo: &mut Undo<N>,
    order: &Purchase,
) -> Result<Option<Reply>, Refusal>
    requires writable { IsWritableStore N space.old undo.old }
    requires sound { IsSoundStore layout.now (stored_in N space.old) }
    requires part { HasPart layout.now (Command.NewOrder order.now) }
    requires small { HasGrownBy 100_000_000 (stored_in N space.old).tables }
    ensures done { OnOk result (LeavesStore N space.old space.new
        (DoesPartInEach layout.now (Command.NewOrder order.now))) }
    ensures reply { IfOk result
        (IsReplyInEach layout.now (Command.NewOrder order.now) (stored_in N space.old).tables) }
    ensures refused { IfErr result (λ refusal. (refusal ≡ Refusal.NoFrame) ⊎ (refusal ≡ Refusal.NoMemory)) }
    ensures writes { WritesStore N space.old space.new undo.old undo.new }
    ensures no_frame { IsErrOf result Refusal.NoFrame → free_of space.new.frames ≡ 0 }
{
    if order.warehouse == u64::from(layout.warehouse()) {
        return order_at_home(layout, space, undo, order);
    }
    match sell_lines(layout, space, undo, order) {
        Ok(()) => Ok(None),
        Err(shortage) => Err(refusal_of_shortage(shortage)),
    }
}

/// The number of the customer who is named by number.
fn number_of(who: &Who) -> u64
    requires { is_number who.now ≡ true }
    ensures { result ≡ number_in who.now }
{
    match who {
        Who::Number(number) => *number,
        Who::Last(_) => unreachable!(),
    }
}

/// The home's part of a payment: the amount and the history.
fn pay_at_home<const N: usize>(
    layout: &Layout,
    space: &mut Space<N>,
    undo: &mut Undo<N>,
    payment: &Payment,
) -> Result<(), Shortage>
    requires writable { IsWritableStore N space.old undo.old }
    requires sound { IsSoundStore layout.now (stored_in N space.old) }
    requires part { HasPart layout.now (Command.Payment payment.now) }
    requires home { payment.now.warehouse ≡ layout.now.warehouse }
    ensures done { OnOk result (LeavesStore N space.old space.new
        (DoesPartInEach layout.now (Command.Payment payment.now))) }
    ensures writes { WritesStore N space.old space.new undo.old undo.new }
    ensures no_frame { IsErrOf result Shortage.NoFrame → free_of space.new.frames ≡ 0 }
{
    layout.load().sound();
    let number = number_of(&payment.who);
    pay_home(layout, space, undo, payment, number as u16)
}

/// The part of a payment of another home: the customer's change, with the reply.
fn pay_for_customer<const N: usize>(
    layout: &Layout,
    space: &mut Space<N>,
    undo: &mut Undo<N>,
    edition: Edition,
    payment: &Payment,
) -> Result<Reply, Shortage>
    requires writable { IsWritableStore N space.old undo.old }
    requires sound { IsSoundStore layout.now (stored_in N space.old) }
    requires part { HasPart layout.now (Command.Payment payment.now) }
    requires elsewhere { payment.now.warehouse ≢ layout.now.warehouse }
    ensures done { OnOk result (LeavesStore N space.old space.new
        (DoesPart layout.now edition (Command.Payment payment.now))) }
    ensures reply { IfOk result (λ reply. Some reply
        ≡ reply_of_part layout.now edition (Command.Payment payment.now) (stored_in N space.old).tables) }
    ensures writes { WritesStore N space.old space.new undo.old undo.new }
    ensures no_frame { IsErrOf result Shortage.NoFrame → IsOutOfFrames space.new }
{
    layout.know_places();
    let Some(place) = layout.place_of_customer(payment.customer()) else {
        unreachable!()
    };
    pay_customer(layout, space, undo, edition, payment, place)
}

/// This warehouse's part of a payment.
pub(crate) fn payment_part<const N: usize>(
    layout: &Layout,
    space: &mut Space<N>,
    undo: &mut Undo<N>,
    edition: Edition,
    payment: &Payment,
) -> Result<Option<Reply>, Refusal>
    requires writable { IsWritableStore N space.old undo.old }
    requires sound { IsSoundStore layout.now (stored_in N space.old) }
    requires part { HasPart layout.now (Command.Payment payment.now) }
    ensures done { OnOk result (LeavesStore N space.old space.new
        (DoesPart layout.now edition (Command.Payment payment.now))) }
    ensures reply { IfOk result (λ reply. reply
        ≡ reply_of_part layout.now edition (Command.Payment payment.now) (stored_in N space.old).tables) }
    ensures refused { IfErr result (λ refusal. (refusal ≡ Refusal.NoFrame) ⊎ (refusal ≡ Refusal.NoMemory)) }
    ensures writes { WritesStore N space.old space.new undo.old undo.new }
    ensures no_frame { IsErrOf result Refusal.NoFrame → free_of space.new.frames ≡ 0 }
{
    if payment.warehouse == u64::from(layout.warehouse()) {
        return match pay_at_home(layout, space, undo, payment) {
            Ok(()) => Ok(None),
            Err(shortage) => Err(refusal_of_shortage(shortage)),
        };
    }
    match pay_for_customer(layout, space, undo, edition, payment) {
        Ok(reply) => Ok(Some(reply)),
        Err(shortage) => Err(refusal_of_shortage(shortage)),
    }
}

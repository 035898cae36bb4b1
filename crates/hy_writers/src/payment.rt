//! Payment (TPC-C clause 2.5): the home warehouse, its district and the history; then the customer.

ghost use Rattle.std.specs.Prelude.{◌≡◌, Some, ◌+◌, ◌*◌, ◌≤◌, ◌+ℤ◌, ◌-ℤ◌, ◌<◌, pos, ◌++◌, codes, length, OnOk, IfOk, IsErrOf, slice_get};
ghost use Rattle.arrayvec.specs.ArrayVec.{array_vec_len};
ghost use Rattle.hy_frames.specs.FrameTable.{free_of};
ghost use Rattle.hy_rows.specs.Limits.{max_payment};
ghost use Rattle.hy_rows.specs.declared.customer.Customer.{Customer};
ghost use Rattle.hy_undo.specs.Writes.{IsOutOfFrames};
ghost use Rattle.hy_commands.specs.declared.reply.Reply.{Reply};
ghost use Rattle.hy_commands.specs.Growth.{IsCustomerUpTo, IsDistrictUpTo, IsMoneyUpTo, IsWarehouseUpTo};
ghost use Rattle.hy_commands.specs.Payments.{district_paid, warehouse_paid};
ghost use Rattle.hy_commands.specs.Transactions.{payer};
ghost use Rattle.hy_indexes.specs.of_store.Writes.{ChangesStore, IsWritableStore, WritesStore, stored_in};
ghost use Rattle.hy_writers.specs.Accounts.{ChangesAccount, IsAccountOf};
ghost use Rattle.hy_writers.specs.Begun.{IsHomePayment};
ghost use Rattle.hy_writers.specs.Limits.{most_applied};
ghost use Rattle.hy_writers.specs.Payments.{CanPayCustomer, CanPayHome, account_paid, history_for, is_noted, payment_reply, with_customer_paid, with_home_paid, with_noted, with_noted_if};

use crate::finds::{own_district, own_warehouse};
use crate::information::{CustomerInformation, noted};
use arrayvec::ArrayVec;
use hy_commands::{Edition, Payment, Reply};
use hy_frames::Shortage;
use hy_indexes::hy_store::{part_at, push_row, put_part, put_row};
use hy_layout::Layout;
use hy_rows::{CustomerAccount, CustomerNumber, District, History, Text, Warehouse};
use hy_space::Space;
use hy_undo::Undo;

/// An amount that rises by some cents.
fn raised(amount: i64, cents: u64) -> i64
    requires amount { IsMoneyUpTo (max_payment * most_applied) amount }
    requires cents { cents ≤ max_payment }
    ensures { result ≡ amount +ℤ pos cents }
{
    amount + cents as i64
}

/// A warehouse after a payment of some cents.
fn warehouse_after(row: &Warehouse, cents: u64) -> Warehouse
    requires row { IsWarehouseUpTo most_applied row.now }
    requires cents { cents ≤ max_payment }
    ensures { result ≡ warehouse_paid cents row.now }
{
    Warehouse {
        ytd: raised(row.ytd, cents),
        ..*row
    }
}

/// A district after a payment of some cents.
fn district_after(row: &District, cents: u64) -> District
    requires row { IsDistrictUpTo most_applied row.now }
    requires cents { cents ≤ max_payment }
    ensures { result ≡ district_paid cents row.now }
{
    District {
        ytd: raised(row.ytd, cents),
        ..*row
    }
}

/// A customer's account after a payment of some cents.
fn account_after(account: &CustomerAccount, cents: u64) -> CustomerAccount
    requires account { IsAccountOf account.now (IsCustomerUpTo most_applied (10 * most_applied)) }
    requires cents { cents ≤ max_payment }
    ensures paid { ChangesAccount account.now result (account_paid cents) }
    ensures balance { result.balance ≡ account.now.balance -ℤ pos cents }
{
    let CustomerAccount {
        balance,
        ytd_payment,
        payment_count,
        ..
    } = *account;
    CustomerAccount {
        balance: balance - cents as i64,
        ytd_payment: ytd_payment + cents as i64,
        payment_count: payment_count + 1,
        ..*account
    }
}

/// H_DATA: W_NAME, four spaces and D_NAME.
fn information(warehouse: &Warehouse, district: &District) -> Text<24>
    requires warehouse { length warehouse.now.name ≤ 10 }
    requires district { length district.now.name ≤ 10 }
    ensures { result ≡ warehouse.now.name ++ codes "    " ++ district.now.name }
{
    let mut bytes: ArrayVec<u8, 24> = ArrayVec::new();
    push_all(&mut bytes, warehouse.name.as_bytes());
    push_all(&mut bytes, b"    ");
    push_all(&mut bytes, district.name.as_bytes());
    Text::of_bytes(bytes.as_slice())
}

/// Puts bytes behind others.
fn push_all(text: &mut ArrayVec<u8, 24>, bytes: &[u8])
    requires { array_vec_len text.old + length bytes.now ≤ 24 }
    ensures text { text.new.items ≡ text.old.items ++ bytes.now }
    ensures len { array_vec_len text.new ≡ array_vec_len text.old + length bytes.now }
{
    match text.try_extend_from_slice(bytes) {
        Ok(()) => {}
        Err(_) => unreachable!(),
    }
}

/// The row of HISTORY for a payment of a customer.
fn history_for(
    payment: &Payment,
    customer: u16,
    warehouse: &Warehouse,
    district: &District,
) -> History
    requires payment { IsHomePayment payment.now.warehouse payment.now }
    requires home { payment.now.warehouse < 256 }
    requires warehouse { length warehouse.now.name ≤ 10 }
    requires district { length district.now.name ≤ 10 }
    ensures { result ≡ history_for payment.now customer warehouse.now district.now }
{
    History {
        customer,
        customer_district: payment.customer_district as u8,
        customer_warehouse: payment.customer_warehouse as u8,
        district: payment.district as u8,
        warehouse: payment.warehouse as u8,
        date: payment.at,
        amount: payment.amount as i64,
        information: information(warehouse, district),
    }
}

/// What a payment does to its home: W_YTD and D_YTD rise by the amount, and the payment of the customer with a number
/// enters the history.
pub fn pay_home<const N: usize>(
    layout: &Layout,
    space: &mut Space<N>,
    undo: &mut Undo<N>,
    payment: &Payment,
    customer: u16,
) -> Result<(), Shortage>
    requires writable { IsWritableStore N space.old undo.old }
    requires can { CanPayHome layout.now payment.now (stored_in N space.old) }
    ensures paid { OnOk result (ChangesStore N space.old space.new (with_home_paid payment.now customer)) }
    ensures writes { WritesStore N space.old space.new undo.old undo.new }
    ensures no_frame { IsErrOf result Shortage.NoFrame → free_of space.new.frames ≡ 0 }
{
    let warehouse = own_warehouse(layout, space);
    let district = own_district(layout, space, payment.district);
    put_row(space, undo, 0, &warehouse_after(&warehouse, payment.amount))?;
    put_row(
        space,
        undo,
        payment.district - 1,
        &district_after(&district, payment.amount),
    )?;
    push_row(
        space,
        undo,
        &history_for(payment, customer, &warehouse, &district),
    )?;
    Ok(())
}

/// Whether a payment of an edition is noted in C_DATA of a customer with an account: the second edition notes it where
/// the credit is bad.
fn is_noted(edition: Edition, account: &CustomerAccount) -> bool
    ensures { result ≡ is_noted edition account.now.credit }
{
    edition == Edition::Second && account.credit.as_bytes() == b"BC".as_slice()
}

/// Notes a payment in C_DATA of its customer, who stands at a place and has this number (TPC-C clause 2.5.2.2).
fn note_payment<const N: usize>(
    space: &mut Space<N>,
    undo: &mut Undo<N>,
    payment: &Payment,
    customer: u16,
    place: u64,
) -> Result<(), Shortage>
    requires writable { IsWritableStore N space.old undo.old }
    requires there { place < length (stored_in N space.old).tables.customers }
    ensures noted { OnOk result ((row : Customer)
        → slice_get (stored_in N space.old).tables.customers place ≡ Some row
        → ChangesStore N space.old space.new (with_noted payment.now customer place row)) }
    ensures writes { WritesStore N space.old space.new undo.old undo.new }
    ensures no_frame { IsErrOf result Shortage.NoFrame → IsOutOfFrames space.new }
{
    let before: CustomerInformation = part_at(space, place);
    put_part(space, undo, place, &noted(payment, customer, &before))
}

/// Notes a payment in C_DATA of its customer where that is due.
fn note_if_due<const N: usize>(
    space: &mut Space<N>,
    undo: &mut Undo<N>,
    payment: &Payment,
    customer: u16,
    place: u64,
    is_due: bool,
) -> Result<(), Shortage>
    requires writable { IsWritableStore N space.old undo.old }
    requires there { place < length (stored_in N space.old).tables.customers }
    ensures noted { OnOk result ((row : Customer)
        → slice_get (stored_in N space.old).tables.customers place ≡ Some row
        → ChangesStore N space.old space.new (with_noted_if is_due payment.now customer place row)) }
    ensures writes { WritesStore N space.old space.new undo.old undo.new }
    ensures no_frame { IsErrOf result Shortage.NoFrame → IsOutOfFrames space.new }
{
    if is_due {
        note_payment(space, undo, payment, customer, place)
    } else {
        Ok(())
    }
}

/// What a payment does to its customer, who stands at a place: the balance falls by the amount, what was paid rises by
/// it, and the number of payments by one; in the second edition C_DATA of a customer with bad credit notes it. The reply
/// has the customer's number, and the balance in cents.
pub fn pay_customer<const N: usize>(
    layout: &Layout,
    space: &mut Space<N>,
    undo: &mut Undo<N>,
    edition: Edition,
    payment: &Payment,
    place: u64,
) -> Result<Reply, Shortage>
    requires writable { IsWritableStore N space.old undo.old }
    requires can { CanPayCustomer layout.now payment.now place (stored_in N space.old) }
    ensures paid { OnOk result (ChangesStore N space.old space.new (with_customer_paid edition payment.now)) }
    ensures reply { IfOk result (λ reply. reply
        ≡ payment_reply edition payment.now (payer payment.now (stored_in N space.old).tables)) }
    ensures writes { WritesStore N space.old space.new undo.old undo.new }
    ensures no_frame { IsErrOf result Shortage.NoFrame → IsOutOfFrames space.new }
{
    let customer: CustomerNumber = part_at(space, place);
    let before: CustomerAccount = part_at(space, place);
    let account = account_after(&before, payment.amount);
    put_part(space, undo, place, &account)?;
    let is_due = is_noted(edition, &before);
    note_if_due(space, undo, payment, customer.number, place, is_due)?;
    Ok(Reply::Payment {
        customer: customer.number,
        balance: account.balance,
    })
}

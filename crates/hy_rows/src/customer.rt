//! Rows of CUSTOMER.

ghost use Rattle.std.specs.Prelude.{◌≡◌, option_map};
ghost use Rattle.hy_rows.specs.RowParts.{account_columns, account_of, account_with, customer_by, identity_columns, identity_of, identity_with};
ghost use Rattle.hy_rows.specs.Records.{values_said};

use crate::catalogue::{CUSTOMER, Table};
use crate::codec::{
    marked, push_long_text, push_number, push_signed, push_text, read_long_text, read_number,
    read_signed, read_text,
};
use crate::long_text::LongText;
use crate::part::{Part, WrittenPart};
use crate::record::{OwnedRecord, Record, ValueSink, ValueSource};
use crate::row::{Lasting, Row};
use crate::tables::Tables;
use crate::text::Text;
use arrayvec::ArrayVec;
use std::alloc::{AllocError, Global};

/// The greatest C_ID (TPC-C clause 1.2.1).
pub const MAX_CUSTOMERS: u16 = 3_000;

/// The greatest number that a loaded row may count: of payments, deliveries, sales or orders.
pub const MAX_COUNT: u64 = 1_000_000_000_000_000;

/// A row of CUSTOMER (TPC-C clause 1.3.1).
#[derive(Debug, Drop, PartialEq, Eq)]
pub struct Customer {
    /// C_ID, from 1 to `MAX_CUSTOMERS`.
    pub id: u16,
    /// C_D_ID, from 1 to `DISTRICTS_PER_WAREHOUSE`.
    pub district: u8,
    /// C_W_ID, from 1 to `MAX_WAREHOUSES`.
    pub warehouse: u8,
    /// C_FIRST.
    pub first: Text<16>,
    /// C_MIDDLE.
    pub middle: Text<2>,
    /// C_LAST.
    pub last: Text<16>,
    /// C_CREDIT, `GC` or `BC`.
    pub credit: Text<2>,
    /// C_DISCOUNT in ten-thousandths.
    pub discount: u16,
    /// C_BALANCE in cents.
    pub balance: i64,
    /// C_YTD_PAYMENT in cents.
    pub ytd_payment: i64,
    /// C_PAYMENT_CNT.
    pub payment_count: u64,
    /// C_DELIVERY_CNT.
    pub delivery_count: u64,
    /// C_DATA.
    pub information: LongText<500>,
}

impl Record for Customer {
    ghost use Rattle.std.proofs.Common.{refl};
    ghost use Rattle.hy_rows.specs.declared.catalogue.Table.TheVariants as tables;
    ghost use Rattle.hy_rows.specs.Rows.{customer_values, customer_with};

    const TABLE: Table = Table::Customer;

    ghost TABLE = { tables.Customer };

    ghost values_of = { customer_values };

    ghost row_with = { customer_with };

    fn put<S: ValueSink>(&self, sink: &mut S) -> Result<(), S::Refused> {
        let [
            id,
            district,
            warehouse,
            first,
            middle,
            last,
            credit,
            discount,
            balance,
            ytd_payment,
            payment_count,
            delivery_count,
            information,
        ] = CUSTOMER;
        sink.u16(id, self.id)?;
        sink.u8(district, self.district)?;
        sink.u8(warehouse, self.warehouse)?;
        sink.text(first, self.first.as_bytes())?;
        sink.text(middle, self.middle.as_bytes())?;
        sink.text(last, self.last.as_bytes())?;
        sink.text(credit, self.credit.as_bytes())?;
        sink.u16(discount, self.discount)?;
        sink.i64(balance, self.balance)?;
        sink.i64(ytd_payment, self.ytd_payment)?;
        sink.u64(payment_count, self.payment_count)?;
        sink.u64(delivery_count, self.delivery_count)?;
        sink.text(information, self.information.as_bytes())
    }

    ghost has_all = { λ row. refl };

    ghost same_row = { λ row. refl };
}

impl OwnedRecord for Customer {
    fn taken<S: ValueSource>(alloc: Global, source: &S) -> Result<Option<Customer>, AllocError> {
        let Some(identity) = identity_from(source) else {
            return Ok(None);
        };
        let Some(account) = account_from(source) else {
            return Ok(None);
        };
        let Some(information) = source.text(12, 500) else {
            return Ok(None);
        };
        let information = LongText::of_bytes(alloc, information)?;
        Ok(Some(customer_by(identity, account, information)))
    }

    fn copy(&self, alloc: Global) -> Result<Customer, AllocError> {
        let information = self.information.copy(alloc)?;
        Ok(customer_by(self.identity(), self.account(), information))
    }
}

impl Row for Customer {
    ghost use Rattle.std.specs.Prelude.{◌≡◌, ◌==◌, slice_set};
    ghost use Rattle.std.proofs.Common.{refl, rules};
    ghost use Rattle.hy_rows.specs.Spelling.{rows_of, tables_of};
    ghost use Rattle.hy_rows.specs.inside.Places.{by_places};
    ghost use Rattle.hy_rows.specs.Rows.{customer_bytes, customer_of};

    const SEGMENT: u32 = 2;

    const BYTES: usize = 574;

    type Slot = ArrayVec<u8, 575>;

    ghost SEGMENT = { 2 };

    ghost BYTES = { 574 };

    ghost bytes_of_row = { customer_bytes };

    ghost row_of_bytes = { customer_of };

    ghost rows_in = { λ tables. tables.customers };

    ghost is_of = { λ warehouse row. row.warehouse == warehouse };

    ghost with_rows = { λ tables rows. record tables { customers = rows } };

    fn slot(&self) -> ArrayVec<u8, 575> {
        let mut slot = marked();
        push_number(&mut slot, self.id.into(), 2);
        push_number(&mut slot, self.district.into(), 1);
        push_number(&mut slot, self.warehouse.into(), 1);
        push_text(&mut slot, &self.first);
        push_text(&mut slot, &self.middle);
        push_text(&mut slot, &self.last);
        push_text(&mut slot, &self.credit);
        push_number(&mut slot, self.discount.into(), 2);
        push_signed(&mut slot, self.balance);
        push_signed(&mut slot, self.ytd_payment);
        push_number(&mut slot, self.payment_count, 8);
        push_number(&mut slot, self.delivery_count, 8);
        push_long_text(&mut slot, &self.information);
        slot
    }

    fn decode(alloc: Global, bytes: &[u8]) -> Result<Customer, AllocError> {
        let information = read_long_text(alloc, bytes, 74)?;
        Ok(Customer {
            id: read_number(bytes, 0, 2) as u16,
            district: read_number(bytes, 2, 1) as u8,
            warehouse: read_number(bytes, 3, 1) as u8,
            first: read_text(bytes, 4),
            middle: read_text(bytes, 20),
            last: read_text(bytes, 22),
            credit: read_text(bytes, 38),
            discount: read_number(bytes, 40, 2) as u16,
            balance: read_signed(bytes, 42),
            ytd_payment: read_signed(bytes, 50),
            payment_count: read_number(bytes, 58, 8),
            delivery_count: read_number(bytes, 66, 8),
            information,
        })
    }

    fn rows_of(tables: &Tables) -> &[Customer] {
        tables.customers.as_slice()
    }

    fn belongs_to(&self, warehouse: u8) -> bool {
        self.warehouse == warehouse
    }

    ghost fits = { Prim.search rules };

    ghost is_table = { refl };

    ghost own_rows = { λ tables rows. refl };

    ghost own_rows_again = { λ tables. refl };

    ghost last_rows = { λ tables rows others. refl };

    ghost joined_rows = { λ several. refl };

    ghost own_in = { λ number all. refl };

    ghost counted = { λ all others. refl };

    ghost spelled = { λ n bytes. refl };

    ghost respelled = { λ n bytes pages whole. by_places (λ all. tables_of n (slice_set all 2 pages)
        ≡ record (tables_of n all) { customers = rows_of n 574 customer_of pages }) bytes whole refl };
}

impl Lasting for Customer {
    ghost use Rattle.std.proofs.Common.{rules};

    ghost lasts = { Prim.search rules };
}

impl Customer {
    /// Who the customer is.
    pub fn identity(&self) -> CustomerIdentity
        ensures { result ≡ identity_of self.now }
    {
        CustomerIdentity {
            id: self.id,
            district: self.district,
            warehouse: self.warehouse,
            first: self.first,
            middle: self.middle,
            last: self.last,
        }
    }

    /// C_CREDIT and the five columns behind it.
    pub fn account(&self) -> CustomerAccount
        ensures { result ≡ account_of self.now }
    {
        CustomerAccount {
            credit: self.credit,
            discount: self.discount,
            balance: self.balance,
            ytd_payment: self.ytd_payment,
            payment_count: self.payment_count,
            delivery_count: self.delivery_count,
        }
    }
}

/// The customer with an identity, an account and a text.
fn customer_by(
    identity: CustomerIdentity,
    account: CustomerAccount,
    information: LongText<500>,
) -> Customer
    ensures { result ≡ customer_by identity account information }
{
    Customer {
        id: identity.id,
        district: identity.district,
        warehouse: identity.warehouse,
        first: identity.first,
        middle: identity.middle,
        last: identity.last,
        credit: account.credit,
        discount: account.discount,
        balance: account.balance,
        ytd_payment: account.ytd_payment,
        payment_count: account.payment_count,
        delivery_count: account.delivery_count,
        information,
    }
}

/// What the first six fields say of a customer, if each says a value of its column.
fn identity_from<S: ValueSource>(source: &S) -> Option<CustomerIdentity>
    ensures { result ≡ option_map identity_with (values_said (S.fields source.now) identity_columns 0) }
{
    Some(CustomerIdentity {
        id: source.u16(0)?,
        district: source.u8(1)?,
        warehouse: source.u8(2)?,
        first: Text::of_bytes(source.text(3, 16)?),
        middle: Text::of_bytes(source.text(4, 2)?),
        last: Text::of_bytes(source.text(5, 16)?),
    })
}

/// What the six fields behind them say.
fn account_from<S: ValueSource>(source: &S) -> Option<CustomerAccount>
    ensures { result ≡ option_map account_with (values_said (S.fields source.now) account_columns 6) }
{
    Some(CustomerAccount {
        credit: Text::of_bytes(source.text(6, 2)?),
        discount: source.u16(7)?,
        balance: source.i64(8)?,
        ytd_payment: source.i64(9)?,
        payment_count: source.u64(10)?,
        delivery_count: source.u64(11)?,
    })
}

/// Who a customer is: the columns up to C_LAST.
#[derive(Clone, Copy, Debug)]
pub struct CustomerIdentity {
    /// C_ID, from 1 to `MAX_CUSTOMERS`.
    pub id: u16,
    /// C_D_ID, from 1 to `DISTRICTS_PER_WAREHOUSE`.
    pub district: u8,
    /// C_W_ID, from 1 to `MAX_WAREHOUSES`.
    pub warehouse: u8,
    /// C_FIRST.
    pub first: Text<16>,
    /// C_MIDDLE.
    pub middle: Text<2>,
    /// C_LAST.
    pub last: Text<16>,
}

impl Part<Customer> for CustomerIdentity {
    ghost use Rattle.std.proofs.Common.{rules};
    ghost use Rattle.hy_rows.specs.RowParts.{identity_in, identity_of};
    ghost use Rattle.hy_rows.specs.inside.PartLaws.{identity_said};

    const OFFSET: usize = 0;

    const WIDTH: usize = 38;

    ghost OFFSET = { 0 };

    ghost WIDTH = { 38 };

    ghost part_of = { identity_of };

    ghost part_of_bytes = { identity_in };

    fn decode_part(bytes: &[u8]) -> CustomerIdentity {
        CustomerIdentity {
            id: read_number(bytes, 0, 2) as u16,
            district: read_number(bytes, 2, 1) as u8,
            warehouse: read_number(bytes, 3, 1) as u8,
            first: read_text(bytes, 4),
            middle: read_text(bytes, 20),
            last: read_text(bytes, 22),
        }
    }

    ghost inside = { Prim.search rules };

    ghost said = { identity_said };
}

/// The number of a customer.
#[derive(Clone, Copy, Debug)]
pub struct CustomerNumber {
    /// C_ID.
    pub number: u16,
}

impl Part<Customer> for CustomerNumber {
    ghost use Rattle.std.proofs.Common.{rules};
    ghost use Rattle.hy_rows.specs.RowParts.{number_in, number_of_customer};
    ghost use Rattle.hy_rows.specs.inside.PartLaws.{number_said};

    const OFFSET: usize = 0;

    const WIDTH: usize = 2;

    ghost OFFSET = { 0 };

    ghost WIDTH = { 2 };

    ghost part_of = { number_of_customer };

    ghost part_of_bytes = { number_in };

    fn decode_part(bytes: &[u8]) -> CustomerNumber {
        CustomerNumber {
            number: read_number(bytes, 0, 2) as u16,
        }
    }

    ghost inside = { Prim.search rules };

    ghost said = { number_said };
}

/// The discount of a customer.
#[derive(Clone, Copy, Debug)]
pub struct CustomerDiscount {
    /// C_DISCOUNT in ten-thousandths.
    pub discount: u16,
}

impl Part<Customer> for CustomerDiscount {
    ghost use Rattle.std.proofs.Common.{rules};
    ghost use Rattle.hy_rows.specs.RowParts.{discount_in, discount_of};
    ghost use Rattle.hy_rows.specs.inside.PartLaws.{discount_said};

    const OFFSET: usize = 40;

    const WIDTH: usize = 2;

    ghost OFFSET = { 40 };

    ghost WIDTH = { 2 };

    ghost part_of = { discount_of };

    ghost part_of_bytes = { discount_in };

    fn decode_part(bytes: &[u8]) -> CustomerDiscount {
        CustomerDiscount {
            discount: read_number(bytes, 0, 2) as u16,
        }
    }

    ghost inside = { Prim.search rules };

    ghost said = { discount_said };
}

/// C_CREDIT and the five columns behind it: what a payment, a purchase and a delivery know of a customer and change.
#[derive(Clone, Copy, Debug)]
pub struct CustomerAccount {
    /// C_CREDIT, `GC` or `BC`.
    pub credit: Text<2>,
    /// C_DISCOUNT in ten-thousandths.
    pub discount: u16,
    /// C_BALANCE in cents.
    pub balance: i64,
    /// C_YTD_PAYMENT in cents.
    pub ytd_payment: i64,
    /// C_PAYMENT_CNT.
    pub payment_count: u64,
    /// C_DELIVERY_CNT.
    pub delivery_count: u64,
}

impl Part<Customer> for CustomerAccount {
    ghost use Rattle.std.proofs.Common.{rules};
    ghost use Rattle.hy_rows.specs.RowParts.{account_in, account_of};
    ghost use Rattle.hy_rows.specs.inside.PartLaws.{account_said};

    const OFFSET: usize = 38;

    const WIDTH: usize = 36;

    ghost OFFSET = { 38 };

    ghost WIDTH = { 36 };

    ghost part_of = { account_of };

    ghost part_of_bytes = { account_in };

    fn decode_part(bytes: &[u8]) -> CustomerAccount {
        CustomerAccount {
            credit: read_text(bytes, 0),
            discount: read_number(bytes, 2, 2) as u16,
            balance: read_signed(bytes, 4),
            ytd_payment: read_signed(bytes, 12),
            payment_count: read_number(bytes, 20, 8),
            delivery_count: read_number(bytes, 28, 8),
        }
    }

    ghost inside = { Prim.search rules };

    ghost said = { account_said };
}

impl WrittenPart<Customer> for CustomerAccount {
    ghost use Rattle.hy_rows.specs.RowParts.{account_bytes, with_account};

    type Bytes = ArrayVec<u8, 36>;

    ghost with_part = { with_account };

    ghost bytes_of_part = { account_bytes };

    fn bytes(&self) -> ArrayVec<u8, 36> {
        let mut bytes = ArrayVec::new();
        push_text(&mut bytes, &self.credit);
        push_number(&mut bytes, self.discount.into(), 2);
        push_signed(&mut bytes, self.balance);
        push_signed(&mut bytes, self.ytd_payment);
        push_number(&mut bytes, self.payment_count, 8);
        push_number(&mut bytes, self.delivery_count, 8);
        bytes
    }
}

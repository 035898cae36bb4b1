//! Which customer a command names.

ghost use Rattle.std.specs.Prelude.{◌≡◌, None, Some, MatchOption};
ghost use Rattle.hy_commands.specs.Commands.{customer_home_of, customer_named};
ghost use Rattle.hy_commands.specs.inside.Named.{name_of, who_of};

use crate::{Command, Name, OrderStatus, Payment, Purchase, Who};

/// How a command names a customer of a district: a `Who` that is lent.
#[derive(Clone, Copy, Debug)]
pub enum WhoRef<'a> {
    /// The customer with this number.
    Number(u64),
    /// The one in the middle of those with this last name.
    Last(&'a Name),
}

/// The customer whom a command names.
#[derive(Clone, Copy, Debug)]
pub struct CustomerRef<'a> {
    /// The customer's warehouse.
    pub warehouse: u64,
    /// The customer's district.
    pub district: u64,
    /// Which customer of the district.
    pub who: WhoRef<'a>,
}

impl Who {
    /// The same, lent.
    fn as_ref(&self) -> WhoRef<'_>
        ensures { who_of result ≡ self.now }
    {
        match self {
            Who::Number(number) => WhoRef::Number(*number),
            Who::Last(name) => WhoRef::Last(name),
        }
    }
}

impl Purchase {
    /// The customer who orders. Takes no memory.
    pub fn customer(&self) -> CustomerRef<'_>
        ensures { Some (name_of result) ≡ customer_named (Command.NewOrder self.now) }
    {
        CustomerRef {
            warehouse: self.warehouse,
            district: self.district,
            who: WhoRef::Number(self.customer),
        }
    }
}

impl Payment {
    /// The customer who pays. Takes no memory.
    pub fn customer(&self) -> CustomerRef<'_>
        ensures { Some (name_of result) ≡ customer_named (Command.Payment self.now) }
    {
        CustomerRef {
            warehouse: self.customer_warehouse,
            district: self.customer_district,
            who: self.who.as_ref(),
        }
    }
}

impl OrderStatus {
    /// The customer whose last order is asked for. Takes no memory.
    pub fn customer(&self) -> CustomerRef<'_>
        ensures { Some (name_of result) ≡ customer_named (Command.OrderStatus self.now) }
    {
        CustomerRef {
            warehouse: self.warehouse,
            district: self.district,
            who: self.who.as_ref(),
        }
    }
}

impl Command {
    /// The customer whom the command names, if it names one: the one who orders, pays or asks. Takes no memory.
    pub fn customer(&self) -> Option<CustomerRef<'_>>
        ensures { MatchOption result (customer_named self.now ≡ None)
            (λ customer. customer_named self.now ≡ Some (name_of customer)) }
    {
        match self {
            Command::NewOrder(order) => Some(order.customer()),
            Command::Payment(payment) => Some(payment.customer()),
            Command::OrderStatus(status) => Some(status.customer()),
            _ => None,
        }
    }

    /// The warehouse of the customer whom the command names; its home, where it names none.
    pub fn customer_home(&self) -> u64
        ensures { result ≡ customer_home_of self.now }
    {
        match self.customer() {
            Some(customer) => customer.warehouse,
            None => self.home(),
        }
    }
}

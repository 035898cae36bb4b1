//! What the numbers in a command refuse.

ghost use Rattle.std.specs.Prelude.{◌≡◌, ◌==◌, None, Some, IfErr, OnOk};
ghost use Rattle.hy_rows.specs.Ranges.{is_between};
ghost use Rattle.hy_commands.specs.Commands.{are_items_up_to, has_districts, is_district_number, refusal_of_numbers, refusal_of_places};

use crate::Command;
use hy_rows::DISTRICTS_PER_WAREHOUSE;
use hy_schema::Refusal;

/// Whether a district has this number.
fn is_district_number(number: u64) -> bool
    ensures { result ≡ is_district_number number }
{
    (1..=u64::from(DISTRICTS_PER_WAREHOUSE)).contains(&number)
}

impl Command {
    /// Whether the districts that the command names have numbers of districts, from 1 to 10. Takes no memory.
    pub fn has_districts(&self) -> bool
        ensures { result ≡ has_districts self.now }
    {
        match self {
            Command::NewOrder(order) => is_district_number(order.district),
            Command::Payment(payment) => {
                is_district_number(payment.district)
                    && is_district_number(payment.customer_district)
            }
            Command::OrderStatus(status) => is_district_number(status.district),
            Command::Delivery(_) => true,
            Command::StockLevel(level) => is_district_number(level.district),
        }
    }

    /// Whether the items that the command names have the numbers from 1 to another one, as those of a load have. Takes no
    /// memory.
    pub fn names_items_up_to(&self, last: u64) -> bool
        ensures { result ≡ are_items_up_to last self.now }
    {
        match self {
            Command::NewOrder(order) => order.lines.are_items_up_to(last),
            _ => true,
        }
    }

    /// E4 where the command's warehouses aren't there, else E5 where a district isn't.
    fn check_places(&self, are_there: bool) -> Result<(), Refusal>
        ensures refused { IfErr result (λ why. refusal_of_places are_there self.now ≡ Some why) }
        ensures passed { OnOk result (refusal_of_places are_there self.now ≡ None) }
    {
        if !are_there {
            return Err(Refusal::NoSuchWarehouse);
        }
        if !self.has_districts() {
            return Err(Refusal::NoSuchDistrict);
        }
        Ok(())
    }

    /// What refuses the command at one warehouse before a row is looked at: E8 where a value is out of range, else E4
    /// where it names another warehouse, else E5 where a district isn't there. Takes no memory.
    pub fn check_at(&self, warehouse: u64) -> Result<(), Refusal>
        ensures refused { IfErr result (λ why. refusal_of_numbers (λ named. named == warehouse) self.now ≡ Some why) }
        ensures passed { OnOk result (refusal_of_numbers (λ named. named == warehouse) self.now ≡ None) }
    {
        self.check()?;
        self.check_places(self.names_only(warehouse))
    }

    /// What refuses the command in a database of so many warehouses before a row is looked at: E8 where a value is out of
    /// range, else E4 where a warehouse isn't there, else E5 where a district isn't. Takes no memory.
    pub fn check_within(&self, warehouses: u64) -> Result<(), Refusal>
        ensures refused { IfErr result (λ why. refusal_of_numbers (is_between 1 warehouses) self.now ≡ Some why) }
        ensures passed { OnOk result (refusal_of_numbers (is_between 1 warehouses) self.now ≡ None) }
    {
        self.check()?;
        self.check_places(self.names_up_to(warehouses))
    }
}

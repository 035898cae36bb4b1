//! The keys by which rows are gathered.

ghost use Rattle.std.specs.Prelude.{◌≡◌};

/// A district, by its warehouse's number and its own (D_W_ID, D_ID).
#[derive(Clone, Copy, PartialEq, Eq, Hash)]
pub struct DistrictId {
    pub warehouse: u8,
    pub district: u8,
}

impl DistrictId {
    /// The key of a district by its numbers.
    pub fn new(warehouse: u8, district: u8) -> DistrictId
        ensures { result ≡ record { warehouse = warehouse; district = district } }
    {
        DistrictId {
            warehouse,
            district,
        }
    }
}

/// An order, by its district and its own number (O_W_ID, O_D_ID, O_ID).
#[derive(Clone, Copy, PartialEq, Eq, Hash)]
pub struct OrderId {
    pub district: DistrictId,
    pub order: u32,
}

impl OrderId {
    /// The key of an order by its numbers.
    pub fn new(warehouse: u8, district: u8, order: u32) -> OrderId
        ensures { result
            ≡ record { district = record { warehouse = warehouse; district = district }; order = order } }
    {
        OrderId {
            district: DistrictId::new(warehouse, district),
            order,
        }
    }
}

/// A customer, by the customer's district and number (C_W_ID, C_D_ID, C_ID).
#[derive(Clone, Copy, PartialEq, Eq, Hash)]
pub struct CustomerId {
    pub district: DistrictId,
    pub customer: u16,
}

impl CustomerId {
    /// The key of a customer by its numbers.
    pub fn new(warehouse: u8, district: u8, customer: u16) -> CustomerId
        ensures { result
            ≡ record { district = record { warehouse = warehouse; district = district }; customer = customer } }
    {
        CustomerId {
            district: DistrictId::new(warehouse, district),
            customer,
        }
    }
}

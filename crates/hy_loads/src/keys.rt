//! The keys by which rows name one another.

use hy_conditions::OrderId;

/// An order line, by its order and its own number (OL_W_ID, OL_D_ID, OL_O_ID, OL_NUMBER).
#[derive(Clone, Copy, PartialEq, Eq, Hash)]
pub struct LineId {
    pub order: OrderId,
    pub number: u8,
}

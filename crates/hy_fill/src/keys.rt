//! The keys of the rows that indexes find.

ghost use Rattle.std.specs.Prelude.{◌≡◌, List};
ghost use Rattle.std.specs.Ordering.{is_lt};
ghost use Rattle.hy_indexes.specs.of_index.declared.key.Entry.{Entry};
ghost use Rattle.hy_indexes.specs.of_store.Stored.{Stored};
ghost use Rattle.hy_layout.specs.Finds.{IsOrder};

use hy_indexes::hy_store::{CustomerKey, Indexed, LineKey, OrderKey, WaitingKey};
use hy_rows::{NewOrder, Order, OrderLine, Row};
use std::cmp::Ordering;

/// A key of an index that is filled.
pub(crate) trait Filled: Indexed {
    /// How two keys stand in the order of the index.
    fn compare(&self, other: &Self) -> Ordering
        ensures { is_lt result ≡ Self.is_less self.now other.now };

    /// The keys are in an order.
    ghost is_order: { IsOrder Self.is_less };

    /// The entries of the index stand by themselves beside the rest of the store.
    ghost own_entries: { (store : Stored) (entries : List (Entry Self))
        → Self.Indexed.entries_in (Self.Indexed.with_entries store entries) ≡ entries };

    ghost own_entries_again: { (store : Stored)
        → Self.Indexed.with_entries store (Self.Indexed.entries_in store) ≡ store };

    ghost last_entries: { (store : Stored) (entries others : List (Entry Self))
        → Self.Indexed.with_entries (Self.Indexed.with_entries store entries) others
        ≡ Self.Indexed.with_entries store others };
}

impl Filled for OrderKey {
    ghost use Rattle.std.proofs.Common.{refl};
    ghost use Rattle.hy_indexes.proofs.KeyOrders.{order-of_orders};

    ghost is_order = { order-of_orders };

    ghost own_entries = { λ store entries. refl };

    ghost own_entries_again = { λ store. refl };

    ghost last_entries = { λ store entries others. refl };

    fn compare(&self, other: &OrderKey) -> Ordering {
        self.order
            .cmp(&other.order)
            .then(self.district.cmp(&other.district))
    }
}

impl Filled for CustomerKey {
    ghost use Rattle.std.proofs.Common.{refl};
    ghost use Rattle.hy_indexes.proofs.KeyOrders.{order-of_customers};

    ghost is_order = { order-of_customers };

    ghost own_entries = { λ store entries. refl };

    ghost own_entries_again = { λ store. refl };

    ghost last_entries = { λ store entries others. refl };

    fn compare(&self, other: &CustomerKey) -> Ordering {
        self.district
            .cmp(&other.district)
            .then(self.customer.cmp(&other.customer))
    }
}

impl Filled for WaitingKey {
    ghost use Rattle.std.proofs.Common.{refl};
    ghost use Rattle.hy_indexes.proofs.KeyOrders.{order-of_waiting};

    ghost is_order = { order-of_waiting };

    ghost own_entries = { λ store entries. refl };

    ghost own_entries_again = { λ store. refl };

    ghost last_entries = { λ store entries others. refl };

    fn compare(&self, other: &WaitingKey) -> Ordering {
        self.district
            .cmp(&other.district)
            .then(self.order.cmp(&other.order))
    }
}

impl Filled for LineKey {
    ghost use Rattle.std.proofs.Common.{refl};
    ghost use Rattle.hy_indexes.proofs.KeyOrders.{order-of_lines};

    ghost is_order = { order-of_lines };

    ghost own_entries = { λ store entries. refl };

    ghost own_entries_again = { λ store. refl };

    ghost last_entries = { λ store entries others. refl };

    fn compare(&self, other: &LineKey) -> Ordering {
        let behind = self
            .district
            .cmp(&other.district)
            .then(self.number.cmp(&other.number));
        self.order.cmp(&other.order).then(behind)
    }
}

/// A row that an index finds by its key.
pub(crate) trait Keyed<K: Filled>: Row {
    /// The key of a row.
    ghost key_of: { Self → K };

    /// The key of the row.
    fn key(&self) -> K
        ensures { result ≡ key_of self.now };
}

impl Keyed<OrderKey> for Order {
    ghost use Rattle.hy_indexes.specs.Indexes.{order_key_at};

    ghost key_of = { order_key_at };

    fn key(&self) -> OrderKey {
        OrderKey {
            order: self.id,
            district: self.district,
        }
    }
}

impl Keyed<CustomerKey> for Order {
    ghost use Rattle.hy_indexes.specs.Indexes.{buyer_key_at};

    ghost key_of = { buyer_key_at };

    fn key(&self) -> CustomerKey {
        CustomerKey {
            district: self.district,
            customer: self.customer,
        }
    }
}

impl Keyed<WaitingKey> for NewOrder {
    ghost use Rattle.hy_indexes.specs.Indexes.{waiting_key_at};

    ghost key_of = { waiting_key_at };

    fn key(&self) -> WaitingKey {
        WaitingKey {
            district: self.district,
            order: self.order,
        }
    }
}

impl Keyed<LineKey> for OrderLine {
    ghost use Rattle.hy_indexes.specs.Indexes.{line_key_at};

    ghost key_of = { line_key_at };

    fn key(&self) -> LineKey {
        LineKey {
            order: self.order,
            district: self.district,
            number: self.number,
        }
    }
}

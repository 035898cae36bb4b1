//! The keys of the indexes.

ghost use Rattle.std.specs.Prelude.{◌≡◌, ℕ, ◌++◌, slice_set};
ghost use Rattle.std.proofs.Common.{refl, ap, ap₂, ◌∙◌, lit≤, rules, sym};
ghost use Rattle.std.specs.Ordering.{is_lt, nat_cmp, ordering_then};
ghost use Rattle.hy_index.specs.KeyBytes.{high_bytes_of, high_number_of};
ghost use Rattle.hy_index.specs.Writes.{entries};
ghost use Rattle.hy_index.proofs.KeyLaws.{compared-number, high_number_of-bytes};
ghost use Rattle.hy_store.specs.Keys.{IsCustomerKey, IsLineKey, IsOrderKey, IsWaitingKey, customer_key_bytes, customer_key_of, is_lesser_customer, is_lesser_line, is_lesser_order, is_lesser_waiting, line_key_bytes, line_key_of, order_key_bytes, order_key_of, waiting_key_bytes, waiting_key_of};
ghost use Rattle.hy_store.specs.Stored.{HasIndexSegments, last_order_index, line_index, order_index, stored, waiting_index};
ghost use Rattle.hy_store.specs.inside.KeyPairs.{compared_pair};
ghost use Rattle.hy_store.specs.inside.Places.{by_all_places};

use crate::indexes::Indexed;
use hy_index::codec::{push_number, read_number};
use hy_index::{Key, KeyBytes};
use hy_rows::SEGMENTS;

/// O_ID and O_D_ID, for the slot of an order. The number comes first, so that a new order's entry comes near the end.
#[derive(Clone, Copy, Debug, PartialEq, Eq)]
pub struct OrderKey {
    /// O_ID.
    pub order: u32,
    /// O_D_ID.
    pub district: u8,
}

/// C_D_ID and C_ID, for the slot of a customer's last order.
#[derive(Clone, Copy, Debug, PartialEq, Eq)]
pub struct CustomerKey {
    /// C_D_ID.
    pub district: u8,
    /// C_ID.
    pub customer: u16,
}

/// NO_D_ID and NO_O_ID, for the slot of an undelivered order's row of NEW-ORDER.
#[derive(Clone, Copy, Debug, PartialEq, Eq)]
pub struct WaitingKey {
    /// NO_D_ID.
    pub district: u8,
    /// NO_O_ID.
    pub order: u32,
}

/// OL_O_ID, OL_D_ID and OL_NUMBER, for the slot of an order line. The order's number comes first, as in `OrderKey`.
#[derive(Clone, Copy, Debug, PartialEq, Eq)]
pub struct LineKey {
    /// OL_O_ID.
    pub order: u32,
    /// OL_D_ID.
    pub district: u8,
    /// OL_NUMBER.
    pub number: u8,
}

impl Key for OrderKey {
    const BYTES: usize = 5;

    ghost BYTES = { 5 };

    ghost bytes_of_key = { order_key_bytes };

    ghost key_of_bytes = { order_key_of };

    ghost IsKey = { IsOrderKey };

    ghost is_less = { is_lesser_order };

    fn encode(&self, bytes: &mut KeyBytes) {
        push_number(bytes, self.order.into(), 4);
        push_number(bytes, self.district.into(), 1);
    }

    fn decode(bytes: &[u8]) -> OrderKey {
        OrderKey {
            order: read_number(bytes, 0, 4) as u32,
            district: read_number(bytes, 4, 1) as u8,
        }
    }

    ghost some = { Prim.search rules };

    ghost fits = { Prim.search rules };

    ghost width = { λ key is_key. refl };

    ghost reads_back = { λ key is_key. ap₂ (λ (a : ℕ) (b : ℕ). record { order = a; district = b })
        (high_number_of-bytes 4 key.order is_key.0) (high_number_of-bytes 1 key.district is_key.1) };

    ghost ordered = { λ one other is_one is_other. ap is_lt (sym
        (compared_pair 4 1 one.order one.district other.order other.district is_one is_other)) };
}

impl Indexed for OrderKey {
    const SEGMENT: u32 = SEGMENTS;

    ghost SEGMENT = { order_index };

    ghost entries_in = { λ store. store.orders };

    ghost with_entries = { λ store entries. record store { orders = entries } };

    ghost is_index_at = { record { behind = lit≤ tt; width = refl } };

    ghost behind = { lit≤ tt };

    ghost within = { lit≤ tt };

    ghost is_index = { λ n bytes has. has.orders };

    ghost said = { λ n bytes. refl };

    ghost indexed_again = { λ n bytes pages whole has is.
        by_all_places (λ all. HasIndexSegments n all → HasIndexSegments n (slice_set all order_index pages)) bytes whole
        (λ each. record { orders = is; last_orders = each.last_orders; waiting = each.waiting; lines = each.lines }) has };

    ghost said_again = { λ n bytes pages whole. by_all_places (λ all. stored n (slice_set all order_index pages)
        ≡ record (stored n all) { orders = entries n 5 order_key_of pages }) bytes whole refl };
}

impl Key for CustomerKey {
    const BYTES: usize = 3;

    ghost BYTES = { 3 };

    ghost bytes_of_key = { customer_key_bytes };

    ghost key_of_bytes = { customer_key_of };

    ghost IsKey = { IsCustomerKey };

    ghost is_less = { is_lesser_customer };

    fn encode(&self, bytes: &mut KeyBytes) {
        push_number(bytes, self.district.into(), 1);
        push_number(bytes, self.customer.into(), 2);
    }

    fn decode(bytes: &[u8]) -> CustomerKey {
        CustomerKey {
            district: read_number(bytes, 0, 1) as u8,
            customer: read_number(bytes, 1, 2) as u16,
        }
    }

    ghost some = { Prim.search rules };

    ghost fits = { Prim.search rules };

    ghost width = { λ key is_key. refl };

    ghost reads_back = { λ key is_key. ap₂ (λ (a : ℕ) (b : ℕ). record { district = a; customer = b })
        (high_number_of-bytes 1 key.district is_key.0) (high_number_of-bytes 2 key.customer is_key.1) };

    ghost ordered = { λ one other is_one is_other. ap is_lt (sym
        (compared_pair 1 2 one.district one.customer other.district other.customer is_one is_other)) };
}

impl Indexed for CustomerKey {
    const SEGMENT: u32 = SEGMENTS + 1;

    ghost SEGMENT = { last_order_index };

    ghost entries_in = { λ store. store.last_orders };

    ghost with_entries = { λ store entries. record store { last_orders = entries } };

    ghost is_index_at = { record { behind = lit≤ tt; width = refl } };

    ghost behind = { lit≤ tt };

    ghost within = { lit≤ tt };

    ghost is_index = { λ n bytes has. has.last_orders };

    ghost said = { λ n bytes. refl };

    ghost indexed_again = { λ n bytes pages whole has is.
        by_all_places (λ all. HasIndexSegments n all → HasIndexSegments n (slice_set all last_order_index pages)) bytes whole
        (λ each. record { orders = each.orders; last_orders = is; waiting = each.waiting; lines = each.lines }) has };

    ghost said_again = { λ n bytes pages whole. by_all_places (λ all. stored n (slice_set all last_order_index pages)
        ≡ record (stored n all) { last_orders = entries n 3 customer_key_of pages }) bytes whole refl };
}

impl Key for WaitingKey {
    const BYTES: usize = 5;

    ghost BYTES = { 5 };

    ghost bytes_of_key = { waiting_key_bytes };

    ghost key_of_bytes = { waiting_key_of };

    ghost IsKey = { IsWaitingKey };

    ghost is_less = { is_lesser_waiting };

    fn encode(&self, bytes: &mut KeyBytes) {
        push_number(bytes, self.district.into(), 1);
        push_number(bytes, self.order.into(), 4);
    }

    fn decode(bytes: &[u8]) -> WaitingKey {
        WaitingKey {
            district: read_number(bytes, 0, 1) as u8,
            order: read_number(bytes, 1, 4) as u32,
        }
    }

    ghost some = { Prim.search rules };

    ghost fits = { Prim.search rules };

    ghost width = { λ key is_key. refl };

    ghost reads_back = { λ key is_key. ap₂ (λ (a : ℕ) (b : ℕ). record { district = a; order = b })
        (high_number_of-bytes 1 key.district is_key.0) (high_number_of-bytes 4 key.order is_key.1) };

    ghost ordered = { λ one other is_one is_other. ap is_lt (sym
        (compared_pair 1 4 one.district one.order other.district other.order is_one is_other)) };
}

impl Indexed for WaitingKey {
    const SEGMENT: u32 = SEGMENTS + 2;

    ghost SEGMENT = { waiting_index };

    ghost entries_in = { λ store. store.waiting };

    ghost with_entries = { λ store entries. record store { waiting = entries } };

    ghost is_index_at = { record { behind = lit≤ tt; width = refl } };

    ghost behind = { lit≤ tt };

    ghost within = { lit≤ tt };

    ghost is_index = { λ n bytes has. has.waiting };

    ghost said = { λ n bytes. refl };

    ghost indexed_again = { λ n bytes pages whole has is.
        by_all_places (λ all. HasIndexSegments n all → HasIndexSegments n (slice_set all waiting_index pages)) bytes whole
        (λ each. record { orders = each.orders; last_orders = each.last_orders; waiting = is; lines = each.lines }) has };

    ghost said_again = { λ n bytes pages whole. by_all_places (λ all. stored n (slice_set all waiting_index pages)
        ≡ record (stored n all) { waiting = entries n 5 waiting_key_of pages }) bytes whole refl };
}

impl Key for LineKey {
    const BYTES: usize = 6;

    ghost BYTES = { 6 };

    ghost bytes_of_key = { line_key_bytes };

    ghost key_of_bytes = { line_key_of };

    ghost IsKey = { IsLineKey };

    ghost is_less = { is_lesser_line };

    fn encode(&self, bytes: &mut KeyBytes) {
        push_number(bytes, self.order.into(), 4);
        push_number(bytes, self.district.into(), 1);
        push_number(bytes, self.number.into(), 1);
    }

    fn decode(bytes: &[u8]) -> LineKey {
        LineKey {
            order: read_number(bytes, 0, 4) as u32,
            district: read_number(bytes, 4, 1) as u8,
            number: read_number(bytes, 5, 1) as u8,
        }
    }

    ghost some = { Prim.search rules };

    ghost fits = { Prim.search rules };

    ghost width = { λ key is_key. refl };

    ghost reads_back = { λ key is_key. ap₂ (λ (o : ℕ) (d : ℕ). record {
      order = o;
      district = d;
      number = high_number_of (high_bytes_of 1 key.number);
    }) (high_number_of-bytes 4 key.order is_key.0) (high_number_of-bytes 1 key.district is_key.1)
        ∙ ap (λ (n : ℕ). record { order = key.order; district = key.district; number = n })
        (high_number_of-bytes 1 key.number is_key.2) };

    ghost ordered = { λ one other is_one is_other. ap is_lt (sym (
        compared-number 4 one.order other.order
        (high_bytes_of 1 one.district ++ high_bytes_of 1 one.number)
        (high_bytes_of 1 other.district ++ high_bytes_of 1 other.number) is_one.0 is_other.0
        ∙ ap (ordering_then (nat_cmp one.order other.order))
        (compared_pair 1 1 one.district one.number other.district other.number
        (is_one.1, is_one.2) (is_other.1, is_other.2)))) };
}

impl Indexed for LineKey {
    const SEGMENT: u32 = SEGMENTS + 3;

    ghost SEGMENT = { line_index };

    ghost entries_in = { λ store. store.lines };

    ghost with_entries = { λ store entries. record store { lines = entries } };

    ghost is_index_at = { record { behind = lit≤ tt; width = refl } };

    ghost behind = { lit≤ tt };

    ghost within = { lit≤ tt };

    ghost is_index = { λ n bytes has. has.lines };

    ghost said = { λ n bytes. refl };

    ghost indexed_again = { λ n bytes pages whole has is.
        by_all_places (λ all. HasIndexSegments n all → HasIndexSegments n (slice_set all line_index pages)) bytes whole
        (λ each. record { orders = each.orders; last_orders = each.last_orders; waiting = each.waiting; lines = is }) has };

    ghost said_again = { λ n bytes pages whole. by_all_places (λ all. stored n (slice_set all line_index pages)
        ≡ record (stored n all) { lines = entries n 6 line_key_of pages }) bytes whole refl };
}

//! For tests: what commands change in three warehouses, as plain lists of numbers.

use crate::halls::TakenAll;
use hy_commands::{Command, Payment, Purchase, PurchaseLine, PurchaseLines, Who};
use hy_partition::Loaded;
use hy_rows::{Customer, District, History, NewOrder, Order, OrderLine, Stock, Warehouse};
use std::process::Abort;

/// What a test sees of a warehouse in a snapshot.
#[derive(Drop)]
pub struct Rows {
    pub warehouses: Vec<Warehouse>,
    pub districts: Vec<District>,
    pub customers: Vec<Customer>,
    pub history: Vec<History>,
    pub new_orders: Vec<NewOrder>,
    pub orders: Vec<Order>,
    pub lines: Vec<OrderLine>,
    pub stock: Vec<Stock>,
}

impl Rows {
    /// Those of a warehouse in a snapshot of all.
    pub fn of<K: Loaded>(rt: &impl Abort, taken: &TakenAll<K>, warehouse: u64) -> Rows {
        let place = (warehouse as usize).wrapping_sub(1);
        assert!(rt; place < taken.all.len());
        let part = taken.all.part(place);
        Rows {
            warehouses: part.list().expect(rt, "rows"),
            districts: part.list().expect(rt, "rows"),
            customers: part.list().expect(rt, "rows"),
            history: part.list().expect(rt, "rows"),
            new_orders: part.list().expect(rt, "rows"),
            orders: part.list().expect(rt, "rows"),
            lines: part.list().expect(rt, "rows"),
            stock: part.list().expect(rt, "rows"),
        }
    }

    /// Whether all are the same.
    pub fn is_same(&self, other: &Rows) -> bool {
        self.warehouses == other.warehouses
            && self.districts == other.districts
            && self.customers == other.customers
            && self.history == other.history
            && self.new_orders == other.new_orders
            && self.orders == other.orders
            && self.lines == other.lines
            && self.stock == other.stock
    }

    /// S_QUANTITY, S_YTD, S_ORDER_CNT and S_REMOTE_CNT of an item.
    pub fn stock_of(&self, rt: &impl Abort, item: u64) -> (u16, u64, u64, u64) {
        let row = self
            .stock
            .get((item as usize).wrapping_sub(1))
            .expect(rt, "a row");
        (row.quantity, row.ytd, row.order_count, row.remote_count)
    }
}

/// What commands change in a warehouse: W_YTD, D_NEXT_O_ID and C_BALANCE in the order of the rows, O_ALL_LOCAL of the
/// orders in theirs, and S_QUANTITY, S_YTD, S_ORDER_CNT and S_REMOTE_CNT of each item.
#[derive(Drop)]
struct Numbers {
    ytd: i64,
    next_orders: Vec<u32>,
    balances: Vec<i64>,
    all_local: Vec<u8>,
    stock: Vec<(u64, u64, u64, u64)>,
}

/// The numbers of all warehouses, in order.
#[derive(Drop)]
pub struct Model {
    warehouses: Vec<Numbers>,
}

impl Model {
    /// No warehouse.
    pub fn new(rt: &impl AllocGlobal) -> Model {
        Model {
            warehouses: Vec::new(rt.alloc()),
        }
    }

    /// One warehouse more, with the numbers of these rows.
    pub fn load(&mut self, rt: &(impl Abort + AllocGlobal), rows: &Rows) {
        let [warehouse] = rows.warehouses.as_slice() else {
            panic!(rt; "one warehouse")
        };
        let mut numbers = Numbers {
            ytd: warehouse.ytd,
            next_orders: Vec::new(rt.alloc()),
            balances: Vec::new(rt.alloc()),
            all_local: Vec::new(rt.alloc()),
            stock: Vec::new(rt.alloc()),
        };
        numbers.read(rt, rows);
        self.warehouses.push(numbers).expect(rt, "a place");
    }

    /// The same numbers once more.
    pub fn copied(&self, rt: &(impl Abort + AllocGlobal)) -> Model {
        let mut warehouses = Vec::new(rt.alloc());
        for numbers in &self.warehouses {
            warehouses.push(numbers.copied(rt)).expect(rt, "a place");
        }
        Model { warehouses }
    }

    /// The numbers of a warehouse.
    fn at(&mut self, rt: &impl Abort, warehouse: u64) -> &mut Numbers {
        let Some(numbers) = self
            .warehouses
            .get_mut((warehouse as usize).wrapping_sub(1))
        else {
            panic!(rt; "a warehouse")
        };
        numbers
    }

    /// What an order or a payment changes.
    pub fn run(&mut self, rt: &impl Abort, command: &Command) {
        match command {
            Command::NewOrder(order) => self.order(rt, order),
            Command::Payment(payment) => self.pay(rt, payment),
            _ => panic!(rt; "an order or a payment"),
        }
    }

    fn order(&mut self, rt: &impl Abort, order: &Purchase) {
        let mut all_local = 1;
        for place in 0..order.lines.len() {
            let line = order.lines.line(place);
            let is_remote = line.supply_warehouse != order.warehouse;
            if is_remote {
                all_local = 0;
            }
            self.at(rt, line.supply_warehouse).sell(rt, line, is_remote);
        }
        let home = self.at(rt, order.warehouse);
        home.place(rt, order.district, all_local);
    }

    fn pay(&mut self, rt: &impl Abort, payment: &Payment) {
        let Who::Number(customer) = payment.who else {
            panic!(rt; "a number")
        };
        let Ok(amount) = i64::try_from(payment.amount) else {
            panic!(rt; "cents")
        };
        let home = self.at(rt, payment.warehouse);
        home.ytd = home.ytd.wrapping_add(amount);
        let place = payment
            .customer_district
            .wrapping_sub(1)
            .wrapping_mul(3)
            .wrapping_add(customer.wrapping_sub(1));
        let payer = self.at(rt, payment.customer_warehouse);
        let Some(balance) = payer.balances.get_mut(place as usize) else {
            panic!(rt; "a customer")
        };
        *balance = balance.wrapping_sub(amount);
    }

    /// A warehouse has these numbers.
    pub fn agrees(&self, rt: &(impl Abort + AllocGlobal), warehouse: u64, rows: &Rows) {
        let numbers = self
            .warehouses
            .get((warehouse as usize).wrapping_sub(1))
            .expect(rt, "a warehouse");
        let mut others = Model::new(rt);
        others.load(rt, rows);
        let Some(other) = others.warehouses.last() else {
            panic!(rt; "a warehouse")
        };
        assert!(rt; numbers.ytd == other.ytd);
        assert!(rt; numbers.next_orders == other.next_orders);
        assert!(rt; numbers.balances == other.balances);
        assert!(rt; numbers.all_local == other.all_local);
        assert!(rt; numbers.stock == other.stock);
    }
}

impl Numbers {
    /// The numbers of these rows.
    fn read(&mut self, rt: &impl Abort, rows: &Rows) {
        for row in &rows.districts {
            self.next_orders.push(row.next_order).expect(rt, "a place");
        }
        for row in &rows.customers {
            self.balances.push(row.balance).expect(rt, "a place");
        }
        for row in &rows.orders {
            self.all_local.push(row.all_local).expect(rt, "a place");
        }
        for row in &rows.stock {
            let numbers = (
                u64::from(row.quantity),
                row.ytd,
                row.order_count,
                row.remote_count,
            );
            self.stock.push(numbers).expect(rt, "a place");
        }
    }

    fn copied(&self, rt: &impl Abort) -> Numbers {
        Numbers {
            ytd: self.ytd,
            next_orders: self.next_orders.clone().expect(rt, "a copy"),
            balances: self.balances.clone().expect(rt, "a copy"),
            all_local: self.all_local.clone().expect(rt, "a copy"),
            stock: self.stock.clone().expect(rt, "a copy"),
        }
    }

    /// A line of an order is supplied.
    fn sell(&mut self, rt: &impl Abort, line: PurchaseLine, is_remote: bool) {
        let Some(stock) = self.stock.get_mut((line.item as usize).wrapping_sub(1)) else {
            panic!(rt; "an item")
        };
        let (quantity, sold, orders, remote) = *stock;
        let taken = if quantity >= line.quantity.wrapping_add(10) {
            quantity
        } else {
            quantity.wrapping_add(91)
        };
        *stock = (
            taken.wrapping_sub(line.quantity),
            sold.wrapping_add(line.quantity),
            orders.wrapping_add(1),
            remote.wrapping_add(u64::from(is_remote)),
        );
    }

    /// An order is placed in a district.
    fn place(&mut self, rt: &impl Abort, district: u64, all_local: u8) {
        let Some(next) = self
            .next_orders
            .get_mut((district as usize).wrapping_sub(1))
        else {
            panic!(rt; "a district")
        };
        *next = next.wrapping_add(1);
        self.all_local.push(all_local).expect(rt, "a place");
    }
}

/// The next number at random below another one.
fn next(seed: &mut u64, below: u64) -> u64 {
    *seed = seed
        .wrapping_mul(6_364_136_223_846_793_005)
        .wrapping_add(1_442_695_040_888_963_407);
    (*seed >> 33).checked_rem(below).unwrap_or(0)
}

/// An order or a payment at random, in three warehouses of three customers a district and twenty items.
pub fn random_command(rt: &(impl Abort + AllocGlobal), seed: &mut u64, at: u64) -> Command {
    let warehouse = next(seed, 3).wrapping_add(1);
    let district = next(seed, 10).wrapping_add(1);
    let customer = next(seed, 3).wrapping_add(1);
    if next(seed, 2) == 0 {
        return Command::Payment(Payment {
            warehouse,
            district,
            customer_warehouse: next(seed, 3).wrapping_add(1),
            customer_district: next(seed, 10).wrapping_add(1),
            who: Who::Number(customer),
            amount: next(seed, 10_000).wrapping_add(100),
            at,
        });
    }
    let mut lines = Vec::new(rt.alloc());
    for _ in 0..next(seed, 11).wrapping_add(5) {
        lines
            .push(PurchaseLine {
                item: next(seed, 20).wrapping_add(1),
                supply_warehouse: next(seed, 3).wrapping_add(1),
                quantity: next(seed, 10).wrapping_add(1),
            })
            .expect(rt, "a line");
    }
    Command::NewOrder(Purchase {
        warehouse,
        district,
        customer,
        at,
        lines: PurchaseLines::new(rt.alloc(), &lines).expect(rt, "lines"),
    })
}

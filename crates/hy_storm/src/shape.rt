//! What the commands of terminals need to know of a load.

ghost use Rattle.std.specs.Prelude.{◌≡◌, ◌≤◌, ◌<◌, IfOk, length};

use hy_loads::Load;
use hy_rows::{Customer, DISTRICTS_PER_WAREHOUSE, Item};
use std::alloc::{AllocError, Global};

/// How many warehouses and items a load has, and how many customers each of its districts.
#[derive(Drop)]
pub struct Shape {
    warehouses: u64,
    items: u64,
    customers: Vec<u64>,
}

impl Shape {
    /// The shape of a load.
    pub fn of(alloc: Global, load: &Load) -> Result<Shape, AllocError> {
        let warehouses = load.tables().warehouses.len();
        let districts = warehouses.saturating_mul(usize::from(DISTRICTS_PER_WAREHOUSE));
        let mut customers = Vec::from_elem(alloc, 0u64, districts)?;
        for row in load.list::<Customer>() {
            let place = place_of(u64::from(row.warehouse), u64::from(row.district));
            if let Some(count) = customers.get_mut(place) {
                *count = count.saturating_add(1);
            }
        }
        Ok(Shape {
            warehouses: warehouses as u64,
            items: load.list::<Item>().len() as u64,
            customers,
        })
    }

    /// How many warehouses there are; at least one.
    pub fn warehouses(&self) -> u64
        ensures { 1 ≤ result }
    {
        self.warehouses.max(1)
    }

    /// How many items there are; at least one.
    pub fn items(&self) -> u64
        ensures { 1 ≤ result }
    {
        self.items.max(1)
    }

    /// How many customers a district has; at least one.
    pub fn customers(&self, warehouse: u64, district: u64) -> u64
        ensures { 1 ≤ result }
    {
        match self.customers.get(place_of(warehouse, district)) {
            Some(count) => (*count).max(1),
            None => 1,
        }
    }
}

/// The place of a district among those of all warehouses.
fn place_of(warehouse: u64, district: u64) -> usize {
    let before = warehouse
        .wrapping_sub(1)
        .wrapping_mul(u64::from(DISTRICTS_PER_WAREHOUSE));
    before.wrapping_add(district.wrapping_sub(1)) as usize
}

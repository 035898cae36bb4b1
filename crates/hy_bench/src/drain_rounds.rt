//! Rounds of payments, each with a drain behind it.

ghost use Rattle.std.specs.Prelude.{◌≡◌, [], length};

use crate::payment_rounds::generated_load;
use crate::shop::Shop;
use hy_commands::Commit;
use hy_loads::Load;
use hy_partition::Loaded;
use hy_passes::{Kit, make};
use hy_schema::Refusal;
use std::alloc::Global;
use std::marker::Brand;

/// So many rounds of so many payments in a generated warehouse of three customers in each district.
pub fn run(alloc: Global, rounds: u64, payments: u64) -> Option<u64> {
    let load = generated_load(alloc, 1, 3, 1)?;
    let kit = make::<Commit>(alloc, 1, 2, 1).ok()?;
    drains::<Brand>(alloc, &load, kit, rounds, payments).ok()
}

/// The same in the world of the load and the kit. Answers how many commits were drained.
fn drains<K: Loaded>(
    alloc: Global,
    load: &Load,
    kit: Kit<Commit>,
    rounds: u64,
    payments: u64,
) -> Result<u64, Refusal>
    requires load { load.now ≡ K.load }
    requires kit { kit ≡ K.passes }
    requires partitions { kit.partitions ≡ length load.now.tables.warehouses }
    requires new { kit.replayed ≡ [] }
{
    let (mut shop, mut pass) = Shop::<K>::open(alloc, load, kit)?;
    let mut drained = 0_u64;
    for _ in 0..rounds {
        pass = shop.pay(pass, payments)?;
        drained = drained.wrapping_add(shop.drain(alloc)?);
    }
    Ok(drained)
}

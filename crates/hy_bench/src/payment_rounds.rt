//! Rounds over a partition of one warehouse.

ghost use Rattle.std.specs.Prelude.{◌≡◌, ◌≤◌, IfSome, length};
ghost use Rattle.hy_passes.specs.Worlds.{new_partition};

use hy_commands::{Command, Commit, Payment, Reply, Who};
use hy_loads::Load;
use hy_partition::{Done, Job, Loaded, Partition};
use hy_passes::{Journal, Kit, PartitionSeat, Pass, make};
use hy_rows::Warehouse;
use hy_schema::Refusal;
use hy_tables::generate;
use std::alloc::Global;
use std::marker::Brand;

/// The bytes of a page.
pub(crate) const SIZE: usize = 4096;

/// Payments of the first customer of the first district, in a generated warehouse with so many customers in each
/// district and one item.
pub fn run(alloc: Global, rounds: u64, customers: u64) -> Option<u64> {
    let load = generated_load(alloc, 1, customers, 1)?;
    let kit = make::<Commit>(alloc, 1, 1, 1).ok()?;
    payments::<Brand>(alloc, &load, kit, rounds).ok()
}

/// So many generated warehouses, customers in each district and items.
pub(crate) fn generated_load(
    alloc: Global,
    warehouses: u8,
    customers: u64,
    items: u64,
) -> Option<Load>
    ensures { IfSome result (λ load. length load.tables.warehouses ≡ warehouses) }
{
    let load = generate(alloc, warehouses.into(), customers, items).ok()?;
    if load.list::<Warehouse>().len() != usize::from(warehouses) {
        return None;
    }
    Some(load)
}

/// The same in the world of the load and the kit. Answers how many commits are kept.
fn payments<K: Loaded>(
    alloc: Global,
    load: &Load,
    kit: Kit<Commit>,
    rounds: u64,
) -> Result<u64, Refusal>
    requires load { load.now ≡ K.load }
    requires warehouse { 1 ≤ length load.now.tables.warehouses }
    requires kit { kit ≡ K.passes }
    requires partitions { kit.partitions ≡ 1 }
    requires clients { kit.clients ≡ 1 }
{
    let (mut partition, mut journal, mut pass) = opened::<K>(alloc, load, kit)?;
    for _ in 0..rounds {
        pass = pay(&mut partition, &mut journal, pass)?;
    }
    Ok(partition.kept().len() as u64)
}

/// The warehouse on pages, with its journal and its client.
pub(crate) fn opened<K: Loaded>(
    alloc: Global,
    load: &Load,
    kit: Kit<Commit>,
) -> Result<(Partition<SIZE, K>, Journal<Commit, K>, Pass<Commit, K>), Refusal>
    requires load { load.now ≡ K.load }
    requires warehouse { 1 ≤ length load.now.tables.warehouses }
    requires kit { kit ≡ K.passes }
    requires partitions { kit.partitions ≡ 1 }
    requires clients { kit.clients ≡ 1 }
{
    let (_passes, journal, mut seats, mut clients) = kit.open::<K>()?;
    let pass = clients.take_last();
    let seat = seats.take_last();
    let partition = on_pages(alloc, load, seat)?;
    Ok((partition, journal, pass))
}

/// The warehouse on pages, with as many frames and commits as may be.
fn on_pages<K: Loaded>(
    alloc: Global,
    load: &Load,
    seat: PartitionSeat<Commit, K>,
) -> Result<Partition<SIZE, K>, Refusal>
    requires load { load.now ≡ K.load }
    requires warehouse { 1 ≤ length load.now.tables.warehouses }
    requires seat { seat ≡ new_partition 1 }
{
    match Partition::new(alloc, load, 1, seat, 10_000_000, 100_000_000) {
        Ok(partition) => Ok(partition),
        Err((_seat, refusal)) => Err(refusal),
    }
}

/// What is paid each time.
pub(crate) fn payment() -> Command {
    Command::Payment(Payment {
        warehouse: 1,
        district: 1,
        customer_warehouse: 1,
        customer_district: 1,
        who: Who::Number(1),
        amount: 100,
        at: 1,
    })
}

/// One payment, from its begin to its answer.
fn pay<K: Loaded>(
    partition: &mut Partition<SIZE, K>,
    journal: &mut Journal<Commit, K>,
    pass: Pass<Commit, K>,
) -> Result<Pass<Commit, K>, Refusal> {
    if let Err((_job, refusal)) = partition.begin(Job::new(payment(), pass)) {
        return Err(refusal);
    }
    partition.step(journal)?;
    partition.step(journal)?;
    client_of(partition.take_done())
}

/// The client whose command is done, unless it was refused.
pub(crate) fn client_of<K: Loaded>(done: Option<Done<K>>) -> Result<Pass<Commit, K>, Refusal> {
    match done.map(|done| done.open()) {
        Some((Reply::Refused(refusal), _, _)) => Err(refusal),
        Some((_, pass, _share)) => Ok(pass),
        None => Err(Refusal::NotRunning),
    }
}

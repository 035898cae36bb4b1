//! An analyst looks at a warehouse in the middle of a client's payment, and again behind it.
#![tactic(auto)]

ghost use Rattle.std.specs.Prelude.{◌≡◌, ◌≤◌, length};
ghost use Rattle.hy_passes.specs.Worlds.{new_partition};

use hy_commands::{Command, Commit, Payment, Reply, Who};
use hy_loads::Load;
use hy_partition::{Job, Loaded, Partition};
use hy_passes::{Journal, Kit, PartitionSeat, Pass, make};
use hy_rows::Warehouse;
use hy_schema::Refusal;
use hy_tables::generate;
use std::alloc::Global;
use std::marker::Brand;
use std::process::ExitCode;

/// How many bytes a page has.
const PAGE_BYTES: usize = 4096;

fn main(rt: HostRuntime) -> ExitCode {
    match run(rt.alloc()) {
        Ok((between, behind)) => {
            let _ = println!(rt; "between its slices: {between} cents");
            let _ = println!(rt; "behind them: {behind} cents");
            ExitCode::from(0)
        }
        Err(refusal) => {
            let _ = println!(rt; "refused {refusal}");
            ExitCode::from(1)
        }
    }
}

/// Makes one warehouse with three customers in each of its ten districts, and one item, and a kit for its partition and
/// two clients.
fn run(alloc: Global) -> Result<(i64, i64), Refusal> {
    let load = generate(alloc, 1, 3, 1)?;
    let kit = make::<Commit>(alloc, 1, 2, 1)?;
    pay_and_look::<Brand>(alloc, &load, kit)
}

/// The same in the world of the load and the kit: one client pays, and the other one looks.
fn pay_and_look<K: Loaded>(
    alloc: Global,
    load: &Load,
    kit: Kit<Commit>,
) -> Result<(i64, i64), Refusal>
    requires kit { kit ≡ K.passes }
    requires partitions { kit.partitions ≡ 1 }
    requires clients { kit.clients ≡ 2 }
    requires load { load.now ≡ K.load }
    requires warehouse { 1 ≤ length load.now.tables.warehouses }
{
    let (_passes, mut journal, mut seats, mut clients) = kit.open::<K>()?;
    let analyst = clients.take_last();
    let payer = clients.take_last();
    let seat = seats.take_last();
    let mut warehouse = on_pages(alloc, load, seat)?;
    look_between(&mut warehouse, &mut journal, payer, analyst)
}

/// The warehouse on pages, with at most 10,000 frames and 100 commits.
fn on_pages<K: Loaded>(
    alloc: Global,
    load: &Load,
    seat: PartitionSeat<Commit, K>,
) -> Result<Partition<PAGE_BYTES, K>, Refusal>
    requires load { load.now ≡ K.load }
    requires warehouse { 1 ≤ length load.now.tables.warehouses }
    requires seat { seat ≡ new_partition 1 }
{
    match Partition::new(alloc, load, 1, seat, 10_000, 100) {
        Ok(warehouse) => Ok(warehouse),
        Err((_seat, refusal)) => Err(refusal),
    }
}

/// What the warehouse has taken in cents, as snapshots say between the two slices of a payment of 25.00 and behind them.
fn look_between<K: Loaded>(
    warehouse: &mut Partition<PAGE_BYTES, K>,
    journal: &mut Journal<Commit, K>,
    payer: Pass<Commit, K>,
    mut analyst: Pass<Commit, K>,
) -> Result<(i64, i64), Refusal> {
    if let Err((_job, refusal)) = warehouse.begin(Job::new(payment(), payer)) {
        return Err(refusal);
    }
    warehouse.step(journal)?;
    let between = taken(warehouse, journal, &mut analyst)?;
    warehouse.step(journal)?;
    let behind = taken(warehouse, journal, &mut analyst)?;

    match warehouse.take_done().map(|done| done.open()) {
        Some((Reply::Refused(refusal), _, _)) => Err(refusal),
        _ => Ok((between, behind)),
    }
}

/// Customer 2 of district 1 pays 25.00 there.
fn payment() -> Command {
    Command::Payment(Payment {
        warehouse: 1,
        district: 1,
        customer_warehouse: 1,
        customer_district: 1,
        who: Who::Number(2),
        amount: 2500,
        at: 1,
    })
}

/// W_YTD of the warehouse in cents, as a snapshot of this moment has it: a payment that runs isn't in it.
fn taken<K: Loaded>(
    warehouse: &mut Partition<PAGE_BYTES, K>,
    journal: &mut Journal<Commit, K>,
    analyst: &mut Pass<Commit, K>,
) -> Result<i64, Refusal> {
    let snapshot = warehouse.fork(journal, analyst)?;
    let rows = snapshot.list::<Warehouse>();
    match warehouse.close(snapshot) {
        Ok(()) => {}
        Err(_) => unreachable!(),
    }
    match rows?.first() {
        Some(row) => Ok(row.ytd),
        None => Err(Refusal::NoSuchWarehouse),
    }
}

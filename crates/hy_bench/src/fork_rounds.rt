//! Rounds of forks of one warehouse, whose first snapshot stays open.

ghost use Rattle.std.specs.Prelude.{◌≡◌, ◌≤◌, IfOk, OnOk, length, true};
ghost use Rattle.hy_worlds.specs.Origins.{desk_of};
ghost use Rattle.hy_partition.specs.Partition.{terms_of};
ghost use Rattle.hy_partition.specs.Steps.{is_from};

use crate::payment_rounds::{SIZE, generated_load, opened};
use hy_commands::Commit;
use hy_loads::Load;
use hy_partition::{Loaded, Partition, Snapshot};
use hy_passes::{Journal, Kit, Pass, make};
use hy_schema::Refusal;
use std::alloc::Global;
use std::marker::Brand;

/// How many items the warehouse has.
const ITEMS: u64 = 100_000;

/// Forks of a generated warehouse with so many customers in each district, or of its first snapshot, each closed again.
pub fn run(alloc: Global, work: &str, rounds: u64, customers: u64) -> Option<u64> {
    let load = generated_load(alloc, 1, customers, ITEMS)?;
    let kit = make::<Commit>(alloc, 1, 1, 1).ok()?;
    forks::<Brand>(alloc, &load, kit, work == "again", rounds).ok()
}

/// The same in the world of the load and the kit. Answers how many pages the warehouse and its snapshot share.
fn forks<K: Loaded>(
    alloc: Global,
    load: &Load,
    kit: Kit<Commit>,
    is_again: bool,
    rounds: u64,
) -> Result<u64, Refusal>
    requires load { load.now ≡ K.load }
    requires warehouse { 1 ≤ length load.now.tables.warehouses }
    requires kit { kit ≡ K.passes }
    requires partitions { kit.partitions ≡ 1 }
    requires clients { kit.clients ≡ 1 }
{
    let (mut partition, mut journal, mut pass) = opened::<K>(alloc, load, kit)?;
    let first = partition.fork(&mut journal, &mut pass)?;
    let done = if is_again {
        fork_again(&mut partition, &first, rounds)
    } else {
        fork_each(&mut partition, &mut journal, &mut pass, rounds)
    };
    let shared = partition.shared();
    close(&mut partition, first);
    done?;
    Ok(shared)
}

/// Forks of the warehouse, each closed again.
fn fork_each<K: Loaded>(
    partition: &mut Partition<SIZE, K>,
    journal: &mut Journal<Commit, K>,
    pass: &mut Pass<Commit, K>,
    rounds: u64,
) -> Result<(), Refusal>
    ensures { terms_of partition.new ≡ terms_of partition.old }
{
    for _ in 0..rounds {
        let snapshot = partition.fork(journal, pass)?;
        close(partition, snapshot);
    }
    Ok(())
}

/// Forks of a snapshot, each closed again.
fn fork_again<K: Loaded>(
    partition: &mut Partition<SIZE, K>,
    first: &Snapshot<SIZE>,
    rounds: u64,
) -> Result<(), Refusal>
    ensures { terms_of partition.new ≡ terms_of partition.old }
{
    for _ in 0..rounds {
        let snapshot = partition.fork_from(first)?;
        close(partition, snapshot);
    }
    Ok(())
}

/// Closes a snapshot of this partition.
fn close<K: Loaded>(partition: &mut Partition<SIZE, K>, snapshot: Snapshot<SIZE>)
    requires warehouse { snapshot.warehouse ≡ partition.old.warehouse }
    requires name { snapshot.name ≡ K.passes.name }
    requires desk { snapshot.desk ≡ desk_of K.passes partition.old.warehouse }
    ensures { terms_of partition.new ≡ terms_of partition.old }
{
    match partition.close(snapshot) {
        Ok(()) => {}
        Err(_) => unreachable!(),
    }
}

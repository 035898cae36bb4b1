//! How many commits the batches of a log have of each warehouse.

ghost use Rattle.std.specs.Prelude.{◌≡◌, ◌<◌, ◌≤◌, ◌↔◌, ℕ, IfOk, IsTrue, MatchBool, length, slice_index_or};
ghost use Rattle.hy_forks.specs.of_partition.Limits.{most_kept};
ghost use Rattle.hy_rows.specs.Tables.{Lists};
ghost use Rattle.hy_sound.specs.Sound.{list_at};
ghost use Rattle.hy_passes.specs.SerialList.{max_clients};
ghost use Rattle.hy_recovery.specs.Recovering.{Counts, NoneAreTooMany, SomeAreTooMany, joined};

use hy_batches::{Batch, Batches};
use hy_commands::Commit;
use hy_loads::Load;
use hy_passes::{Kit, make};
use hy_schema::Warehouse;
use std::alloc::{AllocError, Global};

/// How many commits the list at a place has; none where there is no such list.
fn count_at(batch: &Batch, place: usize) -> usize
    ensures { result ≡ length (list_at batch.now.lists place) }
{
    if place >= batch.len() {
        return 0;
    }
    batch.list(place).len()
}

/// Whether the lists at a place have more commits together than may be kept.
fn are_too_many(batches: &Batches, place: usize, most: u64) -> bool
    ensures { IsTrue result ↔ (most < length (joined batches.now place)) }
{
    let mut room = most;
    for number in 0..batches.count() as usize {
        let count = count_at(batches.batch(number), place) as u64;
        if room < count {
            return true;
        }
        room -= count;
    }
    false
}

/// Whether a warehouse of the load has more commits in the batches than may be kept.
pub(crate) fn some_are_too_many(load: &Load, batches: &Batches, most: u64) -> bool
    ensures { MatchBool result (SomeAreTooMany load.now batches.now most) (NoneAreTooMany load.now batches.now most) }
{
    for place in 0..load.list::<Warehouse>().len() {
        if are_too_many(batches, place, most) {
            return true;
        }
    }
    false
}

/// How many commits the lists at a place have together.
fn count_all(batches: &Batches, place: usize) -> u64
    ensures { length (joined batches.now place) ≤ most_kept → result ≡ length (joined batches.now place) }
{
    let mut sum = 0_u64;
    for number in 0..batches.count() as usize {
        sum = sum.saturating_add(count_at(batches.batch(number), place) as u64);
    }
    sum
}

/// How many commits of each warehouse of the load come from the batches. E1.
fn count_commits(alloc: Global, load: &Load, batches: &Batches) -> Result<Vec<u64>, AllocError>
    ensures { IfOk result (λ counts. (place : ℕ) → place < length load.now.tables.warehouses
        → length (joined batches.now place) ≤ most_kept
        → slice_index_or counts.items place 0 ≡ length (joined batches.now place)) }
{
    let warehouses = load.list::<Warehouse>().len();
    let mut counts = Vec::with_capacity(alloc, warehouses)?;
    for place in 0..warehouses {
        counts.push_reserved(count_all(batches, place));
    }
    Ok(counts)
}

/// A kit for the partitions of a load that are recovered from batches, and for so many clients. E1.
pub fn kit_for(
    alloc: Global,
    load: &Load,
    batches: &Batches,
    clients: u32,
    name: u64,
) -> Result<Kit<Commit>, AllocError>
    requires clients { (1 ≤ clients) × (clients ≤ max_clients) }
    ensures made { IfOk result (λ kit. (kit.partitions ≡ length load.now.tables.warehouses)
        × (kit.clients ≡ clients) × (kit.name ≡ name)) }
    ensures counts { IfOk result (λ kit. Counts kit load.now batches.now) }
{
    load.sound();
    let counts = count_commits(alloc, load, batches)?;
    let warehouses = load.tables().warehouses.len();
    let kit = make::<Commit>(alloc, warehouses as u8, clients, name)?;
    Ok(kit.replaying(counts))
}

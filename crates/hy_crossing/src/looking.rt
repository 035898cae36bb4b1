//! Whether partitions are all those of a load.

ghost use Rattle.std.specs.Prelude.{◌≡◌, ◌≤◌, ◌↔◌, IsTrue, length};
ghost use Rattle.hy_crossing.specs.Crossings.{ArePartitions, HaveNoPart, IsWhole};

use crate::parts::Parts;
use hy_partition::{Loaded, Partition};
use hy_schema::Warehouse;

/// Whether a partition is that of the warehouse with a number, and no part of a command is done there.
fn is_whole<const N: usize, K: Loaded>(part: &Partition<N, K>, number: u64) -> bool
    ensures { IsTrue result ↔ IsWhole K.load number part.now }
{
    part.ties();
    u64::from(part.warehouse()) == number && !part.has_part()
}

/// Whether these are the partitions of the load, one for each of its warehouses in rising order, and no part of a command
/// is done in any. Who takes partitions out of locks, where a value shows no more than its invariant, asks this before a
/// call on all of them. Changes nothing.
pub fn are_partitions<const N: usize, K: Loaded, P: Parts<Part = Partition<N, K>>>(
    parts: &mut P,
) -> bool
    ensures are { IsTrue result ↔ ((1 ≤ length (P.states parts.old)) × ArePartitions K.load (P.states parts.old)
        × HaveNoPart (P.states parts.old)) }
    ensures same { P.states parts.new ≡ P.states parts.old }
{
    let count = parts.len();
    if count == 0 || warehouses_of_load(parts) != count {
        return false;
    }
    for place in 0..count {
        if !is_whole(parts.part(place), place as u64 + 1) {
            return false;
        }
    }
    true
}

/// How many warehouses the load has. Changes nothing.
fn warehouses_of_load<const N: usize, K: Loaded, P: Parts<Part = Partition<N, K>>>(
    parts: &mut P,
) -> usize
    requires { 1 ≤ length (P.states parts.old) }
    ensures count { result ≡ length K.load.tables.warehouses }
    ensures same { P.states parts.new ≡ P.states parts.old }
{
    let part = parts.part(0);
    part.ties();
    part.load().list::<Warehouse>().len()
}

//! Rounds over an index of orders in a space of one segment. Each change is a transaction of its own, which commits.

ghost use Rattle.std.specs.Prelude.{◌≡◌, IfOk, OnOk};
ghost use Rattle.hy_bench.specs.Indexes.{IsIndexed};

use hy_frames::Shortage;
use hy_index::{Entry, Index};
use hy_space::Space;
use hy_store::OrderKey;
use hy_undo::Undo;
use std::alloc::{AllocError, Global};

/// The bytes of a page.
const SIZE: usize = 4096;

/// How many places keys come at in turn.
const PLACES: u64 = 1_000;

/// How many numbers lie from one place to the next.
const BETWEEN: u64 = 40_000_000;

/// How many entries a range has.
const RANGE: u64 = 20;

/// The first step of the order in which keys come at random.
const COMING: u64 = 387_619;

/// The first step of the order in which keys go.
const GOING: u64 = 728_431;

/// What each step of such an order adds to the one before, twice over.
const CHANGE: u64 = 618_030;

/// The first step of the order in which keys are looked for.
const SEEKING: u64 = 0xd1b5_4a32_d192_ed03;

/// What each step of that order adds to the one before, twice over.
const SEEKING_CHANGE: u64 = 0x9e37_79b9_7f4a_7c15;

/// The order in which keys come.
#[derive(Clone, Copy)]
enum Sequence {
    Rising,
    Random,
    InTurn,
}

/// A space whose one segment is an index, and its undo log.
#[derive(Drop)]
struct IndexedSpace {
    space: Space<SIZE>,
    undo: Undo<SIZE>,
}

/// Rounds of one work over an index of so many keys.
pub fn run(alloc: Global, work: &str, rounds: u64, keys: u64) -> Option<u64> {
    match work {
        "insert-rising" => fills(alloc, rounds, keys, Sequence::Rising).ok(),
        "insert-random" => fills(alloc, rounds, keys, Sequence::Random).ok(),
        "insert-places" => fills(alloc, rounds, keys, Sequence::InTurn).ok(),
        "remove" => removals(alloc, rounds, keys).ok(),
        "find" => finds(alloc, rounds, keys).ok(),
        "range" => ranges(alloc, rounds, keys).ok(),
        _ => None,
    }
}

/// The index.
fn index() -> Index<OrderKey>
    ensures { result ≡ 0 }
{
    Index::new(0)
}

/// The key of a number. Each order number has ten keys, one a district.
fn key_of(number: u64) -> OrderKey {
    OrderKey {
        order: (number / 10 % 4_294_967_296) as u32,
        district: (number % 10 + 1) as u8,
    }
}

/// The number of the key that comes in a round of a turn, where so many come.
fn number_in(sequence: Sequence, turn: u64, round: u64, keys: u64) -> u64 {
    match sequence {
        Sequence::Rising => round,
        Sequence::Random => mixed(round, step_in(turn, COMING), keys),
        Sequence::InTurn => round % PLACES * BETWEEN + round / PLACES,
    }
}

/// The first step of a turn, where that of turn 0 is given. So each turn has an order of its own, and what the processor
/// has learned of the turns before is of no use. All first steps end in the same digit.
fn step_in(turn: u64, first: u64) -> u64 {
    turn.wrapping_mul(10).wrapping_add(first)
}

/// A number below `keys`. In `keys` rounds in a row each comes once, where `keys` is a power of ten: the steps from one
/// to the next change by a multiple of ten, and the first step has no divisor in common with ten.
fn mixed(round: u64, first_step: u64, keys: u64) -> u64 {
    let step = round.wrapping_mul(CHANGE).wrapping_add(first_step);
    round.wrapping_mul(step) % keys.max(1)
}

/// A number below `keys` to look for. The numbers of some rounds in a row don't come again in the same order.
fn sought(round: u64, keys: u64) -> u64 {
    let step = round.wrapping_mul(SEEKING_CHANGE).wrapping_add(SEEKING);
    (round.wrapping_mul(step) >> 32) % keys.max(1)
}

/// Indexes of so many keys, one made after the other.
fn fills(alloc: Global, rounds: u64, keys: u64, sequence: Sequence) -> Result<u64, Shortage> {
    let mut seen = 0u64;
    for turn in 0..rounds {
        let indexed = filled(alloc, keys, sequence, turn)?;
        seen = seen.wrapping_add(find(&indexed, 0));
    }
    Ok(seen)
}

/// Indexes of so many keys, one made after the other, all of whose keys go again.
fn removals(alloc: Global, rounds: u64, keys: u64) -> Result<u64, Shortage> {
    let mut seen = 0u64;
    for turn in 0..rounds {
        let mut indexed = filled(alloc, keys, Sequence::Random, turn)?;
        clear(&mut indexed, keys, turn)?;
        seen = seen.wrapping_add(find(&indexed, 0));
    }
    Ok(seen)
}

/// Look-ups of keys that are there.
fn finds(alloc: Global, rounds: u64, keys: u64) -> Result<u64, Shortage> {
    let indexed = filled(alloc, keys, Sequence::Random, 0)?;
    let mut seen = 0u64;
    for round in 0..rounds {
        seen = seen.wrapping_add(find(&indexed, sought(round, keys)));
    }
    Ok(seen)
}

/// Reads of entries that stand next to one another.
fn ranges(alloc: Global, rounds: u64, keys: u64) -> Result<u64, Shortage> {
    let indexed = filled(alloc, keys, Sequence::Random, 0)?;
    let mut entries = Vec::new(alloc);
    let mut seen = 0u64;
    for round in 0..rounds {
        let first = sought(round, keys.saturating_sub(RANGE));
        seen = seen.wrapping_add(range(&indexed, first, &mut entries)?);
    }
    Ok(seen)
}

/// An index without keys.
fn empty(alloc: Global) -> Result<IndexedSpace, Shortage>
    ensures { IfOk result (λ indexed. IsIndexed indexed.space indexed.undo) }
{
    let mut space = Space::new(alloc, 1, 10_000_000)?;
    let mut undo = Undo::new(alloc, &space)?;
    index().create(&mut space, &mut undo)?;
    undo.commit(&space);
    Ok(IndexedSpace { space, undo })
}

/// An index of so many keys, in a turn.
fn filled(alloc: Global, keys: u64, sequence: Sequence, turn: u64) -> Result<IndexedSpace, Shortage>
    ensures { IfOk result (λ indexed. IsIndexed indexed.space indexed.undo) }
{
    let mut indexed = empty(alloc)?;
    for round in 0..keys {
        insert(
            &mut indexed,
            number_in(sequence, turn, round, keys),
            round + 1,
        )?;
    }
    Ok(indexed)
}

/// Takes all keys away in a turn, each in a transaction of its own.
fn clear(indexed: &mut IndexedSpace, keys: u64, turn: u64) -> Result<(), Shortage>
    requires { IsIndexed indexed.old.space indexed.old.undo }
    ensures { OnOk result (IsIndexed indexed.new.space indexed.new.undo) }
{
    for round in 0..keys {
        remove(indexed, mixed(round, step_in(turn, GOING), keys))?;
    }
    Ok(())
}

/// Gives the key of a number a slot, in a transaction of its own.
fn insert(indexed: &mut IndexedSpace, number: u64, slot: u64) -> Result<(), Shortage>
    requires { IsIndexed indexed.old.space indexed.old.undo }
    ensures { OnOk result (IsIndexed indexed.new.space indexed.new.undo) }
{
    index().insert(&mut indexed.space, &mut indexed.undo, &key_of(number), slot)?;
    indexed.undo.commit(&indexed.space);
    Ok(())
}

/// Takes the key of a number away, in a transaction of its own.
fn remove(indexed: &mut IndexedSpace, number: u64) -> Result<(), Shortage>
    requires { IsIndexed indexed.old.space indexed.old.undo }
    ensures { OnOk result (IsIndexed indexed.new.space indexed.new.undo) }
{
    index().remove(&mut indexed.space, &mut indexed.undo, &key_of(number))?;
    indexed.undo.commit(&indexed.space);
    Ok(())
}

/// The slot of the key of a number, or 0 where it isn't there.
fn find(indexed: &IndexedSpace, number: u64) -> u64
    requires { IsIndexed indexed.now.space indexed.now.undo }
{
    index().find(&indexed.space, &key_of(number)).unwrap_or(0)
}

/// The sum of the slots of 20 numbers from one on, which are read into a list.
fn range(
    indexed: &IndexedSpace,
    first: u64,
    entries: &mut Vec<Entry<OrderKey>>,
) -> Result<u64, AllocError>
    requires { IsIndexed indexed.now.space indexed.now.undo }
{
    let low = key_of(first);
    let high = key_of(first.saturating_add(RANGE));
    index().range_into(&indexed.space, &low, &high, entries)?;
    Ok(slots_of(entries))
}

/// The sum of the slots of entries.
fn slots_of(entries: &[Entry<OrderKey>]) -> u64 {
    let mut seen = 0u64;
    for entry in entries {
        seen = seen.wrapping_add(entry.slot);
    }
    seen
}

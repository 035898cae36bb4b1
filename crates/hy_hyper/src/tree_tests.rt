//! Trees of many pages: what a change writes and a look-up reads, pages that are used again, and changes that want a
//! frame where none is free.

ghost use Rattle.std.specs.Prelude.{◌<◌, ◌≤◌};
ghost use Rattle.hy_frames.specs.FrameTable.{IsPageSize};

use crate::lists::{KEYS, Keys, Sequence, each, every_second, keys_agree, ranges_agree};
use crate::stores::{FRAMES, Store, key_at};
use std::process::Abort;

/// How many different pages an insert or a remove writes at most.
const MOST_WRITTEN: u64 = 45;

/// No more pages were written since the last commit, when the index had so many pages.
fn few_written<const N: usize>(rt: &impl Abort, store: &Store<N>, pages: u32) {
    let grown = store.pages().saturating_sub(pages);
    assert!(rt; store.touched().saturating_add(u64::from(grown)) <= MOST_WRITTEN);
}

/// The keys of some numbers come, each in a transaction of its own.
fn insert_all<const N: usize>(
    rt: &impl Abort,
    store: &mut Store<N>,
    keys: &mut Keys,
    numbers: &[u64],
) {
    for number in numbers {
        let pages = store.pages();
        let slot = u64::MAX - *number;
        store.insert(rt, &key_at(*number), slot);
        few_written(rt, store, pages);
        store.commit();
        keys.set(rt, *number, Some(slot));
    }
}

/// The keys of some numbers go, each in a transaction of its own.
fn remove_all<const N: usize>(
    rt: &impl Abort,
    store: &mut Store<N>,
    keys: &mut Keys,
    numbers: &[u64],
) {
    for number in numbers {
        let pages = store.pages();
        store.remove(rt, &key_at(*number));
        few_written(rt, store, pages);
        store.commit();
        keys.set(rt, *number, None);
    }
}

/// How many binary digits spell a number.
fn digits_of(number: u64) -> u64 {
    u64::from(u64::BITS.saturating_sub(number.leading_zeros()))
}

/// Each look-up finds what the list has, and reads 2 pages and as many as stand above each leaf: those are no more than the
/// binary digits of how many keys there are, and 2 at least where pages are small.
fn look_ups_agree<const N: usize>(rt: &(impl Abort + AllocGlobal), store: &Store<N>, keys: &Keys) {
    let above = store.pages_above(rt);
    assert!(rt; above <= digits_of(keys.entries(rt).len() as u64));
    assert!(rt; 256 < N || 2 <= above);
    for number in 0..KEYS {
        let (slot, reads) = store.find_counted(&key_at(number.into()));
        assert!(rt; slot == keys.find(number as usize));
        assert!(rt; reads == above.saturating_add(2));
    }
}

/// The index has the keys of the list, those that are gone aren't there, and look-ups read few pages.
fn all_agree<const N: usize>(rt: &(impl Abort + AllocGlobal), store: &Store<N>, keys: &Keys) {
    ranges_agree(rt, store, keys);
    keys_agree(rt, store, keys, 1);
    look_ups_agree(rt, store, keys);
}

/// All keys come, and every second one goes.
fn come_and_go<const N: usize>(rt: &(impl Abort + AllocGlobal), sequence: Sequence)
    requires { IsPageSize N }
{
    let mut store: Store<N> = Store::new(rt);
    let mut keys = Keys::new(rt);
    insert_all(rt, &mut store, &mut keys, &each(rt, sequence));
    all_agree(rt, &store, &keys);
    remove_all(rt, &mut store, &mut keys, &every_second(rt, sequence));
    all_agree(rt, &store, &keys);
}

#[test]
fn small_pages_rising(rt: HostRuntime) {
    come_and_go::<256>(&rt, Sequence::Rising);
}

#[test]
fn small_pages_falling(rt: HostRuntime) {
    come_and_go::<256>(&rt, Sequence::Falling);
}

#[test]
fn small_pages_scattered(rt: HostRuntime) {
    come_and_go::<256>(&rt, Sequence::Scattered(2003));
}

/// All keys come, go and come again: the index has as many pages as at first.
fn filled_again<const N: usize>(rt: &(impl Abort + AllocGlobal), sequence: Sequence)
    requires { IsPageSize N }
{
    let mut store: Store<N> = Store::new(rt);
    let mut keys = Keys::new(rt);
    let numbers = each(rt, sequence);
    insert_all(rt, &mut store, &mut keys, &numbers);
    let pages = store.pages();
    remove_all(rt, &mut store, &mut keys, &numbers);
    ranges_agree(rt, &store, &keys);
    insert_all(rt, &mut store, &mut keys, &numbers);
    assert!(rt; store.pages() == pages);
    ranges_agree(rt, &store, &keys);
}

#[test]
fn emptied_and_filled_again(rt: HostRuntime) {
    filled_again::<256>(&rt, Sequence::Rising);
    filled_again::<256>(&rt, Sequence::Scattered(2003));
    filled_again::<4096>(&rt, Sequence::Falling);
    filled_again::<4096>(&rt, Sequence::Scattered(2003));
}

/// How many different keys the random steps name.
const NAMED: u64 = 2000;

/// How many transactions there are of random steps.
const TRANSACTIONS: u64 = 600;

/// How many steps a transaction has.
const STEPS: u64 = 10;

/// After so many transactions with more inserts come as many with more removes, and so on.
const PHASE: u64 = 100;

/// Numbers of a multiplicative congruential generator.
#[derive(Drop)]
struct Numbers {
    last: u32,
}

impl Numbers {
    /// The next number, below a bound.
    fn below(&mut self, bound: u64) -> u64
        requires { 0 < bound }
    {
        self.last = (u64::from(self.last) * 48_271 % 2_147_483_647) as u32;
        u64::from(self.last) % bound
    }
}

/// Looks a key up, inserts it or removes it, and answers false where a frame lacks. Of eight steps that change something,
/// so many are inserts.
fn step<const N: usize>(
    rt: &impl Abort,
    store: &mut Store<N>,
    keys: &mut Keys,
    numbers: &mut Numbers,
    inserts: u64,
) -> bool {
    let number = numbers.below(NAMED);
    let key = key_at(number);
    if numbers.below(4) == 0 {
        assert!(rt; store.find(&key) == keys.find(number as usize));
        assert!(rt; store.first_from(&key) == keys.first_from(number as usize));
        return true;
    }
    if numbers.below(8) < inserts {
        let slot = numbers.below(1_000_000);
        keys.set(rt, number, Some(slot));
        return store.try_insert(rt, &key, slot);
    }
    keys.set(rt, number, None);
    store.try_remove(rt, &key)
}

/// Some steps, and a commit behind them. Answers false where one of them was refused, so that all are undone.
fn transaction<const N: usize>(
    rt: &impl Abort,
    store: &mut Store<N>,
    keys: &mut Keys,
    numbers: &mut Numbers,
    inserts: u64,
) -> bool {
    let mut changed = keys.copied(rt);
    for _ in 0..STEPS {
        if !step(rt, store, &mut changed, numbers, inserts) {
            return false;
        }
    }
    store.commit();
    *keys = changed;
    true
}

/// Lets so many frames be free.
fn let_free<const N: usize>(rt: &impl Abort, store: &mut Store<N>, free: u64) {
    store.limit(rt, FRAMES);
    let used = FRAMES.saturating_sub(store.free());
    store.limit(rt, used.saturating_add(free));
}

/// Lets fewer frames be free than this number, beside one child more or none.
fn hold_short<const N: usize>(
    rt: &impl Abort,
    store: &mut Store<N>,
    numbers: &mut Numbers,
    beside_child: bool,
    bound: u64,
)
    requires { 0 < bound }
{
    if beside_child {
        store.leave_child(rt);
    }
    let free = numbers.below(bound);
    let_free(rt, store, free);
}

/// Of eight steps of a transaction that change something, so many are inserts.
fn inserts_in(transaction: u64) -> u64 {
    if transaction / PHASE % 2 == 0 { 7 } else { 1 }
}

/// Transactions of random steps, before each of which the free frames are fewer than a number. Some are refused.
fn random_steps<const N: usize>(
    rt: &(impl Abort + AllocGlobal),
    first: u32,
    beside_child: bool,
    bound: u64,
)
    requires size { IsPageSize N }
    requires some { 0 < bound }
{
    let mut store: Store<N> = Store::new(rt);
    let mut keys = Keys::new(rt);
    let mut numbers = Numbers { last: first };
    let mut refused: u64 = 0;
    for number in 0..TRANSACTIONS {
        hold_short(rt, &mut store, &mut numbers, beside_child, bound);
        let inserts = inserts_in(number);
        if !transaction(rt, &mut store, &mut keys, &mut numbers, inserts) {
            refused = refused.saturating_add(1);
            ranges_agree(rt, &store, &keys);
        }
    }
    assert!(rt; 0 < refused && refused < TRANSACTIONS / 2);
    all_agree(rt, &store, &keys);
}

#[test]
fn random_steps_on_small_pages(rt: HostRuntime) {
    random_steps::<256>(&rt, 1, false, 4);
}

#[test]
fn random_steps_on_small_pages_beside_children(rt: HostRuntime) {
    random_steps::<256>(&rt, 2, true, 40);
}

#[test]
fn random_steps_on_large_pages(rt: HostRuntime) {
    random_steps::<4096>(&rt, 3, false, 3);
}

#[test]
fn random_steps_on_large_pages_beside_children(rt: HostRuntime) {
    random_steps::<4096>(&rt, 4, true, 12);
}

//! A relation and an index of its rows over 5,000 rows and keys, beside plain lists.

ghost use Rattle.hy_frames.specs.FrameTable.{IsPageSize};

use crate::lists::{Keys, Sequence, each, every_second, keys_agree, ranges_agree};
use crate::stores::{Store, key_at, key_of, row_of};
use hy_rows::NewOrder;
use std::process::Abort;

/// How many steps lie between two comparisons of all rows and keys.
const STEPS: usize = 100;

/// How many numbers lie between two keys that a comparison looks up.
const STRIDE: usize = 61;

/// What a store is to have.
#[derive(Drop)]
struct Lists {
    /// The row of each slot, or none where it was erased.
    rows: Vec<Option<NewOrder>>,
    /// The slots of the rows by their keys.
    keys: Keys,
}

impl Lists {
    /// The lists of a store without rows.
    fn new(rt: &(impl Abort + AllocGlobal)) -> Lists {
        Lists {
            rows: Vec::new(rt.alloc()),
            keys: Keys::new(rt),
        }
    }

    /// The same lists once more.
    fn copied(&self, rt: &impl Abort) -> Lists {
        Lists {
            rows: self.rows.clone().expect(rt, "a copy"),
            keys: self.keys.copied(rt),
        }
    }

    /// The row of a number is in a slot behind the others.
    fn add(&mut self, rt: &impl Abort, number: u64, slot: u64) {
        assert!(rt; slot == self.rows.len() as u64);
        self.rows.push(Some(row_of(number))).expect(rt, "a place");
        self.keys.set(rt, number, Some(slot));
    }

    /// The row of a number, which was in this slot, is gone.
    fn remove(&mut self, rt: &impl Abort, number: u64, slot: u64) {
        assert!(rt; self.keys.find(number as usize) == Some(slot));
        self.keys.set(rt, number, None);
        let Some(row) = self.rows.get_mut(slot as usize) else {
            panic!(rt; "no such slot");
        };
        assert!(rt; *row == Some(row_of(number)));
        *row = None;
    }

    /// The rows that are there, in the order of their slots.
    fn live_rows(&self, rt: &(impl Abort + AllocGlobal)) -> Vec<NewOrder> {
        let mut rows = Vec::new(rt.alloc());
        for row in self.rows.iter().flatten() {
            rows.push(*row).expect(rt, "a row");
        }
        rows
    }
}

/// The relation has the rows of the lists.
fn rows_agree<const N: usize>(rt: &(impl Abort + AllocGlobal), store: &Store<N>, lists: &Lists) {
    assert!(rt; store.slots() == lists.rows.len() as u64);
    assert!(rt; store.get(store.slots()).is_none());
    for (slot, row) in lists.rows.iter().enumerate() {
        assert!(rt; store.get(slot as u64) == *row);
    }
    assert!(rt; store.scan(rt).as_slice() == lists.live_rows(rt).as_slice());
}

/// The store has what the lists have.
fn agree<const N: usize>(rt: &(impl Abort + AllocGlobal), store: &Store<N>, lists: &Lists) {
    rows_agree(rt, store, lists);
    ranges_agree(rt, store, &lists.keys);
    keys_agree(rt, store, &lists.keys, STRIDE);
}

/// What a step does with the row of a number.
#[derive(Clone, Copy)]
enum Change {
    Add,
    Remove,
}

/// Adds the row of a number, and its key. The row is put in the place of another one.
fn add<const N: usize>(rt: &impl Abort, store: &mut Store<N>, lists: &mut Lists, number: u64) {
    let row = row_of(number);
    let slot = store.push(rt, &row_of(0));
    store.put(rt, slot, &row);
    store.insert(rt, &key_of(&row), slot);
    lists.add(rt, number, slot);
}

/// Finds the row of a number by its key, and removes both.
fn remove<const N: usize>(rt: &impl Abort, store: &mut Store<N>, lists: &mut Lists, number: u64) {
    let key = key_at(number);
    let Some(slot) = store.find(&key) else {
        panic!(rt; "the number isn't there");
    };
    store.erase(rt, slot);
    store.remove(rt, &key);
    lists.remove(rt, number, slot);
}

/// A step for each number.
fn change_all<const N: usize>(
    rt: &impl Abort,
    store: &mut Store<N>,
    lists: &mut Lists,
    change: Change,
    numbers: &[u64],
) {
    for number in numbers {
        match change {
            Change::Add => add(rt, store, lists, *number),
            Change::Remove => remove(rt, store, lists, *number),
        }
    }
}

/// A transaction that has done half of its steps is rolled back, and then all steps are done.
fn half_and_all<const N: usize>(
    rt: &(impl Abort + AllocGlobal),
    store: &mut Store<N>,
    lists: &mut Lists,
    change: Change,
    numbers: &[u64],
) {
    let mut half_done = lists.copied(rt);
    change_all(
        rt,
        store,
        &mut half_done,
        change,
        &numbers[..numbers.len() / 2],
    );
    agree(rt, store, &half_done);
    store.roll_back();
    agree(rt, store, lists);
    change_all(rt, store, lists, change, numbers);
    store.commit();
    agree(rt, store, lists);
}

/// All rows come, and every second one goes.
fn come_and_go<const N: usize>(rt: &(impl Abort + AllocGlobal), sequence: Sequence)
    requires { IsPageSize N }
{
    let mut store: Store<N> = Store::new(rt);
    let mut lists = Lists::new(rt);
    for hundred in each(rt, sequence).chunks(STEPS) {
        half_and_all(rt, &mut store, &mut lists, Change::Add, hundred);
    }
    keys_agree(rt, &store, &lists.keys, 1);
    for hundred in every_second(rt, sequence).chunks(STEPS) {
        half_and_all(rt, &mut store, &mut lists, Change::Remove, hundred);
    }
    keys_agree(rt, &store, &lists.keys, 1);
}

#[test]
fn rising_on_small_pages(rt: HostRuntime) {
    come_and_go::<256>(&rt, Sequence::Rising);
}

#[test]
fn falling_on_small_pages(rt: HostRuntime) {
    come_and_go::<256>(&rt, Sequence::Falling);
}

#[test]
fn scattered_on_small_pages(rt: HostRuntime) {
    come_and_go::<256>(&rt, Sequence::Scattered(2741));
}

#[test]
fn rising_on_large_pages(rt: HostRuntime) {
    come_and_go::<4096>(&rt, Sequence::Rising);
}

#[test]
fn falling_on_large_pages(rt: HostRuntime) {
    come_and_go::<4096>(&rt, Sequence::Falling);
}

#[test]
fn scattered_on_large_pages(rt: HostRuntime) {
    come_and_go::<4096>(&rt, Sequence::Scattered(2741));
}

/// Four hundred rows, in the order of their keys.
fn four_hundred<const N: usize>(rt: &(impl Abort + AllocGlobal)) -> (Store<N>, Lists)
    requires { IsPageSize N }
{
    let mut store: Store<N> = Store::new(rt);
    let mut lists = Lists::new(rt);
    for number in 0..400 {
        add(rt, &mut store, &mut lists, number);
    }
    store.commit();
    (store, lists)
}

/// Forty rows come and forty others go.
fn change_eighty<const N: usize>(rt: &impl Abort, store: &mut Store<N>, lists: &mut Lists) {
    for number in 0..40 {
        add(rt, store, lists, number + 400);
        remove(rt, store, lists, number + 100);
    }
}

/// A transaction splits pages of the index and joins others. A child that is opened in its midst sees the begin, and keeps
/// it, and so does the owner once the transaction is rolled back.
#[test]
fn half_done_over_splits(rt: HostRuntime) {
    let (mut store, lists) = four_hundred::<256>(&rt);
    let begin = store.fork(&rt);
    let pages = store.pages();
    let mut changed = lists.copied(&rt);
    change_eighty(&rt, &mut store, &mut changed);
    let midst = store.fork(&rt);
    assert!(rt; store.pages() > pages);
    agree(&rt, &store, &changed);
    midst.agrees(&rt, &begin);
    store.roll_back();
    assert!(rt; store.pages() == pages);
    agree(&rt, &store, &lists);
    store.fork(&rt).agrees(&rt, &begin);
    change_eighty(&rt, &mut store, &mut lists.copied(&rt));
    store.commit();
    agree(&rt, &store, &changed);
    midst.agrees(&rt, &begin);
}

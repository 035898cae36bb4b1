//! Plain lists of the keys that an index is to have, and the sequences in which keys come and go.

ghost use Rattle.std.specs.Prelude.{◌<◌, ◌^◌};

use crate::stores::{DISTRICTS, NewOrderKey, Store, first_key_of, key_at, pair_of};
use hy_index::Entry;
use std::process::Abort;

/// How many keys there can be, numbered from 0 on.
pub const KEYS: u32 = 5000;

/// The keys that an index is to have.
#[derive(Drop)]
pub struct Keys {
    /// The slot of the key of each number, or none where it isn't there.
    slots: Vec<Option<u64>>,
}

impl Keys {
    /// No key.
    pub fn new(rt: &(impl Abort + AllocGlobal)) -> Keys {
        let mut slots = Vec::new(rt.alloc());
        for _ in 0..KEYS {
            slots.push(None).expect(rt, "a place");
        }
        Keys { slots }
    }

    /// The same keys once more.
    pub fn copied(&self, rt: &impl Abort) -> Keys {
        Keys {
            slots: self.slots.clone().expect(rt, "a copy"),
        }
    }

    /// The key of a number has this slot from now on, or is gone.
    pub fn set(&mut self, rt: &impl Abort, number: u64, slot: Option<u64>) {
        let Some(place) = self.slots.get_mut(number as usize) else {
            panic!(rt; "no such number");
        };
        *place = slot;
    }

    /// The keys that are there and their slots, in the order of the keys.
    pub fn entries(&self, rt: &(impl Abort + AllocGlobal)) -> Vec<(NewOrderKey, u64)> {
        let mut entries = Vec::new(rt.alloc());
        for (number, place) in self.slots.iter().enumerate() {
            if let Some(slot) = place {
                entries
                    .push((key_at(number as u64), *slot))
                    .expect(rt, "an entry");
            }
        }
        entries
    }

    /// The slot of the key of a number.
    pub fn find(&self, number: usize) -> Option<u64> {
        self.slots.get(number).copied().flatten()
    }

    /// The first entry from a number on.
    pub fn first_from(&self, number: usize) -> Option<(NewOrderKey, u64)> {
        for (later, place) in self.slots.iter().enumerate().skip(number) {
            if let Some(slot) = place {
                return Some((key_at(later as u64), *slot));
            }
        }
        None
    }
}

/// Both lists have the same entries.
pub fn entries_agree(rt: &impl Abort, found: &[Entry<NewOrderKey>], all: &[(NewOrderKey, u64)]) {
    assert!(rt; found.len() == all.len());
    for (entry, pair) in found.iter().zip(all) {
        assert!(rt; pair_of(*entry) == *pair);
    }
}

/// The index has the keys of the list, in order, and by districts.
pub fn ranges_agree<const N: usize>(
    rt: &(impl Abort + AllocGlobal),
    store: &Store<N>,
    keys: &Keys,
) {
    let all = keys.entries(rt);
    let found = store.range(rt, &first_key_of(1), &first_key_of(DISTRICTS + 1));
    entries_agree(rt, found.as_slice(), all.as_slice());
    let mut joined = Vec::new(rt.alloc());
    let mut entries = Vec::new(rt.alloc());
    for district in 1..=DISTRICTS {
        let (low, high) = (first_key_of(district), first_key_of(district + 1));
        store.range_into(rt, &low, &high, &mut entries);
        for entry in &entries {
            joined.push(*entry).expect(rt, "an entry");
        }
    }
    entries_agree(rt, joined.as_slice(), all.as_slice());
}

/// The index gives single keys of the list.
pub fn keys_agree<const N: usize>(rt: &impl Abort, store: &Store<N>, keys: &Keys, stride: usize)
    requires { 0 < stride }
{
    for number in (0..KEYS as usize).step_by(stride) {
        let key = key_at(number as u64);
        assert!(rt; store.find(&key) == keys.find(number));
        assert!(rt; store.first_from(&key) == keys.first_from(number));
    }
}

/// The order in which rows come or go.
#[derive(Clone, Copy)]
pub enum Sequence {
    Rising,
    Falling,
    /// Place k has the number k times this one, modulo how many numbers there are.
    Scattered(u32),
}

/// The number at a place of a sequence of so many numbers.
pub fn number_at(sequence: Sequence, place: u32, count: u32) -> u64
    requires { place < count }
    ensures { result < 2 ^ 32 }
{
    match sequence {
        Sequence::Rising => place.into(),
        Sequence::Falling => (count - 1 - place).into(),
        Sequence::Scattered(stride) => u64::from(place) * u64::from(stride) % u64::from(count),
    }
}

/// All numbers.
pub fn each(rt: &(impl Abort + AllocGlobal), sequence: Sequence) -> Vec<u64> {
    let mut numbers = Vec::new(rt.alloc());
    for place in 0..KEYS {
        numbers
            .push(number_at(sequence, place, KEYS))
            .expect(rt, "a number");
    }
    numbers
}

/// Every second number.
pub fn every_second(rt: &(impl Abort + AllocGlobal), sequence: Sequence) -> Vec<u64> {
    let mut numbers = Vec::new(rt.alloc());
    for place in 0..KEYS / 2 {
        numbers
            .push(number_at(sequence, place, KEYS / 2) * 2 + 1)
            .expect(rt, "a number");
    }
    numbers
}

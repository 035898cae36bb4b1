//! A small model of partitions that keep a list each, under real locks and on real threads.

ghost use Rattle.std.specs.Prelude.{◌≡◌, ℕ, ◌==◌, ◌≢◌, suc, ◌+◌, ◌<◌, ◌≤◌, if◌then◌else◌, [], ◌∷◌, ◌++◌, length, true, Some, None};
ghost use Rattle.hy_passes.specs.Pairs.{home_and_other, once-home_and_other};
ghost use Rattle.hy_passes.specs.SerialList.{are_warehouses, kept_of, max_commits, numbers_of};

use crate::{Commits, Entry, Journal, KeptList, Kit, MAX_COMMITS, Pass, Passes, make};
use hy_worlds::World;
use std::alloc::Global;
use std::marker::Brand;
use std::process::Abort;
use std::sync::{Mutex, Wait};
use std::test::*;
use std::thread::{Threads, join};

// What a client of the model writes: its own number and its turn, at a home, or at a home and another warehouse.
#[derive(Clone, Copy, PartialEq, Eq, Debug)]
struct Note {
    home: u64,
    other: u64,
    crossing: u64,
    client: u32,
    turn: u64,
}

impl Commits for Note {
    ghost warehouses = { λ n. home_and_other n.home n.other };

    ghost number = { λ n. if n.other == 0 then None else Some n.crossing };

    fn names(&self, warehouse: u64) -> bool {
        self.home == warehouse || (self.other != 0 && self.other == warehouse)
    }

    fn number(&self) -> Option<u64> {
        if self.other == 0 {
            None
        } else {
            Some(self.crossing)
        }
    }

    ghost named_once = { λ n. once-home_and_other n.home n.other };
}

const TURNS: u64 = 1000;

// The last slice of a job under the locks of its partition and of the journal.
fn write<K: World, R: Wait + Abort>(
    rt: &R,
    list: &Mutex<KeptList<Note, K>>,
    journal: &Mutex<Journal<Note, K>>,
    pass: &mut Pass<Note, K>,
    turn: u64,
) {
    let stamp = pass.known();
    let mut list = list.lock(rt);
    let kept = list.list().len() as u64;
    assert!(rt; kept < MAX_COMMITS);
    list.reserve().expect(rt, "memory");
    let commit = Note {
        home: u64::from(list.warehouse()),
        other: 0,
        crossing: 0,
        client: pass.client(),
        turn,
    };
    let mut journal = journal.lock(rt);
    list.commit(&mut journal, pass, Entry { commit, stamp });
}

// A commit of two warehouses enters the serial list once, and both lists.
fn enter_two<C: Commits + Copy, K: World>(
    first: &mut KeptList<C, K>,
    second: &mut KeptList<C, K>,
    journal: &mut Journal<C, K>,
    pass: &mut Pass<C, K>,
    entry: Entry<C>,
)
    requires named { C.warehouses entry.commit ≡ first.old.warehouse ∷ second.old.warehouse ∷ [] }
    requires range { are_warehouses K.passes.partitions (C.warehouses entry.commit) ≡ true }
    requires apart { first.old.warehouse ≢ second.old.warehouse }
    requires numbered { C.number entry.commit ≡ Some (suc (length (numbers_of C.warehouses C.number journal.old.list.log))) }
    requires stamped { entry.stamp ≤ length pass.old.seen }
    requires few_first { length (kept_of C.warehouses first.old.warehouse first.old.seen) < max_commits }
    requires few_second { length (kept_of C.warehouses second.old.warehouse second.old.seen) < max_commits }
    requires room { (1 ≤ first.old.room) × (1 ≤ second.old.room) }
    ensures log { journal.new.list.log ≡ journal.old.list.log ++ entry ∷ [] }
    ensures seen { (first.new.seen ≡ journal.new.list.log) × (second.new.seen ≡ journal.new.list.log) × (pass.new.seen ≡ journal.new.list.log) }
{
    first.tell(journal);
    second.tell(journal);
    journal.tell_client(pass);
    journal.list.append(&entry);
    first.enter(&mut journal.list, entry.commit);
    second.enter(&mut journal.list, entry.commit);
    journal.tell_client(pass);
}

// A crossing under the locks of both partitions, in the order of their warehouses, and of the journal.
fn cross<K: World, R: Wait + Abort>(
    rt: &R,
    lists: &[Mutex<KeptList<Note, K>>; 2],
    journal: &Mutex<Journal<Note, K>>,
    pass: &mut Pass<Note, K>,
    turn: u64,
) {
    let stamp = pass.known();
    let mut first = lists[0].lock(rt);
    let mut second = lists[1].lock(rt);
    first.reserve().expect(rt, "memory");
    second.reserve().expect(rt, "memory");
    let home = first.warehouse();
    let other = second.warehouse();
    let most = first.list().len().max(second.list().len());
    assert!(rt; (most as u64) < MAX_COMMITS && home < other);
    let mut journal = journal.lock(rt);
    let commit = Note {
        home: u64::from(home),
        other: u64::from(other),
        crossing: journal.list.next_crossing(),
        client: pass.client(),
        turn,
    };
    enter_two(
        &mut first,
        &mut second,
        &mut journal,
        pass,
        Entry { commit, stamp },
    );
}

// A client's turns: it writes here and there, and each tenth time in both places; each time it looks, and sees at least
// what it wrote and what it saw before.
fn turns<K: World, R: Wait + Abort>(
    rt: &R,
    passes: &Passes<Note, K>,
    lists: &[Mutex<KeptList<Note, K>>; 2],
    journal: &Mutex<Journal<Note, K>>,
    mut pass: Pass<Note, K>,
) -> Pass<Note, K> {
    let mut last = pass.known();
    for turn in 0..TURNS {
        if turn % 10 == 0 {
            cross(rt, lists, journal, &mut pass, turn);
        } else {
            write(rt, &lists[turn as usize % 2], journal, &mut pass, turn);
        }
        let now = passes.kept_now(&mut pass);
        assert!(rt; now > last && now > turn);
        last = now;
    }
    pass
}

// How many of a client's commits a list has, each at a later turn than the one before.
fn rising<R: Abort>(rt: &R, list: &[Note], client: u32) -> u64 {
    let mut count = 0u64;
    let mut next = 0;
    for note in list {
        if note.client == client {
            assert!(rt; note.turn >= next && note.turn < TURNS);
            next = note.turn + 1;
            count = count.wrapping_add(1);
        }
    }
    count
}

// The numbers of the crossing commits of a list: 1, 2, 3 and so on.
fn crossings<R: Abort>(rt: &R, list: &[Note]) -> u64 {
    let mut count = 0u64;
    for note in list {
        if note.other != 0 {
            count = count.wrapping_add(1);
            assert!(rt; note.crossing == count);
        }
    }
    count
}

fn two_threads<K: World + Send + Sync, R: Threads + Wait + Abort + Sync>(
    rt: &R,
    alloc: Global,
    kit: Kit<Note>,
) -> Result<(), Fail>
    requires kit { kit ≡ K.passes }
    requires partitions { kit.partitions ≡ 2 }
{
    let (passes, journal, mut seats, mut clients) = kit.open::<K>()?;
    let (Some(second), Some(first)) = (seats.pop(), seats.pop()) else {
        panic!(rt; "two seats")
    };
    let (Some(d), Some(c), Some(b), Some(a)) = (
        clients.pop(),
        clients.pop(),
        clients.pop(),
        clients.pop(),
    ) else {
        panic!(rt; "four passes")
    };
    let ((first, _, _), (second, _, _)) = (first.part(), second.part());
    let lists = [
        Mutex::new(KeptList::new(alloc, first)),
        Mutex::new(KeptList::new(alloc, second)),
    ];
    let journal = Mutex::new(journal);
    let ((a, b), (c, d)) = join(
        rt,
        || (
            turns(rt, &passes, &lists, &journal, a),
            turns(rt, &passes, &lists, &journal, b),
        ),
        || (
            turns(rt, &passes, &lists, &journal, c),
            turns(rt, &passes, &lists, &journal, d),
        ),
    );
    ends(rt, &lists, &journal)
}

// A pass that one thread used goes to another, and a pass that knew nothing knows all after one look.
fn handed_over<K: World + Send + Sync, R: Threads + Wait + Abort + Sync>(
    rt: &R,
    alloc: Global,
    kit: Kit<Note>,
) -> Result<(), Fail>
    requires kit { kit ≡ K.passes }
    requires partitions { kit.partitions ≡ 2 }
{
    let (passes, journal, mut seats, mut clients) = kit.open::<K>()?;
    let (Some(second), Some(first)) = (seats.pop(), seats.pop()) else {
        panic!(rt; "two seats")
    };
    let (Some(mut other), Some(pass)) = (clients.pop(), clients.pop()) else {
        panic!(rt; "two passes")
    };
    let ((first, _, _), (second, _, _)) = (first.part(), second.part());
    let lists = [
        Mutex::new(KeptList::new(alloc, first)),
        Mutex::new(KeptList::new(alloc, second)),
    ];
    let journal = Mutex::new(journal);
    let (pass, before) = join(
        rt,
        || turns(rt, &passes, &lists, &journal, pass),
        || other.known(),
    );
    let (_, pass) = join(rt, || (), || turns(rt, &passes, &lists, &journal, pass));
    assert_eq!(rt; before, 0);
    assert_eq!(rt; passes.kept_now(&mut other), 2 * TURNS);
    assert_eq!(rt; other.known(), 2 * TURNS);
    assert_eq!(rt; pass.known(), 2 * TURNS);
    assert_eq!(rt; (pass.client(), other.client()), (0, 1));
    assert_eq!(rt; passes.name(), 7);
    Ok(())
}

#[test]
fn passes_go_from_thread_to_thread(rt: HostRuntime) -> Result<(), Fail> {
    let kit = make::<Note>(rt.alloc(), 2, 2, 7)?;
    handed_over::<Brand, _>(&rt, rt.alloc(), kit)
}

// In the end the lists are the projections of the journal, by count and by content.
fn ends<K: World, R: Wait + Abort>(
    rt: &R,
    lists: &[Mutex<KeptList<Note, K>>; 2],
    journal: &Mutex<Journal<Note, K>>,
) -> Result<(), Fail> {
    let mut first = lists[0].lock(rt);
    let mut second = lists[1].lock(rt);
    let mut journal = journal.lock(rt);
    first.tell(&mut journal);
    second.tell(&mut journal);
    assert_eq!(rt;
        journal.list.commits_of(first.warehouse()),
        first.list().len() as u64
    );
    assert_eq!(rt;
        journal.list.commits_of(second.warehouse()),
        second.list().len() as u64
    );
    assert_eq!(rt; journal.list.len(), 4 * TURNS);
    assert_eq!(rt; journal.list.next_crossing(), 4 * TURNS / 10 + 1);
    assert_eq!(rt; crossings(rt, first.list()), 4 * TURNS / 10);
    assert_eq!(rt; crossings(rt, second.list()), 4 * TURNS / 10);
    for client in 0..4 {
        assert_eq!(rt; rising(rt, first.list(), client), TURNS / 2);
        assert_eq!(rt; rising(rt, second.list(), client), TURNS / 2 + TURNS / 10);
    }
    Ok(())
}

#[test]
fn lists_are_the_projections_of_the_journal(rt: HostRuntime) -> Result<(), Fail> {
    let kit = make::<Note>(rt.alloc(), 2, 4, 7)?;
    two_threads::<Brand, _>(&rt, rt.alloc(), kit)
}

//! Databases that are recovered from logs, and logs that are refused.

ghost use Rattle.std.specs.Prelude.{◌≡◌, length};
ghost use Rattle.hy_recovery.specs.Recovering.{Counts};

use crate::logs::{LogPage, delivery, order, page, payment, read, write};
use hy_batches::{Batches, Text};
use hy_commands::{Command, Commit, Edition};
use hy_loads::Load;
use hy_partition::{Loaded, Partition};
use hy_passes::{Journal, Kit, Pass};
use hy_recovery::{kit_for, recover};
use hy_rows::Warehouse;
use hy_schema::Refusal;
use hy_tables::generate;
use std::alloc::Global;
use std::marker::Brand;
use std::process::Abort;

/// What a test sees of a recovered database: how many commits each warehouse has kept, W_YTD of each, and the next
/// number of a commit of several warehouses.
#[derive(Debug, Drop, PartialEq, Eq)]
pub struct Seen {
    pub kept: Vec<u64>,
    pub taken_in: Vec<i64>,
    pub next: u64,
}

/// The limits of a recovery.
#[derive(Clone, Copy, Debug)]
pub struct Limits {
    pub frames: u64,
    pub kept: u64,
}

/// Limits that nothing here meets.
pub const WIDE: Limits = Limits {
    frames: 2000,
    kept: 100,
};

/// W_YTD in the pages of a partition.
fn taken_in<K: Loaded>(
    rt: &impl Abort,
    part: &mut Partition<4096, K>,
    journal: &mut Journal<Commit, K>,
    pass: &mut Pass<Commit, K>,
) -> i64 {
    let snapshot = part.fork(journal, pass).expect(rt, "a snapshot");
    let rows = snapshot.list::<Warehouse>().expect(rt, "rows");
    let ytd = rows.get(0).expect(rt, "a row").ytd;
    match part.close(snapshot) {
        Ok(()) => ytd,
        Err(_) => panic!(rt; "another's snapshot"),
    }
}

/// Recovers a log in the world of the load and the kit.
fn recover_in<K: Loaded, R: Abort + AllocGlobal>(
    rt: &R,
    load: &Load,
    kit: Kit<Commit>,
    batches: &Batches,
    limits: Limits,
) -> Result<Seen, Refusal>
    requires load { load.now ≡ K.load }
    requires kit { kit ≡ K.passes }
    requires partitions { kit.partitions ≡ length load.now.tables.warehouses }
    requires counts { Counts kit load.now batches.now }
{
    let alloc = rt.alloc();
    assert!(rt; (1..=10_000).contains(&limits.frames));
    assert!(rt; (1..=10_000).contains(&limits.kept));
    let (_passes, journal, seats, mut clients) = kit.open::<K>().expect(rt, "passes");
    let Some(pass) = clients.pop() else {
        panic!(rt; "a client")
    };
    let (partitions, mut journal, mut pass) = recover::<4096, K>(
        alloc,
        load,
        batches,
        journal,
        seats,
        pass,
        limits.frames,
        limits.kept,
    )?;
    let mut seen = Seen {
        kept: Vec::new(alloc),
        taken_in: Vec::new(alloc),
        next: journal.list.next_crossing(),
    };
    let mut parts = partitions.into_parts();
    for place in 0..parts.len() {
        assert!(rt; place < parts.len());
        let part = &mut parts[place];
        seen.kept
            .push(part.kept().len() as u64)
            .expect(rt, "a place");
        let ytd = taken_in(rt, part, &mut journal, &mut pass);
        seen.taken_in.push(ytd).expect(rt, "a place");
    }
    Ok(seen)
}

/// Recovers a log of these pages on a load of three warehouses, three customers a district, and 20 items.
fn recovered<R: Abort + AllocGlobal>(
    rt: &R,
    pages: &[LogPage],
    limits: Limits,
) -> Result<Seen, Refusal> {
    let mut text = Text::new(rt.alloc());
    for page in pages {
        write(&mut text, page);
    }
    let batches = read(rt, text.bytes().expect(rt, "memory lasts"));
    recovered_of(rt, 3, &batches, limits)
}

/// Recovers the batches of a log on a load of so many warehouses, three customers a district, and 20 items.
pub fn recovered_of<R: Abort + AllocGlobal>(
    rt: &R,
    warehouses: u8,
    batches: &Batches,
    limits: Limits,
) -> Result<Seen, Refusal> {
    assert!(rt; (1..=16).contains(&warehouses));
    let load = generate(rt.alloc(), u64::from(warehouses), 3, 20).expect(rt, "a load");
    let kit = kit_for(rt.alloc(), &load, batches, 1, 1).expect(rt, "a kit");
    recover_in::<Brand, R>(rt, &load, kit, batches, limits)
}

/// A commit of one warehouse.
fn alone(command: Command) -> Commit {
    Commit::Local(Edition::Second, command)
}

/// One of several warehouses, with its number.
fn numbered(number: u64, command: Command) -> Commit {
    Commit::Cross(Edition::Second, number, command)
}

/// A page with these commits.
fn batch<R: Abort + AllocGlobal, const N: usize>(
    rt: &R,
    count: u64,
    commits: [(u64, Commit); N],
) -> LogPage {
    let commits = Vec::from_array(rt.alloc(), commits).expect(rt, "commits");
    page(rt, rt.alloc(), Edition::Second, count, commits)
}

/// A payment over warehouses 1 and 2 with a number, in both lists.
fn crossing<R: Abort + AllocGlobal>(rt: &R, number: u64) -> LogPage {
    batch(
        rt,
        3,
        [
            (1, numbered(number, payment(1, 2, 1, 500))),
            (2, numbered(number, payment(1, 2, 1, 500))),
        ],
    )
}

/// A payment in warehouse 1.
fn local<R: Abort + AllocGlobal>(rt: &R, customer: u64) -> LogPage {
    batch(rt, 3, [(1, alone(payment(1, 1, customer, 100)))])
}

/// What is seen of a database.
fn expected<R: Abort + AllocGlobal>(rt: &R, kept: [u64; 3], taken_in: [i64; 3], next: u64) -> Seen {
    Seen {
        kept: Vec::from_array(rt.alloc(), kept).expect(rt, "numbers"),
        taken_in: Vec::from_array(rt.alloc(), taken_in).expect(rt, "numbers"),
        next,
    }
}

#[test]
fn payments_are_recovered(rt: HostRuntime) {
    let none = recovered(&rt, &[], WIDE);
    assert!(&rt; none == Ok(expected(&rt, [0, 0, 0], [30000, 30000, 30000], 1)));
    let three = [local(&rt, 1), local(&rt, 2), local(&rt, 3)];
    let some = recovered(&rt, &three, WIDE);
    assert!(&rt; some == Ok(expected(&rt, [3, 0, 0], [30300, 30000, 30000], 1)));
}

#[test]
fn crossings_are_recovered(rt: HostRuntime) {
    let pages = [crossing(&rt, 1), local(&rt, 1), crossing(&rt, 2)];
    let some = recovered(&rt, &pages, WIDE);
    assert!(&rt; some == Ok(expected(&rt, [3, 2, 0], [31100, 30000, 30000], 3)));
}

#[test]
fn lists_are_merged(rt: HostRuntime) {
    let alloc = rt.alloc();
    let mixed = batch(
        &rt,
        3,
        [
            (1, alone(order(&rt, alloc, 1, 20, 1))),
            (1, numbered(2, order(&rt, alloc, 3, 7, 1))),
            (1, alone(delivery(1))),
            (2, numbered(1, payment(3, 2, 3, 250))),
            (2, alone(payment(2, 2, 2, 100))),
            (3, numbered(1, payment(3, 2, 3, 250))),
            (3, alone(delivery(3))),
            (3, numbered(2, order(&rt, alloc, 3, 7, 1))),
        ],
    );
    let some = recovered(&rt, &[mixed], WIDE);
    assert!(&rt; some == Ok(expected(&rt, [3, 2, 3], [30000, 30100, 30250], 3)));
}

/// A log of these pages is refused at a place.
fn fails_at<R: Abort + AllocGlobal>(rt: &R, pages: &[LogPage], place: u64) {
    assert!(rt; recovered(rt, pages, WIDE) == Err(Refusal::LogMalformed(place)));
}

#[test]
fn numbers_go_on(rt: HostRuntime) {
    fails_at(&rt, &[crossing(&rt, 1), crossing(&rt, 1)], 84);
    fails_at(&rt, &[crossing(&rt, 2)], 0);
    fails_at(&rt, &[crossing(&rt, 1), crossing(&rt, 3)], 84);
}

#[test]
fn lists_agree(rt: HostRuntime) {
    let one = batch(&rt, 3, [(1, numbered(1, payment(1, 2, 1, 500)))]);
    fails_at(&rt, &[one], 0);
    let another = batch(
        &rt,
        3,
        [
            (1, numbered(1, payment(1, 2, 1, 500))),
            (2, numbered(1, payment(1, 2, 1, 501))),
        ],
    );
    fails_at(&rt, &[another], 0);
    let turned = batch(
        &rt,
        3,
        [
            (1, numbered(1, payment(1, 2, 1, 500))),
            (1, numbered(2, payment(1, 2, 2, 500))),
            (2, numbered(2, payment(1, 2, 2, 500))),
            (2, numbered(1, payment(1, 2, 1, 500))),
        ],
    );
    fails_at(&rt, &[turned], 0);
}

#[test]
fn commands_fit_the_load(rt: HostRuntime) {
    let alloc = rt.alloc();
    fails_at(&rt, &[local(&rt, 1), local(&rt, 1024)], 47);
    fails_at(&rt, &[local(&rt, 4)], 0);
    fails_at(
        &rt,
        &[batch(&rt, 2, [(1, alone(payment(1, 1, 1, 100)))])],
        0,
    );
    fails_at(&rt, &[batch(&rt, 4, [])], 0);
    fails_at(
        &rt,
        &[batch(&rt, 3, [(1, alone(order(&rt, alloc, 1, 21, 1)))])],
        0,
    );
    let away = batch(&rt, 3, [(1, numbered(1, payment(1, 4, 1, 500)))]);
    fails_at(&rt, &[away], 0);
}

#[test]
fn faults_come_first(rt: HostRuntime) {
    let narrow = Limits {
        frames: 2000,
        kept: 2,
    };
    let three = [local(&rt, 1), local(&rt, 2), local(&rt, 3)];
    assert!(&rt; recovered(&rt, &three, narrow) == Err(Refusal::HistoryFull));
    let short = Limits { frames: 1, kept: 2 };
    assert!(&rt; recovered(&rt, &three, short) == Err(Refusal::HistoryFull));
    let two = [local(&rt, 1), local(&rt, 2)];
    assert!(&rt; recovered(&rt, &two, short) == Err(Refusal::NoFrame));
    let wrong = [local(&rt, 1), local(&rt, 2), local(&rt, 4)];
    assert!(&rt; recovered(&rt, &wrong, short) == Err(Refusal::LogMalformed(94)));
}

//! The sums at the end of a storm.

ghost use Rattle.std.specs.Prelude.{◌≡◌, IfOk, IsTrue, None};
ghost use Rattle.hy_schema.specs.Conditions.{first_broken};
ghost use Rattle.hy_ledger.specs.Books.{totals_of};
ghost use Rattle.hy_session.specs.of_partition.Jobs.{Log};
ghost use Rattle.hy_session.specs.of_crossing.Crossings.{database_behind};
ghost use Rattle.hy_database.specs.Database.{all_rows};
ghost use Rattle.hy_session.specs.of_forks.Forks.{AreOfKit, are_from};
ghost use Rattle.hy_session.specs.Reports.{broken_condition};
ghost use Rattle.hy_session.specs.of_forks.Accounts.{warehouses_of_load};
ghost use Rattle.hy_storm.specs.Storms.{AreFiguresBehind};

use crate::PAGE_BYTES;
use crate::threads::Gathered;
use hy_commands::Commit;
use hy_passes::{Journal, Pass};
use hy_schema::Refusal;
use hy_session::Session;
use hy_session::hy_forks::OwnPartitions;
use hy_session::hy_partition::{Loaded, Partition};
use std::alloc::Global;

/// What a storm came to.
#[derive(Clone, Copy, Debug, Drop, PartialEq, Eq)]
pub struct Figures {
    /// How many commands were accepted that don't only read, by the shares of all terminals.
    pub commits: u64,
    /// What was paid, by the same shares.
    pub cents: u64,
    /// How many commits the warehouses have kept, each counted at its home.
    pub kept: u64,
    /// By how much W_YTD of all warehouses has grown.
    pub growth: i128,
    /// How many rounds of sessions held.
    pub rounds: u64,
    /// How many frames more than one page table maps.
    pub shared: u64,
    /// The first broken condition.
    pub broken: Option<u8>,
    /// Why a thread ended early, where one did; else why what was drained wasn't acknowledged by the log, where that is so.
    pub refusal: Option<Refusal>,
}

/// The sums at the end, over all partitions: what the terminals have beside the books of all warehouses. E2; E1.
pub fn figures_of<K: Loaded>(
    alloc: Global,
    mut partitions: OwnPartitions<PAGE_BYTES, K>,
    mut journal: Journal<Commit, K>,
    mut pass: Pass<Commit, K>,
    gathered: Gathered<K>,
) -> Result<Figures, Refusal>
    requires partitions { K.passes.partitions ≡ warehouses_of_load K.load }
    ensures figures { IfOk result (AreFiguresBehind K.load journal.list.log) }
    ensures purses { IfOk result (λ figures. totals_of gathered.purse.shares
        ≡ record { commits = figures.commits; cents = figures.cents }) }
    ensures refusal { IfOk result (λ figures. figures.refusal ≡ None → gathered.unlogged ≡ None) }
{
    let broken = broken_at_the_end(alloc, &mut partitions, &mut journal, &mut pass)?;
    partitions.find_history(&mut journal);
    let sums = partitions.gather(gathered.purse);
    Ok(Figures {
        commits: sums.purses.commits,
        cents: sums.purses.cents,
        kept: sums.books.commits,
        growth: i128::from(sums.books.cents),
        rounds: gathered.held,
        shared: shared_of(&partitions.into_parts()),
        broken,
        refusal: gathered.refusal.or(gathered.unlogged),
    })
}

/// The first consistency condition that the database at the end breaks: there is none.
fn broken_at_the_end<K: Loaded>(
    alloc: Global,
    partitions: &mut OwnPartitions<PAGE_BYTES, K>,
    journal: &mut Journal<Commit, K>,
    pass: &mut Pass<Commit, K>,
) -> Result<Option<u8>, Refusal>
    ensures none { IfOk result (λ broken. broken ≡ None) }
    ensures consistent { IfOk result (λ _. first_broken (all_rows (database_behind K.load journal.old.list.log)) ≡ None) }
    ensures log { journal.new.list.log ≡ journal.old.list.log }
{
    let session = session_of(alloc, partitions, journal, pass)?;
    let broken = session.check_conditions(alloc);
    match session.close_all(partitions) {
        Ok(()) => {}
        Err(_) => unreachable!(),
    }
    broken
}

/// A session over the database behind the serial list, whose rows meet the consistency conditions.
fn session_of<K: Loaded>(
    alloc: Global,
    partitions: &mut OwnPartitions<PAGE_BYTES, K>,
    journal: &mut Journal<Commit, K>,
    pass: &mut Pass<Commit, K>,
) -> Result<Session<PAGE_BYTES>, Refusal>
    ensures consistent { IfOk result (λ session. broken_condition 4096 session ≡ None) }
    ensures behind { IfOk result (λ _. first_broken (all_rows (database_behind K.load journal.old.list.log)) ≡ None) }
    ensures kit { IfOk result (AreOfKit K.passes) }
    ensures mine { IfOk result (λ session. IsTrue (are_from K.passes session partitions.new)) }
    ensures log { journal.new.list.log ≡ journal.old.list.log }
{
    partitions.sound();
    let all = partitions.fork_all(alloc, journal, pass)?;
    let session = Session::new(all);
    session.shows();
    Ok(session)
}

/// How many frames of partitions more than one page table maps.
fn shared_of<K: Loaded>(parts: &[Partition<PAGE_BYTES, K>]) -> u64 {
    let mut count = 0u64;
    for part in parts {
        count = count.saturating_add(part.shared());
    }
    count
}

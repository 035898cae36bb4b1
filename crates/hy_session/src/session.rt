//! A session over a snapshot of the whole database.

ghost use Rattle.std.specs.Prelude.{◌≡◌, ◌⊎◌, ◌≤◌, ◌==◌, ◌↔◌, Err, false, IfErr, IfOk, IsOk, IsOkAnd, IsTrue, MatchResult, OnErr, OnOk, filter, length, map};
ghost use Rattle.hy_schema.specs.declared.refusal.Refusal.TheVariants.{BadQuery, NoMemory, NotMine};
ghost use Rattle.hy_commands.specs.Parts.{Database};
ghost use Rattle.hy_forks.specs.Lists.{Pairwise};
ghost use Rattle.hy_forks.specs.Forks.{AreOfKit, ClosesHere, ForksAllFrom, IsUnforkedUntold, SpellsDatabase, are_from, shown};
ghost use Rattle.hy_session.specs.Snapshots.{lists_of_all};
ghost use Rattle.hy_answers.specs.Texts.{answer_text};
ghost use Rattle.hy_query.specs.Language.{query_of};
ghost use Rattle.hy_query.specs.Meaning.{answer_of};
ghost use Rattle.hy_session.specs.Databases.{lists_of};
ghost use Rattle.hy_session.specs.Reports.{broken_condition, report_line, report_of};

use crate::rows::{rows_of_all, tables_of_all};
use crate::scans::{run, run_in, run_par};
use hy_answers::{Answer, text_of};
use hy_conditions::first_broken;
use hy_forks::{Loaded, Partition, Partitions, Parts, SnapshotAll};
use hy_query::{Query, parse_query};
use hy_rows::{NewOrder, Tables, Warehouse};
use hy_schema::Refusal;
use std::alloc::{AllocError, Global};
use std::marker::Model;
use std::thread::Threads;

/// What a report says of one warehouse.
#[derive(Clone, Copy, Debug, PartialEq, Eq)]
pub struct WarehouseReport {
    /// W_ID.
    pub warehouse: u8,
    /// W_YTD, in cents.
    pub ytd: i64,
    /// How many rows of NEW-ORDER it has: its undelivered orders.
    pub undelivered: u64,
}

/// A snapshot of the whole database in the hands of an analyst. Nothing changes it. It must be given back by `close_all`.
pub struct Session<const N: usize> {
    all: SnapshotAll<N>,
}

// Clauses see the snapshots.
impl<const N: usize> Model for Session<N> {
    ghost use Rattle.std.specs.Prelude.{List};
    ghost use Rattle.hy_forks.specs.Snapshots.{SnapshotState};

    ghost Value = { List SnapshotState };

    ghost view = { λ session. session.all };
}

impl<const N: usize> Session<N> {
    /// A session over this snapshot.
    pub fn new(all: SnapshotAll<N>) -> Session<N>
        ensures { result ≡ all.entry }
    {
        Session { all }
    }

    /// The snapshot, of which queries are asked.
    pub fn snapshot(&self) -> &SnapshotAll<N>
        ensures { result.now ≡ self.now }
    {
        &self.all
    }

    /// That its rows are those of the database that it was taken of.
    pub fn shows(&self)
        ensures { (database : Database) → 1 ≤ length database.warehouses → SpellsDatabase N database self.now
            → lists_of_all N self.now ≡ lists_of database }
    {
        let _all = &self.all;
    }

    /// The answer to a query. Threads go over the rows of the outermost table side by side, on all processors. E1.
    pub fn query<R: Threads + Sync>(
        &self,
        rt: &R,
        alloc: Global,
        query: &Query<'_>,
    ) -> Result<Answer, Refusal>
        ensures answer { IfOk result (λ answer. answer ≡ answer_of query.now (lists_of_all N self.now)) }
        ensures refused { IfErr result (λ why. why ≡ NoMemory) }
    {
        Ok(run_par(rt, alloc, query, &self.all)?)
    }

    /// The same in so many pieces. E1.
    pub fn query_in<R: Threads + Sync>(
        &self,
        rt: &R,
        alloc: Global,
        query: &Query<'_>,
        pieces: usize,
    ) -> Result<Answer, Refusal>
        ensures answer { IfOk result (λ answer. answer ≡ answer_of query.now (lists_of_all N self.now)) }
        ensures refused { IfErr result (λ why. why ≡ NoMemory) }
    {
        Ok(run_in(rt, alloc, query, &self.all, pieces)?)
    }

    /// The text of the answer to a query: a record a row, then how many rows there are. E1.
    pub fn answer(&self, alloc: Global, query: &Query<'_>) -> Result<Vec<u8>, Refusal>
        ensures answer { IfOk result (λ printed. printed.items ≡ answer_text (answer_of query.now (lists_of_all N self.now))) }
        ensures refused { IfErr result (λ why. why ≡ NoMemory) }
    {
        let answer = run(alloc, query, &self.all)?;
        Ok(text_of(alloc, &answer)?)
    }

    /// The same for the query that a text says. E13 exactly where it says none, with the place of the byte at which it
    /// fails; E1.
    pub fn ask(&self, alloc: Global, text: &[u8]) -> Result<Vec<u8>, Refusal>
        ensures answer { IfOk result (λ printed. IsOkAnd (query_of text.now)
            (λ query. printed.items ≡ answer_text (answer_of query (lists_of_all N self.now)))) }
        ensures refused { IfErr result (λ why. MatchResult (query_of text.now) (λ query. why ≡ NoMemory)
            (λ place. why ≡ BadQuery place)) }
    {
        let query = parse_query(alloc, text)?;
        self.answer(alloc, &query)
    }

    /// For each warehouse in rising order its number, W_YTD in cents, and how many of its orders are undelivered. E1.
    pub fn report(&self, alloc: Global) -> Result<Vec<WarehouseReport>, Refusal>
        ensures report { IfOk result (λ lines. lines.items ≡ report_of (lists_of_all N self.now).tables) }
        ensures refused { IfErr result (λ why. why ≡ NoMemory) }
    {
        let warehouses = rows_of_all::<Warehouse, N>(alloc, &self.all)?;
        let new_orders = rows_of_all::<NewOrder, N>(alloc, &self.all)?;
        Ok(lines_of(alloc, &warehouses, &new_orders)?)
    }

    /// The first of the consistency conditions 1 to 10 and 12 that the rows break (TPC-C clause 3.3.2), and none where they
    /// meet all. E1.
    pub fn check_conditions(&self, alloc: Global) -> Result<Option<u8>, Refusal>
        ensures broken { IfOk result (λ broken. broken ≡ broken_condition N self.now) }
        ensures refused { IfErr result (λ why. why ≡ NoMemory) }
    {
        Ok(broken_in(alloc, &self.all)?)
    }

    /// The rows of all tables that lie on pages, those of each warehouse behind those of the one before. E1.
    pub fn tables(&self, alloc: Global) -> Result<Tables, Refusal>
        ensures tables { IfOk result (λ tables. tables ≡ (lists_of_all N self.now).tables) }
        ensures refused { IfErr result (λ why. why ≡ NoMemory) }
    {
        Ok(tables_of_all(alloc, &self.all)?)
    }

    /// A session on what this one sees, which lives on when this one is closed, as `fork_all_from` of `Partitions` gives it. E11
    /// where one of its parts is another warehouse's or one of a kit with another name; E1.
    pub fn fork<K: Loaded, P: Parts<Part = Partition<N, K>>>(
        &self,
        alloc: Global,
        partitions: &mut Partitions<N, K, P>,
    ) -> Result<Session<N>, Refusal>
        ensures forks { IfOk result (ForksAllFrom K.passes self.now partitions.old partitions.new) }
        ensures shown { IfOk result (λ again. map shown again ≡ map shown self.now) }
        ensures rows { IfOk result (λ again. lists_of_all N again ≡ lists_of_all N self.now) }
        ensures kit { IfOk result (AreOfKit K.passes) }
        ensures own { IfOk result (λ again. IsTrue (are_from K.passes again partitions.new)) }
        ensures mine { result ≡ Err NotMine ↔ (are_from K.passes self.now partitions.old ≡ false) }
        ensures refused { IfErr result (λ why. (why ≡ NotMine) ⊎ (why ≡ NoMemory)) }
        ensures err { OnErr result (Pairwise (λ number. IsUnforkedUntold) 1 partitions.old partitions.new) }
    {
        let all = partitions.fork_all_from(alloc, &self.all)?;
        Ok(Session { all })
    }

    /// Gives the snapshot back, as `close_all` of `Partitions` does: E11 where one of its parts is another warehouse's or one
    /// of a kit with another name, and then the session comes back, and nothing is closed.
    pub fn close_all<K: Loaded, P: Parts<Part = Partition<N, K>>>(
        self,
        partitions: &mut Partitions<N, K, P>,
    ) -> Result<(), (Session<N>, Refusal)>
        requires kit { AreOfKit K.passes self }
        ensures mine { IsOk result ↔ IsTrue (are_from K.passes self.entry partitions.old) }
        ensures closes { OnOk result (Pairwise (ClosesHere self.entry) 1 partitions.old partitions.new) }
        ensures refused { IfErr result (λ refused. (refused.0 ≡ self.entry) × (refused.1 ≡ NotMine)) }
        ensures err { OnErr result (partitions.new ≡ partitions.old) }
    {
        let Session { all } = self;
        match partitions.close_all(all) {
            Ok(()) => Ok(()),
            Err((all, refusal)) => Err((Session { all }, refusal)),
        }
    }
}

/// The first of the consistency conditions that the rows of snapshots break.
fn broken_in<const N: usize>(alloc: Global, all: &SnapshotAll<N>) -> Result<Option<u8>, AllocError>
    ensures { IfOk result (λ broken. broken ≡ broken_condition N all.now) }
{
    let tables = tables_of_all(alloc, all)?;
    first_broken(alloc, &tables)
}

/// What a report says of some warehouses among these undelivered orders.
fn lines_of(
    alloc: Global,
    warehouses: &[Warehouse],
    new_orders: &[NewOrder],
) -> Result<Vec<WarehouseReport>, AllocError>
    ensures { IfOk result (λ lines. lines.items ≡ map (report_line new_orders.now) warehouses.now) }
{
    warehouses
        .iter()
        .map(|row| line_of(row, new_orders))
        .collect(alloc)
}

/// What a report says of a warehouse among these undelivered orders.
fn line_of(row: &Warehouse, new_orders: &[NewOrder]) -> WarehouseReport
    ensures { result ≡ report_line new_orders.now row.now }
{
    WarehouseReport {
        warehouse: row.id,
        ytd: row.ytd,
        undelivered: undelivered_of(new_orders, row.id) as u64,
    }
}

/// How many of these undelivered orders are of a warehouse.
fn undelivered_of(new_orders: &[NewOrder], number: u8) -> usize
    ensures { result ≡ length (filter (λ new. new.warehouse == number) new_orders.now) }
{
    new_orders
        .iter()
        .filter(|new| new.warehouse == number)
        .count()
}

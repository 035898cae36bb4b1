//! How many threads an answer is worth.

use crate::gathering::gather_two;
use crate::names::names_of;
use crate::plan::plan_of;
use hy_columns::{Scan, blocks_of};
use hy_query::{Column, Query};
use hy_rows::{Domain, Table};
use rayon::current_num_threads;
use std::alloc::{AllocError, Global};
use std::thread::Threads;

/// About how many slots of the first table are read at once.
pub(crate) const SLOTS: usize = 4_096;

/// How much work is worth a thread, which takes a tenth of a millisecond and more to begin.
const WORTH: usize = 100_000;

/// How much work a text is to read, where a number is one.
const TEXT: usize = 5;

/// How much work a row is to join, where one is to go over it.
const JOINED: usize = 4;

/// About how many slots at each end of a table show whether its rows fall into few groups.
const SHOWN: usize = 1_024;

/// How many slots a table has used in all warehouses.
fn count_slots<const N: usize>(
    alloc: Global,
    scan: &Scan<'_, N>,
    table: Table,
) -> Result<usize, AllocError> {
    let mut count: usize = 0;
    for block in blocks_of(alloc, scan, table, SLOTS)? {
        count = count.saturating_add(block.slots);
    }
    Ok(count)
}

/// How much work a column is to read.
fn work_of_column(column: &Column) -> usize {
    match column.table.columns().get(column.place) {
        Some(definition) => match definition.domain {
            Domain::Text { .. } | Domain::OneOf { .. } => TEXT,
            Domain::Unsigned { .. } | Domain::Signed { .. } => 1,
        },
        None => 1,
    }
}

/// How much work it is to go over a slot of a table: one, and what each column is that is named of it.
fn work_of_slot(names: &[Column], table: Table) -> usize {
    let mut work: usize = 1;
    for column in names {
        if column.table == table {
            work = work.saturating_add(work_of_column(column));
        }
    }
    work
}

/// How much work an answer is.
fn work_of<const N: usize>(
    alloc: Global,
    query: &Query<'_>,
    scan: &Scan<'_, N>,
) -> Result<usize, AllocError> {
    let names = names_of(alloc, query)?;
    let mut work: usize = 0;
    for table in query.tables() {
        let slots = count_slots(alloc, scan, *table)?;
        work = work.saturating_add(slots.saturating_mul(work_of_slot(&names, *table)));
    }
    match query.tables().len() {
        1 => Ok(work),
        _ => Ok(work.saturating_mul(JOINED)),
    }
}

/// Whether a query of one table has a group for every two rows, or more, as both ends of the table show. Then each thread
/// would make groups that others make too, and putting them together would take longer than making them once.
fn is_scattered<const N: usize>(
    alloc: Global,
    query: &Query<'_>,
    scan: &Scan<'_, N>,
) -> Result<bool, AllocError> {
    query.sound();
    if query.tables().len() > 1 || query.groups().is_empty() {
        return Ok(false);
    }
    let plan = plan_of(alloc, query, scan)?;
    let blocks = blocks_of(alloc, scan, query.tables()[0], SHOWN)?;
    let (Some(first), Some(last)) = (blocks.first(), blocks.last()) else {
        return Ok(false);
    };
    let shown = gather_two(alloc, query, scan, &plan, *first, *last)?;
    let (_, groups) = shown.tallies.into_columns();
    Ok(groups as u64 > shown.count / 2)
}

/// How many threads an answer is worth: as many as there are processors, where each has enough to do, and one where a table has
/// few rows to a group.
pub(crate) fn threads_for<R: Threads, const N: usize>(
    rt: &R,
    alloc: Global,
    query: &Query<'_>,
    scan: &Scan<'_, N>,
) -> Result<usize, AllocError> {
    let worth = work_of(alloc, query, scan)? / WORTH;
    if worth <= 1 {
        return Ok(1);
    }
    let threads = current_num_threads(rt).min(worth);
    if threads <= 1 || is_scattered(alloc, query, scan)? {
        return Ok(1);
    }
    Ok(threads)
}

//! Reading what a query needs of its tables.

ghost use Rattle.std.specs.Prelude.{◌≡◌, All, IfOk, IsSome, IsTrue, OnOk, false, if◌then◌else◌, length, map, true};
ghost use Rattle.std.specs.List.{AllByRecursion, list_all};
ghost use Rattle.hy_columns.specs.Blocks.{IsBlock, rows_in_block};
ghost use Rattle.hy_columns.specs.Columns.{column_at, values_of};
ghost use Rattle.hy_columns.specs.Scans.{lists_in_scan};
ghost use Rattle.hy_query.specs.Columns.{kind_of};
ghost use Rattle.hy_query.specs.Language.{is_table};
ghost use Rattle.hy_query.specs.Rows.{rows_of};
ghost use Rattle.hy_answers.specs.inside.Reading.{AreHere, AreLater, chosen};

use crate::results::all_ok;
use crate::sources::{SourceColumn, same_table};
use hy_columns::{Block, ColumnValues, Scan, column_of, count_of, read_block};
use hy_query::Column;
use hy_schema::Table;
use rayon::prelude::*;
use std::alloc::{AllocError, Global};
use std::thread::Threads;

/// How many rows each table has.
pub(crate) fn read_counts<const N: usize>(
    alloc: Global,
    scan: &Scan<'_, N>,
    tables: &[Table],
) -> Result<Vec<usize>, AllocError>
    ensures { IfOk result (λ counts. counts.items
        ≡ map (λ table. length (rows_of (lists_in_scan N scan.now) table)) tables.now) }
{
    let mut counts = Vec::new(alloc);
    for table in tables {
        counts.push(count_of(scan, *table))?;
    }
    Ok(counts)
}

/// The values of a column, unless it is one of the first table.
fn later_column<'a, const N: usize>(
    alloc: Global,
    scan: &'a Scan<'_, N>,
    first: Table,
    column: &Column,
) -> Result<ColumnValues<'a>, AllocError>
    requires { IsSome (kind_of column.now) }
    ensures { IfOk result (λ values. is_table first column.now.table ≡ false
        → values_of values ≡ column_at column.now.place (rows_of (lists_in_scan N scan.now) column.now.table)) }
{
    if same_table(&first, &column.table) {
        return Ok(ColumnValues::new(alloc));
    }
    column_of(alloc, scan, column)
}

/// The values of those of some columns that aren't of the first table, and none of the others.
pub(crate) fn read_later<'a, const N: usize>(
    alloc: Global,
    scan: &'a Scan<'_, N>,
    first: Table,
    names: &[Column],
) -> Result<Vec<ColumnValues<'a>>, AllocError>
    requires { All (λ column. IsSome (kind_of column)) names.now }
    ensures { IfOk result (λ later. AreLater (rows_of (lists_in_scan N scan.now)) first names.now later.items) }
{
    let mut later = Vec::new(alloc);
    for column in names {
        later.push(later_column(alloc, scan, first, column)?)?;
    }
    Ok(later)
}

/// The values of the same columns, which threads read side by side.
pub(crate) fn read_later_beside<'a, R: Threads + Sync, const N: usize>(
    rt: &R,
    alloc: Global,
    scan: &'a Scan<'_, N>,
    first: Table,
    names: &[Column],
) -> Result<Vec<ColumnValues<'a>>, AllocError>
    requires { All (λ column. IsSome (kind_of column)) names.now }
    ensures { IfOk result (λ later. AreLater (rows_of (lists_in_scan N scan.now)) first names.now later.items) }
{
    let read = names
        .par_iter()
        .with_min_len(1)
        .map(
            |column: &Column| -> Result<ColumnValues<'_>, AllocError>
                requires { IsSome (kind_of column.now) }
                ensures { IfOk result (λ values. is_table first column.now.table ≡ false
                    → values_of values ≡ column_at column.now.place (rows_of (lists_in_scan N scan.entry.now) column.now.table)) }
            { later_column(alloc, scan, first, column) },
        )
        .collect(rt, alloc)?;
    all_ok(alloc, read)
}

/// As many buffers as there are columns.
pub(crate) fn empty_buffers<'a>(
    alloc: Global,
    names: &[Column],
) -> Result<Vec<ColumnValues<'a>>, AllocError>
    ensures { IfOk result (λ buffers. length buffers.items ≡ length names.now) }
{
    let mut buffers = Vec::new(alloc);
    for _column in names {
        buffers.push(ColumnValues::new(alloc))?;
    }
    Ok(buffers)
}

/// Reads a column in a block of the first table, where it is one of this table.
fn read_column<'a, const N: usize>(
    scan: &'a Scan<'_, N>,
    first: Table,
    column: &Column,
    block: Block,
    buffer: &mut ColumnValues<'a>,
) -> Result<(), AllocError>
    requires kind { IsSome (kind_of column.now) }
    requires block { IsBlock N scan.now first block }
    ensures { OnOk result (is_table first column.now.table ≡ true
        → values_of buffer.new ≡ column_at column.now.place (rows_in_block N scan.now first block)) }
{
    if same_table(&first, &column.table) {
        read_block(scan, column, block, buffer)?;
    }
    Ok(())
}

/// Reads those of some columns that are of the first table in one of its blocks, each into its buffer.
pub(crate) fn read_here<'a, const N: usize>(
    scan: &'a Scan<'_, N>,
    first: Table,
    names: &[Column],
    block: Block,
    buffers: &mut [ColumnValues<'a>],
) -> Result<(), AllocError>
    requires kinds { All (λ column. IsSome (kind_of column)) names.now }
    requires block { IsBlock N scan.now first block }
    requires buffers { length buffers.old ≡ length names.now }
    ensures long { length buffers.new ≡ length names.now }
    ensures here { OnOk result (AreHere (rows_in_block N scan.now first block) first names.now buffers.new) }
{
    for index in 0..names.len() {
        read_column(scan, first, &names[index], block, &mut buffers[index])?;
    }
    Ok(())
}

/// A column with its values: those that were read here, where it is one of the first table, and else those of before.
fn source_of<'s>(
    first: Table,
    column: Column,
    later: &'s ColumnValues<'s>,
    here: &'s ColumnValues<'s>,
) -> SourceColumn<'s>
    ensures column { result.column ≡ column }
    ensures values { values_of result.values.now
        ≡ (if is_table first column.table then values_of here.now else values_of later.now) }
{
    if same_table(&first, &column.table) {
        return SourceColumn {
            column,
            values: here,
        };
    }
    SourceColumn {
        column,
        values: later,
    }
}

/// Columns with their values: those of the first table, and those of the others.
pub(crate) fn sources_of<'s>(
    alloc: Global,
    first: Table,
    names: &[Column],
    later: &'s [ColumnValues<'s>],
    here: &'s [ColumnValues<'s>],
) -> Result<Vec<SourceColumn<'s>>, AllocError>
    requires later { length later.now ≡ length names.now }
    requires here { length here.now ≡ length names.now }
    ensures columns { IfOk result (λ sources. map (λ source. source.column) sources.items ≡ names.now) }
    ensures values { IfOk result (λ sources. map (λ source. values_of source.values.now) sources.items
        ≡ chosen first names.now later.now here.now) }
{
    let mut sources = Vec::new(alloc);
    for index in 0..names.len() {
        let source = source_of(first, names[index], &later[index], &here[index]);
        sources.push(source)?;
    }
    Ok(sources)
}

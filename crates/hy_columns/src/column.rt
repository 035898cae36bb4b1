//! The values of a column.

ghost use Rattle.std.specs.Prelude.{◌≡◌, ◌+◌, ◌≤◌, false, true, All, IfOk, IsSome, IsTrue, OnOk, map, pos};
ghost use Rattle.std.specs.List.{flat_map};
ghost use Rattle.hy_rows.specs.Columns.{domain_of, number_at};
ghost use Rattle.hy_rows.specs.Spelling.{IsTable, is_spanned};
ghost use Rattle.hy_rows.specs.declared.value.Value.TheVariants.{Whole};
ghost use Rattle.hy_query.specs.Columns.{kind_of};
ghost use Rattle.hy_query.specs.Rows.{rows_of};
ghost use Rattle.hy_columns.specs.Blocks.{IsBlock, rows_in_block};
ghost use Rattle.hy_columns.specs.Columns.{column_at, values_of};
ghost use Rattle.hy_columns.specs.Scans.{lists_in_scan};
ghost use Rattle.hy_columns.specs.inside.Fields.{end_of, is_read, is_width, value_in};
ghost use Rattle.hy_columns.specs.inside.Scans.{IsPart, read_in};

use crate::block::{Block, blocks_of};
use crate::decode::{Padded, Signed, Unsigned};
use crate::fields::{Field, Segment, field_at, segment_of};
use crate::items::item_values;
use crate::reading::{copy_text_blocks, read_blocks, read_number_blocks};
use crate::scan::Scan;
use crate::values::ColumnValues;
use hy_query::Column;
use hy_rows::Domain;
use std::alloc::{AllocError, Global};
use std::mem;

/// The values of a column in all rows of its table, those of each warehouse's list in rising order, of ITEM once. Only
/// memory can lack.
pub fn column_of<'a, const N: usize>(
    alloc: Global,
    scan: &'a Scan<'_, N>,
    column: &Column,
) -> Result<ColumnValues<'a>, AllocError>
    requires { IsSome (kind_of column.now) }
    ensures { IfOk result (λ found. values_of found
        ≡ column_at column.now.place (rows_of (lists_in_scan N scan.now) column.now.table)) }
{
    let blocks = blocks_of(alloc, scan, column.table, usize::MAX)?;
    values_in(&*scan, column, &blocks, ColumnValues::new(alloc))
}

/// Puts the values of a column in the rows of a block in the place of those that a buffer has, whose memory is used again.
/// An error, which comes where memory lacks, says nothing of the buffer.
pub fn read_block<'a, const N: usize>(
    scan: &'a Scan<'_, N>,
    column: &Column,
    block: Block,
    values: &mut ColumnValues<'a>,
) -> Result<(), AllocError>
    requires kind { IsSome (kind_of column.now) }
    requires block { IsBlock N scan.now column.now.table block }
    ensures { OnOk result (values_of values.new
        ≡ column_at column.now.place (rows_in_block N scan.now column.now.table block)) }
{
    let none = ColumnValues::new(values.allocator());
    let buffer = mem::replace(values, none);
    *values = values_in(&*scan, column, &[block], buffer)?;
    Ok(())
}

/// The values of a column in some blocks, in a buffer that is used again.
fn values_in<'a, const N: usize>(
    scan: &'a Scan<'a, N>,
    column: &Column,
    blocks: &[Block],
    buffer: ColumnValues<'a>,
) -> Result<ColumnValues<'a>, AllocError>
    requires kind { IsSome (kind_of column.now) }
    requires blocks { All (IsBlock N scan.now column.now.table) blocks.now }
    ensures { IfOk result (λ found. values_of found
        ≡ column_at column.now.place (flat_map (rows_in_block N scan.now column.now.table) blocks.now)) }
{
    match segment_of(column.table) {
        Some(segment) => {
            let field = field_at(column.table, column.place);
            page_values(scan, segment, field, blocks, buffer)
        }
        None => item_values(scan.items(), column.place, blocks, buffer),
    }
}

/// The values of a column that lies on pages.
fn page_values<'a, const N: usize>(
    scan: &'a Scan<'a, N>,
    segment: Segment,
    field: Field,
    blocks: &[Block],
    buffer: ColumnValues<'a>,
) -> Result<ColumnValues<'a>, AllocError>
    requires table { IsTable segment.number segment.row_bytes }
    requires fits { end_of field ≤ segment.row_bytes }
    requires read { IsTrue (is_read (domain_of field.domain)) }
    requires blocks { All (IsPart segment scan.now.pages) blocks.now }
    ensures { IfOk result (λ found. values_of found
        ≡ flat_map (read_in N segment (value_in field) scan.now.pages) blocks.now) }
{
    if segment.is_spanned() {
        spanned_values(scan, segment, field, blocks, buffer)
    } else {
        unspanned_values(scan, segment, field, blocks, buffer)
    }
}

/// Those in slots that are spanned: texts are copied.
fn spanned_values<'a, const N: usize>(
    scan: &'a Scan<'a, N>,
    segment: Segment,
    field: Field,
    blocks: &[Block],
    buffer: ColumnValues<'a>,
) -> Result<ColumnValues<'a>, AllocError>
    requires table { IsTable segment.number segment.row_bytes }
    requires spanned { is_spanned segment.row_bytes ≡ true }
    requires fits { end_of field ≤ segment.row_bytes }
    requires read { IsTrue (is_read (domain_of field.domain)) }
    requires blocks { All (IsPart segment scan.now.pages) blocks.now }
    ensures { IfOk result (λ found. values_of found
        ≡ flat_map (read_in N segment (value_in field) scan.now.pages) blocks.now) }
{
    let offset = field.offset;
    let values = match field.domain {
        Domain::Unsigned { width, .. } => ColumnValues::Numbers(read_number_blocks(
            scan,
            segment,
            offset,
            width,
            blocks,
            buffer.into_numbers(),
        )?),
        Domain::Signed { .. } => {
            let numbers = buffer.into_signed();
            ColumnValues::Signed(read_number_blocks(scan, segment, offset, 8, blocks, numbers)?)
        }
        Domain::Text { width } => {
            let texts = buffer.into_copied();
            ColumnValues::CopiedTexts(copy_text_blocks(
                scan, segment, offset, width, blocks, texts,
            )?)
        }
        Domain::OneOf { width, .. } => {
            let texts = buffer.into_copied();
            ColumnValues::CopiedTexts(copy_text_blocks(
                scan, segment, offset, width, blocks, texts,
            )?)
        }
    };
    Ok(values)
}

/// Those in slots that aren't: texts are lent.
fn unspanned_values<'a, const N: usize>(
    scan: &'a Scan<'a, N>,
    segment: Segment,
    field: Field,
    blocks: &[Block],
    buffer: ColumnValues<'a>,
) -> Result<ColumnValues<'a>, AllocError>
    requires table { IsTable segment.number segment.row_bytes }
    requires unspanned { is_spanned segment.row_bytes ≡ false }
    requires fits { end_of field ≤ segment.row_bytes }
    requires read { IsTrue (is_read (domain_of field.domain)) }
    requires blocks { All (IsPart segment scan.now.pages) blocks.now }
    ensures { IfOk result (λ found. values_of found
        ≡ flat_map (read_in N segment (value_in field) scan.now.pages) blocks.now) }
{
    let offset = field.offset;
    let values = match field.domain {
        Domain::Unsigned { width, .. } => ColumnValues::Numbers(numbers(
            scan,
            segment,
            offset,
            width,
            blocks,
            buffer.into_numbers(),
        )?),
        Domain::Signed { .. } => {
            let numbers = buffer.into_signed();
            ColumnValues::Signed(read_blocks(scan, segment, Signed(offset), blocks, numbers)?)
        }
        Domain::Text { width } => {
            let text = Padded { offset, width };
            ColumnValues::Texts(read_blocks(scan, segment, text, blocks, buffer.into_texts())?)
        }
        Domain::OneOf { width, .. } => {
            let text = Padded { offset, width };
            ColumnValues::Texts(read_blocks(scan, segment, text, blocks, buffer.into_texts())?)
        }
    };
    Ok(values)
}

/// The numbers without sign that stand at an offset. Each width has a loop of its own.
fn numbers<'a, const N: usize>(
    scan: &'a Scan<'a, N>,
    segment: Segment,
    offset: usize,
    width: usize,
    blocks: &[Block],
    buffer: Vec<u64>,
) -> Result<Vec<u64>, AllocError>
    requires table { IsTable segment.number segment.row_bytes }
    requires unspanned { is_spanned segment.row_bytes ≡ false }
    requires fits { offset + width ≤ segment.row_bytes }
    requires read { IsTrue (is_width width) }
    requires blocks { All (IsPart segment scan.now.pages) blocks.now }
    ensures { IfOk result (λ numbers. map (λ number. Whole (pos number)) numbers.items
        ≡ flat_map (read_in N segment (λ bytes. Whole (pos (number_at bytes offset width))) scan.now.pages) blocks.now) }
{
    match width {
        1 => read_blocks(scan, segment, Unsigned::<1>(offset), blocks, buffer),
        2 => read_blocks(scan, segment, Unsigned::<2>(offset), blocks, buffer),
        4 => read_blocks(scan, segment, Unsigned::<4>(offset), blocks, buffer),
        _ => read_blocks(scan, segment, Unsigned::<8>(offset), blocks, buffer),
    }
}

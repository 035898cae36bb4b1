//! The number of rows of a table.

ghost use Rattle.std.specs.Prelude.{◌≡◌, length};
ghost use Rattle.hy_query.specs.Rows.{rows_of};
ghost use Rattle.hy_columns.specs.Blocks.{IsBlock, rows_in_block};
ghost use Rattle.hy_columns.specs.Scans.{lists_in_scan};

use crate::block::Block;
use crate::fields::segment_of;
use crate::reading::{count_all, count_in};
use crate::scan::Scan;
use hy_rows::Table;

/// How many rows a table has. Copies none, and takes no memory.
pub fn count_of<const N: usize>(scan: &Scan<'_, N>, table: Table) -> usize
    ensures { result ≡ length (rows_of (lists_in_scan N scan.now) table) }
{
    match segment_of(table) {
        Some(segment) => count_all(&*scan, segment),
        None => scan.items().len(),
    }
}

/// How many rows a block of a table has. Copies none, and takes no memory.
pub fn count_block<const N: usize>(scan: &Scan<'_, N>, table: Table, block: Block) -> usize
    requires { IsBlock N scan.now table block }
    ensures { result ≡ length (rows_in_block N scan.now table block) }
{
    match segment_of(table) {
        Some(segment) => count_in(&*scan, segment, block),
        None => block.slots,
    }
}

//! Blocks of slots.

ghost use Rattle.std.specs.Prelude.{◌≡◌, ◌+◌, ◌<◌, All, IfOk, OnOk, length};
ghost use Rattle.std.specs.List.{flat_map};
ghost use Rattle.hy_query.specs.Rows.{Row, rows_of};
ghost use Rattle.hy_rows.specs.Spelling.{list_at};
ghost use Rattle.hy_columns.specs.Blocks.{IsBlock, rows_in_block, slots_in};
ghost use Rattle.hy_columns.specs.Scans.{lists_in_scan};
ghost use Rattle.hy_columns.specs.inside.Cuts.{Adds, Slots};

use crate::fields::segment_of;
use crate::pages::used_on;
use crate::reading::pages_of;
use crate::scan::Scan;
use hy_rows::Table;
use std::alloc::{AllocError, Global};

/// Slots of a table in one warehouse. Those of ITEM, which lies on no pages, are the items, in the first of its places.
#[derive(Clone, Copy, Debug, PartialEq, Eq)]
pub struct Block {
    /// The place of the warehouse among all, from 0.
    pub warehouse: usize,
    /// The first slot, from 0.
    pub first: usize,
    /// How many slots there are.
    pub slots: usize,
}

/// Cuts all used slots of a table into blocks: warehouse by warehouse in order, each block of about so many slots. Where
/// slots aren't spanned these are whole pages, one at least.
pub fn blocks_of<const N: usize>(
    alloc: Global,
    scan: &Scan<'_, N>,
    table: Table,
    slots: usize,
) -> Result<Vec<Block>, AllocError>
    ensures each { IfOk result (λ blocks. All (IsBlock N scan.now table) blocks.items) }
    ensures rows { IfOk result (λ blocks. flat_map (rows_in_block N scan.now table) blocks.items
        ≡ rows_of (lists_in_scan N scan.now) table) }
{
    let mut blocks = Vec::new(alloc);
    let step = step_of(slots, slots_per_page::<N>(table));
    for place in 0..places_of(scan, table) {
        push_blocks(place, used_in(scan, table, place), step, &mut blocks)?;
    }
    Ok(blocks)
}

/// How many slots a block has: as many as are asked for, and no part of a page; those of one page at least.
fn step_of(slots: usize, per_page: usize) -> usize
    requires { 0 < per_page }
    ensures { 0 < result }
{
    (slots - slots % per_page).max(per_page)
}

/// How many slots of a table lie on a page, and one where they don't lie on one each.
fn slots_per_page<const N: usize>(table: Table) -> usize
    ensures { 0 < result }
{
    match segment_of(table) {
        Some(segment) => segment.slots_per_page::<N>(),
        None => 1,
    }
}

/// Of how many warehouses a table has slots; those of ITEM are the same for all.
fn places_of<const N: usize>(scan: &Scan<'_, N>, table: Table) -> usize
    ensures { result ≡ length (slots_in N scan.now table) }
{
    match segment_of(table) {
        Some(_segment) => scan.len(),
        None => 1,
    }
}

/// How many slots a table has used in the warehouse at a place.
fn used_in<const N: usize>(scan: &Scan<'_, N>, table: Table, place: usize) -> usize
    requires { place < length (slots_in N scan.now table) }
    ensures { result ≡ length (list_at (slots_in N scan.now table) place) }
{
    match segment_of(table) {
        Some(segment) => used_on(pages_of(&*scan, place, segment)),
        None => scan.items().len(),
    }
}

/// Cuts the used slots of a warehouse into blocks of so many, behind those of others.
fn push_blocks(
    warehouse: usize,
    used: usize,
    step: usize,
    blocks: &mut Vec<Block>,
) -> Result<(), AllocError>
    requires { 0 < step }
    ensures { OnOk result ((slots : Slots) → warehouse < length slots → used ≡ length (list_at slots warehouse)
        → Adds slots warehouse used blocks.old.items blocks.new.items) }
{
    let mut first = 0;
    while first < used {
        let slots = step.min(used - first);
        blocks.push(Block {
            warehouse,
            first,
            slots,
        })?;
        first += slots;
    }
    Ok(())
}

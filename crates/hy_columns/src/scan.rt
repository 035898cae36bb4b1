//! What a query scans.

ghost use Rattle.std.specs.Prelude.{◌≡◌, ◌==◌, ℕ, ◌<◌, ◌≤◌, All, length, map};
ghost use Rattle.hy_rows.specs.Catalogue.{segments};
ghost use Rattle.hy_rows.specs.Spelling.{list_at};
ghost use Rattle.hy_columns.specs.Scans.{AreTables};
ghost use Rattle.hy_columns.specs.inside.Scans.{AreKnown};

use crate::pages::know_sizes;
use hy_frames::Hold;
use hy_rows::{Item, SEGMENTS};
use std::marker::Model;

/// How many segments hold the tables of a warehouse.
const TABLE_SEGMENTS: usize = SEGMENTS as usize;

/// The pages of one warehouse: those of each table's segment, in the order of the segments.
#[derive(Drop)]
pub struct WarehousePages<'a, const N: usize> {
    segments: [&'a [Hold<N>]; TABLE_SEGMENTS],
}

// Clauses see the bytes of the pages by segment.
impl<'a, const N: usize> Model for WarehousePages<'a, N> {
    ghost use Rattle.std.specs.Prelude.{ℕ, List, map};
    ghost use Rattle.hy_columns.specs.inside.Scans.{AreKnown};

    ghost Value = { List (List (List ℕ)) };

    ghost view = { λ warehouse. map (λ segment. segment.now) warehouse.segments };

    ghost invariant = { λ warehouse. AreKnown N (map (λ segment. segment.now) warehouse.segments) };
}

impl<'a, const N: usize> WarehousePages<'a, N> {
    /// The pages of these segments.
    pub fn new(segments: [&'a [Hold<N>]; TABLE_SEGMENTS]) -> WarehousePages<'a, N>
        requires { AreTables N (map (λ segment. segment.now) segments) }
        ensures { result ≡ map (λ segment. segment.now) segments.entry }
    {
        know_all_sizes(&segments[..]);
        WarehousePages { segments }
    }

    /// The pages of a segment.
    pub(crate) fn segment(&self, number: u32) -> &'a [Hold<N>]
        requires { number < segments }
        ensures pages { result.now ≡ list_at self.now number }
        ensures known { AreKnown N self.now }
    {
        let segments = &self.segments[..];
        segments[number as usize]
    }
}

/// Each page of some segments has all its bytes.
fn know_all_sizes<const N: usize>(segments: &[&[Hold<N>]])
    ensures { (place : ℕ) → All (λ page. length page ≡ N) (list_at (map (λ segment. segment.now) segments.now) place) }
{
    for pages in segments {
        know_sizes(pages);
    }
}

/// What a query scans: the pages of all warehouses, and the items, which threads can share.
#[derive(Drop)]
pub struct Scan<'a, const N: usize> {
    warehouses: Vec<WarehousePages<'a, N>>,
    items: &'a [Item],
}

// Clauses see the bytes of the pages, and the items.
impl<'a, const N: usize> Model for Scan<'a, N> {
    ghost use Rattle.std.specs.Prelude.{◌≤◌, length};
    ghost use Rattle.hy_columns.specs.Scans.{ScanState};

    ghost Value = { ScanState };

    ghost view = { λ scan. record { pages = scan.warehouses.items; items = scan.items.now } };

    ghost invariant = { λ scan. length scan.warehouses.items ≤ 255 };
}

impl<'a, const N: usize> Scan<'a, N> {
    /// The pages of these warehouses, and these items. A warehouse has a number of one byte.
    pub fn new(pages: Vec<WarehousePages<'a, N>>, items: &'a [Item]) -> Scan<'a, N>
        requires { length pages.items ≤ 255 }
        ensures { result ≡ record { pages = pages.entry.items; items = items.now } }
    {
        Scan {
            warehouses: pages,
            items,
        }
    }

    /// How many warehouses there are.
    pub fn len(&self) -> usize
        ensures len { result ≡ length self.now.pages }
        ensures few { result ≤ 255 }
    {
        self.warehouses.len()
    }

    /// Whether there is none.
    pub fn is_empty(&self) -> bool
        ensures { result ≡ (length self.now.pages == 0) }
    {
        self.len() == 0
    }

    /// The pages of a segment of the warehouse at a place, from 0.
    pub(crate) fn segment(&self, place: usize, number: u32) -> &'a [Hold<N>]
        requires place { place < length self.now.pages }
        requires number { number < segments }
        ensures pages { result.now ≡ list_at (list_at self.now.pages place) number }
        ensures known { AreKnown N (list_at self.now.pages place) }
    {
        self.warehouses[place].segment(number)
    }

    /// The items.
    pub(crate) fn items(&self) -> &'a [Item]
        ensures { result.now ≡ self.now.items }
    {
        self.items
    }
}

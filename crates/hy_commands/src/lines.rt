//! The lines of a purchase, in as little memory as they need.

ghost use Rattle.std.specs.Prelude.{◌≡◌, ◌↔◌, ◌==◌, ◌<◌, ◌^◌, IfOk, IfSome, IsTrue, true, length, map, slice_get, vec_capacity};
ghost use Rattle.std.specs.List.{list_all, list_any};
ghost use Rattle.hy_rows.specs.Ranges.{is_between};
ghost use Rattle.hy_commands.specs.Commands.{is_line_in_range};
ghost use Rattle.hy_commands.specs.inside.Lines.{are_short, is_short, line_of, lines_of};

use crate::PurchaseLine;
use std::alloc::{AllocError, Global};
use std::marker::Model;

/// A line with small numbers, as those of items and warehouses that are there.
#[derive(Clone, Copy, Debug)]
struct ShortLine {
    item: u32,
    supply_warehouse: u8,
    quantity: u8,
}

/// Lines as memory has them: short where the numbers of all fit.
#[derive(Debug, Drop)]
enum KeptLines {
    Short(Vec<ShortLine>),
    Wide(Vec<PurchaseLine>),
}

/// The lines of a purchase, in their order.
#[derive(Debug, Drop)]
pub struct PurchaseLines {
    kept: KeptLines,
}

impl Model for PurchaseLines {
    ghost use Rattle.std.specs.Prelude.{List};
    ghost use Rattle.hy_commands.specs.declared.command.PurchaseLine.{PurchaseLine};

    ghost Value = { List PurchaseLine };

    ghost use Rattle.hy_commands.specs.inside.Lines.{lines_of};

    ghost view = { λ lines. lines_of lines.kept };
}

impl PurchaseLine {
    /// Whether its item has a number from 1 to another one.
    fn is_item_up_to(&self, last: u64) -> bool
        ensures { result ≡ is_between 1 last self.now.item }
    {
        (1..=last).contains(&self.item)
    }

    /// Whether it fits a short line.
    fn is_short(&self) -> bool
        ensures { result ≡ is_short self.now }
    {
        self.item < 1 << 32 && self.supply_warehouse < 1 << 8 && self.quantity < 1 << 8
    }

    /// The short line for it.
    fn shorten(&self) -> ShortLine
        requires { is_short self.now ≡ true }
        ensures { line_of result ≡ self.now }
    {
        ShortLine {
            item: self.item as u32,
            supply_warehouse: self.supply_warehouse as u8,
            quantity: self.quantity as u8,
        }
    }
}

impl ShortLine {
    /// The line that it stands for.
    fn widen(&self) -> PurchaseLine
        ensures { result ≡ line_of self.now }
    {
        PurchaseLine {
            item: self.item.into(),
            supply_warehouse: self.supply_warehouse.into(),
            quantity: self.quantity.into(),
        }
    }
}

/// Whether all lines fit short ones.
fn are_short(lines: &[PurchaseLine]) -> bool
    ensures { result ≡ list_all is_short lines.now }
{
    lines.iter().all(|line| line.is_short())
}

/// The short lines for these, with room for no more.
fn shortened(alloc: Global, lines: &[PurchaseLine]) -> Result<Vec<ShortLine>, AllocError>
    requires { list_all is_short lines.now ≡ true }
    ensures same { IfOk result (λ short. map line_of short.items ≡ lines.now) }
    ensures room { IfOk result (λ short. vec_capacity short ≡ length lines.now) }
{
    let mut short = Vec::with_capacity(alloc, lines.len())?;
    for line in lines {
        short.push_reserved(line.shorten());
    }
    Ok(short)
}

impl KeptLines {
    /// These lines, as short ones where the numbers of all fit.
    fn new(alloc: Global, lines: &[PurchaseLine]) -> Result<KeptLines, AllocError>
        ensures same { IfOk result (λ made. lines_of made ≡ lines.now) }
        ensures short { IfOk result (λ made. are_short made ≡ list_all is_short lines.now) }
    {
        if are_short(lines) {
            Ok(KeptLines::Short(shortened(alloc, lines)?))
        } else {
            Ok(KeptLines::Wide(Vec::from_slice(alloc, lines)?))
        }
    }

    /// The same lines once more, short where these are.
    fn copy(&self) -> Result<KeptLines, AllocError>
        ensures same { IfOk result (λ copy. lines_of copy ≡ lines_of self.now) }
        ensures short { IfOk result (λ copy. are_short copy ≡ are_short self.now) }
    {
        match self {
            KeptLines::Short(lines) => {
                Ok(KeptLines::Short(Vec::from_slice(*lines.allocator(), lines)?))
            }
            KeptLines::Wide(lines) => {
                Ok(KeptLines::Wide(Vec::from_slice(*lines.allocator(), lines)?))
            }
        }
    }
}

impl PurchaseLines {
    /// These lines. An error where they find no memory.
    pub fn new(alloc: Global, lines: &[PurchaseLine]) -> Result<PurchaseLines, AllocError>
        ensures { IfOk result (λ made. made ≡ lines.now) }
    {
        let kept = KeptLines::new(alloc, lines)?;
        Ok(PurchaseLines { kept })
    }

    /// How many there are: less than half of what a number of 64 bits holds.
    pub fn len(&self) -> usize
        ensures count { result ≡ length self.now }
        ensures few { result < 2 ^ 63 }
    {
        match &self.kept {
            KeptLines::Short(lines) => lines.len(),
            KeptLines::Wide(lines) => lines.len(),
        }
    }

    /// The line at a place, from 0.
    pub fn line(&self, place: usize) -> PurchaseLine
        requires { place < length self.now }
        ensures { slice_get self.now place ≡ Some result }
    {
        match &self.kept {
            KeptLines::Short(lines) => lines[place].widen(),
            KeptLines::Wide(lines) => lines[place],
        }
    }

    /// The warehouse that supplies the line at a place, if there is one.
    pub(crate) fn supplier(&self, place: usize) -> Option<u64>
        ensures number { result ≡ slice_get (map (λ line. line.supply_warehouse) self.now) place }
        ensures few { IfSome result (λ number. place < 2 ^ 63) }
    {
        if place < self.len() {
            Some(self.line(place).supply_warehouse)
        } else {
            None
        }
    }

    /// Whether the warehouse supplies each of them.
    pub fn all_come_from(&self, warehouse: u64) -> bool
        ensures { result ≡ list_all (λ line. line.supply_warehouse == warehouse) self.now }
    {
        for place in 0..self.len() {
            if self.line(place).supply_warehouse != warehouse {
                return false;
            }
        }
        true
    }

    /// Whether the warehouse supplies one of them.
    pub fn any_comes_from(&self, warehouse: u64) -> bool
        ensures { result ≡ list_any (λ line. line.supply_warehouse == warehouse) self.now }
    {
        for place in 0..self.len() {
            if self.line(place).supply_warehouse == warehouse {
                return true;
            }
        }
        false
    }

    /// Whether the quantities of all are in range.
    pub(crate) fn are_in_range(&self) -> bool
        ensures { result ≡ list_all is_line_in_range self.now }
    {
        for place in 0..self.len() {
            if !self.line(place).is_in_range() {
                return false;
            }
        }
        true
    }

    /// Whether the items of all have the numbers from 1 to another one.
    pub(crate) fn are_items_up_to(&self, last: u64) -> bool
        ensures { result ≡ list_all (λ line. is_between 1 last line.item) self.now }
    {
        for place in 0..self.len() {
            if !self.line(place).is_item_up_to(last) {
                return false;
            }
        }
        true
    }

    /// Whether they are the same lines.
    pub(crate) fn are_same(&self, other: &PurchaseLines) -> bool
        ensures { IsTrue result ↔ (self.now ≡ other.now) }
    {
        if self.len() != other.len() {
            return false;
        }
        for place in 0..self.len() {
            if self.line(place) != other.line(place) {
                return false;
            }
        }
        true
    }

    /// The same lines once more.
    pub(crate) fn copy(&self) -> Result<PurchaseLines, AllocError>
        ensures { IfOk result (λ copy. copy ≡ self.now) }
    {
        let kept = self.kept.copy()?;
        Ok(PurchaseLines { kept })
    }
}

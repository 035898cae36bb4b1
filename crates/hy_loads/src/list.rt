//! One list of rows, tested row by row.

ghost use Rattle.std.specs.Prelude.{◌≡◌, ◌↔◌, ℕ, ◌<◌, ◌++◌, ◌∷◌, [], List, length, take, get_or, IfErr, IfNone, IfOk, IfSome, IsTrue, OnOk, ⊤};
ghost use Rattle.hy_schema.specs.declared.files.FileEnd.TheVariants as ends;
ghost use Rattle.hy_schema.specs.declared.refusal.LoadFault.TheVariants as faults;
ghost use Rattle.hy_schema.specs.declared.refusal.Refusal.TheVariants as refusals;
ghost use Rattle.hy_schema.specs.Loads.{IsFaultOf, IsFirstFault, IsRight};
ghost use Rattle.hy_loads.specs.Checks.{IsRowRefusal};

use hy_schema::{FileEnd, LoadFault, Refusal, Table};
use std::alloc::AllocError;

/// How many rows a list may have.
const MAX_ROWS: usize = 100_000_000;

/// What the rows of a list must be, and what is kept of those that were seen.
pub(crate) trait Rule<R, S> {
    /// The rows of the list.
    ghost rows: { Self → List R };

    /// What a row at a place must be.
    ghost right: { Self → ℕ → R → Type 0 };

    /// That no row is missing at the end.
    ghost Whole: { Self → Type 0 };

    /// What must hold of the rule before its list is tested.
    ghost holds: { Self → Type 0 };

    /// What is known of the rows that were seen.
    ghost has_seen: { S → List R → Type 0 };

    /// The rows of the list.
    fn rows(&self) -> &[R]
        ensures { result.now ≡ rows self.now };

    /// Whether the row at a place is right, behind those that were seen.
    fn is_right(&self, seen: &mut S, place: usize, row: &R) -> Result<bool, AllocError>
        requires holds { holds self.now }
        requires place { place < length (rows self.now) }
        requires row { row.now ≡ get_or (rows self.now) place row.now }
        requires seen { has_seen seen.old (take place (rows self.now)) }
        ensures decides { IfOk result (λ is_right. IsTrue is_right ↔ right self.now place row.now) }
        ensures seen { IfOk result (λ is_right. IsTrue is_right →
            has_seen seen.new (take place (rows self.now) ++ row.now ∷ [])) };

    /// Whether no row is missing at the end.
    fn is_whole(&self) -> bool
        requires { holds self.now }
        ensures { IsTrue result ↔ Whole self.now };
}

/// Tests a list. A refusal names its first fault.
pub(crate) fn check_list<R, S, L: Rule<R, S>>(
    table: Table,
    end: FileEnd,
    rule: &L,
    seen: &mut S,
) -> Result<(), Refusal>
    requires holds { L.holds rule.now }
    requires seen { L.has_seen seen.old [] }
    ensures end { OnOk result (end ≡ ends.Whole) }
    ensures right { OnOk result (IsRight (L.right rule.now) (L.Whole rule.now) (L.rows rule.now)) }
    ensures seen { OnOk result (L.has_seen seen.new (L.rows rule.now)) }
    ensures fault { IfErr result
        (IsRowRefusal table end (L.right rule.now) (L.Whole rule.now) (L.rows rule.now)) }
{
    match first_fault(end, rule, seen)? {
        None => Ok(()),
        Some(number) => Err(Refusal::BadLoad(LoadFault::Row(table, number))),
    }
}

/// The number of the first fault of a list, if it has one.
fn first_fault<R, S, L: Rule<R, S>>(
    end: FileEnd,
    rule: &L,
    seen: &mut S,
) -> Result<Option<u64>, AllocError>
    requires holds { L.holds rule.now }
    requires seen { L.has_seen seen.old [] }
    ensures end { IfOk result (λ number. IfNone number (end ≡ ends.Whole)) }
    ensures right { IfOk result (λ number.
        IfNone number (IsRight (L.right rule.now) (L.Whole rule.now) (L.rows rule.now))) }
    ensures seen { IfOk result (λ number. IfNone number (L.has_seen seen.new (L.rows rule.now))) }
    ensures fault { IfOk result (λ number.
        IfSome number (IsFaultOf end (L.right rule.now) (L.Whole rule.now) (L.rows rule.now))) }
{
    if end == FileEnd::BadHeader {
        return Ok(Some(0));
    }
    if let Some(number) = first_wrong(rule, seen)? {
        return Ok(Some(number));
    }
    if is_complete(end, rule) {
        return Ok(None);
    }
    Ok(Some(rule.rows().len() as u64 + 1))
}

/// Whether the file of a list was read to its end, and no row is missing there.
fn is_complete<R, S, L: Rule<R, S>>(end: FileEnd, rule: &L) -> bool
    requires { L.holds rule.now }
    ensures { IsTrue result ↔ ((end ≡ ends.Whole) × L.Whole rule.now) }
{
    end == FileEnd::Whole && rule.is_whole()
}

/// The number of the first row that is wrong or one too many, if there is one.
fn first_wrong<R, S, L: Rule<R, S>>(rule: &L, seen: &mut S) -> Result<Option<u64>, AllocError>
    requires holds { L.holds rule.now }
    requires seen { L.has_seen seen.old [] }
    ensures right { IfOk result (λ number. IfNone number (IsRight (L.right rule.now) ⊤ (L.rows rule.now))) }
    ensures seen { IfOk result (λ number. IfNone number (L.has_seen seen.new (L.rows rule.now))) }
    ensures fault { IfOk result (λ number.
        IfSome number (IsFirstFault (L.right rule.now) ⊤ (L.rows rule.now))) }
{
    let rows = rule.rows();
    for (place, row) in rows.iter().enumerate() {
        if place == MAX_ROWS || !rule.is_right(seen, place, row)? {
            return Ok(Some(place as u64 + 1));
        }
    }
    Ok(None)
}

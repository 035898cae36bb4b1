//! What the definitions mean for whoever holds all of the kept lists, or a pass.

ghost use Rattle.std.specs.Prelude.{◌≡◌, ℕ, true, List, []};
ghost use mathlib.Core.List.{IsPrefix};
ghost use Rattle.hy_passes.specs.declared.entry.Entry.{Entry};
ghost use Rattle.hy_passes.specs.Agreement.{Agree, AreProjections};
ghost use Rattle.hy_passes.specs.SerialList.{are_warehouses, kept_of, IsSerial};
ghost use Rattle.hy_passes.specs.Law.{after_telling};

use crate::entry::Commits;

/// Where the kept lists are the projections of a serial list, they agree on the crossing commits.
pub fn projections_agree<C: Commits>(_commit: &C)
    ensures { (partitions : ℕ) (lists : ℕ → List C) (log : List (Entry C)) → IsSerial C.warehouses C.number partitions log → AreProjections C.warehouses partitions lists log → Agree C.warehouses C.number partitions lists }
{}

/// A beginning of the serial list has a beginning of each kept list.
pub fn beginnings_of_kept_lists<C: Commits>(_commit: &C)
    ensures { (seen log : List (Entry C)) (warehouse : ℕ) → IsPrefix seen log → IsPrefix (kept_of C.warehouses warehouse seen) (kept_of C.warehouses warehouse log) }
{}

/// A commit names warehouses of the kit alone, so that nobody is behind once all partitions have been told.
pub fn telling_all_leaves_none_behind()
    ensures { (partitions : ℕ) (named : List ℕ) → are_warehouses partitions named ≡ true → after_telling partitions named ≡ [] }
{}

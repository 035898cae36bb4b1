//! The rows of all warehouses, from their snapshots.

ghost use Rattle.std.specs.Prelude.{◌≡◌, IfOk};
ghost use Rattle.hy_session.specs.Snapshots.{lists_of_all};
ghost use Rattle.hy_session.specs.inside.Joined.{joined};

use hy_forks::SnapshotAll;
use hy_rows::{Row, RowSource, Tables};
use std::alloc::{AllocError, Global};

/// The rows of one table, those of each warehouse behind those of the one before. Only memory can lack.
pub(crate) fn rows_of_all<R: Row, const N: usize>(
    alloc: Global,
    all: &SnapshotAll<N>,
) -> Result<Vec<R>, AllocError>
    ensures { IfOk result (λ rows. rows.items ≡ joined R.rows_in N all.now) }
{
    let mut rows = Vec::new(alloc);
    for place in 0..all.len() {
        let mut more = all.part(place).list::<R>()?;
        rows.append(&mut more)?;
    }
    Ok(rows)
}

/// The snapshots of all warehouses, as what has the rows of all tables.
#[derive(Drop)]
struct AllSnapshots<'s, const N: usize> {
    alloc: Global,
    all: &'s SnapshotAll<N>,
}

impl<'s, const N: usize> RowSource for AllSnapshots<'s, N> {
    ghost tables_of = { λ source. (lists_of_all N source.all.now).tables };

    fn copy_rows<R: Row>(&self) -> Result<Vec<R>, AllocError> {
        rows_of_all(self.alloc, self.all)
    }
}

/// The rows of all tables that lie on pages. Only memory can lack.
pub(crate) fn tables_of_all<const N: usize>(
    alloc: Global,
    all: &SnapshotAll<N>,
) -> Result<Tables, AllocError>
    ensures { IfOk result (λ tables. tables ≡ (lists_of_all N all.now).tables) }
{
    Tables::copied_from(&AllSnapshots { alloc, all })
}

//! Results of several calls.

ghost use Rattle.std.specs.Prelude.{◌≡◌, IfOk, Ok, map};

use std::alloc::{AllocError, Global};

/// What several calls gave, where none of them failed.
pub(crate) fn all_ok<T: Drop>(
    alloc: Global,
    results: Vec<Result<T, AllocError>>,
) -> Result<Vec<T>, AllocError>
    ensures { IfOk result (λ made. results.items ≡ map Ok made.items) }
{
    let mut made = Vec::new(alloc);
    for one in results {
        made.push(one?)?;
    }
    Ok(made)
}

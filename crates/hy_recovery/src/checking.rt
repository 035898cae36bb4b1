//! Batches are looked at before anything is made.

ghost use Rattle.std.specs.Prelude.{IfErr, OnOk};
ghost use Rattle.hy_sound.specs.Sound.{IsSoundLog};
ghost use Rattle.hy_recovery.specs.Recovering.{IsUnfit, NoneAreTooMany};

use crate::counting::some_are_too_many;
use hy_batches::Batches;
use hy_loads::Load;
use hy_schema::Refusal;
use hy_sound::check_log;
use std::alloc::Global;

/// Whether a database can be recovered from batches where frames and memory last, seen from the batches and the load alone.
/// `LogMalformed` at the first batch that doesn't fit the load or those before it, as `check_log` says; else E3 where a
/// warehouse would keep more than `max_kept` commits. Nothing else is refused.
pub fn check_batches(
    alloc: Global,
    load: &Load,
    batches: &Batches,
    max_kept: u64,
) -> Result<(), Refusal>
    ensures sound { OnOk result (IsSoundLog load.now batches.now) }
    ensures few { OnOk result (NoneAreTooMany load.now batches.now max_kept) }
    ensures refused { IfErr result (IsUnfit load.now batches.now max_kept) }
{
    check_log(alloc, load, batches)?;
    if some_are_too_many(load, batches, max_kept) {
        return Err(Refusal::HistoryFull);
    }
    Ok(())
}

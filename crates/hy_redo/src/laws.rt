//! What holds of every run of calls.

ghost use Rattle.hy_redo.specs.Disk.{HaveCauses, LeaveBatches};

/// Whatever calls a log was given and however each ended, what the disk may have when the power goes, behind the last call
/// or within it, reads as the first of the batches that the log was handed, among them all that were acknowledged.
pub fn stops_leave_batches()
    ensures { LeaveBatches }
{}

/// Where a call was refused, the writer has failed since the log was made.
pub fn answers_have_causes()
    ensures { HaveCauses }
{}

//! What a stop leaves of what a service has told.

ghost use Rattle.hy_hyper_service.specs.Keeping.{StayOnDisk};

use hy_redo_drains::stops_leave_a_beginning;

/// Does nothing: its contract says that whatever the disk has of a service's log when the power goes, between two rounds or within
/// one, it reads as whole batches that have all that the database had before that round, of which alone anything was told.
pub fn answers_stay()
    ensures { StayOnDisk }
{
    stops_leave_a_beginning();
}

//! What a stop leaves of a log that follows a database.

ghost use Rattle.hy_redo_drains.specs.Following.{LeaveBeginnings};

use hy_redo::stops_leave_batches;

/// Does nothing: its contract says that of a log that follows a database, whatever it was handed and however its writer
/// answered, the disk has a beginning of that database when the power goes, at a moment at which nothing is written, within a
/// write, or behind one: whole batches, sound beside the load, none missing that was acknowledged, which have of each
/// warehouse a beginning of what it has in the serial list up to the log's place; and all of that where no call failed and
/// nothing is due. Who reads the log reads these batches, or wants memory.
pub fn stops_leave_a_beginning()
    ensures { LeaveBeginnings }
{
    stops_leave_batches();
}

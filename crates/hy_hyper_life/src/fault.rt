//! Why a service doesn't begin, or ends before its input does.

ghost use Rattle.std.specs.Prelude.{◌≡◌};
ghost use Rattle.hy_schema.specs.declared.refusal.Refusal.TheVariants as refusals;
ghost use Rattle.hy_hyper_life.specs.declared.fault.LifeFault.TheVariants as faults;
ghost use Rattle.hy_hyper_life.specs.Faults.{IsAbout, IsWhy};

use hy_hyper_service::ServiceFault;
use hy_schema::{Refusal, Table};
use std::alloc::AllocError;
use std::io;

/// Why a service doesn't begin, or ends before its input does.
#[derive(Debug, Drop)]
pub enum LifeFault {
    /// The files are no load (E12), the log has no batches of it (E15), or more commits (E3) or rows (E2) than there is room
    /// for; memory was refused (E1); or the log has failed (E14).
    Refused(Refusal),
    /// The file of a table can't be read.
    CannotRead(Table),
    /// The file of the log can't be read.
    CannotReadLog,
    /// The file of the log can't be written, or somebody else has its lock.
    CannotWriteLog,
    /// The digests beside the log can't be read.
    CannotReadSums,
    /// The digests beside the log can't be written.
    CannotWriteSums,
    /// The digests beside the log are those of another load.
    OtherLoad,
    /// The output has failed.
    Output(io::Error),
    /// The input couldn't be read.
    Input(io::Error),
}

impl LifeFault {
    /// What it is for a service on files that it ended before its input did.
    pub(crate) fn of_service(why: ServiceFault) -> LifeFault
        ensures { IsAbout why result }
    {
        match why {
            ServiceFault::Refused(refusal) => LifeFault::Refused(refusal),
            ServiceFault::Output(error) => LifeFault::Output(error),
            ServiceFault::Input(error) => LifeFault::Input(error),
        }
    }
}

/// Why a file isn't read or written: memory was refused, or another fault, that stands for the file.
pub(crate) fn why(error: io::Error, other: LifeFault) -> LifeFault
    ensures { IsWhy error other result }
{
    match error.kind() {
        io::ErrorKind::OutOfMemory => LifeFault::Refused(Refusal::NoMemory),
        _ => other,
    }
}

impl From<Refusal> for LifeFault {
    ghost from_gives = { λ refusal made. made ≡ faults.Refused refusal };

    fn from(refusal: Refusal) -> LifeFault {
        LifeFault::Refused(refusal)
    }
}

impl From<AllocError> for LifeFault {
    ghost from_gives = { λ _ made. made ≡ faults.Refused refusals.NoMemory };

    fn from(_refused: AllocError) -> LifeFault {
        LifeFault::Refused(Refusal::NoMemory)
    }
}

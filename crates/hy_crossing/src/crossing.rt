//! A whole command over several warehouses.

ghost use Rattle.std.specs.Prelude.{◌≡◌, ◌⊎◌, ◌≤◌, None, length, nat_lt, true};
ghost use Rattle.hy_commands.specs.declared.edition.Edition.{Edition};
ghost use Rattle.hy_commands.specs.Commands.{warehouses_of};
ghost use Rattle.hy_crossing.specs.Crossings.{AcceptsAll, AllMayRun, AreInformed, ArePartitions, Crosses, HaveNoPart, Informs, IsPayerIn, RefusesAll, loaded_refusal};
ghost use Rattle.hy_crossing.specs.Named.{places_of};

use crate::before::{end_jobs, prepare, tell_named};
use crate::doing::do_parts;
use crate::entering::{keep_all, know_named};
use crate::named::{NamedCommand, NamedPlaces};
use crate::parts::Parts;
use hy_commands::Commit;
use hy_partition::{Done, Job, Loaded, Partition};
use hy_passes::Journal;

/// That a load has no more warehouses than there may be. Changes nothing.
fn know_few<const N: usize, K: Loaded, P: Parts<Part = Partition<N, K>>>(parts: &mut P)
    requires parts { ArePartitions K.load (P.states parts.old) }
    ensures few { length (P.states parts.new) ≤ 16 }
    ensures same { P.states parts.new ≡ P.states parts.old }
{
    if parts.len() == 0 {
        return;
    }
    parts.part(0).ties();
}

/// Ends what runs in the warehouses that a command names, and tells their partitions of the whole serial list.
fn inform<const N: usize, K: Loaded, P: Parts<Part = Partition<N, K>>>(
    parts: &mut P,
    journal: &mut Journal<Commit, K>,
    command: &NamedCommand<'_>,
)
    requires parts { ArePartitions K.load (P.states parts.old) }
    requires whole { HaveNoPart (P.states parts.old) }
    ensures informs { Informs command.now journal.old.list.log journal.new.list.log (P.states parts.old)
        (P.states parts.new) }
    ensures few { length (P.states parts.new) ≤ 16 }
    ensures informed { AreInformed K.load command.now journal.new.list.log (P.states parts.new) }
    ensures editions { (edition : Edition) → AllMayRun edition command.now (P.states parts.old)
        → AllMayRun edition command.now (P.states parts.new) }
{
    know_few(parts);
    end_jobs(parts, journal, command);
    tell_named(parts, journal, command);
}

/// Does the parts of a command that nothing refuses so far, and keeps them; or undoes them all where one is refused.
fn do_all<const N: usize, K: Loaded, P: Parts<Part = Partition<N, K>>>(
    parts: &mut P,
    journal: &mut Journal<Commit, K>,
    job: Job<K>,
    places: &NamedPlaces,
    number: u64,
) -> Done<K>
    requires few { length (P.states parts.old) ≤ 16 }
    requires named { places.now ≡ places_of job.command }
    requires informed { AreInformed K.load job.command journal.old.list.log (P.states parts.old) }
    requires accepted { loaded_refusal K.load job.command (P.states parts.old) ≡ None }
    requires payer { IsPayerIn (P.states parts.old) job.command number }
    requires edition { AllMayRun job.edition job.command (P.states parts.old) }
    requires several { nat_lt 1 (length (warehouses_of job.command)) ≡ true }
    ensures does { AcceptsAll K.load job journal.old.list.log journal.new.list.log (P.states parts.old)
        (P.states parts.new) result
        ⊎ RefusesAll K.load job journal.old.list.log journal.new.list.log (P.states parts.old) (P.states parts.new)
        result }
    ensures parts { ArePartitions K.load (P.states parts.new) }
    ensures whole { HaveNoPart (P.states parts.new) }
{
    know_named(parts, &NamedCommand::new(job.command(), places));
    let edition = job.edition();
    let (command, pass) = job.open();
    let numbered = command.with_number(number);
    match do_parts(parts, edition, &NamedCommand::new(&numbered, places)) {
        Ok(unsettled) => keep_all(parts, unsettled, journal, edition, numbered, places, pass),
        Err(refusal) => Job::new(numbered, pass).refuse(refusal),
    }
}

/// Runs a command over several warehouses. What runs in those that it names is ended first; what runs elsewhere stays as
/// it is. Then the whole of it is done, or none of it, and the refusal is the reply: the first of E8, E4, E5, E6, E3, E7,
/// E2, E1. A job of the first edition is run only where nothing runs in the
/// warehouses that it names and each of them replays a log.
pub fn cross<const N: usize, K: Loaded, P: Parts<Part = Partition<N, K>>>(
    parts: &mut P,
    journal: &mut Journal<Commit, K>,
    job: Job<K>,
) -> Done<K>
    requires parts { ArePartitions K.load (P.states parts.old) }
    requires whole { HaveNoPart (P.states parts.old) }
    requires several { nat_lt 1 (length (warehouses_of job.command)) ≡ true }
    requires edition { AllMayRun job.edition job.command (P.states parts.old) }
    ensures crosses { Crosses K.load job journal.old.list.log journal.new.list.log (P.states parts.old)
        (P.states parts.new) result }
    ensures parts { ArePartitions K.load (P.states parts.new) }
    ensures whole { HaveNoPart (P.states parts.new) }
{
    let places = NamedPlaces::of(job.command());
    let command = NamedCommand::new(job.command(), &places);
    inform(parts, journal, &command);
    match prepare(parts, &command) {
        Ok(number) => do_all(parts, journal, job, &places, number),
        Err(refusal) => job.refuse(refusal),
    }
}

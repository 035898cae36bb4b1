//! What comes before the parts of a command: what runs in its warehouses is ended, and the command is looked at.

ghost use Rattle.std.specs.Prelude.{◌≡◌, ◌-◌, ◌==◌, ◌<◌, ◌≤◌, ℕ, suc, true, None, Some, IfErr, IfOk, IsSome, OnOk, length};
ghost use Rattle.hy_rows.specs.Ranges.{IsBetween};
ghost use Rattle.hy_commands.specs.Commands.{customer_home_of};
ghost use Rattle.hy_commands.specs.Transactions.{has_items};
ghost use Rattle.hy_crossing.specs.Crossings.{AreIdle, ArePartitions, EndsJobs, FindsPayerIn, IsPayerIn, TellsNamed, loaded_refusal, some_is_full};

use crate::named::NamedCommand;
use crate::parts::Parts;
use hy_commands::Commit;
use hy_partition::{Loaded, Partition};
use hy_passes::Journal;
use hy_schema::Refusal;

/// Ends what runs in the warehouses that a command names, one after the other; the others go on as they are.
pub fn end_jobs<const N: usize, K: Loaded, P: Parts<Part = Partition<N, K>>>(
    parts: &mut P,
    journal: &mut Journal<Commit, K>,
    command: &NamedCommand<'_>,
)
    requires few { length (P.states parts.old) ≤ 16 }
    ensures { EndsJobs command.now journal.old.list.log journal.new.list.log (P.states parts.old) (P.states parts.new) }
{
    let places = command.places_before(parts.len());
    for &place in places {
        parts.part(place).finish_running(journal);
    }
}

/// Tells the partitions of the warehouses that a command names of the whole serial list. Takes no memory.
pub fn tell_named<const N: usize, K: Loaded, P: Parts<Part = Partition<N, K>>>(
    parts: &mut P,
    journal: &mut Journal<Commit, K>,
    command: &NamedCommand<'_>,
)
    requires few { length (P.states parts.old) ≤ 16 }
    ensures told { TellsNamed command.now journal.old.list.log (P.states parts.old) (P.states parts.new) }
    ensures log { journal.new.list.log ≡ journal.old.list.log }
{
    let places = command.places_before(parts.len());
    for &place in places {
        parts.part(place).tell(journal);
    }
}

/// Whether one of the warehouses that a command names keeps as many commits as it may.
fn is_some_full<const N: usize, K: Loaded, P: Parts<Part = Partition<N, K>>>(
    parts: &mut P,
    command: &NamedCommand<'_>,
) -> bool
    requires few { length (P.states parts.old) ≤ 16 }
    ensures full { result ≡ some_is_full command.now 1 (P.states parts.old) }
    ensures same { P.states parts.new ≡ P.states parts.old }
{
    let places = command.places_before(parts.len());
    for &place in places {
        if parts.part(place).is_full() {
            return true;
        }
    }
    false
}

/// The number of the customer who pays in a command, and 0 where nobody does, where nothing refuses the command; else the
/// first of these: E8, E4, E5, E6, E3, E7. Takes no memory.
pub fn prepare<const N: usize, K: Loaded, P: Parts<Part = Partition<N, K>>>(
    parts: &mut P,
    command: &NamedCommand<'_>,
) -> Result<u64, Refusal>
    requires parts { ArePartitions K.load (P.states parts.old) }
    requires few { length (P.states parts.old) ≤ 16 }
    requires idle { AreIdle command.now (P.states parts.old) }
    ensures refused { IfErr result (λ why. loaded_refusal K.load command.now (P.states parts.old) ≡ Some why) }
    ensures accepted { OnOk result (loaded_refusal K.load command.now (P.states parts.old) ≡ None) }
    ensures payer { IfOk result (IsPayerIn (P.states parts.old) command.now) }
    ensures same { P.states parts.new ≡ P.states parts.old }
{
    command.check_within(parts.len() as u64)?;
    let Some(number) = find_payer(parts, command) else {
        return Err(Refusal::NoSuchCustomer);
    };
    if is_some_full(parts, command) {
        return Err(Refusal::HistoryFull);
    }
    if !has_items(parts, command) {
        return Err(Refusal::NoSuchItem);
    }
    Ok(number)
}

/// The number of the customer who pays in a command, whose warehouses are there, and 0 where nobody does; none where the
/// customer whom the command names isn't there.
fn find_payer<const N: usize, K: Loaded, P: Parts<Part = Partition<N, K>>>(
    parts: &mut P,
    command: &NamedCommand<'_>,
) -> Option<u64>
    requires parts { ArePartitions K.load (P.states parts.old) }
    requires idle { AreIdle command.now (P.states parts.old) }
    requires there { IsBetween 1 (length (P.states parts.old)) (customer_home_of command.now) }
    ensures found { FindsPayerIn (P.states parts.old) command.now result }
    ensures same { P.states parts.new ≡ P.states parts.old }
{
    let place = command.customer_home() as usize - 1;
    parts.part(place).find_customer(command.command())
}

/// Whether the items that a command names are there.
fn has_items<const N: usize, K: Loaded, P: Parts<Part = Partition<N, K>>>(
    parts: &mut P,
    command: &NamedCommand<'_>,
) -> bool
    requires parts { ArePartitions K.load (P.states parts.old) }
    requires there { 1 ≤ length (P.states parts.old) }
    ensures known { result ≡ has_items K.load.items command.now }
    ensures same { P.states parts.new ≡ P.states parts.old }
{
    parts.part(0).has_items(command.command())
}

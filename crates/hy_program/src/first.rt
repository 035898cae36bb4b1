//! The command `first`: one payment on a generated warehouse.

ghost use Rattle.std.specs.Prelude.{◌≡◌, ◌≤◌, ◌⊎◌, ◌∷◌, [], length, IfErr, IfOk, IsSomeAnd, OnOk, Some};
ghost use Rattle.hy_schema.specs.declared.refusal.Refusal.{Refusal};
ghost use Rattle.hy_tables.specs.Generated.{generated_lists};
ghost use Rattle.hy_passes.specs.Worlds.{new_partition};
ghost use Rattle.hy_recovery.specs.of_partition.Steps.{Accepts, Begins, Refuses};
ghost use Rattle.hy_program.specs.Faults.{IsBlamedRightly};
ghost use Rattle.hy_program.specs.First.{HasTwoSlices, IsFirstFault, IsFirstPrinted, IsFirstRefusal, IsPaid, IsPayRefusal, IsYtdAfter, first_payment, ytds, ytds_of};
ghost use Rattle.hy_recovery.specs.of_partition.Partition.{rows_now};
ghost use Rattle.hy_undo.specs.UndoLog.{empty_log};

use crate::PAGE_BYTES;
use crate::fault::RunFault;
use hy_commands::{Command, Commit, Payment, Reply, Who};
use hy_loads::Load;
use hy_output::Output;
use hy_passes::{Journal, Kit, PartitionSeat, Pass, make};
use hy_recovery::hy_partition::{Job, Loaded, Partition, Progress, Snapshot};
use hy_rows::Warehouse;
use hy_schema::Refusal;
use hy_tables::generate;
use std::alloc::Global;
use std::marker::Brand;

/// How many frames the partition may have.
const MAX_FRAMES: u64 = 100_000;

/// How many commits the partition may keep.
const MAX_KEPT: u64 = 1_000_000;

/// The number of the warehouse.
const WAREHOUSE: u8 = 1;

/// How many customers each district of the warehouse has.
const CUSTOMERS: u64 = 3;

/// The name of the kit. No other one is made.
const KIT: u64 = 1;

/// Runs one payment on a generated warehouse, and writes W_YTD after it.
pub fn run_first<'a, O: Output>(alloc: Global, amount: u64, out: &mut O) -> Result<(), RunFault<'a>>
    ensures done { OnOk result (IsFirstPrinted amount (O.contents out.old) (O.contents out.new)) }
    ensures fault { IfErr result (IsFirstFault amount (out.new ≡ out.old)) }
    ensures failed { IfErr result (IsBlamedRightly (O.has_failed out.new)) }
{
    let ytd = first(alloc, amount)?;
    writeln!(out, "ytd {ytd}")?;
    Ok(())
}

/// W_YTD of a generated warehouse after a payment of an amount in cents, in cents, as a snapshot behind the payment
/// has it. E8 where the amount is out of range, E2 where a frame lacks for the payment, and E1 where memory is refused.
fn first(alloc: Global, amount: u64) -> Result<i64, Refusal>
    ensures ytd { IfOk result (IsYtdAfter amount) }
    ensures refused { IfErr result (IsFirstRefusal amount) }
{
    let load = generate(alloc, 1, CUSTOMERS, 1)?;
    let kit = make::<Commit>(alloc, 1, 1, KIT)?;
    first_of::<Brand>(alloc, &load, kit, amount)
}

/// The same with the load, by the one client of a kit, in the world that names both.
fn first_of<K: Loaded>(
    alloc: Global,
    load: &Load,
    kit: Kit<Commit>,
    amount: u64,
) -> Result<i64, Refusal>
    requires kit { kit ≡ K.passes }
    requires partitions { kit.partitions ≡ 1 }
    requires clients { kit.clients ≡ 1 }
    requires load { load.now ≡ K.load }
    requires generated { load.now ≡ generated_lists 1 3 1 }
    ensures ytd { IfOk result (IsYtdAfter amount) }
    ensures refused { IfErr result (IsFirstRefusal amount) }
{
    let (_passes, mut journal, mut seats, mut clients) = kit.open::<K>()?;
    let pass = clients.take_last();
    let seat = seats.take_last();
    let mut partition = begun(alloc, load, seat)?;
    let mut pass = pay(&mut partition, &mut journal, pass, payment(amount))?;
    ytd_now(&mut partition, &mut journal, &mut pass)
}

/// The warehouse, on pages.
fn begun<K: Loaded>(
    alloc: Global,
    load: &Load,
    seat: PartitionSeat<Commit, K>,
) -> Result<Partition<PAGE_BYTES, K>, Refusal>
    requires load { load.now ≡ K.load }
    requires warehouse { 1 ≤ length load.now.tables.warehouses }
    requires seat { seat ≡ new_partition 1 }
    ensures begins { IfOk result (Begins load.now 1 100_000 1_000_000) }
    ensures refused { IfErr result (λ refusal. (refusal ≡ Refusal.NoMemory) ⊎ (refusal ≡ Refusal.NoFrame)) }
{
    match Partition::new(alloc, load, WAREHOUSE, seat, MAX_FRAMES, MAX_KEPT) {
        Ok(partition) => Ok(partition),
        Err((_seat, refusal)) => Err(refusal),
    }
}

/// Runs a payment for a client by begin, step, step.
fn pay<K: Loaded>(
    partition: &mut Partition<PAGE_BYTES, K>,
    journal: &mut Journal<Commit, K>,
    pass: Pass<Commit, K>,
    payment: Payment,
) -> Result<Pass<Commit, K>, Refusal>
    ensures paid { OnOk result (IsPaid payment partition.old partition.new) }
    ensures refused { IfErr result (IsPayRefusal partition.old payment) }
{
    let job = Job::new(Command::Payment(payment), pass);
    if let Err((_job, refusal)) = partition.begin(job) {
        return Err(refusal);
    }
    run_slices(partition, journal);
    let Some(done) = partition.take_done() else {
        unreachable!();
    };
    let (reply, pass, _share) = done.open();
    match reply {
        Reply::Refused(refusal) => Err(refusal),
        _ => Ok(pass),
    }
}

/// Runs a job of two slices: the first, and the second where the first isn't refused.
fn run_slices<K: Loaded>(partition: &mut Partition<PAGE_BYTES, K>, journal: &mut Journal<Commit, K>)
    requires { IsSomeAnd partition.old.running HasTwoSlices }
    ensures { IsSomeAnd partition.old.running
        (λ job. Accepts job (Some journal.old.list.log) (Some journal.new.list.log) partition.old partition.new
        ⊎ Refuses job (Some journal.old.list.log) (Some journal.new.list.log) partition.old partition.new) }
{
    match partition.step(journal) {
        Ok(Progress::More) => {
            let _progress = partition.step(journal);
        }
        Ok(Progress::Finished) => {}
        Err(_) => unreachable!(),
    }
}

/// W_YTD of the one warehouse after all that is kept, as a snapshot has it.
fn ytd_now<K: Loaded>(
    partition: &mut Partition<PAGE_BYTES, K>,
    journal: &mut Journal<Commit, K>,
    pass: &mut Pass<Commit, K>,
) -> Result<i64, Refusal>
    requires nothing_to_undo { partition.old.undo ≡ empty_log partition.old.space }
    requires one { length (ytds_of (rows_now partition.old)) ≡ 1 }
    ensures ytd { IfOk result (λ ytd. ytds_of (rows_now partition.old) ≡ ytd ∷ []) }
    ensures refused { IfErr result (λ refusal. refusal ≡ Refusal.NoMemory) }
{
    let snapshot = partition.fork(journal, pass)?;
    let ytd = ytd_of(&snapshot);
    match partition.close(snapshot) {
        Ok(()) => ytd,
        Err(_) => unreachable!(),
    }
}

/// W_YTD of the one warehouse of a snapshot.
fn ytd_of(snapshot: &Snapshot<PAGE_BYTES>) -> Result<i64, Refusal>
    requires { length (ytds snapshot.now) ≡ 1 }
    ensures ytd { IfOk result (λ ytd. ytds snapshot.now ≡ ytd ∷ []) }
    ensures refused { IfErr result (λ refusal. refusal ≡ Refusal.NoMemory) }
{
    let rows = snapshot.list::<Warehouse>()?;
    match rows.as_slice() {
        [warehouse] => Ok(warehouse.ytd),
        _ => unreachable!(),
    }
}

/// The payment of an amount by customer 1 of district 1.
fn payment(amount: u64) -> Payment
    ensures { result ≡ first_payment amount }
{
    Payment {
        warehouse: 1,
        district: 1,
        customer_warehouse: 1,
        customer_district: 1,
        who: Who::Number(1),
        amount,
        at: 1,
    }
}

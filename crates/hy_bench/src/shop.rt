//! All partitions of a load, with one client.

ghost use Rattle.std.specs.Prelude.{◌≡◌, [], IfOk, IsTrue, length};
ghost use Rattle.hy_forks.specs.Forks.{AreOfKit, are_from};

use crate::payment_rounds::{SIZE, client_of, payment};
use hy_commands::{Command, Commit};
use hy_forks::OwnPartitions;
use hy_loads::Load;
use hy_partition::{Job, Loaded};
use hy_passes::{Cursor, Journal, Kit, Pass};
use hy_schema::Refusal;
use hy_session::Session;
use std::alloc::Global;

/// The partitions of the load, and their journal.
#[derive(Drop)]
pub(crate) struct Shop<K: Loaded> {
    partitions: OwnPartitions<SIZE, K>,
    journal: Journal<Commit, K>,
    cursor: Cursor<Commit, K>,
}

impl<K: Loaded> Shop<K> {
    /// The partitions with as many frames and commits as may be, and the last client's pass.
    pub fn open(
        alloc: Global,
        load: &Load,
        kit: Kit<Commit>,
    ) -> Result<(Shop<K>, Pass<Commit, K>), Refusal>
        requires load { load.now ≡ K.load }
        requires kit { kit ≡ K.passes }
        requires partitions { kit.partitions ≡ length load.now.tables.warehouses }
        requires new { kit.replayed ≡ [] }
    {
        let (_passes, mut journal, seats, mut clients) = kit.open::<K>()?;
        let (Some(pass), Some(place)) = (clients.pop(), clients.pop()) else {
            return Err(Refusal::NotRunning);
        };
        let cursor = Cursor::new(alloc, place, &mut journal)?;
        let partitions = OwnPartitions::of_load(alloc, load, seats, 10_000_000, 100_000_000)?;
        Ok((
            Shop {
                partitions,
                journal,
                cursor,
            },
            pass,
        ))
    }

    /// So many payments in the first warehouse.
    pub fn pay(
        &mut self,
        mut pass: Pass<Commit, K>,
        payments: u64,
    ) -> Result<Pass<Commit, K>, Refusal> {
        for _ in 0..payments {
            pass = self.pay_once(pass)?;
        }
        Ok(pass)
    }

    /// One of them.
    fn pay_once(&mut self, pass: Pass<Commit, K>) -> Result<Pass<Commit, K>, Refusal> {
        self.run(payment(), pass)
    }

    /// How many commits there were since the last drain.
    pub fn drain(&mut self, alloc: Global) -> Result<u64, Refusal> {
        let batch = self
            .partitions
            .drain(alloc, &mut self.journal, &mut self.cursor)?;
        if batch.len() == 0 {
            return Err(Refusal::NoSuchWarehouse);
        }
        Ok(batch.list(0).len() as u64)
    }

    /// Runs a command as a whole. Its client comes back.
    pub fn run(
        &mut self,
        command: Command,
        pass: Pass<Commit, K>,
    ) -> Result<Pass<Commit, K>, Refusal> {
        let done = self
            .partitions
            .run(&mut self.journal, Job::new(command, pass));
        client_of(Some(done))
    }

    /// A session over all warehouses as they are now.
    pub fn session(
        &mut self,
        alloc: Global,
        pass: &mut Pass<Commit, K>,
    ) -> Result<Session<SIZE>, Refusal>
        ensures kit { IfOk result (AreOfKit K.passes) }
        ensures mine { IfOk result (λ session. IsTrue (are_from K.passes session self.new.partitions)) }
    {
        let all = self.partitions.fork_all(alloc, &mut self.journal, pass)?;
        Ok(Session::new(all))
    }

    /// Takes a session back.
    pub fn close(&mut self, session: Session<SIZE>)
        requires kit { AreOfKit K.passes session }
        requires mine { IsTrue (are_from K.passes session self.old.partitions) }
    {
        match session.close_all(&mut self.partitions) {
            Ok(()) => {}
            Err(_) => unreachable!(),
        }
    }
}

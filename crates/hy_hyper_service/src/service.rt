//! A service between two rounds.

ghost use Rattle.std.specs.Prelude.{◌≡◌, ◌++◌, [], false, IfErr, IfOk, IsTrue, Ok, OnErr, OnOk};
ghost use Rattle.std.specs.Io.KnownBytes.{Appends};
ghost use Rattle.std.specs.declared.io.Error.{Error};
ghost use Rattle.hy_hyper_input.specs.Inputs.{is_ended};
ghost use Rattle.hy_hyper_service.specs.declared.lines.RoundEnd.TheVariants as RoundEnd;
ghost use Rattle.hy_hyper_service.specs.declared.service.ServiceFault.TheVariants as faults;
ghost use Rattle.hy_hyper_service.specs.Endings.{EndsParts, EndsRound};
ghost use Rattle.hy_hyper_service.specs.Rounds.{IsSettled, PrintsKept, RunsParts, RunsRound, kept_line};

use crate::PAGE_BYTES;
use crate::keeping::ServiceLog;
use crate::lines::{RoundEnd, answer_lines};
use hy_hyper_answers::{Answers, Style};
use hy_hyper_input::Input;
use hy_output::Output;
use hy_redo::{Log, LogOut};
use hy_schema::Refusal;
use hy_script::Database;
use hy_session::hy_partition::Loaded;
use std::alloc::Global;
use std::io::{self, Read};
use std::marker::Model;

/// Why a service ended before its input did.
#[derive(Debug, Drop)]
pub enum ServiceFault {
    /// Memory was refused (E1), or the log has failed (E14).
    Refused(Refusal),
    /// The output has failed.
    Output(io::Error),
    /// The input couldn't be read.
    Input(io::Error),
}

impl From<Refusal> for ServiceFault {
    ghost from_gives = { λ refusal made. made ≡ faults.Refused refusal };

    fn from(refusal: Refusal) -> ServiceFault {
        ServiceFault::Refused(refusal)
    }
}

/// A service that has ended before its input did: its log, its output, and why.
#[derive(Drop)]
pub struct Ended<W: LogOut, O> {
    /// The log.
    pub log: Log<W>,
    /// The output.
    pub out: O,
    /// Why it has ended.
    pub why: ServiceFault,
}

/// A database, the log of what it commits, and the output that is told of it. All that the database has stands in batches of the
/// log, each of which was acknowledged; and an output is only written to by a round that came so far.
pub struct Service<K: Loaded, W: LogOut, O: Output> {
    database: Database<PAGE_BYTES, K>,
    log: ServiceLog<W, K>,
    answers: Answers,
    out: O,
}

// Clauses see the database, the log, the style, and what the output has.
impl<K: Loaded, W: LogOut, O: Output> Model for Service<K, W, O> {
    ghost use Rattle.std.specs.Prelude.{◌≡◌, [], false};
    ghost use Rattle.hy_hyper_service.specs.Rounds.{ServiceState};

    ghost Value = { ServiceState };

    ghost view = { λ service. record {
      database = service.database;
      log = service.log.log;
      style = service.answers.style;
      out = O.contents service.out;
    } };

    ghost invariant = { λ service. (service.log.seen ≡ service.database.log)
        × (service.log.log.has_failed ≡ false) × (service.answers.text ≡ []) };
}

/// Prints the answers that are held, and holds none any more. All that the database has has to stand in acknowledged batches.
fn print_held<K: Loaded, W: LogOut, O: Output>(
    _database: &Database<PAGE_BYTES, K>,
    _log: &ServiceLog<W, K>,
    answers: &mut Answers,
    out: &mut O,
) -> io::Result<()>
    requires seen { _log.now.seen ≡ _database.now.log }
    requires well { _log.now.log.has_failed ≡ false }
    ensures printed { OnOk result (Appends (O.contents out.old) (O.contents out.new) answers.old.text) }
    ensures cleared { OnOk result (answers.new ≡ record answers.old { text = [] }) }
    ensures failed { OnErr result (IsTrue (O.has_failed out.new)) }
{
    out.write_all(answers.text())?;
    answers.clear();
    Ok(())
}

/// A round over the parts of a service: what the lines say that are there is done, what it committed is written and synced, and
/// the answers are printed.
fn run_round<K: Loaded, W: LogOut, O: Output, R: Read + Drop>(
    alloc: Global,
    database: &mut Database<PAGE_BYTES, K>,
    log: &mut ServiceLog<W, K>,
    answers: &mut Answers,
    out: &mut O,
    input: &mut Input<R>,
) -> Result<RoundEnd, ServiceFault>
    requires seen { log.old.seen ≡ database.old.log }
    requires well { log.old.log.has_failed ≡ false }
    requires none { answers.old.text ≡ [] }
    ensures done { IfOk result (RunsParts PAGE_BYTES K.load (database.old, database.new) (log.old, log.new)
        (answers.old, answers.new) (O.contents out.old, O.contents out.new) input.old input.new) }
    ensures settled { OnOk result (log.new.seen ≡ database.new.log) }
    ensures well { OnOk result (log.new.log.has_failed ≡ false) }
    ensures none { OnOk result (answers.new.text ≡ []) }
    ensures waits { result ≡ Ok RoundEnd.Waits → is_ended input.new.left ≡ false }
    ensures ended { IfErr result (EndsParts PAGE_BYTES K.load answers.old.style database.old (input.old, input.new) log.old log.new
        (out.new ≡ out.old) (O.has_failed out.new)) }
{
    let end = answer_lines(alloc, database, answers, input)?;
    if let Err(refusal) = log.keep_commits(alloc, database) {
        return Err(ServiceFault::Refused(refusal));
    }
    if let Err(error) = print_held(database, log, answers, out) {
        return Err(ServiceFault::Output(error));
    }
    Ok(end)
}

/// Prints a word, and behind it how many commits each warehouse has kept.
fn print_kept<K: Loaded, O: Output>(
    database: &Database<PAGE_BYTES, K>,
    word: &[u8],
    out: &mut O,
) -> io::Result<()>
    ensures printed { OnOk result
        (Appends (O.contents out.old) (O.contents out.new) (kept_line word.now database.now)) }
    ensures failed { OnErr result (IsTrue (O.has_failed out.new)) }
{
    out.write_all(word)?;
    database.write_kept(out)?;
    out.write_all(b"\n")
}

impl<K: Loaded, W: LogOut, O: Output> Service<K, W, O> {
    /// A service of a database whose serial list the log has. Takes no memory.
    pub fn new(
        alloc: Global,
        database: Database<PAGE_BYTES, K>,
        log: ServiceLog<W, K>,
        style: Style,
        out: O,
    ) -> Service<K, W, O>
        requires seen { log.seen ≡ database.log }
        requires well { log.log.has_failed ≡ false }
        ensures { result ≡ record { database = database; log = log.log; style = style; out = O.contents out } }
    {
        Service {
            database,
            log,
            answers: Answers::new(alloc, style),
            out,
        }
    }

    /// That all that the database has stands in acknowledged batches of the log.
    pub fn settled(&self)
        ensures { IsSettled K.load self.now }
    {
        self.log.follows();
    }

    /// A round: does what the lines say that are there, one after another, writes what they committed as one batch, syncs it, and
    /// then prints the answers. Where nothing was committed nothing is written to the log and nothing synced. Where memory is
    /// refused (E1) or the log fails (E14) no answer of the round is printed, and the service has ended; so it has where the output
    /// fails.
    pub fn round<R: Read + Drop>(
        self,
        alloc: Global,
        input: &mut Input<R>,
    ) -> Result<(Service<K, W, O>, RoundEnd), Ended<W, O>>
        ensures went { IfOk result (λ went. RunsRound PAGE_BYTES K.load self went.0 input.old input.new went.1) }
        ensures waits { IfOk result (λ went. went.1 ≡ RoundEnd.Waits → is_ended input.new.left ≡ false) }
        ensures ended { IfErr result
            (λ ended. EndsRound PAGE_BYTES K.load self input.old input.new ended.log (O.contents ended.out)
            (O.has_failed ended.out) ended.why) }
    {
        let Service {
            mut database,
            mut log,
            mut answers,
            mut out,
        } = self;
        match run_round(
            alloc,
            &mut database,
            &mut log,
            &mut answers,
            &mut out,
            input,
        ) {
            Ok(end) => {
                let service = Service {
                    database,
                    log,
                    answers,
                    out,
                };
                Ok((service, end))
            }
            Err(why) => {
                database.end();
                let log = log.into_log();
                Err(Ended { log, out, why })
            }
        }
    }

    /// Prints a word, and behind it how many commits each warehouse has kept.
    pub fn tell_kept(self, word: &[u8]) -> Result<Service<K, W, O>, Ended<W, O>>
        ensures told { IfOk result (PrintsKept word.now self) }
        ensures ended { IfErr result (λ ended. (ended.log ≡ self.log) × IsTrue (O.has_failed ended.out)
            × ((error : Error) × (ended.why ≡ faults.Output error))) }
    {
        let Service {
            database,
            log,
            answers,
            mut out,
        } = self;
        match print_kept(&database, word, &mut out) {
            Ok(()) => Ok(Service {
                database,
                log,
                answers,
                out,
            }),
            Err(error) => {
                database.end();
                let log = log.into_log();
                let why = ServiceFault::Output(error);
                Err(Ended { log, out, why })
            }
        }
    }

    /// Ends the service because its input couldn't be read.
    pub fn end_unread(self, error: io::Error) -> Ended<W, O>
        ensures log { result.log ≡ self.log }
        ensures out { O.contents result.out ≡ self.out }
        ensures why { result.why ≡ faults.Input error }
    {
        let (log, out) = self.end();
        let why = ServiceFault::Input(error);
        Ended { log, out, why }
    }

    /// Ends the service: snapshots that are open are closed, and what runs half-done is gone, as no commit is. Its log and its
    /// output are given back.
    pub fn end(self) -> (Log<W>, O)
        ensures log { result.0 ≡ self.log }
        ensures out { O.contents result.1 ≡ self.out }
    {
        let Service {
            database,
            log,
            answers: _,
            out,
        } = self;
        database.end();
        (log.into_log(), out)
    }
}

//! Whole logs.

ghost use Rattle.std.specs.Prelude.{◌≡◌, ◌++◌, ◌∷◌, [], OnOk};
ghost use Rattle.hy_batches.specs.Batches.{may_follow};
ghost use Rattle.hy_batches.specs.Logs.{Reads, has_mark, is_beginning, is_end, is_short};
ghost use Rattle.hy_batches.specs.inside.Nexts.{Faults, IsNext, IsWhyUnread, Passes, ReadsSoFar};

use crate::batch::Batch;
use crate::fault::{Malformed, ReadFault};
use crate::reading::{batch_at, skip_batch};
use crate::writing::mark;
use hy_commands::Edition;
use hy_page::number;
use hy_schema::Refusal;
use std::alloc::{AllocError, Global};
use std::marker::Model;

/// The whole batches of a log, in order.
#[derive(Debug, Drop)]
pub struct Batches {
    batches: Vec<Batch>,
    bytes: usize,
}

impl Model for Batches {
    ghost use Rattle.std.specs.Prelude.{List};
    ghost use Rattle.hy_batches.specs.Batches.{Batch};
    ghost use Rattle.hy_batches.specs.inside.Logs.{AreBatches};

    ghost Value = { List Batch };

    ghost view = { λ log. log.batches.items };

    ghost invariant = { λ log. AreBatches log.batches.items log.bytes };
}

impl Batches {
    ghost use Rattle.std.specs.Prelude.{◌≡◌, ◌<◌, [], true, length, slice_index_or};
    ghost use Rattle.hy_commands.specs.declared.edition.Edition.TheVariants as editions;
    ghost use Rattle.hy_batches.specs.Encoding.{log_bytes};
    ghost use Rattle.hy_batches.specs.Grammar.{are_batches};

    /// How many batches there are.
    pub fn count(&self) -> u64
        ensures { result ≡ length self.now }
    {
        self.batches.len() as u64
    }

    /// How many bytes they have. What stands behind these in the log is the begin of a batch that was cut.
    pub fn bytes(&self) -> u64
        ensures { result ≡ length (log_bytes self.now) }
    {
        self.bytes as u64
    }

    /// They are batches that stand in a log in this order, whatever log they were read from. Does nothing.
    pub fn sound(&self)
        ensures { are_batches self.now ≡ true }
    {
        let _batches = &self.batches;
    }

    /// The batch at a place, from 0.
    pub fn batch(&self, place: usize) -> &Batch
        requires { place < length self.now }
        ensures { result.now ≡ slice_index_or self.now place (record { edition = editions.Second; lists = [] }) }
    {
        &self.batches[place]
    }
}

/// Whether bytes are shorter than a batch with the length that they say, or too short to say one.
fn is_short(rest: &[u8]) -> bool
    ensures { result ≡ is_short rest.now }
{
    if rest.len() < 12 {
        return true;
    }
    let said = number(&rest[4..12]);
    (rest.len() - 12) as u64 <= said
}

/// Whether the first bytes, up to four, are those of the mark of an edition.
fn has_mark(rest: &[u8], edition: Edition) -> bool
    ensures { result ≡ has_mark rest.now edition }
{
    let mark = mark(edition);
    let common = rest.len().min(mark.len());
    rest[..common] == mark[..common]
}

/// Whether bytes are the begin of a batch that was cut.
fn is_beginning(rest: &[u8]) -> bool
    ensures { result ≡ is_beginning rest.now }
{
    !rest.is_empty()
        && (has_mark(rest, Edition::First) || has_mark(rest, Edition::Second))
        && is_short(rest)
}

/// Whether no more than the begin of a batch is left.
fn is_end(rest: &[u8]) -> bool
    ensures { result ≡ is_end rest.now }
{
    rest.is_empty() || is_beginning(rest)
}

/// Whether a batch of an edition may stand behind one of another.
fn may_follow(before: Edition, behind: Edition) -> bool
    ensures { result ≡ may_follow before behind }
{
    before == Edition::First || behind == Edition::Second
}

/// The batch that bytes begin with, which stand at a place of the log behind a batch of an edition, and what is left.
fn next_batch(
    alloc: Global,
    edition: Edition,
    place: usize,
    rest: &[u8],
) -> Result<(Batch, &[u8]), Refusal>
    ensures { IsNext (λ read. (read.0, read.1.now)) edition place rest.now result }
{
    match batch_at(alloc, rest) {
        Ok((batch, after)) => {
            if may_follow(edition, batch.edition()) {
                Ok((batch, after))
            } else {
                Err(Refusal::LogMalformed(place as u64))
            }
        }
        Err(ReadFault::Malformed) => Err(Refusal::LogMalformed(place as u64)),
        Err(ReadFault::NoMemory) => Err(Refusal::NoMemory),
    }
}

/// Adds a batch.
fn add(batches: &mut Vec<Batch>, batch: Batch) -> Result<(), AllocError>
    ensures { OnOk result (batches.new.items ≡ batches.old.items ++ batch ∷ []) }
{
    batches.push(batch)?;
    Ok(())
}

/// The edition of the batch that bytes begin with, which stand behind a batch of an edition, and what is left. Takes no
/// memory.
fn next_edition(edition: Edition, rest: &[u8]) -> Option<(Edition, &[u8])>
    ensures { Passes (λ read. (read.0, read.1.now)) edition rest.now result }
{
    match skip_batch(rest) {
        Ok((found, after)) => {
            if may_follow(edition, found) {
                Some((found, after))
            } else {
                None
            }
        }
        Err(Malformed) => None,
    }
}

/// The place of the first byte of what is no batch, where bytes are no log. Takes no memory.
fn fault_in(bytes: &[u8]) -> Option<usize>
    ensures { Faults bytes.now result }
{
    let mut edition = Edition::First;
    let mut rest = bytes;
    'batches: while !is_end(rest) {
        match next_edition(edition, rest) {
            Some((found, after)) => {
                edition = found;
                rest = after;
            }
            None => return Some(bytes.len() - rest.len()),
        }
    }
    None
}

/// Why bytes aren't read for which memory lacks: they are no log, or memory lacks.
fn why_unread(bytes: &[u8]) -> Refusal
    ensures { IsWhyUnread bytes.now result }
{
    match fault_in(bytes) {
        Some(place) => Refusal::LogMalformed(place as u64),
        None => Refusal::NoMemory,
    }
}

/// The batches of a log, or the place where bytes fail, as far as memory lasts.
fn read_batches(alloc: Global, bytes: &[u8]) -> Result<Batches, Refusal>
    ensures { ReadsSoFar bytes.now result }
{
    let mut batches = Vec::new(alloc);
    let mut edition = Edition::First;
    let mut rest = bytes;
    'batches: while !is_end(rest) {
        let (batch, after) = next_batch(alloc, edition, bytes.len() - rest.len(), rest)?;
        edition = batch.edition();
        add(&mut batches, batch)?;
        rest = after;
    }
    Ok(Batches {
        batches,
        bytes: bytes.len() - rest.len(),
    })
}

/// The batches of a log: those of the first edition, and behind them those of the second. `LogMalformed` where the bytes
/// are none, with the place of the first byte of what is neither a batch that may stand there nor the begin of one,
/// whatever memory there is; `NoMemory` where they are a log and it lacks.
pub fn read_log(alloc: Global, bytes: &[u8]) -> Result<Batches, Refusal>
    ensures { Reads bytes.now result }
{
    match read_batches(alloc, bytes) {
        Ok(batches) => Ok(batches),
        Err(Refusal::NoMemory) => Err(why_unread(bytes)),
        Err(refusal) => Err(refusal),
    }
}

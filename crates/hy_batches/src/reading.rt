//! Batches, read from bytes.

ghost use Rattle.std.specs.Prelude.{◌≡◌, ◌∷◌, map};
ghost use Rattle.hy_rows.specs.Limits.{max_warehouses};
ghost use Rattle.hy_rows.specs.Ranges.{is_between};
ghost use Rattle.hy_commands.specs.declared.edition.Edition.{Edition};
ghost use Rattle.hy_batches.specs.inside.Reading.{Adds, Gives, Sees, batch_at, commit_at, commit_number_at, commit_of, commits_at, content_of, edition_marked, ended_at, is_read, left, list_at, lists_at, marked_at, numbered_at, passed};

use crate::batch::Batch;
use crate::fault::{Malformed, ReadFault};
use crate::seen::is_delivery_allowed;
use crate::values::{NO_LINE, delivery_at, front_at, number_at, payment_at, purchase_at};
use crate::writing::{END, FIRST_MARK, SECOND_MARK};
use hy_commands::{Command, Commit, Delivery, Edition, MAX_PURCHASE_LINES, PurchaseLine};
use hy_rows::MAX_WAREHOUSES;
use std::alloc::Global;

/// The number of a commit among those of several warehouses, if it is one of them, and what is left.
#[tactic(auto, unfolding(crate::specs::inside::Reading::commit_number_at))]
fn commit_number_at(bytes: &[u8]) -> Result<(Option<u64>, &[u8]), Malformed>
    ensures { Sees (λ read. (read.0, read.1.now)) result (commit_number_at bytes.now) }
{
    match bytes {
        [0, rest @ ..] => Ok((None, rest)),
        [1, rest @ ..] => {
            let (number, rest) = number_at(8, rest)?;
            Ok((Some(number), rest))
        }
        _ => Err(Malformed),
    }
}

/// The commit of a command.
fn commit_of(edition: Edition, number: Option<u64>, command: Command) -> Commit
    ensures { result ≡ commit_of edition number command }
{
    match number {
        None => Commit::Local(edition, command),
        Some(number) => Commit::Cross(edition, number, command),
    }
}

/// Adds the commit of a purchase to others.
#[tactic(auto, unfolding(crate::specs::inside::Reading::numbered_at, crate::specs::inside::Reading::command_at))]
fn add_purchase<'a>(
    alloc: Global,
    room: &mut [PurchaseLine; MAX_PURCHASE_LINES],
    edition: Edition,
    number: Option<u64>,
    warehouse: u64,
    commits: &mut Vec<Commit>,
    bytes: &'a [u8],
) -> Result<&'a [u8], ReadFault>
    ensures { Adds (λ rest. rest.now) commits.old.items commits.new.items result (numbered_at edition number warehouse (1 ∷ bytes.now)) }
{
    let (order, rest) = purchase_at(bytes)?;
    if !order.is_allowed(number, warehouse) {
        return Err(ReadFault::Malformed);
    }
    let order = order.keep(alloc, room)?;
    commits.push(commit_of(edition, number, Command::NewOrder(order)))?;
    Ok(rest)
}

/// Adds the commit of a payment to others.
#[tactic(auto, unfolding(crate::specs::inside::Reading::numbered_at, crate::specs::inside::Reading::command_at))]
fn add_payment<'a>(
    alloc: Global,
    edition: Edition,
    number: Option<u64>,
    warehouse: u64,
    commits: &mut Vec<Commit>,
    bytes: &'a [u8],
) -> Result<&'a [u8], ReadFault>
    ensures { Adds (λ rest. rest.now) commits.old.items commits.new.items result (numbered_at edition number warehouse (2 ∷ bytes.now)) }
{
    let (payment, rest) = payment_at(bytes)?;
    if !payment.is_allowed(number, warehouse) {
        return Err(ReadFault::Malformed);
    }
    let payment = payment.keep(alloc)?;
    commits.push(commit_of(edition, number, Command::Payment(payment)))?;
    Ok(rest)
}

/// Adds the commit of a delivery to others.
#[tactic(auto, unfolding(crate::specs::inside::Reading::numbered_at, crate::specs::inside::Reading::command_at))]
fn add_delivery<'a>(
    edition: Edition,
    number: Option<u64>,
    warehouse: u64,
    commits: &mut Vec<Commit>,
    bytes: &'a [u8],
) -> Result<&'a [u8], ReadFault>
    ensures { Adds (λ rest. rest.now) commits.old.items commits.new.items result (numbered_at edition number warehouse (3 ∷ bytes.now)) }
{
    let (delivery, rest) = delivery_at(bytes)?;
    if !is_delivery_allowed(&delivery, number, warehouse) {
        return Err(ReadFault::Malformed);
    }
    commits.push(commit_of(edition, number, Command::Delivery(delivery)))?;
    Ok(rest)
}

/// Adds the commit with a number or without one, whose command bytes begin with, to others of a warehouse. Answers what is
/// left.
#[tactic(auto, unfolding(crate::specs::inside::Reading::numbered_at, crate::specs::inside::Reading::command_at))]
fn add_numbered<'a>(
    alloc: Global,
    room: &mut [PurchaseLine; MAX_PURCHASE_LINES],
    edition: Edition,
    number: Option<u64>,
    warehouse: u64,
    commits: &mut Vec<Commit>,
    bytes: &'a [u8],
) -> Result<&'a [u8], ReadFault>
    ensures { Adds (λ rest. rest.now) commits.old.items commits.new.items result (numbered_at edition number warehouse bytes.now) }
{
    match bytes {
        [1, rest @ ..] => add_purchase(alloc, room, edition, number, warehouse, commits, rest),
        [2, rest @ ..] => add_payment(alloc, edition, number, warehouse, commits, rest),
        [3, rest @ ..] => add_delivery(edition, number, warehouse, commits, rest),
        _ => Err(ReadFault::Malformed),
    }
}

/// Adds the commit that bytes begin with to others of a warehouse. Answers what is left.
fn add_commit<'a>(
    alloc: Global,
    room: &mut [PurchaseLine; MAX_PURCHASE_LINES],
    edition: Edition,
    warehouse: u64,
    commits: &mut Vec<Commit>,
    bytes: &'a [u8],
) -> Result<&'a [u8], ReadFault>
    ensures { Adds (λ rest. rest.now) commits.old.items commits.new.items result (commit_at edition warehouse bytes.now) }
{
    let (number, rest) = commit_number_at(bytes)?;
    add_numbered(alloc, room, edition, number, warehouse, commits, rest)
}

/// What is left behind a purchase whose commit may stand in the list of a warehouse.
#[tactic(auto, unfolding(crate::specs::inside::Reading::numbered_at, crate::specs::inside::Reading::command_at))]
fn skip_purchase(number: Option<u64>, warehouse: u64, bytes: &[u8]) -> Result<&[u8], Malformed>
    ensures { (edition : Edition) → Sees (λ rest. rest.now) result (left (numbered_at edition number warehouse (1 ∷ bytes.now))) }
{
    let (order, rest) = purchase_at(bytes)?;
    if order.is_allowed(number, warehouse) {
        Ok(rest)
    } else {
        Err(Malformed)
    }
}

/// What is left behind a payment whose commit may stand in the list of a warehouse.
#[tactic(auto, unfolding(crate::specs::inside::Reading::numbered_at, crate::specs::inside::Reading::command_at))]
fn skip_payment(number: Option<u64>, warehouse: u64, bytes: &[u8]) -> Result<&[u8], Malformed>
    ensures { (edition : Edition) → Sees (λ rest. rest.now) result (left (numbered_at edition number warehouse (2 ∷ bytes.now))) }
{
    let (payment, rest) = payment_at(bytes)?;
    if payment.is_allowed(number, warehouse) {
        Ok(rest)
    } else {
        Err(Malformed)
    }
}

/// What is left behind a delivery whose commit may stand in the list of a warehouse.
#[tactic(auto, unfolding(crate::specs::inside::Reading::numbered_at, crate::specs::inside::Reading::command_at))]
fn skip_delivery(number: Option<u64>, warehouse: u64, bytes: &[u8]) -> Result<&[u8], Malformed>
    ensures { (edition : Edition) → Sees (λ rest. rest.now) result (left (numbered_at edition number warehouse (3 ∷ bytes.now))) }
{
    let (delivery, rest) = delivery_at(bytes)?;
    if is_delivery_allowed(&delivery, number, warehouse) {
        Ok(rest)
    } else {
        Err(Malformed)
    }
}

/// What is left behind the command that bytes begin with, of a commit with a number or without one.
#[tactic(auto, unfolding(crate::specs::inside::Reading::numbered_at, crate::specs::inside::Reading::command_at))]
fn skip_numbered(number: Option<u64>, warehouse: u64, bytes: &[u8]) -> Result<&[u8], Malformed>
    ensures { (edition : Edition) → Sees (λ rest. rest.now) result (left (numbered_at edition number warehouse bytes.now)) }
{
    match bytes {
        [1, rest @ ..] => skip_purchase(number, warehouse, rest),
        [2, rest @ ..] => skip_payment(number, warehouse, rest),
        [3, rest @ ..] => skip_delivery(number, warehouse, rest),
        _ => Err(Malformed),
    }
}

/// What is left behind the commit that bytes begin with.
fn skip_commit(warehouse: u64, bytes: &[u8]) -> Result<&[u8], Malformed>
    ensures { (edition : Edition) → Sees (λ rest. rest.now) result (left (commit_at edition warehouse bytes.now)) }
{
    let (number, rest) = commit_number_at(bytes)?;
    skip_numbered(number, warehouse, rest)
}

/// How many bytes a commit has at least.
const LEAST_COMMIT: u64 = 12;

/// So many commits of a warehouse.
fn commits_at(
    alloc: Global,
    edition: Edition,
    warehouse: u64,
    count: u64,
    bytes: &[u8],
) -> Result<(Vec<Commit>, &[u8]), ReadFault>
    ensures { Gives (λ read. (read.0.items, read.1.now)) result (commits_at edition warehouse count bytes.now) }
{
    let mut room = [NO_LINE; MAX_PURCHASE_LINES];
    let mut commits = Vec::with_capacity(
        alloc,
        count.min(bytes.len() as u64 / LEAST_COMMIT) as usize,
    )?;
    let mut rest = bytes;
    for _ in 0..count {
        rest = add_commit(alloc, &mut room, edition, warehouse, &mut commits, rest)?;
    }
    Ok((commits, rest))
}

/// How many commits of a warehouse there are, and they.
#[tactic(auto, unfolding(crate::specs::inside::Reading::list_at))]
fn list_at(
    alloc: Global,
    edition: Edition,
    warehouse: u64,
    bytes: &[u8],
) -> Result<(Vec<Commit>, &[u8]), ReadFault>
    ensures { Gives (λ read. (read.0.items, read.1.now)) result (list_at edition warehouse bytes.now) }
{
    let (count, rest) = number_at(4, bytes)?;
    commits_at(alloc, edition, warehouse, count, rest)
}

/// The lists of so many warehouses.
fn lists_at(
    alloc: Global,
    edition: Edition,
    count: u64,
    bytes: &[u8],
) -> Result<(Vec<Vec<Commit>>, &[u8]), ReadFault>
    ensures { Gives (λ read. (map (λ commits. commits.items) read.0.items, read.1.now)) result
        (lists_at edition 1 count bytes.now) }
{
    let mut lists = Vec::new(alloc);
    let mut rest = bytes;
    for place in 0..count {
        let (list, after) = list_at(alloc, edition, place + 1, rest)?;
        lists.push(list)?;
        rest = after;
    }
    Ok((lists, rest))
}

/// Whether a batch may be of so many warehouses.
fn are_warehouses(count: u64) -> bool
    ensures { result ≡ is_between 1 max_warehouses count }
{
    (1..=u64::from(MAX_WAREHOUSES)).contains(&count)
}

/// The batch of an edition of which these bytes are the content, all of them.
#[tactic(auto, unfolding(crate::specs::inside::Reading::content_of))]
fn content_of(alloc: Global, edition: Edition, bytes: &[u8]) -> Result<Batch, ReadFault>
    ensures { Gives (λ batch. batch) result (content_of edition bytes.now) }
{
    let (count, rest) = number_at(1, bytes)?;
    if !are_warehouses(count) {
        return Err(ReadFault::Malformed);
    }
    let (lists, after) = lists_at(alloc, edition, count, rest)?;
    if after.is_empty() {
        Ok(Batch::new(edition, lists))
    } else {
        Err(ReadFault::Malformed)
    }
}

/// The edition that a mark tells.
#[tactic(auto, unfolding(crate::specs::inside::Reading::edition_marked))]
fn edition_marked(front: &[u8]) -> Result<Edition, Malformed>
    ensures { Sees (λ edition. edition) result (edition_marked front.now) }
{
    if front == FIRST_MARK.as_slice() {
        Ok(Edition::First)
    } else if front == SECOND_MARK.as_slice() {
        Ok(Edition::Second)
    } else {
        Err(Malformed)
    }
}

/// The edition that the mark tells, and what stands behind it.
#[tactic(auto, unfolding(crate::specs::inside::Reading::marked_at))]
fn marked_at(bytes: &[u8]) -> Result<(Edition, &[u8]), Malformed>
    ensures { Sees (λ marked. (marked.0, marked.1.now)) result (marked_at bytes.now) }
{
    let (front, rest) = front_at(FIRST_MARK.len(), bytes)?;
    let edition = edition_marked(front)?;
    Ok((edition, rest))
}

/// What stands behind the end.
#[tactic(auto, unfolding(crate::specs::inside::Reading::ended_at))]
fn ended_at(bytes: &[u8]) -> Result<&[u8], Malformed>
    ensures { Sees (λ rest. rest.now) result (ended_at bytes.now) }
{
    let (last, rest) = number_at(1, bytes)?;
    if last == u64::from(END) {
        Ok(rest)
    } else {
        Err(Malformed)
    }
}

/// The batch that the bytes begin with, and what is left.
#[tactic(auto, unfolding(crate::specs::inside::Reading::batch_at))]
pub(crate) fn batch_at(alloc: Global, bytes: &[u8]) -> Result<(Batch, &[u8]), ReadFault>
    ensures { Gives (λ read. (read.0, read.1.now)) result (batch_at bytes.now) }
{
    let (edition, rest) = marked_at(bytes)?;
    let (size, rest) = number_at(8, rest)?;
    let (content, rest) = front_at(size as usize, rest)?;
    let batch = content_of(alloc, edition, content)?;
    let rest = ended_at(rest)?;
    Ok((batch, rest))
}

/// What is left behind so many commits of a warehouse.
fn skip_commits(warehouse: u64, count: u64, bytes: &[u8]) -> Result<&[u8], Malformed>
    ensures { (edition : Edition) → Sees (λ rest. rest.now) result (left (commits_at edition warehouse count bytes.now)) }
{
    let mut rest = bytes;
    for _ in 0..count {
        rest = skip_commit(warehouse, rest)?;
    }
    Ok(rest)
}

/// What is left behind the list of a warehouse.
#[tactic(auto, unfolding(crate::specs::inside::Reading::list_at))]
fn skip_list(warehouse: u64, bytes: &[u8]) -> Result<&[u8], Malformed>
    ensures { (edition : Edition) → Sees (λ rest. rest.now) result (left (list_at edition warehouse bytes.now)) }
{
    let (count, rest) = number_at(4, bytes)?;
    skip_commits(warehouse, count, rest)
}

/// What is left behind the lists of so many warehouses.
fn skip_lists(count: u64, bytes: &[u8]) -> Result<&[u8], Malformed>
    ensures { (edition : Edition) → Sees (λ rest. rest.now) result (left (lists_at edition 1 count bytes.now)) }
{
    let mut rest = bytes;
    for place in 0..count {
        rest = skip_list(place + 1, rest)?;
    }
    Ok(rest)
}

/// Whether bytes are the content of a batch, all of them.
#[tactic(auto, unfolding(crate::specs::inside::Reading::content_of))]
fn is_content(bytes: &[u8]) -> bool
    ensures { (edition : Edition) → result ≡ is_read (content_of edition bytes.now) }
{
    let Ok((number, rest)) = number_at(1, bytes) else {
        return false;
    };
    if !are_warehouses(number) {
        return false;
    }
    match skip_lists(number, rest) {
        Ok(rest) => rest.is_empty(),
        Err(Malformed) => false,
    }
}

/// The edition of the batch that the bytes begin with, and what is left. Takes no memory.
#[tactic(auto, unfolding(crate::specs::inside::Reading::batch_at))]
pub(crate) fn skip_batch(bytes: &[u8]) -> Result<(Edition, &[u8]), Malformed>
    ensures { Sees (λ read. (read.0, read.1.now)) result (passed (batch_at bytes.now)) }
{
    let (edition, rest) = marked_at(bytes)?;
    let (size, rest) = number_at(8, rest)?;
    let (content, rest) = front_at(size as usize, rest)?;
    if !is_content(content) {
        return Err(Malformed);
    }
    let rest = ended_at(rest)?;
    Ok((edition, rest))
}

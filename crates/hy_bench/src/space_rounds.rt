//! Rounds over a space of one segment.

ghost use Rattle.std.specs.Prelude.{◌≡◌, ◌<◌, IfSome, OnOk};
ghost use Rattle.hy_space.specs.Space.{HasPage, SameForChildren};
ghost use Rattle.hy_undo.specs.PrivatePages.{IsUndoLog};

use hy_frames::Shortage;
use hy_space::Space;
use hy_undo::Undo;
use std::alloc::Global;

/// The bytes of a page.
const SIZE: usize = 4096;

/// How a transaction ends.
#[derive(Clone, Copy)]
enum Ending {
    Commit,
    RollBack,
}

/// Rounds of one work over a space of `pages` pages.
pub fn run(alloc: Global, work: &str, rounds: u64, pages: u64, writes: u64) -> Option<u64> {
    let mut space = filled(alloc, pages).ok()?;
    let done = match work {
        "commit" => transactions(alloc, &mut space, rounds, Ending::Commit),
        "rollback" => transactions(alloc, &mut space, rounds, Ending::RollBack),
        "fork" => forks(&mut space, rounds, writes),
        "child" => children(&mut space, rounds),
        "snapshot" => snapshots(&mut space, rounds),
        _ => return None,
    };
    done.ok()?;
    let page = page_of_round(&space, rounds)?;
    Some(space.read(0, page, 8, 8).wrapping_add(space.free()))
}

/// A space with pages of zeros.
fn filled(alloc: Global, pages: u64) -> Result<Space<SIZE>, Shortage> {
    let mut space = Space::new(alloc, 1, 10_000_000)?;
    for _ in 0..pages {
        if space.segments() != 0 {
            space.grow(0)?;
        }
    }
    Ok(space)
}

/// The page of a round. They jump about, so that no two rounds in a row are likely to be at one page.
fn page_of_round(space: &Space<SIZE>, round: u64) -> Option<u32>
    ensures { IfSome result (λ page. HasPage space.now 0 page) }
{
    if space.segments() == 0 {
        return None;
    }
    let pages = space.pages(0);
    if pages == 0 {
        return None;
    }
    let mixed = (round.wrapping_mul(0x9e37_79b9_7f4a_7c15) >> 33) as u32;
    Some(mixed % pages)
}

/// Transactions of one write each, to the owner's own pages.
fn transactions(
    alloc: Global,
    space: &mut Space<SIZE>,
    rounds: u64,
    ending: Ending,
) -> Result<(), Shortage> {
    let mut undo = Undo::new(alloc, space)?;
    for round in 0..rounds {
        transaction(space, &mut undo, round, ending)?;
    }
    Ok(())
}

/// Keeps eight bytes of a page, overwrites them, and ends the transaction.
fn transaction(
    space: &mut Space<SIZE>,
    undo: &mut Undo<SIZE>,
    round: u64,
    ending: Ending,
) -> Result<(), Shortage>
    requires { IsUndoLog 4096 space.old undo.old }
    ensures { IsUndoLog 4096 space.new undo.new }
{
    let Some(page) = page_of_round(space, round) else {
        return Ok(());
    };
    undo.write(space, 0, page, 8, &round.to_le_bytes())?;
    match ending {
        Ending::Commit => undo.commit(space),
        Ending::RollBack => undo.roll_back(space),
    }
    Ok(())
}

/// Children that are opened and closed, with so many writes between, each to another page that the child sees too.
fn forks(space: &mut Space<SIZE>, rounds: u64, writes: u64) -> Result<(), Shortage> {
    for _ in 0..rounds {
        let child = space.fork()?;
        write_each(space, writes)?;
        space.close(child);
    }
    Ok(())
}

/// Children that are opened and closed, each with what a child that stays open sees.
fn children(space: &mut Space<SIZE>, rounds: u64) -> Result<(), Shortage> {
    let first = space.fork()?;
    for _ in 0..rounds {
        let child = space.fork_child(first)?;
        space.close(child);
    }
    space.close(first);
    Ok(())
}

/// Writes to so many pages.
fn write_each(space: &mut Space<SIZE>, writes: u64) -> Result<(), Shortage>
    ensures { OnOk result (SameForChildren space.old space.new) }
{
    for round in 0..writes {
        write_one(space, round)?;
    }
    Ok(())
}

/// Overwrites eight bytes of a page.
fn write_one(space: &mut Space<SIZE>, round: u64) -> Result<(), Shortage>
    ensures { OnOk result (SameForChildren space.old space.new) }
{
    if let Some(page) = page_of_round(space, round) {
        space.write(0, page, 8, &round.to_le_bytes())?;
    }
    Ok(())
}

/// Children whose pages are all held, as a snapshot holds them, and that are closed again.
fn snapshots(space: &mut Space<SIZE>, rounds: u64) -> Result<(), Shortage> {
    for _ in 0..rounds {
        let child = space.fork()?;
        let holds = space.holds(child)?;
        drop(holds);
        space.close(child);
    }
    Ok(())
}

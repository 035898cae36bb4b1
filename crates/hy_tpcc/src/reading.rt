//! The transactions that only read, each in one slice.

ghost use Rattle.std.specs.Prelude.{IfOk};
ghost use Rattle.hy_space.specs.Space.{owner_bytes};
ghost use Rattle.hy_writers.specs.of_store.Stored.{HasStore};
ghost use Rattle.hy_writers.specs.of_store.Writes.{stored_in};
ghost use Rattle.hy_tpcc.specs.Executor.{IsPartlyDone, IsReply};

use crate::level::stock_level;
use crate::status::order_status;
use hy_commands::{Command, OrderStatus, Reply, StockLevel};
use hy_layout::Layout;
use hy_space::Space;
use hy_writers::hy_index::Entry;
use hy_writers::hy_store::LineKey;
use std::alloc::{AllocError, Global};

/// The one slice of Order-Status.
pub(crate) fn answer_status<const N: usize>(
    alloc: Global,
    layout: &Layout,
    space: &Space<N>,
    status: &OrderStatus,
    place: u64,
    entries: &mut Vec<Entry<LineKey>>,
) -> Result<Reply, AllocError>
    requires store { HasStore N (owner_bytes space.now) }
    requires done { IsPartlyDone layout.now (Command.OrderStatus status.now) place 0 (stored_in N space.now) }
    ensures { IfOk result (IsReply layout.now (Command.OrderStatus status.now) place 0 (stored_in N space.now)) }
{
    order_status(alloc, layout, space, status, place, entries)
}

/// The one slice of Stock-Level.
pub(crate) fn answer_level<const N: usize>(
    layout: &Layout,
    space: &Space<N>,
    level: &StockLevel,
    place: u64,
    entries: &mut Vec<Entry<LineKey>>,
    low: &mut Vec<u32>,
) -> Result<Reply, AllocError>
    requires store { HasStore N (owner_bytes space.now) }
    requires done { IsPartlyDone layout.now (Command.StockLevel level.now) place 0 (stored_in N space.now) }
    ensures { IfOk result (IsReply layout.now (Command.StockLevel level.now) place 0 (stored_in N space.now)) }
{
    let low = stock_level(layout, space, level, entries, low)?;
    Ok(Reply::StockLevel { low })
}

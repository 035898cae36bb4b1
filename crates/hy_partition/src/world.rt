//! Which values belong to one kit and one load.

use hy_worlds::World;
use std::marker::Brand;

/// Names one kit and one load: a partition with it as parameter is of that kit, and began from that load. It has no
/// calls.
pub trait Loaded: World {
    ghost use Rattle.hy_rows.specs.Tables.{Lists};

    ghost load: { Lists };
}

impl Loaded for Brand {
    ghost use Rattle.hy_partition.specs.Worlds.{no_lists};

    ghost load = { no_lists };
}

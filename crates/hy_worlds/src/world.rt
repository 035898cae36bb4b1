//! Which values belong to one kit.

use std::marker::Brand;

/// Names one kit: a type with it as parameter has values of that kit alone. It has no calls.
pub trait World {
    ghost use Rattle.hy_worlds.specs.Origins.{Origin};

    ghost passes: { Origin };
}

impl World for Brand {
    ghost use Rattle.hy_worlds.specs.Origins.{no_origin};

    ghost passes = { no_origin };
}

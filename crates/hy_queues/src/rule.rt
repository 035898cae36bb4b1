//! The rule of the queues: what came out, then what a queue holds, is what went in.

use crossbeam_queue::protocol::{Lesson, Outcome, Protocol, Split};
use std::collections::LinkedList;

/// What a side of a queue may do, and what it has put or taken so far. No value of it is made.
pub struct Log<T> {
    /// Whether it may put.
    pub puts: bool,
    /// Whether it may take.
    pub takes: bool,
    /// What it has put.
    pub put: LinkedList<T>,
    /// What it has taken.
    pub taken: LinkedList<T>,
}

/// The rule. One side puts, and one takes.
pub struct InOrder;

impl<T> Protocol<T, Log<T>> for InOrder {
    ghost use Rattle.std.specs.Prelude.{[], true};
    ghost use Rattle.hy_queues.specs.Queues.{IsInOrder, log};

    ghost holds = { IsInOrder };

    ghost first = { log true true [] [] };
}

/// A queue's two sides are parted.
pub struct Sides;

impl<T> Split<Log<T>> for Sides {
    ghost use Rattle.std.specs.Prelude.{[], false, true};
    ghost use Rattle.hy_queues.specs.Queues.{log};

    ghost left = { λ v. log true false v.put [] };

    ghost right = { λ v. log false true [] v.taken };
}

/// An item more was put.
pub struct Put;

impl<T> Outcome<T, Log<T>> for Put {
    ghost use Rattle.std.specs.Prelude.{◌≡◌, ◌++◌, ◌∷◌, []};
    ghost use Rattle.hy_queues.specs.Queues.{log};

    ghost then = { λ v x w. w ≡ log v.puts v.takes (v.put ++ x ∷ []) v.taken };
}

impl<T> Lesson<T, Log<T>> for Put {
    ghost use Rattle.hy_queues.specs.Queues.{HasPut};

    ghost fact = { HasPut };
}

/// An item was taken.
pub struct Take;

impl<T> Outcome<T, Log<T>> for Take {
    ghost use Rattle.std.specs.Prelude.{◌≡◌, ◌++◌, ◌∷◌, []};
    ghost use Rattle.hy_queues.specs.Queues.{log};

    ghost then = { λ v x w. w ≡ log v.puts v.takes v.put (v.taken ++ x ∷ []) };
}

impl<T> Lesson<T, Log<T>> for Take {
    ghost use Rattle.hy_queues.specs.Queues.{HasTaken};

    ghost fact = { HasTaken };
}

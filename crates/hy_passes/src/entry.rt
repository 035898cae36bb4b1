//! Commits as the journal has them.

ghost use Rattle.std.specs.Prelude.{◌≡◌, ◌≢◌, ℕ, List, Option, AllPairs};
ghost use Rattle.hy_passes.specs.SerialList.{names};

/// What a commit says of itself.
pub trait Commits: Drop {
    // The warehouses that it names, each once, its home first.
    ghost warehouses: { Self → List ℕ };
    // Its number among the commits that name several warehouses.
    ghost number: { Self → Option ℕ };

    /// Whether it names the warehouse.
    fn names(&self, warehouse: u64) -> bool
        ensures { result ≡ names warehouses warehouse self.now };

    /// Its number, if it names several warehouses.
    fn number(&self) -> Option<u64>
        ensures { result ≡ number self.now };

    // No warehouse is named twice.
    ghost named_once: { (commit : Self) → AllPairs (λ one other. one ≢ other) (warehouses commit) };
}

/// A commit in the one serial list, with its stamp.
#[derive(Drop)]
pub struct Entry<C> {
    /// What was committed.
    pub commit: C,
    /// How many commits the client knew when the job was handed in.
    pub stamp: u64,
}

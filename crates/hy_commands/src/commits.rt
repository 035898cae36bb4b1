//! Commits as the serial list of `hy_passes` takes them.

ghost use Rattle.hy_commands.specs.Commands.{number_of, warehouses_of_commit};
ghost use Rattle.hy_commands.specs.inside.NamedOnce.{named_once-commit};

use crate::Commit;
use hy_passes::Commits;

impl Commits for Commit {
    ghost warehouses = { warehouses_of_commit };

    ghost number = { number_of };

    fn names(&self, warehouse: u64) -> bool {
        self.command().names(warehouse)
    }

    fn number(&self) -> Option<u64> {
        Commit::number(self)
    }

    ghost named_once = { named_once-commit };
}

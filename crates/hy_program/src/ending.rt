//! How a run of the program ends.

ghost use Rattle.std.specs.Prelude.{◌≡◌};
ghost use Rattle.std.specs.Process.{exit_status};
ghost use Rattle.hy_program.specs.Runs.{status_of};

use std::process::ExitCode;

/// How a run of the program ended.
#[derive(Clone, Copy, Debug, PartialEq, Eq)]
pub enum Ending {
    /// What the words say was done.
    Done,
    /// It was refused, and the second output has the refusal.
    Refused,
    /// A write to one of the outputs failed.
    WriterFailed,
    /// The words are no command line, or ask for help, and the second output has the parser's text.
    NoLine,
}

impl Ending {
    /// The exit status.
    pub fn status(self) -> u8
        ensures { result ≡ status_of self }
    {
        match self {
            Ending::Done => 0,
            Ending::Refused | Ending::WriterFailed => 1,
            Ending::NoLine => 2,
        }
    }

    /// The exit status, as a program's `main` returns it.
    pub fn exit_code(self) -> ExitCode
        ensures { exit_status result ≡ status_of self }
    {
        ExitCode::from(self.status())
    }
}

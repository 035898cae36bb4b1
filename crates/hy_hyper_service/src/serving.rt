//! A whole life of a service.

ghost use Rattle.std.specs.Prelude.{◌≡◌, [], IfErr, IfOk, Ok, OnErr, false};
ghost use Rattle.std.specs.Io.KnownBytes.{IsAtEnd};
ghost use Rattle.hy_hyper_input.specs.Inputs.{FailsToFill, is_ended};
ghost use Rattle.hy_hyper_input.specs.Received.{Hears};
ghost use Rattle.hy_hyper_service.specs.Endings.{EndsLife};
ghost use Rattle.hy_hyper_service.specs.Rounds.{ServesInput};

use crate::PAGE_BYTES;
use crate::lines::RoundEnd;
use crate::service::{Ended, Service};
use hy_hyper_input::Input;
use hy_output::Output;
use hy_redo::LogOut;
use hy_session::hy_partition::Loaded;
use std::alloc::Global;
use std::io::{self, Read};

/// Waits for more of an input, and tells whether there may be more lines; none where the input is at its end. An error where it
/// can't be read.
fn has_more<R: Read + Drop>(input: &mut Input<R>) -> io::Result<bool>
    requires { is_ended input.old.left ≡ false }
    ensures heard { Hears input.old input.new [] }
    ensures over { result ≡ Ok false → (is_ended input.new.left ≡ false) × IsAtEnd input.new.coming }
    ensures failed { OnErr result (FailsToFill input.old input.new) }
{
    match input.fill() {
        Ok(more) => Ok(more),
        Err(error) => Err(error),
    }
}

/// Serves an input round by round, until it is at its end or a line says `quit`. Where it can't be read, the service has ended with
/// all that was told.
pub fn serve_input<K: Loaded, W: LogOut, O: Output, R: Read + Drop>(
    alloc: Global,
    mut service: Service<K, W, O>,
    input: &mut Input<R>,
) -> Result<Service<K, W, O>, Ended<W, O>>
    ensures served { IfOk result (λ last. ServesInput PAGE_BYTES K.load service last input.old input.new) }
    ensures ended { IfErr result (λ ended. EndsLife PAGE_BYTES K.load service input.old input.new ended.log (O.contents ended.out)
        (O.has_failed ended.out) ended.why) }
{
    for _ in 0..u64::MAX {
        let (next, end) = service.round(alloc, input)?;
        service = next;
        match end {
            RoundEnd::Quit => return Ok(service),
            RoundEnd::Full => {}
            RoundEnd::Waits => match has_more(input) {
                Ok(true) => {}
                Ok(false) => return Ok(service),
                Err(error) => return Err(service.end_unread(error)),
            },
        }
    }
    Ok(service)
}

//! A life of a service, from its first line to its last.

ghost use Rattle.std.specs.Prelude.{IfErr, IfOk, MatchOption};
ghost use Rattle.hy_hyper_life.specs.Lives.{IsCutOff, IsLived};

use hy_hyper_input::Input;
use hy_hyper_service::{Ended, PAGE_BYTES, Service, ServiceFault, serve_input};
use hy_output::Output;
use hy_recovery::hy_partition::Loaded;
use hy_redo::{Log, LogOut};
use std::alloc::Global;
use std::io::Read;

/// A life of a service that is over: its log, its output, and why it ended before its input did, where that was so.
#[derive(Drop)]
pub struct Life<W: LogOut, O> {
    /// The log.
    pub log: Log<W>,
    /// The output.
    pub out: O,
    /// Why it ended before its input did.
    pub why: Option<ServiceFault>,
}

/// A life of a service: it prints how many commits each warehouse has kept, does what the input says to its end, and prints again
/// how many there are.
pub fn live<K: Loaded, W: LogOut, O: Output, R: Read + Drop>(
    alloc: Global,
    service: Service<K, W, O>,
    input: &mut Input<R>,
) -> Life<W, O>
    ensures { MatchOption result.why
        (IsLived PAGE_BYTES K.load service input.old input.new result.log (O.contents result.out))
        (IsCutOff PAGE_BYTES K.load service input.old input.new result.log (O.contents result.out)
        (O.has_failed result.out)) }
{
    match serve(alloc, service, input) {
        Ok((log, out)) => Life {
            log,
            out,
            why: None,
        },
        Err(Ended { log, out, why }) => Life {
            log,
            out,
            why: Some(why),
        },
    }
}

/// The same, with its log and its output where it went to its end.
fn serve<K: Loaded, W: LogOut, O: Output, R: Read + Drop>(
    alloc: Global,
    service: Service<K, W, O>,
    input: &mut Input<R>,
) -> Result<(Log<W>, O), Ended<W, O>>
    ensures lived { IfOk result
        (λ given. IsLived PAGE_BYTES K.load service input.old input.new given.0 (O.contents given.1)) }
    ensures cut_off { IfErr result
        (λ ended. IsCutOff PAGE_BYTES K.load service input.old input.new ended.log (O.contents ended.out)
        (O.has_failed ended.out) ended.why) }
{
    let service = service.tell_kept(b"ready commits")?;
    let service = serve_input(alloc, service, input)?;
    let service = service.tell_kept(b"closed commits")?;
    Ok(service.end())
}

//! What the layers below answer, as refusals.

ghost use Rattle.std.specs.Prelude.{◌≡◌};
ghost use Rattle.hy_tpcc.specs.Shortages.{refusal_of_shortage, with_refusal};

use hy_commands::Reply;
use hy_frames::Shortage;
use hy_schema::Refusal;

/// What the pages lack, as a refusal: E1 for memory, E2 for a frame.
pub fn refusal_of_shortage(shortage: Shortage) -> Refusal
    ensures { result ≡ refusal_of_shortage shortage }
{
    match shortage {
        Shortage::NoMemory => Refusal::NoMemory,
        Shortage::NoFrame => Refusal::NoFrame,
    }
}

/// What a slice answered, with E1 or E2 for what it lacked.
pub(crate) fn with_refusal(
    answer: Result<Option<Reply>, Shortage>,
) -> Result<Option<Reply>, Refusal>
    ensures { result ≡ with_refusal answer }
{
    match answer {
        Ok(reply) => Ok(reply),
        Err(shortage) => Err(refusal_of_shortage(shortage)),
    }
}

//! The lines of one round.

ghost use Rattle.std.specs.Prelude.{◌≡◌, ◌↔◌, IfErr, IfOk, IsTrue, Ok, codes, false};
ghost use Rattle.hy_schema.specs.declared.refusal.Refusal.TheVariants as Refusal;
ghost use Rattle.hy_hyper_input.specs.Inputs.{is_ended};
ghost use Rattle.hy_hyper_service.specs.declared.lines.RoundEnd.TheVariants as RoundEnd;
ghost use Rattle.hy_hyper_service.specs.Rounds.{AnswersLines, quit_line};

use crate::PAGE_BYTES;
use hy_hyper_answers::Answers;
use hy_hyper_input::{Input, Next};
use hy_schema::Refusal;
use hy_script::Database;
use hy_session::hy_partition::Loaded;
use std::alloc::Global;
use std::io::Read;

/// How many lines a round has at most.
const MAX_LINES: u64 = 4096;

/// How many bytes of answers may be held before a round ends.
const MAX_HELD: usize = 1 << 20;

/// How the lines of a round ended.
#[derive(Clone, Copy, Debug, PartialEq, Eq)]
pub enum RoundEnd {
    /// No further line is there to its end.
    Waits,
    /// There may be more lines.
    Full,
    /// A line said `quit`.
    Quit,
}

/// Whether a line says that the service is to end.
fn is_quit(line: &[u8]) -> bool
    ensures { IsTrue result ↔ line.now ≡ quit_line }
{
    line == b"quit".as_slice()
}

/// Does what the lines say that are there, one after another, and holds the answers: at most so many lines, and so many bytes of
/// answers and one answer more. E1 where an answer finds no memory.
pub(crate) fn answer_lines<K: Loaded, R: Read + Drop>(
    alloc: Global,
    database: &mut Database<PAGE_BYTES, K>,
    answers: &mut Answers,
    input: &mut Input<R>,
) -> Result<RoundEnd, Refusal>
    ensures answered { IfOk result
        (AnswersLines PAGE_BYTES database.old database.new answers.old answers.new input.old input.new) }
    ensures waits { result ≡ Ok RoundEnd.Waits → is_ended input.new.left ≡ false }
    ensures refused { IfErr result (λ why. why ≡ Refusal.NoMemory) }
{
    for _ in 0..MAX_LINES {
        if answers.text().len() >= MAX_HELD {
            return Ok(RoundEnd::Full);
        }
        match input.next() {
            Next::Line => {
                if is_quit(input.line()) {
                    return Ok(RoundEnd::Quit);
                }
                answers.answer(alloc, database, input.number(), input.line())?;
            }
            Next::TooLong => answers.answer_too_long(alloc, input.number())?,
            Next::Nothing => return Ok(RoundEnd::Waits),
        }
    }
    Ok(RoundEnd::Full)
}

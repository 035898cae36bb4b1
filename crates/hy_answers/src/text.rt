//! Answers as texts.

ghost use Rattle.std.specs.Prelude.{◌≡◌, IfOk};
ghost use Rattle.hy_answers.specs.Texts.{answer_text};

use crate::answer::Answer;
use itoa::Buffer;
use std::alloc::{AllocError, Global};

/// The text of an answer: a record for each row, and then how many rows there are.
pub fn text_of(alloc: Global, answer: &Answer) -> Result<Vec<u8>, AllocError>
    ensures { IfOk result (λ text. text.items ≡ answer_text answer.now) }
{
    let mut digits = Buffer::new();
    let mut text = answer.records(alloc)?;
    text.extend_from_slice(digits.format(answer.len()).as_bytes())?;
    text.extend_from_slice(b" rows\n")?;
    Ok(text)
}

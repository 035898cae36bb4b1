//! The parts of a line between separators, and the numbers that they say.

ghost use Rattle.std.specs.Prelude.{◌≡◌, ◌==◌, is_some, option_map};
ghost use Rattle.std.specs.List.{position_or_len};
ghost use Rattle.hy_events.specs.Words.{first_word, later_words, number_at, parts};

use hy_decimal::number;
use std::marker::Model;

/// The parts of a line that are still to come, in their order.
#[derive(Drop)]
pub struct Parts<'a> {
    separator: u8,
    rest: Option<&'a [u8]>,
}

impl<'a> Model for Parts<'a> {
    ghost use Rattle.std.specs.Prelude.{ℕ, List, option_map};
    ghost use Rattle.hy_events.specs.inside.Parts.{parts_left};

    ghost Value = { List (List ℕ) };

    ghost view = { λ parts. parts_left parts.separator (option_map (λ rest. rest.now) parts.rest) };
}

impl<'a> Parts<'a> {
    /// The parts of a line.
    pub fn new(separator: u8, line: &'a [u8]) -> Parts<'a>
        ensures { result ≡ parts separator line.now }
    {
        Parts {
            separator,
            rest: Some(line),
        }
    }

    /// Takes the next part, if there is one.
    pub fn take_part(&mut self) -> Option<&'a [u8]>
        ensures part { option_map (λ part. part.now) result ≡ first_word self.old }
        ensures later { self.new ≡ later_words self.old }
    {
        let rest = self.rest?;
        let end = first_end(rest, self.separator);
        if end < rest.len() {
            self.rest = Some(&rest[end + 1..]);
            Some(&rest[..end])
        } else {
            self.rest = None;
            Some(rest)
        }
    }

    /// Takes the next part, and gives the number that it says.
    pub fn take_number(&mut self) -> Option<u64>
        ensures number { result ≡ number_at 0 self.old }
        ensures later { self.new ≡ later_words self.old }
    {
        number(self.take_part()?)
    }

    /// Whether a part is still to come.
    pub fn has_more(&self) -> bool
        ensures { result ≡ is_some (first_word self.now) }
    {
        self.rest.is_some()
    }
}

/// Where the first part ends: at a separator, or at the end of the line.
pub(crate) fn first_end(line: &[u8], separator: u8) -> usize
    ensures { result ≡ position_or_len (λ byte. byte == separator) line.now }
{
    line.iter()
        .position(|byte| *byte == separator)
        .unwrap_or(line.len())
}

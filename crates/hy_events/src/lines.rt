//! The lines of a file.

ghost use Rattle.std.specs.Prelude.{◌≡◌};
ghost use Rattle.std.specs.Iterator.{YieldsFirstBy, item_count};
ghost use Rattle.hy_events.specs.Lines.{lines, numbered};

use crate::parts::Parts;
use std::marker::Model;

/// A line of a file.
#[derive(Clone, Copy, Debug)]
pub struct ScriptLine<'a> {
    /// Its number, counted from 1.
    pub number: u64,
    /// Its bytes, without the line feed at its end.
    pub bytes: &'a [u8],
}

/// The lines of a file that are still to come, in their order. A line ends at a line feed, which the last one may lack.
#[derive(Drop)]
pub struct Lines<'a> {
    parts: Parts<'a>,
    number: u64,
}

impl<'a> Model for Lines<'a> {
    ghost use Rattle.std.specs.Prelude.{ℕ, ◌+◌, ◌<◌, ◌^◌, List, length};
    ghost use Rattle.hy_events.specs.Lines.{numbered, without_end};

    ghost Value = { List (ℕ × List ℕ) };

    ghost view = { λ lines. numbered lines.number (without_end lines.parts) };

    ghost invariant = { λ lines. lines.number + length lines.parts < 2 ^ 64 };
}

impl<'a> Lines<'a> {
    /// The lines of a file with these bytes.
    pub fn new(bytes: &'a [u8]) -> Lines<'a>
        ensures { result ≡ numbered 1 (lines bytes.now) }
    {
        Lines {
            parts: Parts::new(b'\n', bytes),
            number: 1,
        }
    }
}

impl<'a> Iterator for Lines<'a> {
    type Item = ScriptLine<'a>;

    ghost next_gives = { YieldsFirstBy (λ line. (line.number, line.bytes.now)) (λ lines. lines) };

    ghost remaining = { item_count (λ lines. lines) };

    fn next(&mut self) -> Option<ScriptLine<'a>> {
        let bytes = self.parts.take_part()?;
        if bytes.is_empty() && !self.parts.has_more() {
            return None;
        }
        let number = self.number;
        self.number += 1;
        Some(ScriptLine { number, bytes })
    }
}

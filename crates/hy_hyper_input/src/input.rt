//! An input, from which whole lines are taken as they come.

ghost use Rattle.std.specs.Prelude.{◌≡◌, ◌≤◌, ◌<◌, ◌+◌, ◌-◌, ◌==◌, false, true, if◌then◌else◌, length, take, [], IfOk, OnErr};
ghost use Rattle.std.specs.Io.KnownBytes.{Consumes, IsAtEnd, Keeps};
ghost use Rattle.memchr.specs.Find.{IsFirstByte, is_byte};
ghost use Rattle.hy_hyper_input.specs.Inputs.{FailsToFill, Fills, Takes, between, fresh, is_ended, line_feed, number_behind};

use memchr::memchr;
use std::alloc::{AllocError, Global};
use std::io::{self, Read};
use std::marker::Model;

/// How many bytes a line may have, without the line feed at its end.
pub const MAX_LINE: usize = 1 << 20;

/// What was taken of an input.
#[derive(Clone, Copy, Debug, PartialEq, Eq)]
pub enum Next {
    /// A line, which `line` lends.
    Line,
    /// A line with more bytes than a line may have, which weren't kept.
    TooLong,
    /// Nothing: no line is there to its end.
    Nothing,
}

/// An input, and what has come of it: whole lines are taken one after another, and `fill` waits for more bytes. It takes no more
/// memory than a line may have bytes.
#[derive(Drop)]
pub struct Input<R: Read + Drop> {
    reader: R,
    room: Vec<u8>,
    // where the line that was taken last stands
    line_start: usize,
    line_end: usize,
    // where the bytes stand that weren't taken
    start: usize,
    end: usize,
    is_long: bool,
    number: u64,
}

impl<R: Read + Drop> Model for Input<R> {
    ghost use Rattle.std.specs.Prelude.{◌≡◌, ◌≤◌, length};
    ghost use Rattle.hy_hyper_input.specs.Inputs.{InputState, between, room_bytes};

    ghost Value = { InputState };

    ghost view = { λ input. record {
      number = input.number;
      line = between input.line_start input.line_end input.room.items;
      is_long = input.is_long;
      left = between input.start input.end input.room.items;
      coming = R.remaining input.reader;
    } };

    ghost invariant = { λ input. (length input.room.items ≡ room_bytes) × (input.line_start ≤ input.line_end)
        × (input.line_end ≤ room_bytes) × (input.start ≤ input.end) × (input.end ≤ room_bytes) };
}

/// The place of the first line feed between two places, counted from the first, if one stands there.
fn end_of_line(room: &[u8], start: usize, end: usize) -> Option<usize>
    requires order { start ≤ end }
    requires within { end ≤ length room.now }
    ensures { IsFirstByte (is_byte line_feed) (between start end room.now) result }
{
    memchr(b'\n', &room[start..end])
}

impl<R: Read + Drop> Input<R> {
    /// An input of which nothing has come. E1 where the room for a line finds no memory.
    pub fn new(alloc: Global, reader: R) -> Result<Input<R>, AllocError>
        ensures { IfOk result (λ input. input ≡ fresh (R.remaining reader)) }
    {
        let room = Vec::from_elem(alloc, 0, MAX_LINE + 1)?;
        Ok(Input {
            reader,
            room,
            line_start: 0,
            line_end: 0,
            start: 0,
            end: 0,
            is_long: false,
            number: 0,
        })
    }

    /// The bytes of the line that was taken last.
    pub fn line(&self) -> &[u8]
        ensures { result.now ≡ self.now.line }
    {
        &self.room[self.line_start..self.line_end]
    }

    /// The number of the line that was taken last, counted from 1.
    pub fn number(&self) -> u64
        ensures { result ≡ self.now.number }
    {
        self.number
    }

    /// Takes the next line, where it has come to its end.
    pub fn next(&mut self) -> Next
        ensures { Takes self.old self.new result }
    {
        let Some(place) = end_of_line(&self.room, self.start, self.end) else {
            if self.is_long {
                self.start = self.end;
            }
            return Next::Nothing;
        };
        let from = self.start;
        self.start = from + place + 1;
        self.number = number_behind(self.number);
        if self.is_long {
            self.is_long = false;
            return Next::TooLong;
        }
        self.line_start = from;
        self.line_end = from + place;
        Next::Line
    }

    /// Waits for more bytes, and takes those that are there; false at the end of the input. To be called where no line is there
    /// to its end: the line that was taken last is gone. An error where the input can't be read.
    pub fn fill(&mut self) -> io::Result<bool>
        requires { is_ended self.old.left ≡ false }
        ensures filled { IfOk result (Fills self.old self.new) }
        ensures failed { OnErr result (FailsToFill self.old self.new) }
    {
        self.line_end = self.line_start;
        let is_full = make_room(&mut self.room, &mut self.start, &mut self.end);
        self.is_long = true_or(is_full, self.is_long);
        let count = read_behind(&mut self.reader, &mut self.room, self.end)?;
        self.end += count;
        Ok(count > 0)
    }
}

/// The number behind another one; the greatest has none behind it.
fn number_behind(number: u64) -> u64
    ensures { result ≡ number_behind number }
{
    if number == u64::MAX {
        number
    } else {
        number + 1
    }
}

/// Whether one of two holds.
fn true_or(one: bool, other: bool) -> bool
    ensures { result ≡ (if one then true else other) }
{
    one || other
}

/// Reads into the room behind a place.
fn read_behind<R: Read>(reader: &mut R, room: &mut Vec<u8>, end: usize) -> io::Result<usize>
    requires { end < length room.old.items }
    ensures length { length room.new.items ≡ length room.old.items }
    ensures before { take end room.new.items ≡ take end room.old.items }
    ensures read { IfOk result (λ count. Consumes (R.remaining reader.old) (R.remaining reader.new)
        (between end (end + count) room.new.items)) }
    ensures some { IfOk result (λ count. end + count ≤ length room.new.items) }
    ensures at_end { IfOk result (λ count. count ≡ 0 → IsAtEnd (R.remaining reader.new)) }
    ensures failed { OnErr result (Keeps (R.remaining reader.old) (R.remaining reader.new)) }
{
    reader.read(&mut room[end..])
}

/// Makes room for a byte at least behind those between two places, and tells whether these filled all of it: then they are dropped.
fn make_room(room: &mut Vec<u8>, start: &mut usize, end: &mut usize) -> bool
    requires order { start.old ≤ end.old }
    requires within { end.old ≤ length room.old.items }
    requires some { 1 ≤ length room.old.items }
    ensures length { length room.new.items ≡ length room.old.items }
    ensures order { start.new ≤ end.new }
    ensures room { end.new < length room.old.items }
    ensures full { result ≡ (end.old - start.old == length room.old.items) }
    ensures left { between start.new end.new room.new.items
        ≡ (if result then [] else between start.old end.old room.old.items) }
{
    if *start == *end || *end - *start == room.len() {
        let is_full = *start < *end;
        *start = 0;
        *end = 0;
        return is_full;
    }
    if *end == room.len() {
        room.rotate_left(*start);
        *end -= *start;
        *start = 0;
    }
    false
}

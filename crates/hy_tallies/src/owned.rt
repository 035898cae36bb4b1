//! Values that are owned.

ghost use Rattle.std.specs.Prelude.{◌≡◌, ◌==◌, ◌<◌, ◌∷◌, ◌++◌, ◌+ℤ◌, [], IfOk, IfSome, OnOk, false, length, pos, replicate, slice_index_or, slice_set, true};
ghost use Rattle.hy_query.specs.Meaning.{number_in, wrapped};
ghost use Rattle.hy_rows.specs.Rows.{value_at};
ghost use Rattle.hy_rows.specs.declared.value.Value.TheVariants.{Text, Whole};

use crate::mixed::MixedValues;
use hy_query::Value;
use std::alloc::{AllocError, Global};
use std::marker::Model;

/// Values of some groups. As long as they are numbers of 64 bits each takes 8 bytes; the first one that isn't, and all behind
/// it, stand with the others.
#[derive(Debug, Drop)]
pub struct OwnedValues {
    numbers: Vec<i64>,
    others: MixedValues,
}

// Clauses see the values.
impl Model for OwnedValues {
    ghost use Rattle.std.specs.Prelude.{◌++◌, map};
    ghost use Rattle.hy_query.specs.Rows.{Row};
    ghost use Rattle.hy_rows.specs.declared.value.Value.TheVariants.{Whole};

    ghost Value = { Row };

    ghost view = { λ owned. map Whole owned.numbers.items ++ owned.others };
}

impl OwnedValues {
    /// No values. Takes no memory.
    pub fn new(alloc: Global) -> OwnedValues
        ensures { result ≡ [] }
    {
        OwnedValues {
            numbers: Vec::new(alloc),
            others: MixedValues::new(alloc),
        }
    }

    /// How many there are.
    pub fn len(&self) -> usize
        ensures { result ≡ length self.now }
    {
        self.numbers.len() + self.others.len()
    }

    /// Whether there is none.
    pub fn is_empty(&self) -> bool
        ensures { result ≡ (length self.now == 0) }
    {
        self.len() == 0
    }

    /// The value at a place. Past the end, 0.
    pub fn value(&self, place: usize) -> Value<'_>
        ensures { result ≡ value_at self.now place }
    {
        match self.numbers.get(place) {
            Some(number) => Value::Whole(i128::from(*number)),
            None => self.others.value(place - self.numbers.len()),
        }
    }

    /// The number at a place, where one stands there.
    pub(crate) fn whole(&self, place: usize) -> Option<i128>
        ensures { IfSome result (λ number. value_at self.now place ≡ Whole number) }
    {
        match self.numbers.get(place) {
            Some(number) => Some(i128::from(*number)),
            None => self.others.whole(place - self.numbers.len()),
        }
    }

    /// Adds a copy of a value behind the others.
    pub fn push(&mut self, value: &Value<'_>) -> Result<(), AllocError>
        ensures { OnOk result (self.new ≡ self.old ++ value.now ∷ []) }
    {
        match value {
            Value::Whole(number) => self.push_number(*number),
            Value::Text(text) => self.others.push_text(text.as_bytes()),
        }
    }

    /// Adds a number behind the other values.
    pub fn push_number(&mut self, number: i128) -> Result<(), AllocError>
        ensures { OnOk result (self.new ≡ self.old ++ Whole number ∷ []) }
    {
        if self.others.is_empty() {
            if let Ok(small) = i64::try_from(number) {
                self.numbers.push(small)?;
                return Ok(());
            }
        }
        self.others.push_number(number)
    }

    /// Puts a copy of a value in the place of another one.
    pub fn set(&mut self, place: usize, value: &Value<'_>) -> Result<(), AllocError>
        ensures { OnOk result (self.new ≡ slice_set self.old place value.now) }
    {
        match value {
            Value::Whole(number) => self.set_number(place, *number),
            Value::Text(text) => self.set_text(place, text.as_bytes()),
        }
    }

    /// Puts a number in the place of a value.
    fn set_number(&mut self, place: usize, number: i128) -> Result<(), AllocError>
        ensures { OnOk result (self.new ≡ slice_set self.old place (Whole number)) }
    {
        let count = self.numbers.len();
        if place >= count {
            self.others.set_number(place - count, number);
            return Ok(());
        }
        if let Ok(small) = i64::try_from(number) {
            self.numbers[place] = small;
            return Ok(());
        }
        self.others.put_in_front(&self.numbers)?;
        self.numbers.clear();
        self.others.set_number(place, number);
        Ok(())
    }

    /// Puts a copy of a text in the place of a value.
    fn set_text(&mut self, place: usize, text: &[u8]) -> Result<(), AllocError>
        ensures { OnOk result (self.new ≡ slice_set self.old place (Text text.now)) }
    {
        let count = self.numbers.len();
        if place >= count {
            return self.others.set_text(place - count, text);
        }
        self.others.put_in_front(&self.numbers)?;
        self.numbers.clear();
        self.others.set_text(place, text)
    }

    /// Adds to the number at a place, where both have 64 bits and their sum has, and says whether it did.
    pub(crate) fn add_small(&mut self, place: usize, number: i128) -> bool
        ensures added { result ≡ true → self.new ≡ slice_set self.old place
            (Whole (wrapped (number_in (value_at self.old place) +ℤ number))) }
        ensures same { result ≡ false → self.new ≡ self.old }
    {
        match small_sum(&self.numbers, place, number) {
            Some(sum) => {
                self.numbers[place] = sum;
                true
            }
            None => false,
        }
    }

    /// Adds to the number at a place, modulo 2^128.
    pub fn add(&mut self, place: usize, number: i128) -> Result<(), AllocError>
        ensures { OnOk result (self.new ≡ slice_set self.old place
            (Whole (wrapped (number_in (value_at self.old place) +ℤ number)))) }
    {
        let so_far = number_of(&self.value(place));
        self.set_number(place, so_far.wrapping_add(number))
    }
}

/// The sum of one of some numbers and another one, where both have 64 bits and their sum has.
fn small_sum(numbers: &[i64], place: usize, number: i128) -> Option<i64>
    ensures within { IfSome result (λ sum. place < length numbers.now) }
    ensures sum { IfSome result (λ sum. sum ≡ slice_index_or numbers.now place (pos 0) +ℤ number) }
{
    let added = i64::try_from(number).ok()?;
    numbers.get(place)?.checked_add(added)
}

/// The number that a value is, 0 for a text.
pub(crate) fn number_of(value: &Value<'_>) -> i128
    ensures { result ≡ number_in value.now }
{
    match value {
        Value::Whole(number) => *number,
        Value::Text(_) => 0,
    }
}

/// So many columns without values.
pub(crate) fn empty_columns(alloc: Global, count: usize) -> Result<Vec<OwnedValues>, AllocError>
    ensures { IfOk result (λ made. made.items ≡ replicate count []) }
{
    let mut made = Vec::new(alloc);
    for _place in 0..count {
        made.push(OwnedValues::new(alloc))?;
    }
    Ok(made)
}

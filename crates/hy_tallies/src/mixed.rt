//! Numbers of up to 128 bits and texts that are owned.

ghost use Rattle.std.specs.Prelude.{◌≡◌, ◌==◌, ◌<◌, ◌^◌, ◌∷◌, ◌++◌, [], IfOk, IfSome, OnOk, length, map, slice_set};
ghost use Rattle.hy_rows.specs.Rows.{value_at};
ghost use Rattle.hy_rows.specs.declared.value.Value.TheVariants.{Text, Whole};
ghost use Rattle.hy_tallies.specs.declared.mixed.Kept.TheVariants as kept;
ghost use Rattle.hy_tallies.specs.inside.Owned.{IsKept, value_with};

use hy_columns::CopiedTexts;
use hy_query::{Letters, Value};
use std::alloc::{AllocError, Global};
use std::marker::Model;

/// A value that is kept.
#[derive(Clone, Copy, Debug)]
pub(crate) enum Kept {
    /// A whole number.
    Whole(i128),
    /// The text at this place among those that were copied.
    Text(usize),
}

/// Values of any kind: numbers as they are, and copies of texts in one buffer.
#[derive(Debug, Drop)]
pub(crate) struct MixedValues {
    values: Vec<Kept>,
    texts: CopiedTexts,
}

// Clauses see the values.
impl Model for MixedValues {
    ghost use Rattle.hy_query.specs.Rows.{Row};
    ghost use Rattle.hy_tallies.specs.inside.Owned.{AreKept, values_with};

    ghost Value = { Row };

    ghost view = { λ owned. values_with owned.texts owned.values.items };

    ghost invariant = { λ owned. AreKept owned.texts owned.values.items };
}

impl MixedValues {
    /// No values. Takes no memory.
    pub fn new(alloc: Global) -> MixedValues
        ensures { result ≡ [] }
    {
        MixedValues {
            values: Vec::new(alloc),
            texts: CopiedTexts::new(alloc),
        }
    }

    /// How many there are.
    pub fn len(&self) -> usize
        ensures len { result ≡ length self.now }
        ensures few { result < 2 ^ 63 }
    {
        self.values.as_slice().len()
    }

    /// Whether there is none.
    pub fn is_empty(&self) -> bool
        ensures { result ≡ (length self.now == 0) }
    {
        self.len() == 0
    }

    /// The value at a place. Past the end, 0.
    pub fn value(&self, place: usize) -> Value<'_>
        ensures { result ≡ value_at self.now place }
    {
        match self.values.get(place) {
            Some(kept) => value_with(&self.texts, *kept),
            None => Value::Whole(0),
        }
    }

    /// The number at a place, where one stands there.
    pub(crate) fn whole(&self, place: usize) -> Option<i128>
        ensures { IfSome result (λ number. value_at self.now place ≡ Whole number) }
    {
        match self.values.get(place) {
            Some(Kept::Whole(number)) => Some(*number),
            Some(Kept::Text(_)) | None => None,
        }
    }

    /// Adds a number behind the other values.
    pub fn push_number(&mut self, number: i128) -> Result<(), AllocError>
        ensures { OnOk result (self.new ≡ self.old ++ Whole number ∷ []) }
    {
        self.values.push(Kept::Whole(number))?;
        Ok(())
    }

    /// Adds a copy of a text behind the other values.
    pub fn push_text(&mut self, text: &[u8]) -> Result<(), AllocError>
        ensures { OnOk result (self.new ≡ self.old ++ Text text.now ∷ []) }
    {
        self.values.reserve(1)?;
        let place = self.texts.len();
        self.texts.push(text)?;
        self.values.push_reserved(Kept::Text(place));
        Ok(())
    }

    /// Puts numbers in front of the values.
    pub fn put_in_front(&mut self, numbers: &[i64]) -> Result<(), AllocError>
        ensures { OnOk result (self.new ≡ map Whole numbers.now ++ self.old) }
    {
        let mut values = kept_numbers(*self.values.allocator(), numbers)?;
        values.extend_from_slice(&self.values)?;
        self.values = values;
        Ok(())
    }

    /// Puts a number in the place of a value.
    pub fn set_number(&mut self, place: usize, number: i128)
        ensures { self.new ≡ slice_set self.old place (Whole number) }
    {
        if place < self.values.as_slice().len() {
            self.values[place] = Kept::Whole(number);
        }
    }

    /// Puts a copy of a text in the place of a value.
    pub fn set_text(&mut self, place: usize, text: &[u8]) -> Result<(), AllocError>
        ensures { OnOk result (self.new ≡ slice_set self.old place (Text text.now)) }
    {
        if place >= self.values.as_slice().len() {
            return Ok(());
        }
        let behind = self.texts.len();
        self.texts.push(text)?;
        self.values[place] = Kept::Text(behind);
        Ok(())
    }
}

/// Numbers as they are kept.
fn kept_numbers(alloc: Global, numbers: &[i64]) -> Result<Vec<Kept>, AllocError>
    ensures { IfOk result (λ made. made.items ≡ map kept.Whole numbers.now) }
{
    numbers
        .iter()
        .map(|number| Kept::Whole(i128::from(*number)))
        .collect(alloc)
}

/// The value that is kept, beside the texts that were copied.
fn value_with(texts: &CopiedTexts, kept: Kept) -> Value<'_>
    requires { IsKept texts.now kept }
    ensures { result ≡ value_with texts.now kept }
{
    match kept {
        Kept::Whole(number) => Value::Whole(number),
        Kept::Text(place) => Value::Text(Letters::new(texts.text(place))),
    }
}

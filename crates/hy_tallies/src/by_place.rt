//! Values by their places, of columns of lines.

ghost use Rattle.std.specs.Prelude.{◌≡◌, map, pos};
ghost use Rattle.hy_rows.specs.Rows.{value_at};
ghost use Rattle.hy_rows.specs.declared.value.Value.TheVariants.{Whole};

use crate::owned::OwnedValues;
use hy_columns::ByPlace;
use hy_query::Value;

/// Values that are kept.
#[derive(Clone, Copy)]
pub(crate) struct Owned<'s>(pub &'s OwnedValues);

impl<'s> ByPlace for Owned<'s> {
    ghost values = { λ values. values.0.now };

    fn value(&self, place: usize) -> Value<'_> {
        self.0.value(place)
    }
}

/// 1 for each of so many lines.
#[derive(Clone, Copy)]
pub(crate) struct Ones(pub usize);

impl ByPlace for Ones {
    ghost use Rattle.std.specs.Prelude.{replicate};

    ghost values = { λ ones. replicate ones.0 (Whole (pos 1)) };

    fn value(&self, place: usize) -> Value<'_> {
        if place < self.0 {
            Value::Whole(1)
        } else {
            Value::Whole(0)
        }
    }
}

/// The values at the places of some rows.
#[derive(Clone, Copy)]
pub(crate) struct Picked<'s, V> {
    /// The values of all rows.
    pub values: V,
    /// The places of the rows.
    pub places: &'s [usize],
}

impl<'s, V: ByPlace> ByPlace for Picked<'s, V> {
    ghost values = { λ picked. map (λ place. value_at (V.values picked.values) place) picked.places.now };

    fn value(&self, place: usize) -> Value<'_> {
        match self.places.get(place) {
            Some(row) => self.values.value(*row),
            None => Value::Whole(0),
        }
    }
}

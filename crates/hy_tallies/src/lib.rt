//! Tallies: what is answered of lines in groups, gathered while the lines come.
#![tactic(auto)]

mod aggregate;
mod by_place;
mod groups;
mod line;
mod mixed;
mod noting;
mod numbering;
mod owned;
mod repeats;
mod tallies;
mod values;
mod weights;

pub use aggregate::Aggregate;
pub use line::LineColumn;
pub use owned::OwnedValues;
pub use tallies::Tallies;

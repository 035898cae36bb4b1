//! Which values belong to one kit.
#![tactic(auto)]

mod world;

pub use world::World;

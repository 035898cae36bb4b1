//! Places at which a worker can be held.

use std::sync::Wait;

/// What a worker calls on its way. A test holds it there; a program lets it pass.
pub trait Gate {
    /// Before the slice with a number, from 1, of a job of a warehouse: under the partition's lock, and without the
    /// journal's.
    fn before_step<R: Wait>(&self, rt: &R, warehouse: u8, slice: u64);

    /// Once an answer of a warehouse stands in its queue: without a lock.
    fn answered<R: Wait>(&self, rt: &R, warehouse: u8);
}

/// The gate that is always open.
#[derive(Clone, Copy, Debug, Drop)]
pub struct Open;

impl Gate for Open {
    fn before_step<R: Wait>(&self, _rt: &R, _warehouse: u8, _slice: u64) {}

    fn answered<R: Wait>(&self, _rt: &R, _warehouse: u8) {}
}

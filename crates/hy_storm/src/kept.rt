//! A gate behind a pointer.

use hy_engine::Gate;
use std::alloc::{AllocError, Global};
use std::sync::{Arc, Wait};

/// A gate behind a pointer: an engine over it has the same size whatever the gate is.
#[derive(Drop)]
pub struct Kept<G> {
    gate: Arc<G>,
}

impl<G: Gate + Drop> Kept<G> {
    /// This gate. E1.
    pub fn new(alloc: Global, gate: G) -> Result<Kept<G>, AllocError> {
        Ok(Kept {
            gate: Arc::new(alloc, gate)?,
        })
    }
}

impl<G: Gate> Gate for Kept<G> {
    fn before_step<R: Wait>(&self, rt: &R, warehouse: u8, slice: u64) {
        self.gate.before_step(rt, warehouse, slice);
    }

    fn answered<R: Wait>(&self, rt: &R, warehouse: u8) {
        self.gate.answered(rt, warehouse);
    }
}

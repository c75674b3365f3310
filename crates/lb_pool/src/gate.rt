//! Gates that a worker passes before each batch.

/// A gate. A worker calls it after it has drawn a batch and before it runs it. It has to return.
pub trait Gate {
    fn enter(&self, batch: u32);
}

/// A gate that does nothing.
pub struct NoGate;

impl Gate for NoGate {
    fn enter(&self, _batch: u32) {}
}

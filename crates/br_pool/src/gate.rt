/// An observer of the reading of pieces. Each thread calls it for itself.
pub trait Gate {
    /// Is called before the piece with this number is read.
    fn enter(&self, number: u32);

    /// Is called after the piece with this number was read or refused.
    fn leave(&self, number: u32);
}

/// A gate that lets everything through.
#[derive(Clone, Copy)]
pub struct OpenGate;

impl Gate for OpenGate {
    fn enter(&self, _number: u32) {}

    fn leave(&self, _number: u32) {}
}

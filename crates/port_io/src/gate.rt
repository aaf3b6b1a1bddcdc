/// What each statement of a port passes once on its way, with the port and its number. The program
/// has nothing in the way; a test may keep a statement waiting here. A gate is lent and returns
/// nothing, so it changes nothing that a statement works on. `pass` may wait for another thread
/// only where the type that implements it holds a handle with the bound `Wait`.
pub trait Gate {
    /// Passes the gate inside the statement of that number, counted from 1, at that port.
    fn pass(&self, port: u8, step: u64);
}

/// The gate that is always open. It does nothing, and threads may share it.
#[derive(Clone, Copy, Debug, PartialEq, Eq)]
pub struct OpenGate;

impl Gate for OpenGate {
    fn pass(&self, _port: u8, _step: u64) {}
}

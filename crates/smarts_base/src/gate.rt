/// Someone who is told of each point that a worker goes to, before it is answered. Whoever waits in a
/// call holds up that worker alone, so a gate can show that workers are under way at once.
pub trait Gate {
    /// The number of the worker, and that of the point among all points that are visited.
    fn pass(&self, worker: u32, point: u32);
}

/// The gate that does nothing.
#[derive(Clone, Copy, Debug, PartialEq, Eq)]
pub struct OpenGate;

impl Gate for OpenGate {
    fn pass(&self, _worker: u32, _point: u32) {}
}

use std::sync::Wait;

/// Where a worker stands as it passes a gate.
#[derive(Clone, Copy, Debug, PartialEq, Eq)]
pub enum Point {
    /// A connection came, and nothing was read from it yet.
    Accepted,
    /// The connection has ended.
    Ended,
}

/// A place that workers pass. It may hold a worker up, for a test or a trace.
pub trait Gate {
    /// Lets the worker of this number go on, when it may.
    fn pass<R: Wait>(&self, rt: &R, worker: u32, point: Point);
}

/// The gate that holds nobody up.
#[derive(Clone, Copy, Debug, PartialEq, Eq)]
pub struct FreeGate;

impl Gate for FreeGate {
    fn pass<R: Wait>(&self, _rt: &R, _worker: u32, _point: Point) {}
}

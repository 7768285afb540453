//! Where a thread stands just before a device call.

/// The device call that a thread is about to make: the logger's, the installer's, or the read of the worker of
/// this number.
#[derive(Clone, Copy, Debug, PartialEq, Eq)]
pub enum Point {
    Log,
    LogBarrier,
    Home,
    HomeBarrier,
    Read(usize),
}

/// What a thread passes just before each device call. It may wait there.
pub trait Gate {
    fn pass(&self, point: Point);
}

/// A gate that is open.
#[derive(Clone, Copy, Debug)]
pub struct NoGate;

impl Gate for NoGate {
    fn pass(&self, _point: Point) {}
}

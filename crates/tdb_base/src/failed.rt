// The error of a call of the outside.

/// A call of the outside (a device, an anchor, a source, a sink or an archive) that failed.
/// It tells no more: the object that was called counts its faults.
#[derive(Clone, Copy, Debug, PartialEq, Eq)]
pub struct Failed;

// What a stop may make of a device and an anchor.

/// What becomes of the ranges that were written since the last sync that succeeded. The gap before a write counts as
/// written.
#[derive(Clone, Copy, Debug, PartialEq, Eq)]
pub enum ImageLeft {
    /// They are taken back.
    Old,
    /// They hold what was handed in, also by writes that failed.
    New,
    /// They hold this byte all over.
    Torn(u8),
}

/// Which anchor is left where the last advance failed and no look at the anchor succeeded since. Otherwise both are
/// the anchor that a look would give.
#[derive(Clone, Copy, Debug, PartialEq, Eq)]
pub enum AnchorLeft {
    /// The anchor that a look would give.
    Old,
    /// The anchor that the failed advance was handed.
    New,
}

/// A stop.
#[derive(Clone, Copy, Debug, PartialEq, Eq)]
pub struct Crash {
    pub image: ImageLeft,
    pub anchor: AnchorLeft,
}

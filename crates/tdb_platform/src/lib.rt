//! The outside of the database: a device and an anchor, as everything above sees them.
//! It stands on tdb_base alone. It carries the meaning of a stop: what an interrupted run may
//! leave on the device and in the anchor. Every promise about crashes is stated in its words,
//! so a weaker clause here would weaken each of them without a failing proof above.
#![tactic(auto)]

mod call;
mod crash;
mod device;
mod hostile;
mod image;
mod memory;
mod plan;
mod platform;
mod replay;

pub use crash::{AnchorLeft, Crash, ImageLeft};
pub use hostile::{Answer, HostilePlatform};
pub use memory::MemoryPlatform;
pub use platform::Platform;
pub use tdb_base::{DEVICE_LIMIT, Failed};

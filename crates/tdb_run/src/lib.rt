//! Runs of the database: one call carries out a command over a device and an anchor.
//!
//! It stands on the store of chunks, and on the script of notes over any such store. Its public call `run` carries the promises of the
//! whole program: from which state a run starts, whatever the device shows, what each line is answered, what a stop leaves at each
//! moment, what goes to the device, and why a run ends. A clause that is dropped here is promised by nothing else.
#![tactic(auto)]

mod command;
mod ended;
mod last_line;
mod laws;
mod opening;
mod running;
mod status;

pub use command::{Command, read_command};
pub use ended::Ended;
pub use last_line::put_last_line;
pub use laws::{digests_decide, runs_follow, unaltered_runs_follow};
pub use running::run;
pub use status::{Finding, Refusal, Status, Success};

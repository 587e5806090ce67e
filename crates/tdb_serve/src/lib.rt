//! The loop over the lines of a script, over any machine that answers them.
//!
//! A machine answers one line after another, and says by two relations of its own what an answer means. `serve` takes the
//! lines from a source, has each answered once and puts the replies into a sink. It promises which lines were answered and
//! in which order, what the sink holds, why the script ended, and that no fault of source or sink is hidden. It stands on
//! lines, replies and streams, and knows no store: what a script comes to over one is read off the answers (`ScriptRan`).
//! A clause that were dropped here would be promised by no machine.
#![tactic(auto)]

mod answering;
mod answers;
mod script_end;
mod script_lines;
mod serving;
mod taking;

pub use answers::Answers;
pub use script_end::{ScriptEnd, Stop};
pub use script_lines::{MAX_SCRIPT_LENGTH, MAX_TAKE};
pub use serving::serve;

//! The driver of every command that reads: octets from a source, up to a limit and in turns, into a `Stage`, the texts
//! that it gives to two sinks, and how that ended. It knows no command. What a command writes is said by its `Meaning`,
//! what a source and the sinks went through by their courses, and what each ending shows by `Ends`, for all commands
//! once.
#![tactic(auto)]

mod ending;
mod line;
mod lines;
mod stage;
mod text_taker;
mod writer;

pub use ending::{Ending, Outcome};
pub use line::Line;
pub use lines::{add_slips, note_rest, phase_text};
pub use stage::{Stage, TURN, drive_stage};
pub use text_taker::TextTaker;
pub use writer::Writer;

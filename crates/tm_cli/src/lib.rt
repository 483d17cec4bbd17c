//! The program: the commands that send and receive frames, the lines that they write, and the top call `run`, which
//! carries every promise from the octets read to the octets written and the exit status. Commands of the layers below
//! come from tm_path_commands and tm_records. What each command writes is its meaning (`specs/Commands.antt`); all that
//! read are driven by tm_driver.
#![tactic(auto)]

mod counts;
mod decode_command;
mod dispatch;
mod encode_command;
mod generated;
mod link;
mod receiving;
mod refusal;
mod report_lines;
mod reporting;
mod soak_command;
mod soak_refusal;
mod top;

pub use counts::Counts;
pub use generated::generate_unit;
pub use report_lines::{frame_line, frames_line};
pub use reporting::{Reporting, end_report};
pub use tm_path_commands::{Tally, block_line, blocks_line};
pub use tm_words::{HexText, Job, JobKind, WordsError, read_words};
pub use top::run;

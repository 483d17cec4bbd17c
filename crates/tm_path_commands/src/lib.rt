//! The commands that show what the soft decoder found: `trace` writes a line for each window, `bits` the bits that they
//! keep, `certify` a certificate of their paths, and `check` reads one and checks each window. None of them needs the
//! outer code. What each of them writes is its meaning (`specs/Trace.antt`, `Bits.antt`, `Certify.antt`, `Check.antt`).
#![tactic(auto)]

mod bits_command;
mod certificate;
mod certify_command;
mod check_command;
mod tally;
mod trace_command;
mod window_lines;

pub use bits_command::bits;
pub use certificate::certificate_law;
pub use certify_command::certify;
pub use check_command::check;
pub use tally::Tally;
pub use trace_command::trace;
pub use window_lines::{block_line, blocks_line};

//! The checker of path certificates: columns of sums that no code path undercuts show that no candidate costs less than
//! the path that a decoder found (CCSDS 131.0-B, Convolutional Coding). It knows nothing of the decoder.
//! It stands on the definitions of paths and costs of tm_conv.
#![tactic(auto)]

mod checking;
mod columns;
mod laws;
mod steps;
mod verdicts;

pub use checking::Check;
pub use columns::is_start;
pub use laws::verdict_law;
pub use verdicts::{Starts, Verdict};

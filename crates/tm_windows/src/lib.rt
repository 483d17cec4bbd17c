//! The symbol phase: how many soft octets stand before the first step's symbols, chosen so that the best path costs
//! least (CCSDS 131.0-B, Convolutional Coding), and how many are dropped before a window where it slips.
//!
//! The queue of windows of the soft decoder (CCSDS 131.0-B, Convolutional Coding): octets are put in, runs of windows
//! are decoded by a crew, the caller alone or threads beside it, and blocks are read. Each worker decodes from a guess
//! of the register that a window starts from, and what is ready is settled in order, so that it is the same for any
//! number of workers and any guess. Over it stands the decoder that hands blocks over.
#![tactic(auto)]

mod candidate;
mod choosing;
mod crew;
mod decoder;
mod guessing;
mod laws;
mod looks;
mod phase_laws;
mod queue;
mod run;
mod sharing;
mod slipping;
mod window_run;

pub use candidate::Candidate;
pub use choosing::{Chosen, choose, octets_needed};
pub use crew::{Alone, Crew, Threaded};
pub use decoder::{AllError, Decoder, FeedError, decode_all};
pub use laws::{
    closed_prefix_law, due_windows_law, one_windows_law, plain_windows_law, undisturbed_law,
};
pub use looks::{Looks, first_drop_shared};
pub use phase_laws::{phase_law, slip_law, whole_window_law};
pub use queue::{QueueSettings, STREAM_BOUND, WindowQueue};
pub use sharing::decode_shared;
pub use slipping::{octets_seen, slip, steps_seen};
pub use window_run::WindowRun;

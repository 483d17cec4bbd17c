//! The soft decoder of the convolutional code (CCSDS 131.0-B, Convolutional Coding): the Viterbi algorithm in windows,
//! whose path none betters, one window at a time, with its columns step by step and by lanes, and its sums alone. It
//! stands on the code of tm_conv, and knows nothing of streams, markers or frames.
#![tactic(auto)]

mod block;
mod branch_metrics;
mod clean_laws;
mod forward_pass;
mod lanes;
mod laws;
mod narrow_metrics;
mod narrow_steps;
mod narrow_sums;
mod path_cost;
mod path_ends;
mod plain;
mod step_pairs;
mod sums;
mod traceback;
mod window_decoder;
mod window_pass;

pub use block::{Block, BlockTaker, Start, first_start};
pub use clean_laws::{clean_blocks_law, closed_windows_law, complemented_blocks_law};
pub use lanes::lane_column;
pub use laws::{due_law, one_list_law};
pub use path_cost::{least_cost, least_cost_below, least_cost_from, least_distances};
pub use plain::plain_column;
pub use sums::Sums;
pub use window_decoder::{BestPath, WindowDecoder, WindowShape};

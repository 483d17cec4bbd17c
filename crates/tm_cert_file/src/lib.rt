//! Certificates of the soft decoder as a file (CCSDS 131.0-B, Convolutional Coding): a window for each block, with the
//! path, its metric, the soft octets and the columns of least costs. The writer stands on the sums of tm_viterbi; the
//! reader on the checker of tm_path_cert alone, and knows nothing of the decoder.
#![tactic(auto)]

mod judging;
mod laws;
mod numbers;
mod reader;
mod seen;
mod writing;

pub use laws::{certified_law, passes_law, read_law, shown_law};
pub use reader::Reader;
pub use seen::{Next, Reason, Seen};
pub use writing::write_window;

//! Words of the Reed-Solomon code decoded in batches by several workers, with the answer of one. Each word has a
//! number, and tickets give each number once: a worker draws the next number, decodes the word and draws again, so a
//! slow word holds nobody up. Its result stands in a slot of its own until all workers are done.
#![tactic(auto)]

mod batch;
mod draws;
mod outcome;
mod results;
mod rule;
mod schedule;
mod seats;
mod split;
mod tickets;
mod words;

pub use batch::{decode_all, decode_batch, decode_erased_batch, decode_in_order};
pub use outcome::one_outcome_law;
pub use schedule::schedule_law;
pub use seats::Seat;
pub use split::split_evenly;
pub use tickets::Tickets;
pub use tm_base::{Gate, OpenGate};
pub use words::{ErasedWord, Word};

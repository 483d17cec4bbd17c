//! Codeblocks, as they are sent and as they are received: the channel access data unit (CADU) of a transfer frame,
//! which is its randomized codeblock after the attached sync marker, and the codeblock that received octets are (CCSDS
//! 131.0-B, Reed-Solomon Coding, Pseudo-Randomizer and Frame Synchronization).
//!
//! Below these stand the columns of a codeblock, each a Reed-Solomon codeword, and the pseudo-randomizer.
#![tactic(auto)]

mod cadus;
mod columns;
mod packing;
mod randomizer;
mod received;

pub use cadus::{LONGEST_CADU, basis_of, cadu, codeblock_size, column_count, has_code, params_of};
pub use columns::{put_word, take_word};
pub use packing::{pack, run_length};
pub use randomizer::{mask, masked_twice};
pub use received::{columns_of, finds_polarity, read_codeblock};

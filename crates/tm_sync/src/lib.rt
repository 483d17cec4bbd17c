//! The search for attached sync markers in a stream of bits (CCSDS 131.0-B, Frame Synchronization): which markers stand
//! there with a whole codeblock after them. A marker may have some wrong bits, may be missing right after a
//! codeblock, and may be inverted. Where none ends right before it, further markers may be asked for before it is
//! believed. The search keeps the last 32 bits, and in a room that it is handed as many more as these markers span. It
//! stands on the marker of tm_base.
#![tactic(auto)]

mod finder;
mod found;
mod laws;
mod recent_bits;
mod search;

pub use finder::Finder;
pub use found::{Awaited, Before, Columns, Found, NO_PLACE, Paused};
pub use laws::{
    clean_law, difference_law, few_places_law, found_law, longer_law, marked_inside_law,
    marked_law, no_verify_law, one_polarity_law, polarity_law, rescan_law,
};
pub use recent_bits::RecentBits;
pub use search::Search;

//! The convolutional code of rate 1/2 and its punctured rates (CCSDS 131.0-B, Convolutional Coding): the encoder, and
//! in specs/ the code's paths, their costs, the best path and the columns of least costs, on which decoder and checker
//! stand. It stands on the bits of tm_base.
#![tactic(auto)]

mod counts;
mod encoder;
mod laws;
mod octets;
mod plain;
mod rates;

pub use counts::{SymbolCounts, symbol_counts};
pub use encoder::{Encoder, Symbols};
pub use laws::{best_path_law, clean_symbols_law, columns_law, complement_law, six_pairs_law};
pub use plain::plain_encode;
pub use rates::{Rate, kept, period, step_len, steps_len, symbols_of};

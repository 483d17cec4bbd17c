//! The Reed-Solomon codes over the field of 256 elements (CCSDS 131.0-B, Reed-Solomon Coding): their
//! parameters, what a codeword is, how far two words are apart, the values of a polynomial at the places
//! of a word, and the laws on which the encoder and the decoder rest.
#![tactic(auto)]

mod lanes;
mod laws;
mod params;
mod places;
mod word_values;

pub use laws::{
    distance_law, nearest_erased_law, nearest_law, pattern_law, systematic_codeword_law,
};
pub use params::{BadParams, Params};
pub use places::{plain_values_at_places, values_at_places};
pub use word_values::{count_erased, distance, is_codeword, short_syndromes, syndromes};

//! The Reed-Solomon encoder and decoder (CCSDS 131.0-B, Reed-Solomon Coding), for both codes.
//!
//! The check symbols of information symbols: a shift register divides by the generator polynomial; each step
//! adds a row of a constant table, the multiple of the generator polynomial by the symbol fed back.
//!
//! The decoder: a word within the repair bound of a codeword becomes that codeword, and every other word is
//! reported as beyond the bound. A word is first divided by the generator polynomial: nothing is left of a
//! codeword. Else the locator of the error pattern names the wrong symbols, and the locator divided by a
//! place's factor their values.
//!
//! The locator is found from the syndromes: the polynomial whose factors name the places of the wrong
//! symbols. A linear recurrence takes in one syndrome after another, and ends as soon as no error pattern is
//! left.
#![tactic(auto)]

mod answers;
mod check_symbols;
mod counter;
mod division;
mod erased_word;
mod errata;
mod error_values;
mod factors;
mod locator;
mod plain_register;
mod recurrence;
mod roots;
mod rs16;
mod rs8;
mod uncounted;
mod word;

pub use answers::{Answer, ErasedAnswer};
pub use check_symbols::checks;
pub use counter::Steps;
pub use erased_word::{decode_erased, plain_decode_erased};
pub use errata::{locate_erased, solve_erased};
pub use factors::times_factor;
pub use locator::{Locator, locate, solve};
pub use plain_register::plain_checks;
pub use uncounted::{decode_erased_uncounted, decode_uncounted};
pub use word::{decode_word, plain_decode_word};
